// What the programs share: reading an input as far as it goes, whether it was read to its end, and answers written to a stream.
#![tactic(auto)]

ghost use Rattle.std.specs.Prelude.{◌≤◌, length, take};
ghost use Rattle.std.specs.Io.KnownBytes.{Consumes};

use std::io::Read;

// Reads until the room is full, the input ends or a read fails. Answers how many bytes it took, which are at the front of the room.
pub fn read_full<R: Read>(from: &mut R, room: &mut [u8]) -> usize
    ensures bound { result ≤ length room.new }
    ensures bytes { Consumes (R.remaining from.old) (R.remaining from.new) (take result room.new) }
{
    let mut n = 0usize;
    while n < room.len() {
        let Ok(more) = from.read(&mut room[n..]) else {
            return n;
        };
        if more == 0 {
            return n;
        }
        n += more;
    }
    n
}

// The input does not end here: another read gives a byte or fails.
pub fn is_unread<R: Read>(from: &mut R) -> bool {
    let mut one = [0u8; 1];
    let Ok(n) = from.read(&mut one) else {
        return true;
    };
    n != 0
}

// Writes the first n bytes; whether all were written.
pub fn write_first<P: Print>(to: &P, bytes: &[u8], n: usize) -> bool {
    n <= bytes.len() && to.write_all(&bytes[..n]).is_ok()
}

// Writes a line of a word and a number, likewise.
pub fn write_line<P: Print>(to: &P, word: &[u8], n: u64) -> bool {
    to.write_all(word).is_ok() && to.println(n).is_ok()
}

// Writes the line of a refusal, likewise.
pub fn refuse<P: Print>(to: &P, n: u64) -> bool {
    write_line(to, b"refused ", n)
}
