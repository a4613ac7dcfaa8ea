// Answers about tables kept in files.
use crate::listing_cases::BYTES;
use crate::memory::fill;
use crate::numbers::{at, past_numbers, read_numbers};
use crate::parts::{front, past};
use crate::print;
use crate::print::{end, line, word};
use crate::reading_cases::NUMBERS;
use crate::sum::{EMPTY, add_numbers, sum_bytes};
use crate::table_cases::summary;
use std::io::Stdout;
use table::Summary;
use table_stored::{load, store};

// The bytes of the longest file that is loaded: 101, and both kinds of rows.
const FILE: usize = 101 + 2 * 8 * NUMBERS;

// The head is how many bytes are lent and the summary's twelve.
pub(crate) fn run_storing(to: Stdout, head: &[u64], caps: &[u64], notes: &[u64]) -> bool {
    let t = summary(past(head, 1));
    let mut room = [0u8; BYTES];
    store_to(to, t, caps, notes, front(&mut room, at(head, 0)))
}

// `b`: the refusal, how many bytes were written, and the checksum of the lent output.
fn store_to(to: Stdout, t: Summary, caps: &[u64], notes: &[u64], out: &mut [u8]) -> bool {
    fill(out);
    let r = store(t, caps, notes, out);
    line(to, b"b", &[r.refusal, r.count, sum_bytes(out)])
}

// The numbers are how many are lent for captures and for annotations; the file follows.
pub(crate) fn run_loading(to: Stdout, payload: &[u8]) -> bool {
    let mut head = [0u64; 2];
    read_numbers(payload, &mut head);
    let mut caproom = [0u64; NUMBERS];
    let mut noteroom = [0u64; NUMBERS];
    load_to(
        to,
        past_numbers(payload, 2),
        front(&mut caproom, head[0]),
        front(&mut noteroom, head[1]),
    )
}

// `f`: the summary and the checksums of the lent memory.
fn load_to(to: Stdout, file: &[u8], caps: &mut [u64], notes: &mut [u64]) -> bool {
    fill(caps);
    fill(notes);
    let t = load(file, caps, notes);
    if !is_stored(t, caps, notes, file) {
        return line(to, b"f and b differ", &[file.len() as u64, t.refusal]);
    }
    word(to, b"f");
    print::summary(to, t);
    end(to, &[add_numbers(EMPTY, caps), add_numbers(EMPTY, notes)])
}

// A table that was loaded is stored as the file's bytes.
fn is_stored(t: Summary, caps: &[u64], notes: &[u64], file: &[u8]) -> bool {
    if t.refusal != 0 {
        return true;
    }
    let mut room = [0u8; FILE];
    is_same_file(t, caps, notes, file, front(&mut room, file.len() as u64))
}

// It is stored in a room of the file's length as the file.
fn is_same_file(t: Summary, caps: &[u64], notes: &[u64], file: &[u8], room: &mut [u8]) -> bool {
    let r = store(t, caps, notes, room);
    r.count == file.len() as u64 && *room == *file
}
