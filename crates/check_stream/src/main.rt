// Judges the JSON text on standard input as it arrives. As soon as the text is too long or no continuation meets the JSON rules it prints `lost`
// and at which byte, counted from 1; in the end `good`, or `refused` and document 01's number. Where the input can't be read to its end or an
// answer can't be written, it says so on standard error.
#![tactic(auto)]

use json_automaton::{Control, State};
use json_judge::judge;
use json_stream::{feed, finish, fresh};
use limits::Limits;
use standard_streams::{refuse, write_line};
use std::io::Read;

// One byte more than the longest text, to tell a longer one.
const ROOM: usize = Limits::METADATA + 1;

fn main(rt: HostRuntime) {
    let mut room = [0u8; ROOM];
    if !run(rt, &mut room) {
        let _ = rt
            .stderr()
            .write_all(b"check_stream: the answer could not be written\n");
    }
}

// Takes the text into the room, what each read gives as a chunk, and answers it. A text that fills the room is too long, whatever follows.
// False if an answer could not be written.
fn run(rt: HostRuntime, room: &mut [u8]) -> bool {
    let mut st = fresh();
    let mut n = 0usize;
    while n < room.len() {
        let Ok(more) = rt.stdin().read(&mut room[n..]) else {
            return rt
                .stderr()
                .write_all(b"check_stream: the input could not be read to its end\n")
                .is_ok();
        };
        if more == 0 {
            return answer(rt, st, &room[..n]);
        }
        let end = n + more;
        let f = feed(st, &room[n..end]);
        if f.lost == 1 && !say_lost(rt, st, &room[n..end]) {
            return false;
        }
        st = f.state;
        n = end;
    }
    answer(rt, st, room)
}

// Says that a chunk leaves the text lost, unless it was lost before the chunk.
fn say_lost(rt: HostRuntime, before: State, chunk: &[u8]) -> bool {
    if before.place == Control::LOST {
        return true;
    }
    write_line(&rt, b"lost ", lost_at(before, chunk) as u64)
}

// The byte at which a chunk leaves the text lost: the chunk is fed again, a byte at a time.
fn lost_at(before: State, chunk: &[u8]) -> usize {
    let mut st = before;
    for byte in chunk.chunks(1) {
        let f = feed(st, byte);
        st = f.state;
        if f.lost == 1 {
            break;
        }
    }
    st.count
}

// The answer after the last chunk: the stream's, and for a text that passed the judge's, which knows the names too.
fn answer(rt: HostRuntime, st: State, text: &[u8]) -> bool {
    let n = finish(st);
    if n == 0 {
        return answer_names(rt, text);
    }
    refuse(&rt, n)
}

fn answer_names(rt: HostRuntime, text: &[u8]) -> bool {
    match judge(text) {
        Ok(()) => rt.write_all(b"good\n").is_ok(),
        Err(e) => refuse(&rt, e.refusal()),
    }
}
