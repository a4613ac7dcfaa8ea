// Judges the JSON text on standard input: prints `good`, or `refused` and document 01's number. Where the input can't be read to its
// end or the answer can't be written, it says so on standard error.
#![tactic(auto)]

use json_judge::judge;
use limits::Limits;
use standard_streams::{is_unread, read_full, refuse};

// One byte more than the longest text, to tell a longer one.
const ROOM: usize = Limits::METADATA + 1;

fn main(rt: HostRuntime) {
    let mut room = [0u8; ROOM];
    let n = read_full(&mut rt.stdin(), &mut room);
    if n < ROOM && is_unread(&mut rt.stdin()) {
        let _ = rt
            .stderr()
            .write_all(b"check_json: the input could not be read to its end\n");
        return;
    }
    if !answer(rt, &room[..n]) {
        let _ = rt
            .stderr()
            .write_all(b"check_json: the answer could not be written\n");
    }
}

// Answers a text; whether the answer was written.
fn answer(rt: HostRuntime, text: &[u8]) -> bool {
    if text.is_empty() || Limits::METADATA < text.len() {
        return refuse(&rt, 1);
    }
    match judge(text) {
        Ok(()) => rt.write_all(b"good\n").is_ok(),
        Err(e) => refuse(&rt, e.refusal()),
    }
}
