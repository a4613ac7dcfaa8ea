// Answers cases. Each case on standard input is a line of a letter, a space and the payload's length, and then the payload,
// as second/README.md says; its answer is one line. A broken frame or an unknown letter ends the run with the line `stopped`.
#![tactic(auto)]

mod body_cases;
mod field_cases;
mod frames;
mod json_cases;
mod listing_cases;
mod memory;
mod numbers;
mod operations;
mod parts;
mod print;
mod reading_cases;
mod steps_cases;
mod storing_cases;
mod stream_cases;
mod sum;
mod table_cases;
mod writing_cases;

use crate::body_cases::compare_parts;
use crate::field_cases::{
    answer_datatype, answer_datetime, answer_extension, answer_form, answer_name, answer_types,
    answer_uint, answer_version,
};
use crate::frames::{Broken, read_header};
use crate::listing_cases::answer_first_line;
use crate::print::stop;
use crate::reading_cases::run_reading;
use crate::storing_cases::run_loading;
use crate::stream_cases::{run_chunks, run_states};
use crate::table_cases::{NUMBERS, run_table};
use limits::Limits;
use standard_streams::read_full;
use std::io::Stdout;

// The bytes of the longest payload: the numbers of a table's case and a metadata text one byte too long.
const ROOM: usize = 8 * NUMBERS + Limits::METADATA + 1;

fn main(rt: HostRuntime) {
    let mut room = [0u8; ROOM];
    run_cases(rt, &mut room);
}

// Runs cases until one says to stop, or for longer than any input lasts.
fn run_cases(rt: HostRuntime, room: &mut [u8]) {
    for _ in 0..u64::MAX {
        if !run_case(rt, room) {
            return;
        }
    }
}

// Runs one case, and answers whether to go on.
fn run_case(rt: HostRuntime, room: &mut [u8]) -> bool {
    match read_header(rt.stdin()) {
        Ok(Some((letter, n))) => run_in(rt, letter, room, n),
        Ok(None) => false,
        Err(Broken) => stop(rt.stdout()),
    }
}

// The case of a payload of n bytes, where there is room for it.
fn run_in(rt: HostRuntime, letter: u8, room: &mut [u8], n: usize) -> bool {
    if room.len() < n {
        return stop(rt.stdout());
    }
    run_on(rt, letter, &mut room[..n])
}

// Fills the payload from the input, where that has as many bytes.
fn run_on(rt: HostRuntime, letter: u8, payload: &mut [u8]) -> bool {
    let got = read_full(&mut rt.stdin(), payload);
    if got != payload.len() {
        return stop(rt.stdout());
    }
    answer(rt.stdout(), letter, payload)
}

fn answer(to: Stdout, letter: u8, payload: &[u8]) -> bool {
    match letter {
        b'j' => json_cases::answer(to, payload),
        b's' => body_cases::answer(to, payload),
        b'e' => compare_parts(to, payload),
        b't' | b'z' | b'l' | b'p' | b'w' | b'b' => run_table(to, letter, payload),
        b'q' => answer_first_line(to, payload),
        b'r' => run_reading(to, payload),
        b'f' => run_loading(to, payload),
        b'h' => run_chunks(to, payload),
        b'i' => run_states(to, payload),
        _ => answer_field(to, letter, payload),
    }
}

fn answer_field(to: Stdout, letter: u8, payload: &[u8]) -> bool {
    match letter {
        b'u' => answer_uint(to, payload),
        b'd' => answer_datatype(to, payload),
        b'v' => answer_version(to, payload),
        b'm' => answer_datetime(to, payload),
        b'k' => answer_types(to, payload),
        b'x' => answer_extension(to, payload),
        b'n' => answer_form(to, payload),
        b'g' | b'c' | b'a' => answer_name(to, letter, payload),
        _ => stop(to),
    }
}
