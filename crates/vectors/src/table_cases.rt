// Cases with a table: the numbers of a head, the lent capture rows and annotation rows, each after their count, and what is
// asked or the metadata.
use crate::listing_cases::run_listing;
use crate::numbers::{at, read_numbers};
use crate::operations::run_operation;
use crate::parts::{first, past};
use crate::steps_cases::run_steps;
use crate::storing_cases::run_storing;
use crate::writing_cases::run_writing;
use std::io::Stdout;
use table::{Place, Summary};

// The numbers of the longest case: 13, two counts and two times 4,096.
pub(crate) const NUMBERS: usize = 8207;

pub(crate) fn run_table(to: Stdout, letter: u8, payload: &[u8]) -> bool {
    let mut room = [0u64; NUMBERS];
    let n = read_numbers(payload, &mut room);
    run_numbers(to, letter, payload, first(&room, n as u64))
}

// How many numbers the head has: the operation, the summary's twelve, a and b; or the summary's alone; or one before them.
fn head_of(letter: u8) -> u64 {
    match letter {
        b't' => 15,
        b'z' => 12,
        _ => 13,
    }
}

fn run_numbers(to: Stdout, letter: u8, payload: &[u8], v: &[u64]) -> bool {
    let h = head_of(letter);
    let head = first(v, h);
    let w = past(v, h);
    let x = past_counted(w);
    run_rows(
        to,
        letter,
        payload,
        head,
        counted(w),
        counted(x),
        past_counted(x),
    )
}

// The numbers after their count.
fn counted(v: &[u64]) -> &[u64] {
    first(past(v, 1), at(v, 0))
}

// What follows them.
fn past_counted(v: &[u64]) -> &[u64] {
    past(past(v, 1), at(v, 0))
}

fn run_rows(
    to: Stdout,
    letter: u8,
    payload: &[u8],
    head: &[u64],
    caps: &[u64],
    notes: &[u64],
    asked: &[u64],
) -> bool {
    match letter {
        b't' => run_operation(to, head, caps, notes, asked),
        b'z' => run_steps(to, head, caps, notes, asked),
        b'w' => run_writing(to, payload, head, caps, notes),
        b'b' => run_storing(to, head, caps, notes),
        _ => run_listing(to, letter, payload, head, caps, notes),
    }
}

// The summary of twelve numbers.
pub(crate) fn summary(v: &[u64]) -> Summary {
    Summary {
        refusal: at(v, 0),
        datatype: at(v, 1),
        channels: at(v, 2),
        width: at(v, 3),
        offset: at(v, 4),
        trailing: at(v, 5),
        samples: at(v, 6),
        size: at(v, 7),
        captures: at(v, 8),
        annotations: at(v, 9),
        rate: Place {
            at: at(v, 10),
            len: at(v, 11),
        },
    }
}

// The twelve numbers of a summary.
pub(crate) fn summary_numbers(t: Summary) -> [u64; 12] {
    [
        t.refusal,
        t.datatype,
        t.channels,
        t.width,
        t.offset,
        t.trailing,
        t.samples,
        t.size,
        t.captures,
        t.annotations,
        t.rate.at,
        t.rate.len,
    ]
}
