// `r`: reading. The numbers are the dataset's length and how many are lent for captures and for annotations; the metadata
// follows.
use crate::memory::fill;
use crate::numbers::{past_numbers, read_numbers};
use crate::parts::front;
use crate::print::{end, line, summary, word};
use crate::sum::{EMPTY, add_numbers};
use crate::table_cases::summary_numbers;
use reader::{judge, read};
use std::io::Stdout;
use table::Summary;

// The most numbers that are lent for rows of one kind.
pub(crate) const NUMBERS: usize = 4096;

pub(crate) fn run_reading(to: Stdout, payload: &[u8]) -> bool {
    let mut head = [0u64; 3];
    read_numbers(payload, &mut head);
    let mut caproom = [0u64; NUMBERS];
    let mut noteroom = [0u64; NUMBERS];
    read_to(
        to,
        past_numbers(payload, 3),
        head[0],
        front(&mut caproom, head[1]),
        front(&mut noteroom, head[2]),
    )
}

// The summary and the checksums of the lent memory.
fn read_to(to: Stdout, s: &[u8], d: u64, caps: &mut [u64], notes: &mut [u64]) -> bool {
    fill(caps);
    fill(notes);
    let t = read(s, d, caps, notes);
    if !is_judged(s, d, t) {
        return line(to, b"r and judge differ", &[d, t.refusal]);
    }
    word(to, b"r");
    summary(to, t);
    end(to, &[add_numbers(EMPTY, caps), add_numbers(EMPTY, notes)])
}

// `judge` gives the same summary, or acceptance where `read` lacks room.
fn is_judged(s: &[u8], d: u64, t: Summary) -> bool {
    let j = judge(s, d);
    if t.refusal == 20 {
        return j.refusal == 0;
    }
    summary_numbers(j) == summary_numbers(t)
}
