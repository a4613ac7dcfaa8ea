// Answers about labels, the listing and the program's first line.
use crate::memory::fill;
use crate::numbers::{at, past_numbers};
use crate::parts::{front, past};
use crate::print::line;
use crate::sum::sum_bytes;
use crate::table_cases::summary;
use first_line::first_line;
use listing::listing;
use listing_labels::label;
use std::io::Stdout;
use table::Summary;

// The most bytes of lent output.
pub(crate) const BYTES: usize = 65536;

// The head is one number and the summary's twelve, and the metadata follows the rows.
pub(crate) fn run_listing(
    to: Stdout,
    letter: u8,
    payload: &[u8],
    head: &[u64],
    caps: &[u64],
    notes: &[u64],
) -> bool {
    let t = summary(past(head, 1));
    let n = at(head, 0);
    let s = past_numbers(payload, count_numbers(head, caps, notes));
    if letter == b'l' {
        return run_label(to, t, caps, notes, s, n);
    }
    let mut room = [0u8; BYTES];
    listing_to(to, t, caps, notes, s, front(&mut room, n))
}

// How many numbers there are in a head, in both kinds of rows and in their counts.
pub(crate) fn count_numbers(head: &[u64], caps: &[u64], notes: &[u64]) -> usize {
    let rows = caps.len().wrapping_add(notes.len());
    head.len().wrapping_add(rows).wrapping_add(2)
}

// `l`: the refusal, whether annotation n has a label, and its part.
fn run_label(to: Stdout, t: Summary, caps: &[u64], notes: &[u64], s: &[u8], n: u64) -> bool {
    let mut refusal = 0;
    let mut present = 0;
    let part = label(t, caps, notes, s, n, &mut refusal, &mut present);
    print_label(to, refusal, present, part)
}

fn print_label(to: Stdout, refusal: u64, present: u64, part: &[u8]) -> bool {
    let length = part.len() as u64;
    line(to, b"l", &[refusal, present, length, sum_bytes(part)])
}

// `p`: the refusal, how many bytes were written, and the checksum of the lent output.
fn listing_to(
    to: Stdout,
    t: Summary,
    caps: &[u64],
    notes: &[u64],
    s: &[u8],
    out: &mut [u8],
) -> bool {
    fill(out);
    let r = listing(t, caps, notes, s, out);
    line(to, b"p", &[r.refusal, r.count, sum_bytes(out)])
}

// `q`: whether the first line has the form, the dataset's length and the place past the line feed.
pub(crate) fn answer_first_line(to: Stdout, input: &[u8]) -> bool {
    match first_line(input) {
        Some((d, at)) => line(to, b"q 1", &[d, at as u64]),
        None => line(to, b"q 0", &[]),
    }
}
