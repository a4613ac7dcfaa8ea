// Answers about the metadata written from a table.
use crate::listing_cases::{BYTES, count_numbers};
use crate::memory::fill;
use crate::numbers::{at, past_numbers};
use crate::parts::{front, past};
use crate::print::line;
use crate::sum::sum_bytes;
use crate::table_cases::summary;
use std::io::Stdout;
use table::Summary;
use writer::write;

// The head is how many bytes are lent and the summary's twelve, and the metadata follows the rows.
pub(crate) fn run_writing(
    to: Stdout,
    payload: &[u8],
    head: &[u64],
    caps: &[u64],
    notes: &[u64],
) -> bool {
    let t = summary(past(head, 1));
    let s = past_numbers(payload, count_numbers(head, caps, notes));
    let mut room = [0u8; BYTES];
    write_to(to, t, caps, notes, s, front(&mut room, at(head, 0)))
}

// `w`: the refusal, how many bytes were written, and the checksum of the lent output.
fn write_to(to: Stdout, t: Summary, caps: &[u64], notes: &[u64], s: &[u8], out: &mut [u8]) -> bool {
    fill(out);
    let r = write(t, caps, notes, s, out);
    line(to, b"w", &[r.refusal, r.count, sum_bytes(out)])
}
