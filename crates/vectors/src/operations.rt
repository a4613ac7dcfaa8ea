// `t`: an operation on a table. The answer is one line of its numbers and the checksum of the lent output.
use crate::memory::{fill, fill_dataset};
use crate::numbers::at;
use crate::parts::{front, past};
use crate::print;
use crate::print::{end, line, stop, word};
use crate::sum::{EMPTY, add_numbers, sum_bytes};
use crate::table_cases::summary;
use std::io::Stdout;
use table::{Summary, locate, well_formed};
use table_cuts::cut;
use table_pieces::{copy, pieces};

// A table's summary and what is asked of it.
#[derive(Clone, Copy)]
pub struct Case {
    pub t: Summary,
    pub a: u64,
    pub b: u64,
}

// The most numbers of lent output.
const NUMBERS: usize = 512;
// The most bytes of a dataset and of lent output.
const BYTES: usize = 65536;

// The head is the operation, the summary's twelve numbers, a and b.
pub(crate) fn run_operation(
    to: Stdout,
    head: &[u64],
    caps: &[u64],
    notes: &[u64],
    sizes: &[u64],
) -> bool {
    let c = Case {
        t: summary(past(head, 1)),
        a: at(head, 13),
        b: at(head, 14),
    };
    let n = at(sizes, 0);
    let m = at(sizes, 1);
    match at(head, 0) {
        0 => run_well_formed(to, c, caps, notes),
        1 => run_locate(to, c, caps, notes),
        2 => run_pieces(to, c, caps, notes, n),
        3 => run_cut(to, c, caps, notes, n, m),
        4 => run_copy(to, c, caps, notes, n, m),
        _ => stop(to),
    }
}

fn run_well_formed(to: Stdout, c: Case, caps: &[u64], notes: &[u64]) -> bool {
    let good = well_formed(c.t, caps, notes);
    line(to, b"t", &[u64::from(good), EMPTY])
}

fn run_locate(to: Stdout, c: Case, caps: &[u64], notes: &[u64]) -> bool {
    let r = locate(c.t, caps, notes, c.a);
    line(to, b"t", &[r.refusal, r.byte, EMPTY])
}

fn run_pieces(to: Stdout, c: Case, caps: &[u64], notes: &[u64], size: u64) -> bool {
    let mut room = [0u64; NUMBERS];
    pieces_to(to, c, caps, notes, front(&mut room, size))
}

fn pieces_to(to: Stdout, c: Case, caps: &[u64], notes: &[u64], out: &mut [u64]) -> bool {
    fill(out);
    let r = pieces(c.t, caps, notes, c.a, c.b, out);
    line(to, b"t", &[r.refusal, r.count, add_numbers(EMPTY, out)])
}

fn run_cut(to: Stdout, c: Case, caps: &[u64], notes: &[u64], capsize: u64, notesize: u64) -> bool {
    let mut caproom = [0u64; NUMBERS];
    let mut noteroom = [0u64; NUMBERS];
    cut_to(
        to,
        c,
        caps,
        notes,
        front(&mut caproom, capsize),
        front(&mut noteroom, notesize),
    )
}

fn cut_to(
    to: Stdout,
    c: Case,
    caps: &[u64],
    notes: &[u64],
    capto: &mut [u64],
    noteto: &mut [u64],
) -> bool {
    fill(capto);
    fill(noteto);
    let r = cut(c.t, caps, notes, c.a, c.b, capto, noteto);
    word(to, b"t");
    print::summary(to, r);
    end(to, &[add_numbers(add_numbers(EMPTY, capto), noteto)])
}

fn run_copy(to: Stdout, c: Case, caps: &[u64], notes: &[u64], length: u64, size: u64) -> bool {
    let mut dataset = [0u8; BYTES];
    let mut room = [0u8; BYTES];
    copy_to(
        to,
        c,
        caps,
        notes,
        front(&mut dataset, length),
        front(&mut room, size),
    )
}

fn copy_to(
    to: Stdout,
    c: Case,
    caps: &[u64],
    notes: &[u64],
    bytes: &mut [u8],
    out: &mut [u8],
) -> bool {
    fill_dataset(bytes);
    fill(out);
    let r = copy(c.t, caps, notes, bytes, c.a, c.b, out);
    line(to, b"t", &[r.refusal, r.count, sum_bytes(out)])
}
