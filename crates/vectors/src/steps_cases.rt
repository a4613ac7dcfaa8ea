// `z`: cuts and copies one after the other. The current rows and dataset are at the front of rooms that hold any of them.
use crate::memory::{fill_dataset, store};
use crate::numbers::at;
use crate::parts::{first, first_rows, front, past};
use crate::print;
use crate::print::{end, numbers, word};
use crate::sum::{EMPTY, add_numbers, sum_bytes};
use crate::table_cases::summary;
use std::io::Stdout;
use table::Summary;
use table_cuts::cut;
use table_pieces::copy;

// The most numbers of rows of each kind.
const NUMBERS: usize = 1024;
// The most bytes of a dataset and of lent output.
const BYTES: usize = 4096;
// The most steps.
const STEPS: usize = 64;

// What a step asks, and the sizes of the memory lent to it.
#[derive(Clone, Copy)]
pub struct Step {
    pub a: u64,
    pub b: u64,
    pub capsize: u64,
    pub notesize: u64,
    pub size: u64,
}

// The summary of the table that a step leaves, and its refusal.
#[derive(Clone, Copy)]
pub struct Stepped {
    pub t: Summary,
    pub refusal: u64,
}

// The numbers are how many steps there are, and those of each.
pub(crate) fn run_steps(to: Stdout, head: &[u64], caps: &[u64], notes: &[u64], v: &[u64]) -> bool {
    let mut caproom = [0u64; NUMBERS];
    let mut noteroom = [0u64; NUMBERS];
    let mut dataset = [0u8; BYTES];
    store(caps, &mut caproom);
    store(notes, &mut noteroom);
    fill_dataset(&mut dataset);
    steps_in(
        to,
        summary(head),
        v,
        &mut caproom,
        &mut noteroom,
        &mut dataset,
    )
}

fn steps_in(
    to: Stdout,
    t: Summary,
    v: &[u64],
    caps: &mut [u64],
    notes: &mut [u64],
    bytes: &mut [u8],
) -> bool {
    let n = at(v, 0);
    let mut refusals = [0u64; STEPS];
    let e = take_steps(t, past(v, 1), caps, notes, bytes, front(&mut refusals, n));
    print_end(to, e, caps, notes, bytes, first(&refusals, n))
}

// Takes a step for each refusal, and answers the last table's summary.
fn take_steps(
    t: Summary,
    v: &[u64],
    caps: &mut [u64],
    notes: &mut [u64],
    bytes: &mut [u8],
    refusals: &mut [u64],
) -> Summary {
    let mut e = t;
    let mut rest = v;
    for refusal in refusals.iter_mut() {
        let r = take_step(e, step_of(rest), caps, notes, bytes);
        *refusal = r.refusal;
        e = r.t;
        rest = past(rest, 5);
    }
    e
}

// The step of five numbers.
fn step_of(v: &[u64]) -> Step {
    Step {
        a: at(v, 0),
        b: at(v, 1),
        capsize: at(v, 2),
        notesize: at(v, 3),
        size: at(v, 4),
    }
}

// An accepted step leaves the cut's rows and the bytes copied.
fn take_step(
    t: Summary,
    s: Step,
    caps: &mut [u64],
    notes: &mut [u64],
    bytes: &mut [u8],
) -> Stepped {
    let mut capto = [0u64; NUMBERS];
    let mut noteto = [0u64; NUMBERS];
    let r = cut(
        t,
        caps,
        notes,
        s.a,
        s.b,
        front(&mut capto, s.capsize),
        front(&mut noteto, s.notesize),
    );
    if r.refusal != 0 {
        return Stepped {
            t,
            refusal: r.refusal,
        };
    }
    let refusal = copy_over(t, s, caps, notes, bytes);
    if refusal != 0 {
        return Stepped { t, refusal };
    }
    store(&capto, caps);
    store(&noteto, notes);
    Stepped { t: r, refusal }
}

// An accepted copy is stored over the dataset.
fn copy_over(t: Summary, s: Step, caps: &[u64], notes: &[u64], bytes: &mut [u8]) -> u64 {
    let mut out = [0u8; BYTES];
    let w = copy(
        t,
        caps,
        notes,
        first(bytes, t.size),
        s.a,
        s.b,
        front(&mut out, s.size),
    );
    if w.refusal == 0 {
        store(&out, bytes);
    }
    w.refusal
}

// The refusals, the summary, and the checksums of the counted rows and of the dataset.
fn print_end(
    to: Stdout,
    t: Summary,
    caps: &[u64],
    notes: &[u64],
    bytes: &[u8],
    refusals: &[u64],
) -> bool {
    let g = add_numbers(EMPTY, first_rows(caps, t.captures));
    let h = add_numbers(EMPTY, first_rows(notes, t.annotations));
    let k = sum_bytes(first(bytes, t.size));
    word(to, b"z");
    numbers(to, refusals);
    print::summary(to, t);
    end(to, &[g, h, k])
}
