// Stores the table of a recording. Standard input holds the dataset's length on its first line, then the metadata. Writes the table to
// standard output, and to standard error `stored` with the table's length; or there `refused` and document 01's number, and no table.
// Where the input can't be read to its end or the table can't be written, it says so there instead.
#![tactic(auto)]

use first_line::{after, first_line};
use limits::Limits;
use reader::read;
use standard_streams::{is_unread, read_full, refuse, write_first, write_line};
use table::{Annotation, Capture, Summary};
use table_stored::{ENTRIES, LONGEST, store};

// One byte more than the longest input, to tell a longer one.
const INPUT: usize = first_line::LONGEST + Limits::METADATA + 1;

fn main(rt: HostRuntime) {
    let mut input = [0u8; INPUT];
    let n = read_full(&mut rt.stdin(), &mut input);
    if n < INPUT && is_unread(&mut rt.stdin()) {
        let _ = rt
            .stderr()
            .write_all(b"store_table: the input could not be read to its end\n");
        return;
    }
    if !run(rt, &input[..n]) {
        let _ = rt
            .stderr()
            .write_all(b"store_table: the table could not be written\n");
    }
}

// Answers an input; whether the answer was written.
fn run(rt: HostRuntime, input: &[u8]) -> bool {
    let Some((d, at)) = first_line(input) else {
        return refuse(&rt.stderr(), 1);
    };
    store_recording(rt, after(input, at), d)
}

fn store_recording(rt: HostRuntime, metadata: &[u8], d: u64) -> bool {
    let mut captures = [0u64; ENTRIES * Capture::WIDTH];
    let mut annotations = [0u64; ENTRIES * Annotation::WIDTH];
    let t = read(metadata, d, &mut captures, &mut annotations);
    if t.refusal != 0 {
        return refuse(&rt.stderr(), t.refusal);
    }
    write_table(rt, t, &captures, &annotations)
}

fn write_table(rt: HostRuntime, t: Summary, captures: &[u64], annotations: &[u64]) -> bool {
    let mut out = [0u8; LONGEST];
    let s = store(t, captures, annotations, &mut out);
    if s.refusal != 0 {
        return refuse(&rt.stderr(), s.refusal);
    }
    write_first(&rt, &out, s.count as usize) && write_line(&rt.stderr(), b"stored ", s.count)
}
