// Lists a recording. Standard input holds the dataset's length on its first line, then the metadata; prints the listing, or
// `refused` and document 01's number. Where the input can't be read to its end or the answer can't be written, it says so on
// standard error.
#![tactic(auto)]

use first_line::{after, first_line};
use limits::Limits;
use listing_output::{ANNOTATIONS, CAPTURES, print_listing};
use reader::read;
use standard_streams::{is_unread, read_full, refuse};
use table::{Annotation, Capture};

// One byte more than the longest input, to tell a longer one.
const INPUT: usize = first_line::LONGEST + Limits::METADATA + 1;

fn main(rt: HostRuntime) {
    let mut input = [0u8; INPUT];
    let n = read_full(&mut rt.stdin(), &mut input);
    if n < INPUT && is_unread(&mut rt.stdin()) {
        let _ = rt
            .stderr()
            .write_all(b"burst_list: the input could not be read to its end\n");
        return;
    }
    if !run(rt, &input[..n]) {
        let _ = rt
            .stderr()
            .write_all(b"burst_list: the answer could not be written\n");
    }
}

// Answers an input; whether the answer was written.
fn run(rt: HostRuntime, input: &[u8]) -> bool {
    let Some((d, at)) = first_line(input) else {
        return refuse(&rt, 1);
    };
    list(rt, after(input, at), d)
}

fn list(rt: HostRuntime, metadata: &[u8], d: u64) -> bool {
    let mut captures = [0u64; CAPTURES * Capture::WIDTH];
    let mut annotations = [0u64; ANNOTATIONS * Annotation::WIDTH];
    let t = read(metadata, d, &mut captures, &mut annotations);
    print_listing(&rt, t, &captures, &annotations, metadata)
}
