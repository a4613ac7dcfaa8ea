// Lists a stored table. Standard input holds the table's length on its first line, then the table, then the metadata that has its
// labels; prints the listing, or `refused` and document 01's or request P5's number. Metadata that is too long is refused with 1, before
// the table is judged. Where the input can't be read to its end or holds no table of that length, or the answer can't be written, it
// says so on standard error.
#![tactic(auto)]

use first_line::{after, first_line};
use limits::Limits;
use listing_output::{ANNOTATIONS, CAPTURES, print_listing};
use standard_streams::{is_unread, read_full, refuse};
use table::{Annotation, Capture};
use table_stored::{LONGEST, load};

// One byte more than the longest input, to tell a longer one.
const INPUT: usize = first_line::LONGEST + LONGEST + Limits::METADATA + 1;

fn main(rt: HostRuntime) {
    let mut input = [0u8; INPUT];
    let n = read_full(&mut rt.stdin(), &mut input);
    if n < INPUT && is_unread(&mut rt.stdin()) {
        let _ = rt
            .stderr()
            .write_all(b"list_table: the input could not be read to its end\n");
        return;
    }
    if !run(rt, &input[..n]) {
        let _ = rt
            .stderr()
            .write_all(b"list_table: the answer could not be written\n");
    }
}

// Answers an input; whether the answer was written.
fn run(rt: HostRuntime, input: &[u8]) -> bool {
    let Some((n, at)) = first_line(input) else {
        return refuse(&rt, 1);
    };
    divide(rt, after(input, at), n as usize)
}

// The table is the first n bytes, and the metadata is the rest.
fn divide(rt: HostRuntime, bytes: &[u8], n: usize) -> bool {
    if n > LONGEST || n > bytes.len() {
        return no_such_table(rt);
    }
    if bytes.len() - n > Limits::METADATA {
        return refuse(&rt, 1);
    }
    list(rt, &bytes[..n], &bytes[n..])
}

fn no_such_table(rt: HostRuntime) -> bool {
    rt.stderr()
        .write_all(b"list_table: the input holds no table of that length\n")
        .is_ok()
}

fn list(rt: HostRuntime, file: &[u8], metadata: &[u8]) -> bool {
    let mut captures = [0u64; CAPTURES * Capture::WIDTH];
    let mut annotations = [0u64; ANNOTATIONS * Annotation::WIDTH];
    let t = load(file, &mut captures, &mut annotations);
    print_listing(&rt, t, &captures, &annotations, metadata)
}
