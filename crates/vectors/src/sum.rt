use crate::print::line;
use json_strings::{Position, next_byte};
use std::io::Stdout;

// How many things were counted, and the checksum of their numbers.
#[derive(Clone, Copy)]
pub struct Sum {
    pub count: u64,
    pub hash: u64,
}

// A line of a word, the count and the checksum.
pub(crate) fn print_sum(to: Stdout, w: &[u8], m: Sum) -> bool {
    line(to, w, &[m.count, m.hash])
}

// The checksum of no numbers.
pub const EMPTY: u64 = 7;

// The checksum h with one number more.
pub(crate) fn mix(h: u64, x: u64) -> u64 {
    (h % 4294967296 * 31 + x % 4294967296) % 4294967296
}

// The checksum h with all the numbers more.
pub(crate) fn add_numbers(h: u64, v: &[u64]) -> u64 {
    v.iter().fold(h, |g, x| mix(g, *x))
}

// The checksum of bytes.
pub(crate) fn sum_bytes(v: &[u8]) -> u64 {
    v.iter().fold(EMPTY, |g, b| mix(g, u64::from(*b)))
}

// The decoded bytes from a position on, before the byte `end` if there is one. They are fewer than any count can hold.
pub(crate) fn sum_decoded(s: &[u8], from: Position, end: Option<u8>) -> Sum {
    let mut m = Sum {
        count: 0,
        hash: EMPTY,
    };
    let mut p = from;
    while let Some((b, q)) = next_byte(s, p) {
        if end == Some(b) {
            return m;
        }
        m.hash = mix(m.hash, u64::from(b));
        m.count = m.count.wrapping_add(1);
        p = q;
    }
    m
}
