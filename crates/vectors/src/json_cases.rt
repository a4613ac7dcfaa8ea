use crate::print::line;
use crate::sum::{EMPTY, Sum, mix, print_sum};
use json_blocks::{Cursor, peek};
use json_judge::judge;
use json_walk::{Element, Member, next_element, next_member};
use std::io::Stdout;

// `j`: the refusal of a text; or its top-level value's kind, how many parts that has, and the checksum of their places.
pub(crate) fn answer(to: Stdout, s: &[u8]) -> bool {
    match judge(s) {
        Ok(()) => top(to, s),
        Err(e) => line(to, b"j", &[e.refusal()]),
    }
}

fn top(to: Stdout, s: &[u8]) -> bool {
    let at = Cursor { at: 0 }.skip_blanks(s).at;
    match peek(s, at) {
        b'{' => print_sum(to, b"j 0 object", members_sum(s, first_part(s, at))),
        b'[' => print_sum(to, b"j 0 array", elements_sum(s, first_part(s, at))),
        b'"' => no_parts(to, b"j 0 string"),
        b't' => no_parts(to, b"j 0 true"),
        b'f' => no_parts(to, b"j 0 false"),
        b'n' => no_parts(to, b"j 0 null"),
        _ => no_parts(to, b"j 0 number"),
    }
}

fn no_parts(to: Stdout, w: &[u8]) -> bool {
    line(to, w, &[0, EMPTY])
}

// The place of the first part, or of the close, after the opening byte at a place.
fn first_part(s: &[u8], at: usize) -> usize {
    let opened = Cursor {
        at: at.wrapping_add(1),
    };
    opened.skip_blanks(s).at
}

// The name's place and length, and where the value begins and ends. In a text that is JSON no name ends before its place.
fn mix_member(h: u64, m: Member) -> u64 {
    let length = m.quote.wrapping_sub(m.name);
    let g = mix(mix(h, m.name as u64), length as u64);
    mix(mix(g, m.value as u64), m.end as u64)
}

fn members_sum(s: &[u8], first: usize) -> Sum {
    let mut n = 0u64;
    let mut h = EMPTY;
    let mut at = first;
    while let Some((m, next)) = next_member(s, at) {
        h = mix_member(h, m);
        n += 1;
        at = next;
    }
    Sum { count: n, hash: h }
}

fn mix_element(h: u64, e: Element) -> u64 {
    mix(mix(h, e.at as u64), e.end as u64)
}

fn elements_sum(s: &[u8], first: usize) -> Sum {
    let mut n = 0u64;
    let mut h = EMPTY;
    let mut at = first;
    while let Some((e, next)) = next_element(s, at) {
        h = mix_element(h, e);
        n += 1;
        at = next;
    }
    Sum { count: n, hash: h }
}
