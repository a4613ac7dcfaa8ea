use crate::print::line;
use crate::sum::{print_sum, sum_decoded};
use json_names::same_text;
use json_strings::{Position, is_body};
use std::io::Stdout;

// `s`: whether a text is a string's body, the number of its decoded bytes and their checksum.
pub(crate) fn answer(to: Stdout, s: &[u8]) -> bool {
    if !is_body(s) {
        return line(to, b"s 2", &[]);
    }
    let m = sum_decoded(s, Position { at: 0, passed: 0 }, None);
    print_sum(to, b"s 0", m)
}

// `e`: whether the two bodies before and after the first line feed have the same decoded text.
pub(crate) fn compare_parts(to: Stdout, s: &[u8]) -> bool {
    let Some(k) = s.iter().position(|b| *b == b'\n') else {
        return line(to, b"e 2", &[]);
    };
    compare(to, &s[..k], &s[k + 1..])
}

fn compare(to: Stdout, a: &[u8], b: &[u8]) -> bool {
    if is_body(a) && is_body(b) {
        return line(to, b"e", &[u64::from(same_text(a, 0, b, 0))]);
    }
    line(to, b"e 2", &[])
}
