ghost use Rattle.std.specs.Prelude.{◌≡◌, [], ◌∷◌, ◌-◌, ◌<◌, ◌≤◌, length, get_or, take, drop};
ghost use Rattle.json_blocks.specs.TextBytes.{byte};
ghost use Rattle.json_strings.specs.Characters.{step_of, step_at};
ghost use Rattle.json_strings.specs.Utf8.{utf8};

use crate::{Step, escape_unit, utf8_byte, utf8_len};
use json_blocks::{Cursor, peek};
use json_characters::character;

pub(crate) fn no_step(at: usize) -> Step
    ensures { result ≡ step_of [] at }
{
    Step {
        bytes: [0; 4],
        len: 0,
        at,
    }
}

// A byte by itself, before at.
pub(crate) fn byte_step(b: u8, at: usize) -> Step
    ensures { result ≡ step_of (b ∷ []) at }
{
    Step {
        bytes: [b, 0, 0, 0],
        len: 1,
        at,
    }
}

// Byte k of the n of a code point in UTF-8, 0 past them.
pub(crate) fn utf8_or_zero(p: usize, n: usize, k: usize) -> u8
    requires p_bound { p ≤ 0x10FFFF }
    requires n_value { n ≡ length (utf8 p) }
    ensures { result ≡ get_or (utf8 p) k 0 }
{
    if k < n { utf8_byte(p, n, k) } else { 0 }
}

// A code point, whose escape ends before at.
pub(crate) fn code_step(p: usize, at: usize) -> Step
    requires { p ≤ 0x10FFFF }
    ensures { result ≡ step_of (utf8 p) at }
{
    let len = utf8_len(p);
    Step {
        bytes: [
            utf8_or_zero(p, len, 0),
            utf8_or_zero(p, len, 1),
            utf8_or_zero(p, len, 2),
            utf8_or_zero(p, len, 3),
        ],
        len,
        at,
    }
}

// Byte k of the n from a place on, 0 past them.
pub(crate) fn raw_or_zero(s: &[u8], at: usize, n: usize, k: usize) -> u8
    requires at_in_bounds { at < length s.now }
    requires k_bound { k < 4 }
    ensures { result ≡ get_or (take n (drop at s.now)) k 0 }
{
    if k < n { peek(s, at + k) } else { 0 }
}

// The raw bytes from a place up to an end.
pub(crate) fn raw_step(s: &[u8], at: usize, end: usize) -> Step
    requires at_lt_end { at < end }
    requires end_in_bounds { end ≤ length s.now }
    ensures { result ≡ step_of (take (end - at) (drop at s.now)) end }
{
    let len = end - at;
    Step {
        bytes: [
            raw_or_zero(s, at, len, 0),
            raw_or_zero(s, at, len, 1),
            raw_or_zero(s, at, len, 2),
            raw_or_zero(s, at, len, 3),
        ],
        len,
        at: end,
    }
}

// The character at a backslash.
pub(crate) fn escaped_step(s: &[u8], at: usize) -> Step
    requires at_value { byte s.now at ≡ 0x5C }
    requires at_in_bounds { at < length s.now }
    ensures { result ≡ step_at s.now at }
{
    match escape_unit(s, at + 1) {
        Some((p, end)) => code_step(p, end),
        None => byte_step(b'\\', at + 1),
    }
}

// The next character of a string from a place on.
pub fn next_character(s: &[u8], at: usize) -> Step
    ensures { result ≡ step_at s.now at }
{
    if s.len() <= at {
        return no_step(at);
    }
    match s[at] {
        b'\\' => escaped_step(s, at),
        b'"' => no_step(at),
        b => match character(Cursor { at }, s) {
            Some(end) => raw_step(s, at, end.at),
            None => byte_step(b, at + 1),
        },
    }
}
