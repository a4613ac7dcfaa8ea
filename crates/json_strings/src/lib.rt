// The decoded text of a JSON string, a byte or a character at a time, with no buffer.
#![tactic(auto)]

mod characters;

ghost use Rattle.std.specs.Prelude.{◌≡◌, ℕ, ◌+◌, ◌<◌, ◌≤◌, Some, None, cond, eqb, length, get_or};
ghost use Rattle.json_blocks.specs.TextBytes.{byte};
ghost use Rattle.json_strings.specs.Decode.{short_code, pair_code, low_unit, unicode_unit, escape_unit, is_body};
ghost use Rattle.json_strings.specs.Stream.{start_at, next_byte};
ghost use Rattle.json_strings.specs.Utf8Code.{later_byte};
ghost use Rattle.json_strings.specs.Utf8.{utf8};

pub use characters::next_character;
use json_blocks::blocks::is_plain;
use json_blocks::{Cursor, peek};
use json_characters::{character, four_digits, skip_plain_bytes};

// A place in a string's decoded text: the place of a unit, and how many of the bytes that it stands for are passed.
#[derive(Clone, Copy)]
pub struct Position {
    pub at: usize,
    pub passed: usize,
}

// The next character: the first len of the bytes are its UTF-8, and it ends before at; no bytes where the string ends.
#[derive(Clone, Copy)]
pub struct Step {
    pub bytes: [u8; 4],
    pub len: usize,
    pub at: usize,
}

// The code point of a short escape by its letter; 256 for any other byte.
#[tactic(auto, unfolding(crate::specs::Decode::short_code))]
pub(crate) fn short_code(b: u8) -> usize
    ensures { result ≡ short_code b }
{
    match b {
        b'"' => 0x22,
        b'\\' => 0x5C,
        b'/' => 0x2F,
        b'b' => 0x08,
        b'f' => 0x0C,
        b'n' => 0x0A,
        b'r' => 0x0D,
        b't' => 0x09,
        _ => 256,
    }
}

// The code point of a pair of surrogates.
#[tactic(auto, unfolding(crate::specs::Decode::pair_code))]
pub(crate) fn pair_code(n: usize, m: usize) -> usize
    requires le_n { 0xD800 ≤ n }
    requires n_bound { n ≤ 0xDBFF }
    requires le_m { 0xDC00 ≤ m }
    requires m_bound { m ≤ 0xDFFF }
    ensures { result ≡ pair_code n m }
{
    0x10000 + (n - 0xD800) * 0x400 + (m - 0xDC00)
}

// The low surrogate after the high one n.
#[tactic(auto, unfolding(crate::specs::Decode::low_unit, json_blocks::specs::TextBytes::within))]
pub(crate) fn low_unit(s: &[u8], n: usize, at: usize) -> Option<(usize, usize)>
    requires le_n { 0xD800 ≤ n }
    requires n_bound { n ≤ 0xDBFF }
    ensures { result ≡ low_unit s.now n at }
{
    if peek(s, at) != b'\\' || peek(s, at + 1) != b'u' {
        return None;
    }
    let (m, c) = four_digits(Cursor { at: at + 2 }, s)?;
    match m {
        0xDC00..=0xDFFF => Some((pair_code(n, m), c.at)),
        _ => None,
    }
}

// From past a backslash and u.
#[tactic(auto, unfolding(crate::specs::Decode::unicode_unit, json_blocks::specs::TextBytes::within))]
pub(crate) fn unicode_unit(s: &[u8], at: usize) -> Option<(usize, usize)>
    ensures { result ≡ unicode_unit s.now at }
{
    let (n, c) = four_digits(Cursor { at }, s)?;
    match n {
        0xD800..=0xDBFF => low_unit(s, n, c.at),
        0xDC00..=0xDFFF => None,
        _ => Some((n, c.at)),
    }
}

// From past a backslash.
#[tactic(auto, using(crate::proofs::DecodeLaws::short_inside), unfolding(crate::specs::Decode::escape_unit))]
pub(crate) fn escape_unit(s: &[u8], at: usize) -> Option<(usize, usize)>
    ensures { result ≡ escape_unit s.now at }
{
    let b = peek(s, at);
    let p = short_code(b);
    if p != 256 {
        Some((p, at + 1))
    } else if b == b'u' {
        unicode_unit(s, at + 1)
    } else {
        None
    }
}

// How many bytes a code point has in UTF-8.
#[tactic(auto, unfolding(crate::specs::Utf8::utf8))]
pub(crate) fn utf8_len(p: usize) -> usize
    ensures { result ≡ length (utf8 p) }
{
    match p {
        0..=0x7F => 1,
        0x80..=0x7FF => 2,
        0x800..=0xFFFF => 3,
        _ => 4,
    }
}

// The first byte of a code point in UTF-8.
#[tactic(auto, unfolding(crate::specs::Utf8::utf8))]
pub(crate) fn utf8_first(p: usize) -> u8
    requires { p ≤ 0x10FFFF }
    ensures { result ≡ get_or (utf8 p) 0 0 }
{
    match p {
        0..=0x7F => p as u8,
        0x80..=0x7FF => (0xC0 + p / 0x40) as u8,
        0x800..=0xFFFF => (0xE0 + p / 0x1000) as u8,
        _ => (0xF0 + p / 0x40000) as u8,
    }
}

// A later byte of a code point in UTF-8, the j-th from its last.
#[tactic(auto, unfolding(crate::specs::Utf8Code::later_byte))]
pub(crate) fn utf8_later(p: usize, j: usize) -> u8
    ensures { result ≡ later_byte p j }
{
    match j {
        0 => (0x80 + p % 0x40) as u8,
        1 => (0x80 + p / 0x40 % 0x40) as u8,
        _ => (0x80 + p / 0x1000 % 0x40) as u8,
    }
}

// Byte k of the n of a code point in UTF-8.
#[tactic(auto, using(crate::proofs::DecodeLaws::byte_later))]
pub(crate) fn utf8_byte(p: usize, n: usize, k: usize) -> u8
    requires p_bound { p ≤ 0x10FFFF }
    requires n_value { n ≡ length (utf8 p) }
    requires k_lt_n { k < n }
    ensures { result ≡ get_or (utf8 p) k 0 }
{
    if k == 0 {
        utf8_first(p)
    } else {
        utf8_later(p, n - 1 - k)
    }
}

// A byte that stands for itself, and the position past it.
fn own_byte(b: u8, p: Position) -> Option<(u8, Position)>
    requires { p.at < 0xFFFFFFFFFFFFFFFF }
    ensures { result ≡ cond (eqb p.passed 0) (Some (b, start_at (p.at + 1))) None }
{
    let past = Position {
        at: p.at + 1,
        passed: 0,
    };
    (p.passed == 0).then_some((b, past))
}

// The byte at a position whose unit begins with a backslash.
fn escaped_byte(s: &[u8], p: Position) -> Option<(u8, Position)>
    requires at_value { byte s.now p.at ≡ 0x5C }
    requires at_in_bounds { p.at < length s.now }
    ensures { result ≡ next_byte s.now p }
{
    let Some((code, end)) = escape_unit(s, p.at + 1) else {
        return own_byte(b'\\', p);
    };
    let n = utf8_len(code);
    if n <= p.passed {
        return None;
    }
    let b = utf8_byte(code, n, p.passed);
    let passed = p.passed + 1;
    if passed < n {
        Some((b, Position { at: p.at, passed }))
    } else {
        Some((b, Position { at: end, passed: 0 }))
    }
}

// The next decoded byte from a position on. It is always inlined: to hand the answer over in memory costs more than to find it.
#[inline(always)]
pub fn next_byte(s: &[u8], p: Position) -> Option<(u8, Position)>
    ensures { result ≡ next_byte s.now p }
{
    if s.len() <= p.at {
        return None;
    }
    match s[p.at] {
        b'\\' => escaped_byte(s, p),
        b'"' => None,
        b => own_byte(b, p),
    }
}

// A slice is a string's body by itself.
#[tactic(auto, using(crate::proofs::DecodeLaws::body_laws), unfolding(crate::specs::Decode::is_body))]
pub fn is_body(s: &[u8]) -> bool
    ensures { result ≡ is_body s.now }
{
    let mut i = 0;
    while i < s.len() {
        if is_plain(s[i]) {
            i = skip_plain_bytes(s, i + 1);
            continue;
        }
        if s[i] == b'"' {
            return false;
        }
        let Some(c) = character(Cursor { at: i }, s) else {
            return false;
        };
        i = c.at;
    }
    true
}
