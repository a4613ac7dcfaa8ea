// Strings of a JSON text, their characters and escapes. A function gets a cursor by value and returns the one past what it read.
#![tactic(auto)]

mod plain;

ghost use Rattle.std.specs.Prelude.{◌≡◌, ℕ, ◌<◌, cond, ltb, length, IfSome};
ghost use Rattle.json_blocks.specs.TextBytes.{byte, byte_within};
ghost use Rattle.json_characters.specs.String.{two_bytes, three_bytes, multibyte_at, hex_value, hex4_at, low_surrogate_at, unicode_escape_at, short_escape, escape_at, character_at, string_at};

use json_blocks::blocks::{Plain, skip_blocks};
use json_blocks::{Cursor, is_within, peek};
pub use plain::skip_plain_bytes;

// A byte that makes an escape by itself after a backslash.
#[tactic(auto, unfolding(crate::specs::String::short_escape))]
pub fn is_short_escape(b: u8) -> bool
    ensures { result ≡ short_escape b }
{
    matches!(b, b'"' | b'\\' | b'/' | b'b' | b'f' | b'n' | b'r' | b't')
}

// A hexadecimal digit's number; 16 for any other byte.
#[tactic(auto, unfolding(crate::specs::String::hex_value, json_blocks::specs::TextBytes::within))]
pub fn hex_digit(b: u8) -> usize
    ensures { result ≡ hex_value b }
{
    let n = b as usize;
    match b {
        b'0'..=b'9' => n - 48,
        b'A'..=b'F' => n - 55,
        b'a'..=b'f' => n - 87,
        _ => 16,
    }
}

// One byte from lo to hi.
#[tactic(auto, unfolding(json_blocks::specs::TextBytes::byte_within, json_blocks::specs::TextBytes::within))]
pub(crate) fn byte_within(start: Cursor, s: &[u8], lo: u8, hi: u8) -> Option<Cursor>
    requires { 0 < lo }
    ensures { result ≡ byte_within s.now lo hi start.at }
{
    let at = start.at;
    if is_within(lo, hi, peek(s, at)) {
        return Some(Cursor { at: at + 1 });
    }
    None
}

// A byte from lo to hi and one continuation byte.
#[tactic(auto, unfolding(crate::specs::String::two_bytes))]
pub(crate) fn two_bytes(start: Cursor, s: &[u8], lo: u8, hi: u8) -> Option<Cursor>
    requires { 0 < lo }
    ensures { result ≡ two_bytes s.now lo hi start.at }
{
    let c = byte_within(start, s, lo, hi)?;
    byte_within(c, s, 0x80, 0xBF)
}

// A byte from lo to hi and two continuation bytes.
#[tactic(auto, unfolding(crate::specs::String::three_bytes))]
pub(crate) fn three_bytes(start: Cursor, s: &[u8], lo: u8, hi: u8) -> Option<Cursor>
    requires { 0 < lo }
    ensures { result ≡ three_bytes s.now lo hi start.at }
{
    let c = byte_within(start, s, lo, hi)?;
    two_bytes(c, s, 0x80, 0xBF)
}

// A character of several bytes in UTF-8, from past its first byte b. The tests stand in a chain, since a `match` on ranges of bytes runs a seventh
// more instructions on characters of three bytes.
#[tactic(auto, unfolding(crate::specs::String::multibyte_at, json_blocks::specs::TextBytes::within))]
pub(crate) fn multibyte(start: Cursor, s: &[u8], b: u8) -> Option<Cursor>
    ensures { result ≡ multibyte_at b s.now start.at }
{
    if is_within(0xC2, 0xDF, b) {
        return byte_within(start, s, 0x80, 0xBF);
    }
    if b == 0xE0 {
        return two_bytes(start, s, 0xA0, 0xBF);
    }
    if is_within(0xE1, 0xEC, b) {
        return two_bytes(start, s, 0x80, 0xBF);
    }
    if b == 0xED {
        return two_bytes(start, s, 0x80, 0x9F);
    }
    if is_within(0xEE, 0xEF, b) {
        return two_bytes(start, s, 0x80, 0xBF);
    }
    if b == 0xF0 {
        return three_bytes(start, s, 0x90, 0xBF);
    }
    if is_within(0xF1, 0xF3, b) {
        return three_bytes(start, s, 0x80, 0xBF);
    }
    if b == 0xF4 {
        return three_bytes(start, s, 0x80, 0x8F);
    }
    None
}

// The hexadecimal digit at a place.
#[tactic(auto, unfolding(crate::specs::String::hex_value, json_blocks::specs::TextBytes::within))]
fn hex_at(s: &[u8], at: usize) -> Option<usize>
    ensures digit { let x = hex_value (byte s.now at) in result ≡ cond (ltb 15 x) None (Some x) }
    ensures inside { IfSome result (λ _. at < length s.now) }
{
    let n = hex_digit(peek(s, at));
    if 15 < n { None } else { Some(n) }
}

// Four hexadecimal digits.
#[tactic(auto, unfolding(crate::specs::String::hex4_at))]
pub fn four_digits(start: Cursor, s: &[u8]) -> Option<(usize, Cursor)>
    ensures { result ≡ hex4_at s.now start.at }
{
    let at = start.at;
    let a = hex_at(s, at)?;
    let b = hex_at(s, at + 1)?;
    let c = hex_at(s, at + 2)?;
    let d = hex_at(s, at + 3)?;
    Some((((a * 16 + b) * 16 + c) * 16 + d, Cursor { at: at + 4 }))
}

// The escape of a low surrogate.
#[tactic(auto, unfolding(crate::specs::String::low_surrogate_at, json_blocks::specs::TextBytes::within))]
pub(crate) fn low_surrogate(start: Cursor, s: &[u8]) -> Option<Cursor>
    ensures { result ≡ low_surrogate_at s.now start.at }
{
    let at = start.at;
    if peek(s, at) != b'\\' || peek(s, at + 1) != b'u' {
        return None;
    }
    let (n, c) = four_digits(Cursor { at: at + 2 }, s)?;
    match n {
        0xDC00..=0xDFFF => Some(c),
        _ => None,
    }
}

// From past a backslash and u.
#[tactic(auto, unfolding(crate::specs::String::unicode_escape_at, json_blocks::specs::TextBytes::within))]
pub(crate) fn unicode_escape(start: Cursor, s: &[u8]) -> Option<Cursor>
    ensures { result ≡ unicode_escape_at s.now start.at }
{
    let (n, c) = four_digits(start, s)?;
    match n {
        0xD800..=0xDBFF => low_surrogate(c, s),
        0xDC00..=0xDFFF => None,
        _ => Some(c),
    }
}

// From past a backslash.
#[tactic(auto, unfolding(crate::specs::String::escape_at, crate::specs::String::short_escape))]
pub(crate) fn escape(start: Cursor, s: &[u8]) -> Option<Cursor>
    ensures { result ≡ escape_at s.now start.at }
{
    let at = start.at;
    let b = peek(s, at);
    if is_short_escape(b) {
        return Some(Cursor { at: at + 1 });
    }
    if b == b'u' {
        return unicode_escape(Cursor { at: at + 1 }, s);
    }
    None
}

// One character of a string, or one escape. A quote, too, is a character here.
#[tactic(auto, unfolding(crate::specs::String::character_at))]
pub fn character(start: Cursor, s: &[u8]) -> Option<Cursor>
    ensures { result ≡ character_at s.now start.at }
{
    let at = start.at;
    match peek(s, at) {
        0..=0x1F => None,
        b'\\' => escape(Cursor { at: at + 1 }, s),
        0x20..=0x7F => Some(Cursor { at: at + 1 }),
        b => multibyte(Cursor { at: at + 1 }, s, b),
    }
}

// A string, from past its opening quote. Both ways out stand in the loop: with `while` and `?` an escape runs four more instructions.
pub fn string(start: Cursor, s: &[u8]) -> Option<Cursor>
    ensures { result ≡ string_at s.now start.at }
{
    let mut i = skip_blocks::<Plain>(s, start.at);
    loop {
        if peek(s, i) == b'"' {
            return Some(Cursor { at: i + 1 });
        }
        let Some(c) = character(Cursor { at: i }, s) else {
            return None;
        };
        i = c.at;
    }
}
