// The decoded texts of JSON strings compared, and their keys, with no buffer.
#![tactic(auto)]

mod alike;
mod plain;

ghost use Rattle.std.specs.Prelude.{◌≡◌, ◌<◌};
ghost use Rattle.json_strings.specs.Decode.{decoded_from};
ghost use Rattle.json_strings.specs.Stream.{stream};
ghost use Rattle.json_names.specs.Same.{same};
ghost use Rattle.json_names.specs.Keys.{key_by, key_of, second_key_of};

use crate::alike::alike_prefix;
use crate::plain::{BASIS, FIRST, SECOND, mix};
use json_blocks::Cursor;
use json_strings::{Position, next_byte};
pub use plain::keyed_string;

// Past the plain bytes at the beginning of a string, with the key so far.
#[derive(Clone, Copy)]
pub struct Run {
    pub at: usize,
    pub key: u64,
}

// A place in each of two texts.
#[derive(Clone, Copy)]
pub struct Places {
    pub a: usize,
    pub b: usize,
}

// The decoded text from a position on is word.
pub fn text_from_is(s: &[u8], from: Position, word: &[u8]) -> bool
    ensures { result ≡ same (stream s.now from) word.now }
{
    let mut p = from;
    for w in word {
        let Some((b, q)) = next_byte(s, p) else {
            return false;
        };
        if b != *w {
            return false;
        }
        p = q;
    }
    next_byte(s, p).is_none()
}

// The string at a place has the decoded text word.
#[tactic(auto, using(json_strings::proofs::DecodeLaws::stream_start))]
pub fn text_is(s: &[u8], at: usize, word: &[u8]) -> bool
    ensures { result ≡ same (decoded_from s.now at) word.now }
{
    text_from_is(s, Position { at, passed: 0 }, word)
}

// The strings at two places have the same decoded text. It stands out of line: inlined, it slows a search among many names.
#[inline(never)]
#[tactic(auto, using(json_strings::proofs::DecodeLaws::stream_start))]
pub fn same_text(s: &[u8], a: usize, t: &[u8], b: usize) -> bool
    ensures { result ≡ same (decoded_from s.now a) (decoded_from t.now b) }
{
    let past = alike_prefix(s, a, t, b);
    let mut p = Position {
        at: past.a,
        passed: 0,
    };
    let mut q = Position {
        at: past.b,
        passed: 0,
    };
    loop {
        match (next_byte(s, p), next_byte(t, q)) {
            (Some((x, i)), Some((y, j))) if x == y => {
                p = i;
                q = j;
            }
            (None, None) => return true,
            _ => return false,
        }
    }
}

// A number that strings of the same decoded text share, by its multiplier.
#[tactic(auto, using(json_strings::proofs::DecodeLaws::stream_laws, crate::proofs::SameLaws::key_on, crate::proofs::SameLaws::key_end))]
pub(crate) fn key_by(s: &[u8], at: usize, m: u64) -> u32
    requires { m < 4294967296 }
    ensures { result ≡ key_by m (decoded_from s.now at) }
{
    let mut h = BASIS;
    let mut p = Position { at, passed: 0 };
    while let Some((b, q)) = next_byte(s, p) {
        h = mix(m, h, b);
        p = q;
    }
    h as u32
}

// The key of the string at a place.
pub fn text_key(s: &[u8], at: usize) -> u32
    ensures { result ≡ key_of (decoded_from s.now at) }
{
    key_by(s, at, FIRST)
}

// Another key of it, for strings that share the first.
pub fn second_key(s: &[u8], at: usize) -> u32
    ensures { result ≡ second_key_of (decoded_from s.now at) }
{
    key_by(s, at, SECOND)
}
