ghost use Rattle.std.specs.Prelude.{◌≡◌, ◌+◌, ◌*◌, ◌%◌, ◌<◌, ◌≤◌, length, take, drop};
ghost use Rattle.std.specs.Bool.{then_some};
ghost use Rattle.json_blocks.specs.Blocks.{plain_byte, all_at};
ghost use Rattle.json_characters.specs.String.{string_at};
ghost use Rattle.json_strings.specs.Decode.{decoded_from};
ghost use Rattle.json_names.specs.Plain.{keyed, PlainRun};
ghost use Rattle.json_names.specs.Keys.{key_from, key_of};

use crate::{Run, text_key};
use json_blocks::blocks::{has_room, is_plain};
use json_blocks::{Cursor, peek};
use json_characters::string;

// How many bytes are looked at together.
const BLOCK: usize = 8;

// What a key begins with, and the multipliers of the two keys.
pub(crate) const BASIS: u64 = 2166136261;

pub(crate) const FIRST: u64 = 16777619;

pub(crate) const SECOND: u64 = 2654435761;

// One byte more in a key of multiplier m.
pub(crate) fn mix(m: u64, h: u64, b: u8) -> u64
    requires m_bound { m < 4294967296 }
    requires h_bound { h < 4294967296 }
    ensures { result ≡ (h * m + b) % 4294967296 }
{
    (h * m + b as u64) % 4294967296
}

// The eight bytes from a place on in a key, if they are plain. No byte ends the loop, so that it is compiled to a test of them all.
#[tactic(auto, using(crate::proofs::PlainLaws::block_laws))]
fn mix_block(s: &[u8], i: usize, key: u64) -> Option<u64>
    requires i_in_bounds { i + 8 ≤ length s.now }
    requires key_bound { key < 4294967296 }
    ensures { result ≡ then_some (all_at plain_byte 8 s.now i) (key_from 16777619 key (take 8 (drop i s.now))) }
{
    let mut ok = true;
    let mut h = key;
    for k in 0..BLOCK {
        let b = s[i + k];
        ok &= is_plain(b);
        h = mix(FIRST, h, b);
    }
    ok.then_some(h)
}

// Past blocks of plain bytes from a place on, with their key. No iterator over blocks gives the place where the last plain one ends.
fn plain_blocks(s: &[u8], at: usize) -> Run
    ensures { PlainRun s.now at result }
{
    let mut h = BASIS;
    let mut i = at;
    while has_room(s, i, BLOCK) {
        let Some(key) = mix_block(s, i, h) else {
            break;
        };
        h = key;
        i += BLOCK;
    }
    Run { at: i, key: h }
}

// Past the plain bytes from a place on, with their key. The place may lie past the end, where no rest can be gone over.
pub(crate) fn plain_run(s: &[u8], at: usize) -> Run
    ensures { PlainRun s.now at result }
{
    let Run {
        at: mut i,
        key: mut h,
    } = plain_blocks(s, at);
    while i < s.len() && is_plain(s[i]) {
        h = mix(FIRST, h, s[i]);
        i += 1;
    }
    Run { at: i, key: h }
}

// A string from past its opening quote, and its key.
#[tactic(auto, using(crate::proofs::PlainLaws::run_quote))]
pub fn keyed_string(s: &[u8], at: usize) -> Option<(Cursor, u32)>
    ensures { result ≡ keyed (string_at s.now at) (key_of (decoded_from s.now at)) }
{
    let p = plain_run(s, at);
    if peek(s, p.at) == b'"' {
        return Some((Cursor { at: p.at + 1 }, p.key as u32));
    }
    let c = string(Cursor { at: p.at }, s)?;
    Some((c, text_key(s, at)))
}
