// A raw name and its decoded text.
ghost use Rattle.std.specs.Prelude.{◌≡◌, ◌≤◌, length, take};
ghost use Rattle.json_blocks.specs.Blocks.{ordinary_byte};
ghost use Rattle.json_blocks.specs.Lists.{all};
ghost use Rattle.sigmf_texts.specs.Texts.{name_text};
ghost use Rattle.sigmf_names.specs.DecodedCode.{direct_at};

use json_blocks::blocks::{is_ordinary, is_ordinary_block};
use json_strings::{Position, next_byte};

// How many bytes are tested at once.
const BLOCK: usize = 8;

// No byte of a name is a backslash or a quote.
fn is_short_verbatim(raw: &[u8]) -> bool
    ensures { result ≡ all ordinary_byte raw.now }
{
    raw.iter().all(|b| is_ordinary(*b))
}

// The same, in blocks: the last one ends with the name, and may overlap the one before, so the places are counted by hand.
pub(crate) fn is_verbatim(raw: &[u8]) -> bool
    ensures { result ≡ all ordinary_byte raw.now }
{
    if raw.len() < BLOCK {
        return is_short_verbatim(raw);
    }
    let last = raw.len() - BLOCK;
    let mut i = 0usize;
    while i < last {
        if !is_ordinary_block(raw, i) {
            return false;
        }
        i += BLOCK;
    }
    is_ordinary_block(raw, last)
}

// The byte at a position stands for itself: no byte of its unit is passed, and it is no backslash and no quote.
fn is_direct(raw: &[u8], p: Position) -> bool
    ensures { result ≡ direct_at raw.now p }
{
    p.passed == 0 && p.at < raw.len() && is_ordinary(raw[p.at])
}

// How many bytes a name's decoded text has; limit for that many and more. This and `put_decoded` stand out of line: inlined they make a core
// name's comparisons run a quarter more instructions.
#[inline(never)]
pub(crate) fn decoded_length(raw: &[u8], limit: usize) -> usize
    ensures { result ≡ length (take limit (name_text raw.now)) }
{
    let mut p = Position { at: 0, passed: 0 };
    for n in 0..limit {
        if is_direct(raw, p) {
            p = Position {
                at: p.at + 1,
                passed: 0,
            };
            continue;
        }
        let Some((_, q)) = next_byte(raw, p) else {
            return n;
        };
        p = q;
    }
    limit
}

// A name's decoded text, as much as there is room for, and how many bytes that is.
#[inline(never)]
pub(crate) fn put_decoded(raw: &[u8], out: &mut [u8]) -> usize
    ensures count { result ≤ length out.new }
    ensures room { length out.new ≡ length out.old }
    ensures text { take result out.new ≡ take (length out.old) (name_text raw.now) }
{
    let mut p = Position { at: 0, passed: 0 };
    for n in 0..out.len() {
        if is_direct(raw, p) {
            out[n] = raw[p.at];
            p = Position {
                at: p.at + 1,
                passed: 0,
            };
            continue;
        }
        let Some((b, q)) = next_byte(raw, p) else {
            return n;
        };
        out[n] = b;
        p = q;
    }
    out.len()
}
