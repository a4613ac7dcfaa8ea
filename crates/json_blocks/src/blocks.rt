// Tests of bytes: of one, of those from a place on, and of eight at once. No byte ends the loop over a block, so that it is compiled
// to a comparison of them all.
ghost use Rattle.std.specs.Prelude.{◌≡◌, Bool, false, ℕ, ◌&&◌, ◌+◌, ◌≤◌, length, leb};
ghost use Rattle.json_blocks.specs.TextBytes.{blank, skip_while};
ghost use Rattle.json_blocks.specs.Blocks.{plain_byte, ordinary_byte, space_byte, all_at, block_at, GoodTo};

use crate::is_blank;

// How many bytes are tested at once.
const BLOCK: usize = 8;

// Both hold. It stays for callers outside, since docs/PROMISES.md names it; the crates here write `&`.
pub fn both(a: bool, b: bool) -> bool
    ensures { result ≡ (a && b) }
{
    if a {
        return b;
    }
    false
}

// A test of a byte.
pub trait ByteTest {
    ghost holds: { ℕ → Bool };

    fn test(b: u8) -> bool
        ensures { result ≡ holds b };
}

// Space, tab, line feed, carriage return.
pub struct Blank;

impl ByteTest for Blank {
    ghost holds = { blank };

    fn test(b: u8) -> bool {
        is_blank(b)
    }
}

pub struct Space;

impl ByteTest for Space {
    ghost holds = { space_byte };

    #[tactic(auto, unfolding(crate::specs::Blocks::space_byte))]
    fn test(b: u8) -> bool {
        b == b' '
    }
}

// A byte of a string that stands for itself: ASCII, and no control byte, quote or backslash.
pub struct Plain;

impl ByteTest for Plain {
    ghost holds = { plain_byte };

    fn test(b: u8) -> bool {
        is_plain(b)
    }
}

// A byte of a string that is no quote and no backslash.
pub struct Ordinary;

impl ByteTest for Ordinary {
    ghost holds = { ordinary_byte };

    fn test(b: u8) -> bool {
        is_ordinary(b)
    }
}

// A text has n bytes from a place on.
pub fn has_room(s: &[u8], i: usize, n: usize) -> bool
    ensures { result ≡ leb (i + n) (length s.now) }
{
    n <= s.len() && i <= s.len() - n
}

#[tactic(auto, unfolding(crate::specs::Blocks::plain_byte))]
pub fn is_plain(b: u8) -> bool
    ensures { result ≡ plain_byte b }
{
    0x20 <= b && b < 0x80 && b != b'"' && b != b'\\'
}

#[tactic(auto, unfolding(crate::specs::Blocks::ordinary_byte))]
pub fn is_ordinary(b: u8) -> bool
    ensures { result ≡ ordinary_byte b }
{
    b != b'"' && b != b'\\'
}

// The eight bytes from a place on pass a test.
#[tactic(auto, using(crate::proofs::BlockLaws::all_on, crate::proofs::BlockLaws::all_end))]
fn is_full<T: ByteTest>(s: &[u8], i: usize) -> bool
    requires { i + 8 ≤ length s.now }
    ensures { result ≡ all_at T.holds 8 s.now i }
{
    let mut ok = true;
    for k in 0..BLOCK {
        ok &= T::test(s[i + k]);
    }
    ok
}

// Eight bytes stand from a place on, and pass a test.
pub fn is_block<T: ByteTest>(s: &[u8], i: usize) -> bool
    ensures { result ≡ block_at T.holds s.now i }
{
    has_room(s, i, BLOCK) && is_full::<T>(s, i)
}

pub fn is_ordinary_block(s: &[u8], i: usize) -> bool
    ensures { result ≡ block_at ordinary_byte s.now i }
{
    is_block::<Ordinary>(s, i)
}

// Past blocks of bytes that pass a test.
pub fn skip_blocks<T: ByteTest>(s: &[u8], at: usize) -> usize
    ensures { GoodTo T.holds s.now at result }
{
    // An index by hand: no iterator over blocks gives the place where the last good one ends.
    let mut i = at;
    while is_block::<T>(s, i) {
        i += BLOCK;
    }
    i
}

// Past the bytes that pass a test, if 0 fails it.
#[tactic(auto, using(crate::proofs::ByteLaws::skip_on, crate::proofs::ByteLaws::skip_out, crate::proofs::ByteLaws::skip_end))]
pub fn skip_while<T: ByteTest>(s: &[u8], at: usize) -> usize
    ensures { T.holds 0 ≡ false → result ≡ skip_while T.holds s.now at }
{
    // An index by hand: `take_while` and `count` over the rest run a half more instructions.
    let mut i = at;
    while i < s.len() && T::test(s[i]) {
        i += 1;
    }
    i
}
