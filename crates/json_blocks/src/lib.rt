// The bytes of a text: one at a place, tests of one, blocks of eight. A cursor by value moves past blanks, or past one token, and
// returns the next cursor.
#![tactic(auto)]

pub mod blocks;
mod group;

ghost use Rattle.std.specs.Prelude.{◌≡◌, get_or};
ghost use Rattle.json_blocks.specs.TextBytes.{within, blank, skip_blanks, literal_at};

use crate::blocks::{Blank, Space, skip_blocks, skip_while};

// A place in a text.
#[derive(Clone, Copy)]
pub struct Cursor {
    pub at: usize,
}

// What stands after an item of an array or object: a comma and then an item, or the close.
#[derive(Clone, Copy)]
pub enum After {
    Item(Cursor),
    Close(Cursor),
}

// The byte at a place, 0 past the end.
pub fn peek(s: &[u8], at: usize) -> u8
    ensures { result ≡ get_or s.now at 0 }
{
    s.get(at).copied().unwrap_or(0)
}

#[tactic(auto, unfolding(crate::specs::TextBytes::within))]
pub fn is_within(lo: u8, hi: u8, b: u8) -> bool
    ensures { result ≡ within lo hi b }
{
    lo <= b && b <= hi
}

// The same of a number: one function for both wants a trait that ties its type to ℕ, and is longer than the two.
#[tactic(auto, unfolding(crate::specs::TextBytes::within))]
pub fn code_within(lo: usize, hi: usize, n: usize) -> bool
    ensures { result ≡ within lo hi n }
{
    lo <= n && n <= hi
}

// With `||` this is compiled to one test of a bit, and with `matches!` to three comparisons.
#[tactic(auto, unfolding(crate::specs::TextBytes::blank))]
pub fn is_blank(b: u8) -> bool
    ensures { result ≡ blank b }
{
    b == b' ' || b == b'\t' || b == b'\n' || b == b'\r'
}

impl Cursor {
    #[tactic(auto, using(crate::proofs::ByteLaws::no_blank))]
    pub fn skip_blanks(self, s: &[u8]) -> Cursor
        ensures { result.at ≡ skip_blanks s.now self.at }
    {
        let at = skip_while::<Blank>(s, self.at);
        Cursor { at }
    }

    // The same, quickly past a line feed and the spaces that begin the next line.
    pub fn skip_indent(self, s: &[u8]) -> Cursor
        ensures { result.at ≡ skip_blanks s.now self.at }
    {
        if peek(s, self.at) == b'\n' {
            let i = skip_blocks::<Space>(s, self.at + 1);
            return Cursor { at: i }.skip_blanks(s);
        }
        self.skip_blanks(s)
    }

    // The bytes of word.
    #[tactic(auto, using(crate::proofs::ByteLaws::literal_end, crate::proofs::ByteLaws::literal_short, crate::proofs::ByteLaws::literal_on, crate::proofs::ByteLaws::literal_not))]
    pub fn literal(self, s: &[u8], word: &[u8]) -> Option<Cursor>
        ensures { result ≡ literal_at s.now word.now self.at }
    {
        let mut at = self.at;
        for b in word {
            if s.get(at) != Some(b) {
                return None;
            }
            at += 1;
        }
        Some(Cursor { at })
    }
}
