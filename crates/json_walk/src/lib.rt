// The members of objects and the elements of arrays of a text that is JSON, one by one.
#![tactic(auto)]

ghost use Rattle.std.specs.Prelude.{◌≡◌};
ghost use Rattle.json_grammar.specs.Skip.{skip_string, closes, skip_open, token_byte, skip_value};
ghost use Rattle.json_walk.specs.Members.{next_item, name_step, member_step, element_step};

use json_blocks::blocks::{ByteTest, is_ordinary_block, skip_while};
use json_blocks::{Cursor, is_blank, peek};

// A member of an object: the places of its raw name between the quotes, of the closing quote, of its value, and past that.
#[derive(Clone, Copy)]
pub struct Member {
    pub name: usize,
    pub quote: usize,
    pub value: usize,
    pub end: usize,
}

// A member's name: its raw bytes' place, that of its closing quote, and that of the value.
#[derive(Clone, Copy)]
pub struct MemberName {
    pub name: usize,
    pub quote: usize,
    pub value: usize,
}

// An element of an array: its place, and the one past it.
#[derive(Clone, Copy)]
pub struct Element {
    pub at: usize,
    pub end: usize,
}

// Past blocks of bytes that are no quotes and no backslashes. `skip_blocks` does not say that no block reaches past the end, where 0 is
// such a byte.
#[tactic(auto, using(json_blocks::proofs::BlockLaws::block_room, json_blocks::proofs::BlockLaws::block_good, crate::proofs::WalkLaws::ordinary_pass))]
fn skip_ordinary(s: &[u8], at: usize) -> usize
    ensures { skip_string s.now result ≡ skip_string s.now at }
{
    let mut i = at;
    while is_ordinary_block(s, i) {
        i += 8;
    }
    i
}

// Past a string, from past its opening quote. The place jumps over escapes, so no iterator moves it.
#[tactic(auto, using(json_grammar::proofs::SkipLaws::quoted_end, json_grammar::proofs::SkipLaws::quoted_close, json_grammar::proofs::SkipLaws::quoted_escape, json_grammar::proofs::SkipLaws::quoted_other))]
pub(crate) fn skip_string(s: &[u8], at: usize) -> usize
    ensures { result ≡ skip_string s.now at }
{
    let mut i = skip_ordinary(s, at);
    while i < s.len() {
        match s[i] {
            b'"' => return i + 1,
            b'\\' => i += 2,
            _ => i += 1,
        }
    }
    i
}

pub(crate) fn is_close(b: u8) -> bool
    ensures { result ≡ closes b }
{
    matches!(b, b']' | b'}')
}

// Past the close of an array or object, from past its opening byte. The place jumps over strings, so no iterator moves it.
#[tactic(auto, using(json_grammar::proofs::SkipLaws::quoted_onward, json_grammar::proofs::SkipLaws::open_end, json_grammar::proofs::SkipLaws::open_string, json_grammar::proofs::SkipLaws::open_opens, json_grammar::proofs::SkipLaws::open_last, json_grammar::proofs::SkipLaws::open_closes, crate::proofs::WalkLaws::open_passes))]
pub(crate) fn skip_open(s: &[u8], at: usize) -> usize
    ensures { result ≡ skip_open s.now 1 at }
{
    let mut i = at;
    let mut n = 1usize;
    while i < s.len() {
        match s[i] {
            b'"' => i = skip_string(s, i + 1),
            b'[' | b'{' => {
                n += 1;
                i += 1;
            }
            b']' | b'}' => {
                if n <= 1 {
                    return i + 1;
                }
                n -= 1;
                i += 1;
            }
            _ => i += 1,
        }
    }
    i
}

// A byte of a number or a literal.
struct Scalar;

impl ByteTest for Scalar {
    ghost holds = { token_byte };

    #[tactic(auto, unfolding(json_grammar::specs::Skip::token_byte))]
    fn test(b: u8) -> bool {
        b != 0 && !is_blank(b) && b != b',' && !is_close(b)
    }
}

// Past the value at a place of a text that is JSON, by its brackets and quotes alone.
#[tactic(auto, using(json_grammar::proofs::SkipLaws::no_scalar), unfolding(json_grammar::specs::Skip::skip_value))]
pub fn skip_value(s: &[u8], at: usize) -> usize
    ensures { result ≡ skip_value s.now at }
{
    match peek(s, at) {
        b'"' => skip_string(s, at + 1),
        b'[' | b'{' => skip_open(s, at + 1),
        _ => skip_while::<Scalar>(s, at),
    }
}

// Past a comma and blanks, or at the close.
#[tactic(auto, unfolding(crate::specs::Members::next_item))]
pub fn next_item(s: &[u8], at: usize) -> usize
    ensures { result ≡ next_item s.now at }
{
    let k = Cursor { at }.skip_indent(s).at;
    if peek(s, k) == b',' {
        return Cursor { at: k + 1 }.skip_indent(s).at;
    }
    k
}

// The name of the member of an object at a place.
#[tactic(auto, using(json_grammar::proofs::SkipLaws::quoted_onward), unfolding(crate::specs::Members::name_step))]
pub fn next_name(s: &[u8], at: usize) -> Option<MemberName>
    ensures { result ≡ name_step s.now at }
{
    if peek(s, at) != b'"' {
        return None;
    }
    let e = skip_string(s, at + 1);
    let c = Cursor { at: e }.colon(s)?;
    Some(MemberName {
        name: at + 1,
        quote: e - 1,
        value: c.at,
    })
}

// The member of an object at a place.
#[tactic(auto, unfolding(crate::specs::Members::name_step, crate::specs::Members::member_step))]
pub fn next_member(s: &[u8], at: usize) -> Option<(Member, usize)>
    ensures { result ≡ member_step s.now at }
{
    let MemberName { name, quote, value } = next_name(s, at)?;
    let end = skip_value(s, value);
    let member = Member {
        name,
        quote,
        value,
        end,
    };
    Some((member, next_item(s, end)))
}

// The element of an array at a place.
#[tactic(auto, unfolding(crate::specs::Members::element_step))]
pub fn next_element(s: &[u8], at: usize) -> Option<(Element, usize)>
    ensures { result ≡ element_step s.now at }
{
    let end = skip_value(s, at);
    if end <= at {
        return None;
    }
    Some((Element { at, end }, next_item(s, end)))
}
