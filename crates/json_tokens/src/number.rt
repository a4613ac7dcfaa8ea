ghost use Rattle.std.specs.Prelude.{◌≡◌};
ghost use Rattle.json_tokens.specs.Number.{digit, skip_digits, digits_at, integer_at, fraction_at, skip_sign, exponent_at, skip_minus, number_at};

use json_blocks::blocks::{ByteTest, skip_while};
use json_blocks::{Cursor, peek};

pub struct Digit;

impl ByteTest for Digit {
    ghost holds = { digit };

    #[tactic(auto, unfolding(json_blocks::specs::TextBytes::within))]
    fn test(b: u8) -> bool {
        b.is_ascii_digit()
    }
}

#[tactic(auto, using(crate::proofs::NumberLaws::no_digit))]
pub(crate) fn skip_digits(start: Cursor, s: &[u8]) -> Cursor
    ensures { result.at ≡ skip_digits s.now start.at }
{
    let at = skip_while::<Digit>(s, start.at);
    Cursor { at }
}

// One digit or more.
#[tactic(auto, unfolding(crate::specs::Number::digits_at, json_blocks::specs::TextBytes::within))]
pub(crate) fn digits(start: Cursor, s: &[u8]) -> Option<Cursor>
    ensures { result ≡ digits_at s.now start.at }
{
    if Digit::test(peek(s, start.at)) {
        return Some(skip_digits(Cursor { at: start.at + 1 }, s));
    }
    None
}

// A zero, or digits that begin with another.
#[tactic(auto, unfolding(crate::specs::Number::integer_at))]
pub(crate) fn integer(start: Cursor, s: &[u8]) -> Option<Cursor>
    ensures { result ≡ integer_at s.now start.at }
{
    if peek(s, start.at) == b'0' {
        return Some(Cursor { at: start.at + 1 });
    }
    digits(start, s)
}

#[tactic(auto, unfolding(crate::specs::Number::fraction_at))]
pub(crate) fn fraction(start: Cursor, s: &[u8]) -> Option<Cursor>
    ensures { result ≡ fraction_at s.now start.at }
{
    if peek(s, start.at) == b'.' {
        return digits(Cursor { at: start.at + 1 }, s);
    }
    Some(start)
}

#[tactic(auto, unfolding(crate::specs::Number::skip_sign))]
pub(crate) fn skip_sign(start: Cursor, s: &[u8]) -> Cursor
    ensures { result.at ≡ skip_sign s.now start.at }
{
    match peek(s, start.at) {
        b'+' | b'-' => Cursor { at: start.at + 1 },
        _ => start,
    }
}

#[tactic(auto, unfolding(crate::specs::Number::skip_minus))]
pub(crate) fn skip_minus(start: Cursor, s: &[u8]) -> Cursor
    ensures { result.at ≡ skip_minus s.now start.at }
{
    match peek(s, start.at) {
        b'-' => Cursor { at: start.at + 1 },
        _ => start,
    }
}

#[tactic(auto, unfolding(crate::specs::Number::exponent_at))]
pub(crate) fn exponent(start: Cursor, s: &[u8]) -> Option<Cursor>
    ensures { result ≡ exponent_at s.now start.at }
{
    match peek(s, start.at) {
        b'e' | b'E' => digits(skip_sign(Cursor { at: start.at + 1 }, s), s),
        _ => Some(start),
    }
}

#[tactic(auto, unfolding(crate::specs::Number::number_at))]
pub fn number(start: Cursor, s: &[u8]) -> Option<Cursor>
    ensures { result ≡ number_at s.now start.at }
{
    let c = integer(skip_minus(start, s), s)?;
    let d = fraction(c, s)?;
    exponent(d, s)
}
