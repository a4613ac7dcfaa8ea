ghost use Rattle.std.specs.Prelude.{◌≡◌, ◌+◌};
ghost use Rattle.sigmf_values.specs.Values.{part_of, part_from, is_uint, uint_says, uint_answer, number_byte, boolean_byte, has_type, is_true};
ghost use Rattle.sigmf_values.specs.ValueCode.{digits_from};

use crate::FieldType;
use json_blocks::{is_within, peek};

// The part of a text from a place up to another, as far as the text goes.
pub fn part_of(s: &[u8], at: usize, end: usize) -> &[u8]
    ensures part { result.now ≡ part_of s.now at end }
    ensures text { result.ref_ptr.0 ≡ s.entry.ref_ptr.0 }
    ensures place { result.ref_ptr.1 ≡ s.entry.ref_ptr.1 + part_from s.now at end }
{
    let n = s.len();
    if n <= at || end <= at {
        return &s[n..];
    }
    &s[at..end.min(n)]
}

// The number that a part of digits alone writes.
pub(crate) fn digits_value(part: &[u8]) -> Option<u64>
    ensures { result ≡ digits_from 0 part.now }
{
    let mut n = 0u64;
    for b in part {
        if !is_within(b'0', b'9', *b) {
            return None;
        }
        n = n.checked_mul(10)?.checked_add((*b - b'0') as u64)?;
    }
    Some(n)
}

// The number of a uint.
#[tactic(auto, unfolding(crate::specs::Values::is_uint, crate::specs::ValueCode::digits_from))]
pub fn uint(part: &[u8]) -> Option<u64>
    ensures { uint_says result ≡ uint_answer part.now }
{
    if part.is_empty() || (part[0] == b'0' && part.len() > 1) {
        return None;
    }
    digits_value(part)
}

// A value is of a type.
#[tactic(auto, unfolding(crate::specs::Values::has_type))]
pub fn has_type(wanted: FieldType, part: &[u8]) -> bool
    ensures { result ≡ has_type wanted part.now }
{
    let b = peek(part, 0);
    match wanted {
        FieldType::Text => b == b'"',
        FieldType::Uint => is_uint(part),
        FieldType::Double => is_number(b),
        FieldType::Boolean => is_boolean(b),
        FieldType::Object => b == b'{',
        FieldType::Array => b == b'[',
        FieldType::Any => true,
    }
}

pub(crate) fn is_uint(part: &[u8]) -> bool
    ensures { result ≡ is_uint part.now }
{
    uint(part).is_some()
}

// The first byte of a number.
pub(crate) fn is_number(b: u8) -> bool
    ensures { result ≡ number_byte b }
{
    b == b'-' || is_within(b'0', b'9', b)
}

// The first byte of true or false.
pub(crate) fn is_boolean(b: u8) -> bool
    ensures { result ≡ boolean_byte b }
{
    b == b't' || b == b'f'
}

// A boolean is true.
pub fn is_true(part: &[u8]) -> bool
    ensures { result ≡ is_true part.now }
{
    peek(part, 0) == b't'
}
