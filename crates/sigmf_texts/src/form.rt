ghost use Rattle.std.specs.Prelude.{◌≡◌};
ghost use Rattle.json_blocks.specs.Lists.{all};
ghost use Rattle.json_strings.specs.Stream.{stream};
ghost use Rattle.sigmf_texts.specs.Texts.{name_text};
ghost use Rattle.sigmf_texts.specs.Form.{name_byte, namespace_byte, begun, namespace_of, part_after, form_of};
ghost use Rattle.sigmf_texts.specs.FormCode.{past_space};

use json_blocks::is_within;
use json_strings::{Position, next_byte};

#[tactic(auto, unfolding(crate::specs::Form::name_byte, json_blocks::specs::TextBytes::within))]
pub(crate) fn is_name_byte(b: u8) -> bool
    ensures { result ≡ name_byte b }
{
    matches!(b, b'A'..=b'Z' | b'a'..=b'z' | b'0'..=b'9' | b'_')
}

#[tactic(auto, unfolding(crate::specs::Form::namespace_byte))]
pub(crate) fn is_space_byte(b: u8) -> bool
    ensures { result ≡ namespace_byte b }
{
    b == b'-' || is_name_byte(b)
}

// There is a namespace, and no digit begins it.
pub(crate) fn begins_space(raw: &[u8]) -> bool
    ensures { result ≡ begun (namespace_of (name_text raw.now)) }
{
    let Some((b, _)) = next_byte(raw, Position { at: 0, passed: 0 }) else {
        return false;
    };
    b != b':' && !is_within(b'0', b'9', b)
}

// Past the colon after the bytes of a namespace.
#[tactic(auto, using(json_strings::proofs::DecodeLaws::streamed_next, json_strings::proofs::DecodeLaws::streamed_end, json_strings::proofs::DecodeLaws::stream_start), unfolding(crate::specs::FormCode::past_space))]
pub(crate) fn past_space(raw: &[u8]) -> Option<Position>
    ensures { part_after raw.now result ≡ past_space (name_text raw.now) }
{
    let mut p = Position { at: 0, passed: 0 };
    loop {
        let (b, q) = next_byte(raw, p)?;
        if b == b':' {
            return Some(q);
        }
        if !is_space_byte(b) {
            return None;
        }
        p = q;
    }
}

// There is a part from a position on, and no digit begins it.
#[tactic(auto, using(json_strings::proofs::DecodeLaws::streamed_end))]
pub(crate) fn begins_part(raw: &[u8], p: Position) -> bool
    ensures { result ≡ begun (stream raw.now p) }
{
    let Some((b, _)) = next_byte(raw, p) else {
        return false;
    };
    !is_within(b'0', b'9', b)
}

// The bytes from a position on are those of a part.
#[tactic(auto, using(json_strings::proofs::DecodeLaws::streamed_next, json_strings::proofs::DecodeLaws::streamed_end), unfolding(json_blocks::specs::Lists::all))]
pub(crate) fn has_name_bytes(raw: &[u8], from: Position) -> bool
    ensures { result ≡ all name_byte (stream raw.now from) }
{
    let mut p = from;
    while let Some((b, q)) = next_byte(raw, p) {
        if !is_name_byte(b) {
            return false;
        }
        p = q;
    }
    true
}

// Where the part after the colon of a raw name begins, if the name has the form.
#[tactic(auto, using(crate::proofs::FormLaws::form_1, crate::proofs::FormLaws::form_2, crate::proofs::FormLaws::form_3, crate::proofs::FormLaws::form_4, crate::proofs::FormLaws::form_5))]
pub fn name_form(raw: &[u8]) -> Option<Position>
    ensures { part_after raw.now result ≡ form_of (name_text raw.now) }
{
    if !begins_space(raw) {
        return None;
    }
    let p = past_space(raw)?;
    if begins_part(raw, p) && has_name_bytes(raw, p) {
        return Some(p);
    }
    None
}
