ghost use Rattle.std.specs.Prelude.{◌≡◌, false, ℕ, ◌+◌, ◌≤◌, ◌<◌, length};
ghost use Rattle.limits.specs.Limits.{nesting};
ghost use Rattle.json_blocks.specs.TextBytes.{byte};
ghost use Rattle.json_tokens.specs.MemberName.{name_at};
ghost use Rattle.json_strings.specs.Decode.{decoded_from};
ghost use Rattle.json_names.specs.Plain.{keyed};
ghost use Rattle.json_names.specs.Keys.{key_of};
ghost use Rattle.json_grammar.specs.ByPlace.{value_at};
ghost use Rattle.json_judge.specs.Judged.{refusal_of, judge_rules};
ghost use Rattle.json_judge.specs.Pass.{scan_of, value_scan, array_scan, object_scan, Passed};
ghost use Rattle.refusals.specs.Refusals.{lowest};
ghost use Rattle.json_judge.specs.Stack.{NamesRoom};

use crate::seen::keep_name;
use crate::{Names, TextError};
use json_blocks::{After, Cursor, peek};
use json_characters::string;
use json_names::keyed_string;
use json_tokens::number::number;
use limits::Limits;

// A value that is no array and no object.
#[tactic(auto, unfolding(json_grammar::specs::ByPlace::any_value_at, json_grammar::specs::ByPlace::value_at))]
pub(crate) fn leaf(s: &[u8], at: usize) -> Option<Cursor>
    requires fact { byte s.now at ≡ 0x5B → ⊥ }
    requires fact_2 { byte s.now at ≡ 0x7B → ⊥ }
    ensures { result ≡ value_at 0 s.now at }
{
    match peek(s, at) {
        b'"' => string(Cursor { at: at + 1 }, s),
        b't' => Cursor { at }.literal(s, b"true"),
        b'f' => Cursor { at }.literal(s, b"false"),
        b'n' => Cursor { at }.literal(s, b"null"),
        _ => number(Cursor { at }, s),
    }
}

// A member's name and its colon, with the name's key.
#[tactic(auto, unfolding(json_tokens::specs::MemberName::name_at, json_names::specs::Plain::keyed))]
pub(crate) fn name_key(s: &[u8], at: usize) -> Option<(Cursor, u32)>
    ensures { result ≡ keyed (name_at s.now at) (key_of (decoded_from s.now (at + 1))) }
{
    if peek(s, at) != b'"' {
        return None;
    }
    let (c, key) = keyed_string(s, at + 1)?;
    let v = c.colon(s)?;
    Some((v, key))
}

#[cycle(array_object_value)]
#[tactic(auto, using(crate::proofs::ValueLaws::value_array, crate::proofs::ValueLaws::value_object, crate::proofs::ValueLaws::value_leaf, crate::proofs::PassLaws::kept_same, crate::proofs::PassLaws::passed, json_blocks::proofs::ByteLaws::inside))]
pub(crate) fn value(
    s: &[u8],
    at: usize,
    depth: usize,
    places: &mut [usize],
    keys: &mut [u32],
    used: usize,
) -> Option<(Cursor, bool)>
    requires names_room { NamesRoom depth s.now (at + 1) used (length places.old) }
    requires names_room_2 { NamesRoom depth s.now (at + 1) used (length keys.old) }
    ensures { Passed used (value_scan depth s.now at) places.old keys.old result places.new keys.new }
{
    // One match with the tests of leaf is slower.
    let b = peek(s, at);
    if b == b'[' {
        return array(s, at + 1, depth, places, keys, used);
    }
    if b == b'{' {
        return object(s, at + 1, depth, places, keys, used);
    }
    let c = leaf(s, at)?;
    Some((c, false))
}

// From past the opening bracket.
#[cycle(array_object_value)]
#[tactic(auto, using(crate::proofs::PassLaws::array_zero, crate::proofs::PassLaws::array_empty, crate::proofs::PassLaws::kept_same, crate::proofs::PassLaws::passed))]
pub(crate) fn array(
    s: &[u8],
    at: usize,
    depth: usize,
    places: &mut [usize],
    keys: &mut [u32],
    used: usize,
) -> Option<(Cursor, bool)>
    requires names_room { NamesRoom depth s.now at used (length places.old) }
    requires names_room_2 { NamesRoom depth s.now at used (length keys.old) }
    ensures { Passed used (array_scan depth s.now at) places.old keys.old result places.new keys.new }
{
    if depth == 0 {
        return None;
    }
    let mut i = Cursor { at }.skip_indent(s).at;
    if peek(s, i) == b']' {
        return Some((Cursor { at: i + 1 }, false));
    }
    let mut bad = false;
    loop {
        let (d, inner) = value(s, i, depth - 1, places, keys, used)?;
        bad |= inner;
        match d.after_element(s)? {
            After::Item(e) => i = e.at,
            After::Close(e) => return Some((e, bad)),
        }
    }
}

// From past the opening brace.
#[cycle(array_object_value)]
#[tactic(auto, using(crate::proofs::PassLaws::object_zero, crate::proofs::PassLaws::object_empty, crate::proofs::PassLaws::kept_same, crate::proofs::PassLaws::passed))]
pub(crate) fn object(
    s: &[u8],
    at: usize,
    depth: usize,
    places: &mut [usize],
    keys: &mut [u32],
    used: usize,
) -> Option<(Cursor, bool)>
    requires names_room { NamesRoom depth s.now at used (length places.old) }
    requires names_room_2 { NamesRoom depth s.now at used (length keys.old) }
    ensures { Passed used (object_scan depth s.now at) places.old keys.old result places.new keys.new }
{
    if depth == 0 {
        return None;
    }
    let mut i = Cursor { at }.skip_indent(s).at;
    if peek(s, i) == b'}' {
        return Some((Cursor { at: i + 1 }, false));
    }
    let mut names = Names {
        count: 0,
        bad: false,
    };
    loop {
        let (v, key) = name_key(s, i)?;
        names = keep_name(s, i + 1, key, places, keys, used, names);
        let (d, inner) = value(s, v.at, depth - 1, places, keys, used + names.count)?;
        names.bad |= inner;
        match d.after_member(s)? {
            After::Item(e) => i = e.at,
            After::Close(e) => return Some((e, names.bad)),
        }
    }
}

// The whole text, with lent memory for the names of its open objects.
#[tactic(auto, using(crate::proofs::JudgeLaws::judge_none))]
pub(crate) fn judge_with(s: &[u8], places: &mut [usize], keys: &mut [u32]) -> Result<(), TextError>
    requires names_room { NamesRoom nesting s.now 1 0 (length places.old) }
    requires names_room_2 { NamesRoom nesting s.now 1 0 (length keys.old) }
    ensures { refusal_of result ≡ lowest (judge_rules s.now) }
{
    let start = Cursor { at: 0 }.skip_indent(s).at;
    let Some((c, bad)) = value(s, start, Limits::NESTING, places, keys, 0) else {
        return Err(TextError::NotJson);
    };
    if c.skip_indent(s).at < s.len() {
        return Err(TextError::NotJson);
    }
    if bad {
        return Err(TextError::BadMembers);
    }
    Ok(())
}
