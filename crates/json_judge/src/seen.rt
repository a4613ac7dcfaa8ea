ghost use Rattle.std.specs.Prelude.{◌≡◌, ◌||◌, ℕ, ◌+◌, ◌≤◌, ◌<◌, length};
ghost use Rattle.limits.specs.Limits.{members};
ghost use Rattle.json_strings.specs.Decode.{decoded_from};
ghost use Rattle.json_names.specs.Same.{same};
ghost use Rattle.json_names.specs.Keys.{key_of, second_key_of};
ghost use Rattle.json_judge.specs.MemberNames.{has_name};
ghost use Rattle.json_judge.specs.Stack.{has_key, names_on, IsKey, KeysAgree, fresh_key, NameKept};

use crate::Names;
use json_names::{same_text, second_key};
use limits::Limits;

// The names at two places are the same. The two keys of the one and the key kept for the other tell most apart.
#[tactic(auto, using(crate::proofs::SeenLaws::keys_apart))]
pub(crate) fn same_name(s: &[u8], a: usize, key: u32, second: u32, b: usize, kept: u32) -> bool
    requires key_value { key ≡ key_of (decoded_from s.now a) }
    requires second_value { second ≡ second_key_of (decoded_from s.now a) }
    requires key { IsKey (decoded_from s.now b) kept }
    ensures { result ≡ same (decoded_from s.now a) (decoded_from s.now b) }
{
    if kept != key && kept != second {
        return false;
    }
    same_text(s, a, s, b)
}

// A key is among the keys. The loop leaves no earlier, so that it compares many keys at once.
#[tactic(auto, using(crate::proofs::SeenLaws::key_on, crate::proofs::SeenLaws::key_end))]
pub(crate) fn has_key(keys: &[u32], key: u32) -> bool
    ensures { result ≡ has_key key keys.now }
{
    let mut found = false;
    for k in keys {
        found |= *k == key;
    }
    found
}

// The name at a place is among the n that are kept from base on. The last of them is looked at first, so that a name that stands twice in a row
// is found at once.
#[tactic(auto, using(crate::proofs::SeenLaws::known_on, crate::proofs::SeenLaws::known_found, crate::proofs::SeenLaws::key_at), unfolding(crate::specs::MemberNames::has_name, crate::specs::Stack::names_on))]
pub(crate) fn is_among(
    s: &[u8],
    at: usize,
    key: u32,
    second: u32,
    places: &[usize],
    keys: &[u32],
    base: usize,
    n: usize,
) -> bool
    requires key_value { key ≡ key_of (decoded_from s.now at) }
    requires second_value { second ≡ second_key_of (decoded_from s.now at) }
    requires n_in_bounds { base + n ≤ length places.now }
    requires n_in_bounds_2 { base + n ≤ length keys.now }
    requires keys_agree { KeysAgree s.now places.now keys.now base n }
    ensures { result ≡ has_name (decoded_from s.now at) (names_on s.now places.now base n) }
{
    for k in (0..n).rev() {
        if same_name(s, at, key, second, places[base + k], keys[base + k]) {
            return true;
        }
    }
    false
}

// The name at a place is among the n that are kept from base on, or the key to keep for it. A look at the keys alone answers
// most. A name whose key is among them is kept by its second key, so that names that share a key alone are seldom compared.
#[tactic(auto, using(crate::proofs::SeenLaws::fresh_known, crate::proofs::SeenLaws::fresh_second, crate::proofs::SeenLaws::fresh_first))]
pub(crate) fn fresh_key(
    s: &[u8],
    at: usize,
    key: u32,
    places: &[usize],
    keys: &[u32],
    base: usize,
    n: usize,
) -> Option<u32>
    requires key_value { key ≡ key_of (decoded_from s.now at) }
    requires n_in_bounds { base + n ≤ length places.now }
    requires n_in_bounds_2 { base + n ≤ length keys.now }
    requires keys_agree { KeysAgree s.now places.now keys.now base n }
    ensures { result ≡ fresh_key s.now at places.now keys.now base n }
{
    if !has_key(&keys[base..base + n], key) {
        return Some(key);
    }
    let second = second_key(s, at);
    if is_among(s, at, key, second, places, keys, base, n) {
        return None;
    }
    Some(second)
}

// Keeps the name at a place after the n from base on, where it is not among them and n is below the limit, and counts it;
// notes it as bad otherwise.
#[tactic(auto, using(crate::proofs::SeenLaws::name_over, crate::proofs::SeenLaws::name_known, crate::proofs::SeenLaws::name_new))]
pub(crate) fn keep_name(
    s: &[u8],
    at: usize,
    key: u32,
    places: &mut [usize],
    keys: &mut [u32],
    base: usize,
    names: Names,
) -> Names
    requires key_value { key ≡ key_of (decoded_from s.now at) }
    requires count_in_bounds { names.count < members → base + names.count < length places.old }
    requires count_in_bounds_2 { names.count < members → base + names.count < length keys.old }
    requires count_le_members { names.count ≤ members }
    requires keys_agree { KeysAgree s.now places.old keys.old base names.count }
    ensures { NameKept s.now at base names places.old keys.old result places.new keys.new }
{
    let n = names.count;
    let refused = Names { bad: true, ..names };
    if Limits::MEMBERS <= n {
        return refused;
    }
    let Some(kept) = fresh_key(s, at, key, places, keys, base, n) else {
        return refused;
    };
    places[base + n] = at;
    keys[base + n] = kept;
    Names {
        count: n + 1,
        ..names
    }
}
