ghost use Rattle.std.specs.Prelude.{◌≡◌, ◌+◌, ◌<◌, ◌≤◌, length};
ghost use Rattle.json_strings.specs.Decode.{decoded_from};
ghost use Rattle.json_names.specs.Plain.{alike};
ghost use Rattle.json_names.specs.Same.{same};

use crate::Places;
use json_blocks::blocks::{has_room, is_ordinary};

// How many bytes are compared at once.
const BLOCK: usize = 16;

// The same n bytes stand at two places, each for itself. No byte ends the loop, so that it is compiled to a comparison of them all.
#[tactic(auto, using(crate::proofs::PlainLaws::alike_on, crate::proofs::PlainLaws::alike_end))]
pub(crate) fn are_alike(s: &[u8], i: usize, t: &[u8], j: usize, n: usize) -> bool
    requires n_in_bounds { i + n ≤ length s.now }
    requires n_in_bounds_2 { j + n ≤ length t.now }
    ensures { result ≡ alike n s.now i t.now j }
{
    let mut ok = true;
    for k in 0..n {
        let x = s[i + k];
        let y = t[j + k];
        ok &= (x == y) & is_ordinary(x);
    }
    ok
}

// Past the bytes that two strings begin with alike, n at a time.
#[tactic(auto, using(crate::proofs::PlainLaws::all_alike))]
pub(crate) fn skip_alike(s: &[u8], a: usize, t: &[u8], b: usize, n: usize) -> Places
    requires { 0 < n }
    ensures { same (decoded_from s.now result.a) (decoded_from t.now result.b) ≡ same (decoded_from s.now a) (decoded_from t.now b) }
{
    let mut i = a;
    let mut j = b;
    while has_room(s, i, n) && has_room(t, j, n) && are_alike(s, i, t, j, n) {
        i += n;
        j += n;
    }
    Places { a: i, b: j }
}

// Past the bytes that two strings begin with alike, each of which stands for itself.
pub(crate) fn alike_prefix(s: &[u8], a: usize, t: &[u8], b: usize) -> Places
    ensures { same (decoded_from s.now result.a) (decoded_from t.now result.b) ≡ same (decoded_from s.now a) (decoded_from t.now b) }
{
    let p = skip_alike(s, a, t, b, BLOCK);
    skip_alike(s, p.a, t, p.b, 1)
}
