// What the value at a noted place says. The place 0 stands for no value.
ghost use Rattle.std.specs.Prelude.{◌≡◌, cond, ◌+◌, eqb};
ghost use Rattle.sigmf_values.specs.Values.{part_of};

use sigmf_values::value::part_of;

// The part of n bytes at a place, as far as the text goes.
pub(crate) fn sized_part(s: &[u8], place: usize, n: u64) -> &[u8]
    ensures { result.now ≡ part_of s.now place (place + n) }
{
    part_of(s, place, place.saturating_add(n as usize))
}

// The uint at a place, whose number is n, or z without a value.
pub(crate) fn uint_or(z: u64, place: usize, n: u64) -> u64
    ensures { result ≡ cond (eqb place 0) z n }
{
    if place == 0 { z } else { n }
}
