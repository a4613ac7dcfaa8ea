// Refusal numbers: the lower of two, where 0 is none.
#![tactic(auto)]

ghost use Rattle.std.specs.Prelude.{◌≡◌};
ghost use Rattle.refusals.specs.Refusals.{least};

#[tactic(auto, unfolding(crate::specs::Refusals::least))]
pub fn least(a: u64, b: u64) -> u64
    ensures { result ≡ least a b }
{
    if a == 0 || (b != 0 && b < a) { b } else { a }
}
