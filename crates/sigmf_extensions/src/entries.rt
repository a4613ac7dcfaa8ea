// The entries of core:extensions.
ghost use Rattle.std.specs.Prelude.{◌≡◌};
ghost use Rattle.refusals.specs.Refusals.{lowest};
ghost use Rattle.sigmf_extensions.specs.Extensions.{extension_refusal, entries_at, entries_rules};

use crate::Extension;
use crate::entry::extension;
use json_blocks::Cursor;
use json_walk::next_element;
use refusals::least;
use sigmf_values::value::part_of;

fn entry_low(x: Extension) -> u64
    ensures { result ≡ extension_refusal x }
{
    match x {
        Extension::Malformed => 12,
        Extension::Needed => 13,
        Extension::Ignored => 0,
    }
}

// The lower of 12 and 13 that the entries of the array at a place give cause for, 0 for none.
#[tactic(auto, using(crate::proofs::EntriesLaws::entry_past, crate::proofs::EntriesLaws::entries_over, crate::proofs::EntriesLaws::entries_begin, crate::proofs::EntriesLaws::entries_past, crate::proofs::EntriesLaws::entries_are))]
pub fn entries_refusal(s: &[u8], at: usize) -> u64
    ensures { result ≡ lowest (entries_rules (entries_at s.now at)) }
{
    if s.len() <= at {
        return 0;
    }
    let mut i = Cursor { at: at + 1 }.skip_blanks(s).at;
    let mut low = 0u64;
    while let Some((e, next)) = next_element(s, i) {
        let x = extension(part_of(s, e.at, e.end));
        low = least(low, entry_low(x));
        i = next;
    }
    low
}
