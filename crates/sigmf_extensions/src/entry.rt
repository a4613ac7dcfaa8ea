ghost use Rattle.std.specs.Prelude.{◌≡◌, ◌<◌, ◌≤◌, ◌+◌};
ghost use Rattle.sigmf_extensions.specs.Extensions.{class_of, counted, tally_of, needed_if, judged, extension_refusal, extension_rules};
ghost use Rattle.refusals.specs.Refusals.{lowest};

use crate::{EntryMember, Extension, Tally};
use json_blocks::Cursor;
use json_names::text_is;
use json_walk::{Member, next_member};
use sigmf_values::FieldType;
use sigmf_values::value::{has_type, is_true, part_of};

// What a member of an entry is.
#[tactic(auto, unfolding(crate::specs::Extensions::class_of))]
pub(crate) fn entry_member(part: &[u8], m: Member) -> EntryMember
    ensures { result ≡ class_of part.now m }
{
    let name = part_of(part, m.name, m.quote);
    let value = part_of(part, m.value, m.end);
    if text_is(name, 0, b"name") {
        if has_type(FieldType::Text, value) {
            EntryMember::Name
        } else {
            EntryMember::Other
        }
    } else if text_is(name, 0, b"version") {
        if has_type(FieldType::Text, value) {
            EntryMember::Version
        } else {
            EntryMember::Other
        }
    } else if text_is(name, 0, b"optional") && has_type(FieldType::Boolean, value) {
        if is_true(value) {
            EntryMember::OptionalTrue
        } else {
            EntryMember::OptionalFalse
        }
    } else {
        EntryMember::Other
    }
}

// One member more. No count is above the place n.
pub(crate) fn count(t: Tally, class: EntryMember, n: usize) -> Tally
    requires others_bound { t.names + t.versions + t.optionals + t.others ≤ n }
    requires trues_le_optionals { t.trues ≤ t.optionals }
    requires n_bound { n < 18446744073709551615 }
    ensures { result ≡ counted t class }
{
    match class {
        EntryMember::Name => Tally {
            names: t.names + 1,
            ..t
        },
        EntryMember::Version => Tally {
            versions: t.versions + 1,
            ..t
        },
        EntryMember::OptionalTrue => Tally {
            optionals: t.optionals + 1,
            trues: t.trues + 1,
            ..t
        },
        EntryMember::OptionalFalse => Tally {
            optionals: t.optionals + 1,
            ..t
        },
        EntryMember::Other => Tally {
            others: t.others + 1,
            ..t
        },
    }
}

// How many members of each class an entry has.
#[tactic(auto, using(crate::proofs::ExtensionLaws::tally_end, crate::proofs::ExtensionLaws::step_on))]
pub(crate) fn tally(part: &[u8]) -> Tally
    ensures { result ≡ tally_of part.now }
{
    let mut at = Cursor { at: 1 }.skip_blanks(part).at;
    let mut t = Tally {
        names: 0,
        versions: 0,
        optionals: 0,
        trues: 0,
        others: 0,
    };
    while let Some((m, next)) = next_member(part, at) {
        t = count(t, entry_member(part, m), at);
        at = next;
    }
    t
}

// Whether an extension with this value of optional is needed.
pub(crate) fn is_needed(optional: bool) -> bool
    ensures { result ≡ needed_if optional }
{
    !optional
}

#[tactic(auto, unfolding(crate::specs::Extensions::judged))]
pub(crate) fn judge(t: Tally) -> Extension
    ensures { result ≡ judged t }
{
    if t.names == 1 && t.versions == 1 && t.optionals == 1 && t.others == 0 {
        if is_needed(t.trues == 1) {
            Extension::Needed
        } else {
            Extension::Ignored
        }
    } else {
        Extension::Malformed
    }
}

// What an entry of core:extensions is.
#[tactic(auto, unfolding(crate::specs::Extensions::judged, refusals::specs::Refusals::lowest))]
pub fn extension(part: &[u8]) -> Extension
    ensures { extension_refusal result ≡ lowest (extension_rules part.now) }
{
    if has_type(FieldType::Object, part) {
        judge(tally(part))
    } else {
        Extension::Malformed
    }
}
