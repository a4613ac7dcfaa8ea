ghost use Rattle.std.specs.Prelude.{◌≡◌, false, ◌≤◌, length};
ghost use Rattle.json_blocks.specs.Blocks.{ordinary_byte};
ghost use Rattle.json_blocks.specs.Lists.{all};
ghost use Rattle.sigmf_texts.specs.Texts.{name_text};
ghost use Rattle.sigmf_names.specs.Names.{core_of, type_at};
ghost use Rattle.sigmf_names.specs.Lookup.{lookup_answer};

use crate::decoded::{decoded_length, is_verbatim, put_decoded};
use crate::lookup::{annotation_type, capture_type, compare_names, core_count, global_type};
use crate::{NameLookup, Object};
use sigmf_values::FieldType;

// The longest core names have 20 bytes.
const LONGEST: usize = 20;

// The lookup of a name that stands for itself, or whose decoded text is not longer than the longest core names.
fn look_up_short(kind: Object, raw: &[u8], verbatim: bool) -> NameLookup
    requires verbatim_value { verbatim ≡ all ordinary_byte raw.now }
    requires raw_len_bound { verbatim ≡ false → length (name_text raw.now) ≤ 20 }
    ensures { result ≡ lookup_answer kind raw.now }
{
    let mut room = [0u8; LONGEST];
    let text = if verbatim {
        raw
    } else {
        let n = put_decoded(raw, &mut room);
        &room[..n]
    };
    compare_names(kind, text)
}

// The field with a name, and how many names were compared. A name with no escape is its own decoded text. Of another name the decoded length
// comes first: a text longer than all core names is not written to memory.
#[tactic(auto, using(crate::proofs::NameLaws::none_longer, crate::proofs::DecodedLaws::counted_long, crate::proofs::DecodedLaws::counted_short))]
pub fn look_up(kind: Object, raw: &[u8]) -> NameLookup
    ensures { result ≡ lookup_answer kind raw.now }
{
    let verbatim = is_verbatim(raw);
    if !verbatim && decoded_length(raw, LONGEST + 1) > LONGEST {
        return NameLookup {
            number: core_count(kind),
            compared: 0,
        };
    }
    look_up_short(kind, raw, verbatim)
}

// The type that the value of field i must have; any type past the last one.
pub fn field_type(kind: Object, i: usize) -> FieldType
    ensures { result ≡ type_at (core_of kind) i }
{
    match kind {
        Object::Global => global_type(i),
        Object::Capture => capture_type(i),
        Object::Annotation => annotation_type(i),
    }
}
