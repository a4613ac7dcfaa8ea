// One walk over the members of a global object, a capture or an annotation.
ghost use Rattle.std.specs.Prelude.{◌≡◌, cond, List, [], ◌∷◌, ◌<◌, ◌+◌, length};
ghost use Rattle.sigmf_values.specs.Values.{has_type};
ghost use Rattle.sigmf_names.specs.Names.{core_of, type_at};
ghost use Rattle.sigmf_extensions.specs.Extensions.{member_value};
ghost use Rattle.sigmf_objects.specs.Fields.{field_of, fields_at, close_at, number_in};
ghost use Rattle.sigmf_objects.specs.Places.{Clear, Noted, Measured, Within, size_as, walk_low};

use json_blocks::Cursor;
use json_walk::{Member, next_member};
use refusals::least;
use sigmf_names::Object;
use sigmf_names::names::{field_type, look_up};
use sigmf_texts::form::name_form;
use sigmf_values::FieldType;
use sigmf_values::value::{has_type, part_of, uint};

// The lower of 5 and 7 that the members give cause for, 0 for none, and where they end.
#[derive(Clone, Copy)]
pub(crate) struct Walked {
    pub(crate) low: u64,
    pub(crate) close: usize,
}

// What one member tells of 5 and 7, and its value's size.
#[derive(Clone, Copy)]
struct Sized {
    low: u64,
    size: u64,
}

// A value of a wanted type: 7 if it is of another.
fn value_sized(wanted: FieldType, part: &[u8]) -> Sized
    ensures low { result.low ≡ cond (has_type wanted part.now) 0 7 }
    ensures size { result.size ≡ size_as wanted part.now }
{
    match wanted {
        FieldType::Uint => match uint(part) {
            Some(size) => Sized { low: 0, size },
            None => Sized { low: 7, size: 0 },
        },
        _ => Sized {
            low: if has_type(wanted, part) { 0 } else { 7 },
            size: part.len() as u64,
        },
    }
}

// A member of field i: a known name has the form, and an unknown one takes any type.
fn member_sized(kind: Object, s: &[u8], m: Member, i: usize, known: usize) -> Sized
    requires i_value { i ≡ number_in (core_of kind) (field_of s.now m) }
    requires known_value { known ≡ length (core_of kind) }
    ensures low { result.low ≡ walk_low (core_of kind) (field_of s.now m ∷ []) }
    ensures size { i < known → result.size ≡ size_as (type_at (core_of kind) i) (member_value s.now m) }
{
    if known <= i {
        let form = name_form(part_of(s, m.name, m.quote));
        return Sized {
            low: if form.is_some() { 0 } else { 5 },
            size: 0,
        };
    }
    value_sized(field_type(kind, i), part_of(s, m.value, m.end))
}

// The members of the object at a place. Slot i of places becomes the place of field i's value, slot i of sizes its size, and both
// stay 0 without one; the last slots are those of unknown names.
pub(crate) fn find_fields(
    kind: Object,
    s: &[u8],
    at: usize,
    places: &mut [usize],
    sizes: &mut [u64],
) -> Walked
    requires places_len { length places.old ≡ length (core_of kind) + 1 }
    requires sizes_len { length sizes.old ≡ length (core_of kind) + 1 }
    requires clear { Clear places.old }
    requires clear_2 { Clear sizes.old }
    ensures low { result.low ≡ walk_low (core_of kind) (fields_at s.now at) }
    ensures close { result.close ≡ close_at s.now at }
    ensures noted { Noted s.now (core_of kind) (fields_at s.now at) places.new }
    ensures measured { Measured (core_of kind) (fields_at s.now at) sizes.new }
    ensures inside { Within s.now places.new }
    ensures places { length places.new ≡ length places.old }
    ensures sizes { length sizes.new ≡ length sizes.old }
{
    let known = places.len() - 1;
    if s.len() <= at {
        return Walked { low: 0, close: at };
    }
    let mut j = Cursor { at: at + 1 }.skip_indent(s).at;
    let mut low = 0;
    while let Some((m, next)) = next_member(s, j) {
        let i = look_up(kind, part_of(s, m.name, m.quote)).number;
        let sized = member_sized(kind, s, m, i, known);
        low = least(low, sized.low);
        places[i] = m.value;
        sizes[i] = sized.size;
        j = next;
    }
    Walked { low, close: j }
}
