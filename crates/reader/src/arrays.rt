// The elements of captures and annotations, read into flat memory.
ghost use Rattle.std.specs.Prelude.{◌≡◌, ◌≤◌, ◌*◌, length};
ghost use Rattle.json_blocks.specs.TextBytes.{byte, to};
ghost use Rattle.json_grammar.specs.ByPlace.{value_at};
ghost use Rattle.json_walk.specs.Members.{elements_at};
ghost use Rattle.table.specs.Memory.{put_row};
ghost use Rattle.sigmf_objects.specs.Fields.{close_at};
ghost use Rattle.reader.specs.Kind.{Kind};
ghost use Rattle.reader.specs.Kind as K;
ghost use Rattle.reader.specs.Parts.{top_levels, array_levels, entry_bytes, WasRead, entry_size, object_low, object_numbers, element_low, element_end, element_put, array_low, EntriesKept};

use crate::{ArrayRead, ElementRead, ObjectRead};
use json_blocks::{Cursor, peek};
use json_walk::{next_item, skip_value};
use reader_layout::{put_entry, put_note};
use refusals::least;
use sigmf_objects::annotation::read_annotation;
use sigmf_objects::capture::read_capture;
use table::{AnnotationEntry, CaptureEntry};

// What an array holds.
pub(crate) trait Entry {
    ghost kind: { Kind };

    // The object at a place, kept as entry n, if the memory has one.
    fn read_object(s: &[u8], at: usize, out: &mut [u64], n: usize) -> ObjectRead
        ensures low { result.low ≡ object_low kind s.now at }
        ensures close { result.close ≡ close_at s.now at }
        ensures memory { out.new ≡ put_row (entry_size kind) out.old n (object_numbers kind s.now at) };
}

impl Entry for CaptureEntry {
    ghost kind = { K.Capture };

    #[tactic(auto, unfolding(sigmf_objects::specs::Capture::read_capture))]
    fn read_object(s: &[u8], at: usize, out: &mut [u64], n: usize) -> ObjectRead {
        let c = read_capture(s, at);
        put_entry(out, n, c.entry);
        ObjectRead {
            low: c.low,
            close: c.close,
        }
    }
}

impl Entry for AnnotationEntry {
    ghost kind = { K.Annotation };

    #[tactic(auto, unfolding(sigmf_objects::specs::Annotation::read_annotation))]
    fn read_object(s: &[u8], at: usize, out: &mut [u64], n: usize) -> ObjectRead {
        let a = read_annotation(s, at);
        put_note(out, n, a.entry);
        ObjectRead {
            low: a.low,
            close: a.close,
        }
    }
}

// The element at a place.
fn read_element<E: Entry>(s: &[u8], at: usize, out: &mut [u64], n: usize) -> ElementRead
    requires { WasRead array_levels s.now at }
    ensures low { result.low ≡ element_low E.kind s.now at }
    ensures end { result.end ≡ element_end s.now at }
    ensures memory { out.new ≡ element_put E.kind s.now at out.old n }
{
    if peek(s, at) != b'{' {
        return ElementRead {
            low: 4,
            end: skip_value(s, at),
        };
    }
    let r = E::read_object(s, at, out, n);
    ElementRead {
        low: r.low,
        end: r.close + 1,
    }
}

// The array at a place. An entry that counts takes `entry_bytes` of the text, so that the memory has room for all.
pub(crate) fn read_array<E: Entry>(s: &[u8], at: usize, out: &mut [u64]) -> ArrayRead
    requires was_read { WasRead top_levels s.now at }
    requires at_value { byte s.now at ≡ 0x5B }
    requires s_bound { entry_size E.kind * length s.now ≤ entry_bytes * length out.old }
    ensures low { result.low ≡ array_low E.kind s.now (elements_at s.now at) }
    ensures kept { result.low ≡ 0 → EntriesKept E.kind s.now (elements_at s.now at) out.new result.count }
    ensures end { value_at top_levels s.now at ≡ to result.end }
{
    let mut p = Cursor { at: at + 1 }.skip_blanks(s).at;
    let mut count = 0;
    let mut low = 0;
    while peek(s, p) != b']' {
        let e = read_element::<E>(s, p, out, count);
        low = least(low, e.low);
        count += 1;
        p = next_item(s, e.end);
    }
    ArrayRead {
        low,
        count,
        end: p + 1,
    }
}
