// The members of the top level.
ghost use Rattle.std.specs.Prelude.{◌≡◌, true, ◌≤◌, ◌*◌, length};
ghost use Rattle.json_blocks.specs.TextBytes.{byte};
ghost use Rattle.json_grammar.specs.ByPlace.{is_json};
ghost use Rattle.json_grammar.specs.Skip.{skip_value};
ghost use Rattle.sigmf_texts.specs.Texts.{name_text};
ghost use Rattle.reader.specs.File.{top_at};
ghost use Rattle.reader.specs.Parts.{top_name, no_places, places_with, TopFound, begins, shaped};
ghost use Rattle.reader.specs.Parts.{entry_bytes, WasPassed, entry_size, EntriesRoom, GlobalIs, ArrayIs, PartsRead};

use crate::arrays::{Entry, read_array};
use crate::{ArrayRead, GlobalRead, TopName, TopPlaces, TopRead, TopStep};
use json_blocks::{Cursor, peek};
use json_names::text_is;
use json_walk::{next_item, next_name, skip_value};
use sigmf_objects::global::read_global;
use sigmf_values::value::part_of;
use table::{AnnotationEntry, CaptureEntry, Globals, Place};

// Which of the three names a raw one is.
#[tactic(auto, unfolding(crate::specs::Parts::top_name))]
fn top_name(name: &[u8]) -> TopName
    ensures { result ≡ top_name (name_text name.now) }
{
    if text_is(name, 0, b"global") {
        TopName::Global
    } else if text_is(name, 0, b"captures") {
        TopName::Captures
    } else if text_is(name, 0, b"annotations") {
        TopName::Annotations
    } else {
        TopName::Other
    }
}

pub(crate) fn no_globals() -> Globals {
    Globals {
        datatype: 0,
        channels: 0,
        offset: 0,
        trailing: 0,
        rate: Place { at: 0, len: 0 },
    }
}

// Nothing read.
fn no_top() -> TopRead
    ensures { result.places ≡ no_places }
{
    TopRead {
        places: TopPlaces {
            global: 0,
            captures: 0,
            annotations: 0,
        },
        global: GlobalRead {
            low: 4,
            globals: no_globals(),
            end: 0,
        },
        captures: ArrayRead {
            low: 4,
            count: 0,
            end: 0,
        },
        annotations: ArrayRead {
            low: 4,
            count: 0,
            end: 0,
        },
    }
}

// The value of global: 4 if it is no object.
fn read_globals(s: &[u8], at: usize) -> GlobalRead
    requires { WasPassed s.now at }
    ensures globals { GlobalIs s.now at result }
    ensures end { result.end ≡ skip_value s.now at }
{
    if peek(s, at) != b'{' {
        return GlobalRead {
            low: 4,
            globals: no_globals(),
            end: skip_value(s, at),
        };
    }
    let g = read_global(s, at);
    GlobalRead {
        low: g.low,
        globals: g.globals,
        end: g.close + 1,
    }
}

// The value of captures or annotations: 4 if it is no array.
fn read_list<E: Entry>(s: &[u8], at: usize, out: &mut [u64]) -> ArrayRead
    requires was_passed { WasPassed s.now at }
    requires s_bound { entry_size E.kind * length s.now ≤ entry_bytes * length out.old }
    ensures list { ArrayIs E.kind s.now at result out.new }
    ensures end { result.end ≡ skip_value s.now at }
{
    if peek(s, at) != b'[' {
        return ArrayRead {
            low: 4,
            count: 0,
            end: skip_value(s, at),
        };
    }
    read_array::<E>(s, at, out)
}

// The value at a place of a member with a name.
fn read_part(
    name: TopName,
    s: &[u8],
    at: usize,
    top: TopRead,
    caps: &mut [u64],
    notes: &mut [u64],
) -> TopStep
    requires was_passed { WasPassed s.now at }
    requires entries_room { EntriesRoom s.now caps.old notes.old }
    requires parts_read { PartsRead s.now top caps.old notes.old }
    ensures places { result.top.places ≡ places_with name at top.places }
    ensures parts { PartsRead s.now result.top caps.new notes.new }
    ensures end { result.end ≡ skip_value s.now at }
{
    let mut t = top;
    match name {
        TopName::Global => {
            let g = read_globals(s, at);
            t.places.global = at;
            t.global = g;
            TopStep { top: t, end: g.end }
        }
        TopName::Captures => {
            let c = read_list::<CaptureEntry>(s, at, caps);
            t.places.captures = at;
            t.captures = c;
            TopStep { top: t, end: c.end }
        }
        TopName::Annotations => {
            let a = read_list::<AnnotationEntry>(s, at, notes);
            t.places.annotations = at;
            t.annotations = a;
            TopStep { top: t, end: a.end }
        }
        TopName::Other => {
            TopStep {
                top: t,
                end: skip_value(s, at),
            }
        }
    }
}

// The members of the top level's object, each passed by its own end.
pub(crate) fn read_top(s: &[u8], at: usize, caps: &mut [u64], notes: &mut [u64]) -> TopRead
    requires s_value { is_json s.now ≡ true }
    requires at_value { at ≡ top_at s.now }
    requires at_value_2 { byte s.now at ≡ 0x7B }
    requires entries_room { EntriesRoom s.now caps.old notes.old }
    ensures found { TopFound s.now result.places }
    ensures parts { PartsRead s.now result caps.new notes.new }
{
    let mut j = Cursor { at: at + 1 }.skip_blanks(s).at;
    let mut top = no_top();
    while let Some(n) = next_name(s, j) {
        let name = part_of(s, n.name, n.quote);
        let r = read_part(top_name(name), s, n.value, top, caps, notes);
        top = r.top;
        j = next_item(s, r.end);
    }
    top
}

// The value at a place begins with a byte; none does at 0.
#[tactic(auto, unfolding(crate::specs::Parts::begins))]
fn is_begun(s: &[u8], b: u8, p: usize) -> bool
    ensures { result ≡ begins s.now b p }
{
    p != 0 && peek(s, p) == b
}

// 4: global is an object, captures and annotations are arrays.
pub(crate) fn is_shaped(s: &[u8], t: TopPlaces) -> bool
    ensures { result ≡ shaped s.now t }
{
    is_begun(s, b'{', t.global) && is_begun(s, b'[', t.captures) && is_begun(s, b'[', t.annotations)
}
