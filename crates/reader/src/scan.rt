// The parts of a text that is JSON: refusals 4 to 14, and what they say of samples.
ghost use Rattle.std.specs.Prelude.{◌≡◌, true};
ghost use Rattle.json_grammar.specs.ByPlace.{is_json};
ghost use Rattle.refusals.specs.Refusals.{lowest};
ghost use Rattle.reader_layout.specs.Entries.{stored_contents};
ghost use Rattle.reader.specs.File.{file_of};
ghost use Rattle.reader.specs.Reading.{part_rules, contents};
ghost use Rattle.reader.specs.Parts.{EntriesRoom, scanned_of};

use crate::top::{is_shaped, no_globals, read_top};
use crate::{Scanned, TopRead};
use json_blocks::{Cursor, peek};
use refusals::least;

// The three parts, each of its own shape, together.
fn together(top: TopRead) -> Scanned
    ensures { result ≡ scanned_of top }
{
    Scanned {
        low: least(least(top.global.low, top.captures.low), top.annotations.low),
        globals: top.global.globals,
        captures: top.captures.count,
        annotations: top.annotations.count,
    }
}

// 4, with nothing read.
fn no_parts() -> Scanned
    ensures { result.low ≡ 4 }
{
    Scanned {
        low: 4,
        globals: no_globals(),
        captures: 0,
        annotations: 0,
    }
}

pub(crate) fn scan(s: &[u8], caps: &mut [u64], notes: &mut [u64]) -> Scanned
    requires s_value { is_json s.now ≡ true }
    requires entries_room { EntriesRoom s.now caps.old notes.old }
    ensures low { result.low ≡ lowest (part_rules s.now (file_of s.now)) }
    ensures contents { result.low ≡ 0 → stored_contents result.globals caps.new result.captures notes.new result.annotations ≡ contents s.now }
{
    let at = Cursor { at: 0 }.skip_blanks(s).at;
    if peek(s, at) != b'{' {
        return no_parts();
    }
    let top = read_top(s, at, caps, notes);
    if is_shaped(s, top.places) {
        together(top)
    } else {
        no_parts()
    }
}
