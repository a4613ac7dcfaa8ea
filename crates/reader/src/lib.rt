// The reader: the bytes of a metadata file and the length of its dataset to a table.
#![tactic(auto)]

mod arrays;
mod scan;
mod top;

ghost use Rattle.std.specs.Prelude.{◌≡◌, ◌<◌, ◌^◌, length};
ghost use Rattle.refusals.specs.Refusals.{lowest};
ghost use Rattle.reader.specs.Reading.{bad_length, text_rules, judged_recording, read_answer, captures_read, annotations_read};
ghost use Rattle.reader.specs.Parts.{HasRoom, EntriesRoom};

use limits::Limits;
use reader_layout::lay;
use table::{AnnotationEntry, CaptureEntry, Globals, Summary, no_table};

// The places of the top level's members; 0 stands for none.
#[derive(Clone, Copy)]
pub(crate) struct TopPlaces {
    pub(crate) global: usize,
    pub(crate) captures: usize,
    pub(crate) annotations: usize,
}

// The lowest number that an object gives cause for, 0 for none, and where its closing brace stands.
#[derive(Clone, Copy)]
pub(crate) struct ObjectRead {
    pub(crate) low: u64,
    pub(crate) close: usize,
}

// The same of an element of an array, and the place past it.
#[derive(Clone, Copy)]
pub(crate) struct ElementRead {
    pub(crate) low: u64,
    pub(crate) end: usize,
}

// The same of a whole array, and how many elements it has.
#[derive(Clone, Copy)]
pub(crate) struct ArrayRead {
    pub(crate) low: u64,
    pub(crate) count: usize,
    pub(crate) end: usize,
}

// The same of the global object, and what it says.
#[derive(Clone, Copy)]
pub(crate) struct GlobalRead {
    pub(crate) low: u64,
    pub(crate) globals: Globals,
    pub(crate) end: usize,
}

// The names of the top level.
#[derive(Clone, Copy)]
pub(crate) enum TopName {
    Global,
    Captures,
    Annotations,
    Other,
}

// The members of the top level that were read so far: the places of the three, and what was read there.
#[derive(Clone, Copy)]
pub(crate) struct TopRead {
    pub(crate) places: TopPlaces,
    pub(crate) global: GlobalRead,
    pub(crate) captures: ArrayRead,
    pub(crate) annotations: ArrayRead,
}

// The same after one member more, and the place past its value.
#[derive(Clone, Copy)]
pub(crate) struct TopStep {
    pub(crate) top: TopRead,
    pub(crate) end: usize,
}

// The lowest of 4 to 14 that the parts of a text give cause for, 0 for none; what they say, with how many entries are kept.
#[derive(Clone, Copy)]
pub(crate) struct Scanned {
    pub(crate) low: u64,
    pub(crate) globals: Globals,
    pub(crate) captures: usize,
    pub(crate) annotations: usize,
}

// The fewest bytes of the text that an entry takes.
const ENTRY_BYTES: usize = 20;

// The longest short text.
const SHORT: usize = 4096;

// Memory for the entries of a short text, and for those of any.
const FEW_CAPTURES: usize = (SHORT / ENTRY_BYTES + 1) * CaptureEntry::WIDTH;

const FEW_ANNOTATIONS: usize = (SHORT / ENTRY_BYTES + 1) * AnnotationEntry::WIDTH;

const ALL_CAPTURES: usize = Limits::METADATA / ENTRY_BYTES * CaptureEntry::WIDTH;

const ALL_ANNOTATIONS: usize = Limits::METADATA / ENTRY_BYTES * AnnotationEntry::WIDTH;

// 1: the metadata is empty or too long, or the dataset is.
#[tactic(auto, unfolding(crate::specs::Reading::bad_length))]
fn is_bad_length(s: &[u8], d: u64) -> bool
    ensures { result ≡ bad_length s.now d }
{
    s.is_empty() || s.len() > Limits::METADATA || d > Limits::DATASET
}

// 1 to 3.
fn text_refusal(s: &[u8], d: u64) -> u64
    ensures { result ≡ lowest (text_rules s.now d) }
{
    if is_bad_length(s, d) {
        return 1;
    }
    match json_judge::judge(s) {
        Ok(()) => 0,
        Err(e) => e.refusal(),
    }
}

// A metadata file and the length of its dataset to a summary, without rows.
pub fn judge(s: &[u8], d: u64) -> Summary
    ensures { result ≡ judged_recording s.now d }
{
    let n = text_refusal(s, d);
    if n != 0 {
        return no_table(n);
    }
    if s.len() <= SHORT {
        judge_in::<FEW_CAPTURES, FEW_ANNOTATIONS>(s, d)
    } else {
        judge_in::<ALL_CAPTURES, ALL_ANNOTATIONS>(s, d)
    }
}

// The same with memory for so many numbers of captures and of annotations.
fn judge_in<const CAPTURES: usize, const ANNOTATIONS: usize>(s: &[u8], d: u64) -> Summary
    requires d_value { lowest (text_rules s.now d) ≡ 0 }
    requires room { HasRoom s.now CAPTURES ANNOTATIONS }
    requires sizes { (CAPTURES < 2 ^ 60) × (ANNOTATIONS < 2 ^ 60) }
    ensures { result ≡ judged_recording s.now d }
{
    let mut caps = [0u64; CAPTURES];
    let mut notes = [0u64; ANNOTATIONS];
    judge_with(s, d, &mut caps, &mut notes)
}

fn judge_with(s: &[u8], d: u64, caps: &mut [u64], notes: &mut [u64]) -> Summary
    requires d_value { lowest (text_rules s.now d) ≡ 0 }
    requires entries_room { EntriesRoom s.now caps.old notes.old }
    ensures { result ≡ judged_recording s.now d }
{
    let x = scan::scan(s, caps, notes);
    if x.low != 0 {
        return no_table(x.low);
    }
    reader_layout::summary(x.globals, caps, x.captures, notes, x.annotations, d)
}

// A metadata file and the length of its dataset to a summary and rows, written to the front of rows and anns.
pub fn read(s: &[u8], d: u64, rows: &mut [u64], anns: &mut [u64]) -> Summary
    ensures answer { result ≡ read_answer s.now d rows.old anns.old }
    ensures captures { rows.new ≡ captures_read s.now d rows.old anns.old }
    ensures annotations { anns.new ≡ annotations_read s.now d rows.old anns.old }
{
    let n = text_refusal(s, d);
    if n != 0 {
        return no_table(n);
    }
    if s.len() <= SHORT {
        read_in::<FEW_CAPTURES, FEW_ANNOTATIONS>(s, d, rows, anns)
    } else {
        read_in::<ALL_CAPTURES, ALL_ANNOTATIONS>(s, d, rows, anns)
    }
}

// The same with memory for so many numbers of captures and of annotations.
fn read_in<const CAPTURES: usize, const ANNOTATIONS: usize>(
    s: &[u8],
    d: u64,
    rows: &mut [u64],
    anns: &mut [u64],
) -> Summary
    requires d_value { lowest (text_rules s.now d) ≡ 0 }
    requires room { HasRoom s.now CAPTURES ANNOTATIONS }
    requires sizes { (CAPTURES < 2 ^ 60) × (ANNOTATIONS < 2 ^ 60) }
    ensures answer { result ≡ read_answer s.now d rows.old anns.old }
    ensures captures { rows.new ≡ captures_read s.now d rows.old anns.old }
    ensures annotations { anns.new ≡ annotations_read s.now d rows.old anns.old }
{
    let mut caps = [0u64; CAPTURES];
    let mut notes = [0u64; ANNOTATIONS];
    read_with(s, d, &mut caps, &mut notes, rows, anns)
}

fn read_with(
    s: &[u8],
    d: u64,
    caps: &mut [u64],
    notes: &mut [u64],
    rows: &mut [u64],
    anns: &mut [u64],
) -> Summary
    requires d_value { lowest (text_rules s.now d) ≡ 0 }
    requires entries_room { EntriesRoom s.now caps.old notes.old }
    ensures answer { result ≡ read_answer s.now d rows.old anns.old }
    ensures captures { rows.new ≡ captures_read s.now d rows.old anns.old }
    ensures annotations { anns.new ≡ annotations_read s.now d rows.old anns.old }
{
    let x = scan::scan(s, caps, notes);
    if x.low != 0 {
        return no_table(x.low);
    }
    lay(
        x.globals,
        caps,
        x.captures,
        notes,
        x.annotations,
        d,
        rows,
        anns,
    )
}
