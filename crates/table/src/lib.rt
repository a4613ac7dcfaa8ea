// A table of a recording: its summary, its rows in lent flat memory, whether it is well formed, and the place of a sample.
#![tactic(auto)]

pub mod bytes;
mod rows;

ghost use Rattle.std.specs.Prelude.{◌≡◌, true, false, [], ℕ, ◌+◌, ◌-◌, ◌*◌, ◌^◌, ◌<◌, ◌≤◌, length};
ghost use Rattle.limits.specs.Limits.{dataset};
ghost use Rattle.table.specs.Memory.{put_row};
ghost use Rattle.table.specs.Rows.{capture_width, capture_numbers, capture_at, annotation_width, annotation_numbers, annotation_at, rest, captures, annotations, table};
ghost use Rattle.table.specs.Samples.{header_sum, next_start, headers_to};
ghost use Rattle.table.specs.Place.{ends_within};
ghost use Rattle.table.specs.Table.{own_entries, texts_ok, format_ok, well_formed, no_table};
ghost use Rattle.table.specs.Judge.{capture_ok, captures_ok, annotation_ok, annotations_ok, numbers_ok, layout_ok, summed, Laid};
ghost use Rattle.table.specs.Locate.{is_sample, place_in, locate_answer};

use limits::Limits;

// Where a text stands in the metadata, and how many bytes it has; 0, 0 if it is absent.
#[repr(C)]
#[derive(Clone, Copy)]
pub struct Place {
    pub at: u64,
    pub len: u64,
}

// The texts of an annotation: the raw label between its quotes.
#[derive(Clone, Copy)]
pub struct Texts {
    pub label: Place,
}

// The twelve numbers of a table. C gets them, so the refusal and the datatype are numbers here.
#[repr(C)]
#[derive(Clone, Copy)]
pub struct Summary {
    pub refusal: u64,
    pub datatype: u64,
    pub channels: u64,
    pub width: u64,
    pub offset: u64,
    pub trailing: u64,
    pub samples: u64,
    pub size: u64,
    pub captures: u64,
    pub annotations: u64,
    pub rate: Place,
}

// A capture's row.
#[derive(Clone, Copy)]
pub struct Capture {
    pub start: u64,
    pub end: u64,
    pub first: u64,
    pub header: u64,
}

impl Capture {
    // The numbers of a row.
    pub const WIDTH: usize = 4;
}

// An annotation's row.
#[derive(Clone, Copy)]
pub struct Annotation {
    pub start: u64,
    pub end: u64,
    pub texts: Texts,
}

impl Annotation {
    // The numbers of a row.
    pub const WIDTH: usize = 4;
}

// What the global object says.
#[derive(Clone, Copy)]
pub struct Globals {
    pub datatype: u64,
    pub channels: u64,
    pub offset: u64,
    pub trailing: u64,
    pub rate: Place,
}

// What a capture says of its samples.
#[derive(Clone, Copy)]
pub struct CaptureEntry {
    pub start: u64,
    pub header: u64,
}

impl CaptureEntry {
    // The numbers of an entry in flat memory.
    pub const WIDTH: usize = 2;
}

// What an annotation says of its samples, and where its texts stand.
#[derive(Clone, Copy)]
pub struct AnnotationEntry {
    pub start: u64,
    pub count: Option<u64>,
    pub texts: Texts,
}

impl AnnotationEntry {
    // The numbers of an entry in flat memory.
    pub const WIDTH: usize = 5;
}

// How many pieces or bytes were written, or why none, in numbers for C.
#[repr(C)]
#[derive(Clone, Copy)]
pub struct Wrote {
    pub refusal: u64,
    pub count: u64,
}

// Where a sample starts, or why not, in numbers for C.
#[repr(C)]
#[derive(Clone, Copy)]
pub struct Located {
    pub refusal: u64,
    pub byte: u64,
}

// A refusal: its number and zeros.
pub fn no_table(n: u64) -> Summary
    ensures { result ≡ no_table n }
{
    Summary {
        refusal: n,
        datatype: 0,
        channels: 0,
        width: 0,
        offset: 0,
        trailing: 0,
        samples: 0,
        size: 0,
        captures: 0,
        annotations: 0,
        rate: Place { at: 0, len: 0 },
    }
}

// Capture row i; zeros if the memory has no whole row i.
pub fn capture_at(rows: &[u64], i: usize) -> Capture
    ensures { result ≡ capture_at rows.now i }
{
    rows::capture_at(rows, i)
}

// Annotation row i; zeros if the memory has no whole row i.
pub fn annotation_at(rows: &[u64], i: usize) -> Annotation
    ensures { result ≡ annotation_at rows.now i }
{
    rows::annotation_at(rows, i)
}

// A capture written as row i, if the memory has a whole row i.
pub fn put_capture(out: &mut [u64], i: usize, x: Capture)
    ensures { out.new ≡ put_row capture_width out.old i (capture_numbers x) }
{
    if i < out.len() / Capture::WIDTH {
        let p = Capture::WIDTH * i;
        out[p] = x.start;
        out[p + 1] = x.end;
        out[p + 2] = x.first;
        out[p + 3] = x.header;
    }
}

// An annotation written as row i, if the memory has a whole row i.
pub fn put_annotation(out: &mut [u64], i: usize, x: Annotation)
    ensures { out.new ≡ put_row annotation_width out.old i (annotation_numbers x) }
{
    if i < out.len() / Annotation::WIDTH {
        let p = Annotation::WIDTH * i;
        out[p] = x.start;
        out[p + 1] = x.end;
        out[p + 2] = x.texts.label.at;
        out[p + 3] = x.texts.label.len;
    }
}

// One capture in order, that ends at next and has its first byte past h header bytes.
#[tactic(auto, unfolding(crate::specs::Judge::capture_ok))]
pub(crate) fn capture_ok(x: Capture, o: u64, e: u64, w: u64, s: u64, h: u64, next: u64) -> bool
    requires { (o ≤ s) × ((e - o) * w + h < 2 ^ 63) }
    ensures { result ≡ capture_ok o e w s h next x }
{
    x.start >= s && x.start <= e && x.end == next && x.first == (x.start - o) * w + h
}

// The bytes of samples and trailer, if they fit the dataset.
#[tactic(auto, using(crate::proofs::TableLaws::fixed_over))]
pub(crate) fn fixed_bytes(t: Summary) -> Option<u64>
    requires { t.size ≤ dataset }
    ensures { result ≡ summed true t.size (t.trailing + t.samples * t.width) }
{
    let data = t.samples.checked_mul(t.width)?;
    let total = t.trailing.checked_add(data)?;
    (total <= t.size).then_some(total)
}

// A text place ends within the longest metadata.
#[tactic(auto, unfolding(crate::specs::Place::ends_within))]
fn ends_within(p: Place) -> bool
    ensures { result ≡ ends_within p }
{
    let most = Limits::METADATA as u64;
    p.at <= most && p.len <= most - p.at
}

// The texts of an annotation have places.
#[tactic(auto, unfolding(crate::specs::Table::texts_ok))]
fn texts_ok(x: Texts) -> bool
    ensures { result ≡ texts_ok x }
{
    ends_within(x.label)
}

// One annotation in order, that ends at e at most, with places for its texts.
#[tactic(auto, unfolding(crate::specs::Judge::annotation_ok))]
pub(crate) fn annotation_ok(x: Annotation, e: u64, s: u64) -> bool
    ensures { result ≡ annotation_ok e s x }
{
    x.start >= s && x.end >= x.start && x.end <= e && texts_ok(x.texts)
}

// The code is listed, the channels are allowed, and the width follows from both.
#[tactic(auto, using(crate::proofs::TableLaws::format_none, crate::proofs::TableLaws::format_same))]
fn format_ok(t: Summary) -> bool
    ensures { result ≡ format_ok t }
{
    let w = sigmf_datatypes::sample_bytes(t.datatype, t.channels);
    w != 0 && t.width == w
}

// The summary's own numbers.
#[tactic(auto, unfolding(crate::specs::Judge::numbers_ok))]
pub(crate) fn numbers_ok(t: Summary) -> bool
    ensures { result ≡ numbers_ok t }
{
    t.refusal == 0
        && format_ok(t)
        && t.size <= Limits::DATASET
        && t.samples <= u64::MAX - t.offset
        && ends_within(t.rate)
}

// The table is well formed.
pub fn well_formed(t: Summary, caps: &[u64], notes: &[u64]) -> bool
    ensures { result ≡ well_formed (table t caps.now notes.now) }
{
    rows::well_formed(t, caps, notes)
}

// The headers of all captures, of n, that start at i or before.
#[tactic(auto, using(crate::proofs::LocateLaws::headers_le, crate::proofs::LocateLaws::headers_next, crate::proofs::LocateLaws::headers_none))]
fn headers_to(caps: &[u64], n: usize, i: u64) -> u64
    requires { header_sum (own_entries (captures caps.now n)) < 2 ^ 63 }
    ensures { result ≡ headers_to (captures caps.now n) i }
{
    let mut h = 0;
    for k in 0..n {
        let x = capture_at(caps, k);
        if x.start <= i {
            h += x.header;
        }
    }
    h
}

// The bytes of samples o to i, of w bytes each.
fn bytes_before(i: u64, o: u64, w: u64) -> u64
    requires { (o ≤ i) × ((i - o) * w < 2 ^ 63) }
    ensures { result ≡ (i - o) * w }
{
    (i - o) * w
}

// Where sample i of a well-formed table starts.
pub(crate) fn sample_place(t: Summary, caps: &[u64], i: u64) -> u64
    requires { Laid t caps.now × (is_sample t i ≡ true) }
    ensures { result ≡ place_in (table t caps.now []) i }
{
    let h = headers_to(caps, t.captures as usize, i);
    bytes_before(i, t.offset, t.width) + h
}

// Sample i is in the recording.
#[tactic(auto, unfolding(crate::specs::Locate::is_sample))]
pub(crate) fn is_sample(t: Summary, i: u64) -> bool
    requires { t.offset + t.samples < 2 ^ 64 }
    ensures { result ≡ is_sample t i }
{
    t.offset <= i && i < t.offset + t.samples
}

// Where sample i starts.
#[tactic(auto, unfolding(crate::specs::Locate::locate_answer))]
pub fn locate(t: Summary, caps: &[u64], notes: &[u64], i: u64) -> Located
    ensures { result ≡ locate_answer (table t caps.now notes.now) i }
{
    if !well_formed(t, caps, notes) {
        return Located {
            refusal: 18,
            byte: 0,
        };
    }
    if !is_sample(t, i) {
        return Located {
            refusal: 19,
            byte: 0,
        };
    }
    Located {
        refusal: 0,
        byte: sample_place(t, caps, i),
    }
}
