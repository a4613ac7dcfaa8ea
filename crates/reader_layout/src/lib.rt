// Where the samples of a recording lie, from the numbers of its metadata and the length of its dataset: refusals 15 to 17, rows, summary.
#![tactic(auto)]

mod entries;

ghost use Rattle.std.specs.Prelude.{◌≡◌, true, ◌&&◌, ℕ, ◌+◌, ◌-◌, ◌*◌, ◌^◌, ◌<◌, ◌≤◌, min, leb, length, map};
ghost use Rattle.limits.specs.Limits.{dataset};
ghost use Rattle.refusals.specs.Refusals.{lowest};
ghost use Rattle.table.specs.Memory.{written, put_row};
ghost use Rattle.table.specs.Rows.{capture_width, capture_numbers, annotation_width, annotation_numbers, rest, flat};
ghost use Rattle.reader_layout.specs.Layout.{format_rules, judged_layout, layout_answer, captures_after, annotations_after};
ghost use Rattle.table.specs.Samples.{next_start, capture_rows, note_end, annotation_row, ascending, note_ok, all_entries, all_notes, header_sum};
ghost use Rattle.reader_layout.specs.Entries.{entry_width, entry_numbers, entry_at, count_given, count_number, stored_count, note_width, note_numbers, note_at, capture_entries, annotation_entries, stored_contents};
ghost use Rattle.reader_layout.specs.Stages.{capture_starts, note_starts, whole_in, inside_ok, accepted_summary, CapturesFit, captures_written, AnnotationsFit};

use entries::{ascend, lie_inside};
use limits::Limits;
use table::{
    Annotation, AnnotationEntry, Capture, CaptureEntry, Globals, Place, Summary, Texts, no_table,
};

// Capture entry i; zeros if the memory has no whole entry i.
pub fn entry_at(m: &[u64], i: usize) -> CaptureEntry
    ensures { result ≡ entry_at m.now i }
{
    if i < m.len() / CaptureEntry::WIDTH {
        let p = CaptureEntry::WIDTH * i;
        return CaptureEntry {
            start: m[p],
            header: m[p + 1],
        };
    }
    CaptureEntry {
        start: 0,
        header: 0,
    }
}

// A capture written as entry i, if the memory has a whole entry i.
pub fn put_entry(out: &mut [u64], i: usize, e: CaptureEntry)
    ensures { out.new ≡ put_row entry_width out.old i (entry_numbers e) }
{
    if i < out.len() / CaptureEntry::WIDTH {
        let p = CaptureEntry::WIDTH * i;
        out[p] = e.start;
        out[p + 1] = e.header;
    }
}

// A count from flat memory.
#[tactic(auto, unfolding(crate::specs::Entries::stored_count))]
fn count_of(given: u64, n: u64) -> Option<u64>
    ensures { result ≡ stored_count given n }
{
    (given != 0).then_some(n)
}

// 1 if a count is given.
fn count_given(c: Option<u64>) -> u64
    ensures { result ≡ count_given c }
{
    u64::from(c.is_some())
}

// The count, 0 if it is absent.
fn count_number(c: Option<u64>) -> u64
    ensures { result ≡ count_number c }
{
    c.unwrap_or(0)
}

// Annotation entry i; zeros if the memory has no whole entry i.
pub fn note_at(m: &[u64], i: usize) -> AnnotationEntry
    ensures { result ≡ note_at m.now i }
{
    if i < m.len() / AnnotationEntry::WIDTH {
        let p = AnnotationEntry::WIDTH * i;
        let count = count_of(m[p + 1], m[p + 2]);
        return AnnotationEntry {
            start: m[p],
            count,
            texts: Texts {
                label: Place {
                    at: m[p + 3],
                    len: m[p + 4],
                },
            },
        };
    }
    AnnotationEntry {
        start: 0,
        count: None,
        texts: Texts {
            label: Place { at: 0, len: 0 },
        },
    }
}

// An annotation written as entry i, if the memory has a whole entry i.
pub fn put_note(out: &mut [u64], i: usize, e: AnnotationEntry)
    ensures { out.new ≡ put_row note_width out.old i (note_numbers e) }
{
    let count = e.count;
    let given = count_given(count);
    let number = count_number(count);
    if i < out.len() / AnnotationEntry::WIDTH {
        let p = AnnotationEntry::WIDTH * i;
        out[p] = e.start;
        out[p + 1] = given;
        out[p + 2] = number;
        out[p + 3] = e.texts.label.at;
        out[p + 4] = e.texts.label.len;
    }
}

// 1, 9 and 10, as far as they speak of these numbers.
#[tactic(auto, unfolding(refusals::specs::Refusals::lowest, json_blocks::specs::TextBytes::within))]
fn format_refusal(g: Globals, d: u64) -> u64
    ensures { result ≡ lowest (format_rules g d) }
{
    if d > Limits::DATASET {
        return 1;
    }
    if !sigmf_datatypes::is_listed(g.datatype) {
        return 9;
    }
    if g.channels < 1 || g.channels > Limits::CHANNELS {
        return 10;
    }
    0
}

// 15: captures and annotations ascend by start.
fn in_order(caps: &[u64], n: usize, notes: &[u64], m: usize) -> bool
    ensures { result ≡ ascending (capture_starts (capture_entries caps.now n)) && ascending (note_starts (annotation_entries notes.now m)) }
{
    ascend::<CaptureEntry>(caps, n) && ascend::<AnnotationEntry>(notes, m)
}

// The header bytes of n captures, but `most` at most.
fn header_sum(caps: &[u64], n: usize, most: u64) -> u64
    ensures { result ≡ min most (header_sum (capture_entries caps.now n)) }
{
    let mut h = 0;
    for i in 0..n {
        let x = entry_at(caps, i);
        if x.header >= most - h {
            return most;
        }
        h += x.header;
    }
    h
}

// 16: what trailer and headers leave of d bytes is whole samples of w bytes.
fn whole_samples(caps: &[u64], n: usize, trailing: u64, w: u64, d: u64) -> Option<u64>
    requires { (1 ≤ w) × (d ≤ dataset) }
    ensures { result ≡ whole_in (trailing + header_sum (capture_entries caps.now n)) w d }
{
    let left = d.checked_sub(trailing)?;
    let rest = left.checked_sub(header_sum(caps, n, left + 1))?;
    (rest % w == 0).then_some(rest / w)
}

// 17: the end index is a u64, and captures and annotations lie inside s samples from o on.
#[tactic(auto, using(crate::proofs::StageLaws::entries_inside, crate::proofs::StageLaws::notes_inside))]
fn all_inside(caps: &[u64], n: usize, notes: &[u64], m: usize, o: u64, s: u64) -> bool
    ensures { result ≡ inside_ok o s (capture_entries caps.now n) (annotation_entries notes.now m) }
{
    s <= u64::MAX - o
        && lie_inside::<CaptureEntry>(caps, n, o, o + s)
        && lie_inside::<AnnotationEntry>(notes, m, o, o + s)
}

// The summary of s samples of w bytes, with n captures and m annotations.
fn a_table(g: Globals, w: u64, s: u64, d: u64, n: usize, m: usize) -> Summary
    ensures { result ≡ accepted_summary g w s d n m }
{
    Summary {
        refusal: 0,
        datatype: g.datatype,
        channels: g.channels,
        width: w,
        offset: g.offset,
        trailing: g.trailing,
        samples: s,
        size: d,
        captures: n as u64,
        annotations: m as u64,
        rate: g.rate,
    }
}

// The summary of a recording, or why there is none.
pub fn summary(g: Globals, caps: &[u64], n: usize, notes: &[u64], m: usize, d: u64) -> Summary
    ensures { result ≡ judged_layout (stored_contents g caps.now n notes.now m) d }
{
    let early = format_refusal(g, d);
    if early != 0 {
        return no_table(early);
    }
    if !in_order(caps, n, notes, m) {
        return no_table(15);
    }
    let w = sigmf_datatypes::sample_bytes(g.datatype, g.channels);
    let Some(samples) = whole_samples(caps, n, g.trailing, w, d) else {
        return no_table(16);
    };
    if !all_inside(caps, n, notes, m, g.offset, samples) {
        return no_table(17);
    }
    a_table(g, w, samples, d, n, m)
}

// Where capture entry i starts, or e past the last entry.
fn next_start(caps: &[u64], n: usize, i: usize, e: u64) -> u64
    ensures { result ≡ next_start e (rest (entry_at caps.now) n i) }
{
    if i < n { entry_at(caps, i).start } else { e }
}

// The row of a capture that ends at end, with h header bytes up to and including its own.
fn capture_row(x: CaptureEntry, o: u64, w: u64, h: u64, end: u64) -> Capture
    requires { (o ≤ x.start) × ((x.start - o) * w + h < 2 ^ 63) }
    ensures { result ≡ record { start = x.start; end = end; first = (x.start - o) * w + h; header = x.header } }
{
    Capture {
        start: x.start,
        end,
        first: (x.start - o) * w + h,
        header: x.header,
    }
}

// The rows of the captures of a recording, written to the front of out, which has room.
fn write_captures(t: Summary, caps: &[u64], out: &mut [u64])
    requires { CapturesFit t (capture_entries caps.now t.captures) out.old }
    ensures { out.new ≡ captures_written t (capture_entries caps.now t.captures) out.old }
{
    let n = t.captures as usize;
    let o = t.offset;
    let e = o + t.samples;
    let mut h = 0;
    for i in 0..n {
        let x = entry_at(caps, i);
        let end = next_start(caps, n, i + 1, e);
        h += x.header;
        table::put_capture(out, i, capture_row(x, o, t.width, h, end));
    }
}

// Where an annotation ends that lies inside a dataset with end index e.
fn note_end(x: AnnotationEntry, e: u64) -> u64
    requires { note_end e x.start x.count ≤ e }
    ensures { result ≡ note_end e x.start x.count }
{
    match x.count {
        Some(c) => x.start + c,
        None => e,
    }
}

// The rows of the annotations of a recording, written to the front of out, which has room.
fn write_annotations(t: Summary, notes: &[u64], out: &mut [u64])
    requires { AnnotationsFit t (annotation_entries notes.now t.annotations) out.old }
    ensures { out.new ≡ written (flat annotation_numbers (map (annotation_row (t.offset + t.samples)) (annotation_entries notes.now t.annotations))) out.old }
{
    let e = t.offset + t.samples;
    for i in 0..t.annotations as usize {
        let x = note_at(notes, i);
        let y = Annotation {
            start: x.start,
            end: note_end(x, e),
            texts: x.texts,
        };
        table::put_annotation(out, i, y);
    }
}

// The summary and the rows of a recording, or why there are none.
pub fn lay(
    g: Globals,
    caps: &[u64],
    n: usize,
    notes: &[u64],
    m: usize,
    d: u64,
    rows: &mut [u64],
    anns: &mut [u64],
) -> Summary
    ensures answer { result ≡ layout_answer (stored_contents g caps.now n notes.now m) d rows.old anns.old }
    ensures captures { rows.new ≡ captures_after (stored_contents g caps.now n notes.now m) d rows.old anns.old }
    ensures annotations { anns.new ≡ annotations_after (stored_contents g caps.now n notes.now m) d rows.old anns.old }
{
    let t = summary(g, caps, n, notes, m, d);
    if t.refusal != 0 {
        return t;
    }
    if n > rows.len() / Capture::WIDTH {
        return no_table(20);
    }
    if m > anns.len() / Annotation::WIDTH {
        return no_table(20);
    }
    write_captures(t, caps, rows);
    write_annotations(t, notes, anns);
    t
}
