// The cut of a table to a range of samples.
#![tactic(auto)]

ghost use Rattle.std.specs.Prelude.{◌≡◌, ◌+◌, ◌-◌, ◌*◌, ◌^◌, ◌<◌, ◌≤◌, min, max, length};
ghost use Rattle.table.specs.Memory.{written};
ghost use Rattle.table.specs.Rows.{capture_width, capture_numbers, annotation_width, annotation_numbers, flat, captures, annotations, table};
ghost use Rattle.table_cuts.specs.Cut.{shares, clip_capture, clip_annotation, cut_captures, cut_annotations, cut_summary, cut_answer, cut_capture_memory, cut_annotation_memory};
ghost use Rattle.table_cuts.specs.CutRoom.{CutFits};

use table::{Annotation, Capture, Summary, no_table};
use table_pieces::is_inside;

// Samples s to e share a sample with a to b.
fn shares_sample(a: u64, b: u64, s: u64, e: u64) -> bool
    ensures { result ≡ shares a b s e }
{
    a.max(s) < b.min(e)
}

// A capture clipped to samples a to b, in a recording with no headers that starts at a.
fn clip_capture(x: Capture, a: u64, b: u64, w: u64) -> Capture
    requires { ((b - a) * w < 2 ^ 63) × (max a x.start ≤ b) }
    ensures { result ≡ clip_capture a b w x }
{
    let start = a.max(x.start);
    Capture {
        start,
        end: b.min(x.end),
        first: (start - a) * w,
        header: 0,
    }
}

// An annotation clipped to samples a to b.
fn clip_annotation(x: Annotation, a: u64, b: u64) -> Annotation
    ensures { result ≡ clip_annotation a b x }
{
    Annotation {
        start: a.max(x.start),
        end: b.min(x.end),
        texts: x.texts,
    }
}

// How many captures the cut to samples a to b keeps.
pub(crate) fn count_captures(t: Summary, caps: &[u64], a: u64, b: u64) -> usize
    ensures { result ≡ length (cut_captures a b t.width (captures caps.now t.captures)) }
{
    let n = t.captures as usize;
    let mut c: usize = 0;
    for k in 0..n {
        let x = table::capture_at(caps, k);
        if shares_sample(a, b, x.start, x.end) {
            c += 1;
        }
    }
    c
}

// How many annotations the cut to samples a to b keeps. A trait of rows with its two impls would be longer than this pair and the next.
pub(crate) fn count_annotations(t: Summary, notes: &[u64], a: u64, b: u64) -> usize
    ensures { result ≡ length (cut_annotations a b (annotations notes.now t.annotations)) }
{
    let n = t.annotations as usize;
    let mut c: usize = 0;
    for k in 0..n {
        let x = table::annotation_at(notes, k);
        if shares_sample(a, b, x.start, x.end) {
            c += 1;
        }
    }
    c
}

// The captures of the cut, written to the front of out, which has room.
fn write_captures(t: Summary, caps: &[u64], a: u64, b: u64, out: &mut [u64])
    requires { ((b - a) * t.width < 2 ^ 63) × (capture_width * length (cut_captures a b t.width (captures caps.now t.captures)) ≤ length out.old) }
    ensures { out.new ≡ written (flat capture_numbers (cut_captures a b t.width (captures caps.now t.captures))) out.old }
{
    let n = t.captures as usize;
    let w = t.width;
    let mut c: usize = 0;
    for k in 0..n {
        let x = table::capture_at(caps, k);
        if shares_sample(a, b, x.start, x.end) {
            table::put_capture(out, c, clip_capture(x, a, b, w));
            c += 1;
        }
    }
}

// The annotations of the cut, written to the front of out, which has room.
fn write_annotations(t: Summary, notes: &[u64], a: u64, b: u64, out: &mut [u64])
    requires { annotation_width * length (cut_annotations a b (annotations notes.now t.annotations)) ≤ length out.old }
    ensures { out.new ≡ written (flat annotation_numbers (cut_annotations a b (annotations notes.now t.annotations))) out.old }
{
    let n = t.annotations as usize;
    let mut c: usize = 0;
    for k in 0..n {
        let x = table::annotation_at(notes, k);
        if shares_sample(a, b, x.start, x.end) {
            table::put_annotation(out, c, clip_annotation(x, a, b));
            c += 1;
        }
    }
}

// The summary of the cut to samples a to b, with n captures and m annotations.
#[tactic(auto, unfolding(crate::specs::Cut::cut_summary))]
fn cut_summary(t: Summary, a: u64, b: u64, n: u64, m: u64) -> Summary
    requires { (a ≤ b) × ((b - a) * t.width < 2 ^ 63) }
    ensures { result ≡ cut_summary t a b n m }
{
    Summary {
        refusal: t.refusal,
        datatype: t.datatype,
        channels: t.channels,
        width: t.width,
        offset: a,
        trailing: 0,
        samples: b - a,
        size: (b - a) * t.width,
        captures: n,
        annotations: m,
        rate: t.rate,
    }
}

// The cut of c captures and d annotations: its rows written to the front of memories that have room, and its summary.
pub(crate) fn write_cut(
    t: Summary,
    caps: &[u64],
    notes: &[u64],
    a: u64,
    b: u64,
    c: u64,
    d: u64,
    capto: &mut [u64],
    noteto: &mut [u64],
) -> Summary
    requires a_le_b { (a ≤ b) × ((b - a) * t.width < 2 ^ 63) }
    requires cut_fits { CutFits a b t.width (captures caps.now t.captures) (annotations notes.now t.annotations) capto.old noteto.old }
    ensures answer { result ≡ cut_summary t a b c d }
    ensures captures { capto.new ≡ written (flat capture_numbers (cut_captures a b t.width (captures caps.now t.captures))) capto.old }
    ensures annotations { noteto.new ≡ written (flat annotation_numbers (cut_annotations a b (annotations notes.now t.annotations))) noteto.old }
{
    write_captures(t, caps, a, b, capto);
    write_annotations(t, notes, a, b, noteto);
    cut_summary(t, a, b, c, d)
}

// The table of samples a to b.
pub fn cut(
    t: Summary,
    caps: &[u64],
    notes: &[u64],
    a: u64,
    b: u64,
    capto: &mut [u64],
    noteto: &mut [u64],
) -> Summary
    ensures answer { result ≡ cut_answer (table t caps.now notes.now) a b (length capto.old) (length noteto.old) }
    ensures captures { capto.new ≡ cut_capture_memory (table t caps.now notes.now) a b capto.old noteto.old }
    ensures annotations { noteto.new ≡ cut_annotation_memory (table t caps.now notes.now) a b capto.old noteto.old }
{
    if !table::well_formed(t, caps, notes) {
        return no_table(18);
    }
    if !is_inside(t, a, b) {
        return no_table(19);
    }
    let c = count_captures(t, caps, a, b);
    let d = count_annotations(t, notes, a, b);
    if c > capto.len() / Capture::WIDTH || d > noteto.len() / Annotation::WIDTH {
        return no_table(20);
    }
    write_cut(t, caps, notes, a, b, c as u64, d as u64, capto, noteto)
}
