// The metadata of a table, written as JSON text.
#![tactic(auto)]

mod parts;

ghost use Rattle.std.specs.Prelude.{◌≡◌, ◌≤◌, length};
ghost use Rattle.table.specs.Memory.{written};
ghost use Rattle.table.specs.Rows.{capture_at, annotation_at, table};
ghost use Rattle.output.specs.Left.{left_after};
ghost use Rattle.writer.specs.Metadata.{capture_text, annotation_text, metadata_of};
ghost use Rattle.writer.specs.TextParts.{items};
ghost use Rattle.writer.specs.Writer.{is_number, rate_ok, writable, writer_answer, writer_memory};

use crate::parts::{
    annotation_left, capture_length, head_left, put_annotation, put_capture, put_head,
};
use json_blocks::Cursor;
use limits::Limits;
use output::put_word;
use table::{Place, Summary, Wrote};

// A text is one JSON number.
#[tactic(auto, unfolding(crate::specs::Writer::is_number))]
fn is_number(x: &[u8]) -> bool
    ensures { result ≡ is_number x.now }
{
    match json_tokens::number::number(Cursor { at: 0 }, x) {
        Some(c) => c.at == x.len(),
        None => false,
    }
}

// A sample rate is absent, or inside the text and one number.
#[tactic(auto, using(std::proofs::lemmas::Bool::Decides::nat_tests), unfolding(crate::specs::Writer::rate_ok))]
fn rate_ok(s: &[u8], p: Place) -> bool
    ensures { result ≡ rate_ok s.now p }
{
    let n = s.len() as u64;
    listing_labels::is_absent(p)
        || p.at <= n && p.len <= n - p.at && is_number(listing_labels::text_part(s, p))
}

// What the captures leave of a room.
#[tactic(auto, using(output::proofs::RowLines::row_lengths), unfolding(output::specs::Left::left_after))]
fn captures_left(t: Summary, caps: &[u64], room: usize) -> Option<usize>
    ensures { result ≡ left_after room (length (items capture_text (capture_at caps.now) t.captures)) }
{
    let n = t.captures as usize;
    let mut left = room;
    for k in 0..n {
        left = left.checked_sub(capture_length(k, table::capture_at(caps, k)))?;
    }
    Some(left)
}

// What the annotations leave of a room.
#[tactic(auto, using(output::proofs::RowLines::row_lengths), unfolding(output::specs::Left::left_after))]
fn annotations_left(t: Summary, notes: &[u64], s: &[u8], room: usize) -> Option<usize>
    ensures { result ≡ left_after room (length (items (annotation_text s.now) (annotation_at notes.now) t.annotations)) }
{
    let n = t.annotations as usize;
    let mut left = room;
    for k in 0..n {
        left = annotation_left(k, table::annotation_at(notes, k), s, left)?;
    }
    Some(left)
}

// What the text leaves of a room: its words around the rows have 32 bytes.
#[tactic(auto, using(std::proofs::lemmas::Bool::Decides::nat_tests, crate::proofs::LengthLaws::text_long), unfolding(output::specs::Left::left_after))]
fn text_left(t: Summary, caps: &[u64], notes: &[u64], s: &[u8], room: usize) -> Option<usize>
    ensures { result ≡ left_after room (length (metadata_of (table t caps.now notes.now) s.now)) }
{
    let left = head_left(t, s, room.checked_sub(32)?)?;
    let left = captures_left(t, caps, left)?;
    annotations_left(t, notes, s, left)
}

// The captures, written to the front of out, which has room; how many bytes they are.
fn write_captures(out: &mut [u8], t: Summary, caps: &[u64]) -> usize
    requires { length (items capture_text (capture_at caps.now) t.captures) ≤ length out.old }
    ensures count { result ≡ length (items capture_text (capture_at caps.now) t.captures) }
    ensures memory { out.new ≡ written (items capture_text (capture_at caps.now) t.captures) out.old }
{
    let n = t.captures as usize;
    let mut used = 0;
    for k in 0..n {
        let x = table::capture_at(caps, k);
        used += put_capture(&mut out[used..], k, x);
    }
    used
}

// The annotations, written to the front of out, which has room; how many bytes they are.
fn write_annotations(out: &mut [u8], t: Summary, notes: &[u64], s: &[u8]) -> usize
    requires { length (items (annotation_text s.now) (annotation_at notes.now) t.annotations) ≤ length out.old }
    ensures count { result ≡ length (items (annotation_text s.now) (annotation_at notes.now) t.annotations) }
    ensures memory { out.new ≡ written (items (annotation_text s.now) (annotation_at notes.now) t.annotations) out.old }
{
    let n = t.annotations as usize;
    let mut used = 0;
    for k in 0..n {
        let x = table::annotation_at(notes, k);
        used += put_annotation(&mut out[used..], k, x, s);
    }
    used
}

// The text, written to the front of out, which has room; how many bytes it is.
#[tactic(auto, using(std::proofs::lemmas::Bool::Decides::nat_tests, std::proofs::lemmas::Slice::overwrites, crate::proofs::LengthLaws::text_long), unfolding(output::specs::Put::put_count, output::specs::Put::put_front))]
fn write_text(out: &mut [u8], t: Summary, caps: &[u64], notes: &[u64], s: &[u8]) -> usize
    requires { length (metadata_of (table t caps.now notes.now) s.now) ≤ length out.old }
    ensures count { result ≡ length (metadata_of (table t caps.now notes.now) s.now) }
    ensures memory { out.new ≡ written (metadata_of (table t caps.now notes.now) s.now) out.old }
{
    let a = put_head(out, t, s);
    let b = a + put_word(&mut out[a..], b",\"captures\":[");
    let c = b + write_captures(&mut out[b..], t, caps);
    let d = c + put_word(&mut out[c..], b"],\"annotations\":[");
    let e = d + write_annotations(&mut out[d..], t, notes, s);
    let f = put_word(&mut out[e..], b"]}");
    e + f
}

// A table that may be written, with the metadata its texts stand in.
#[tactic(auto, unfolding(crate::specs::Writer::writable))]
fn is_writable(t: Summary, caps: &[u64], notes: &[u64], s: &[u8]) -> bool
    ensures { result ≡ writable (table t caps.now notes.now) s.now }
{
    table::well_formed(t, caps, notes)
        && listing_labels::labels_ok(t, notes, s)
        && rate_ok(s, t.rate)
}

// The metadata of a table, written to the front of out.
#[tactic(auto, using(std::proofs::lemmas::Bool::Decides::nat_tests), unfolding(output::specs::Left::left_after, crate::specs::Writer::writer_answer))]
pub fn write(t: Summary, caps: &[u64], notes: &[u64], s: &[u8], out: &mut [u8]) -> Wrote
    ensures answer { result ≡ writer_answer (table t caps.now notes.now) s.now (length out.old) }
    ensures memory { out.new ≡ writer_memory (table t caps.now notes.now) s.now out.old }
{
    if !is_writable(t, caps, notes, s) {
        return Wrote {
            refusal: 18,
            count: 0,
        };
    }
    let room = out.len().min(Limits::METADATA);
    if text_left(t, caps, notes, s, room).is_none() {
        return Wrote {
            refusal: 20,
            count: 0,
        };
    }
    let n = write_text(out, t, caps, notes, s);
    Wrote {
        refusal: 0,
        count: n as u64,
    }
}
