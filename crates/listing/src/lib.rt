// The listing of a recording, a line for the recording and for each of its rows.
#![tactic(auto)]

mod lines;

ghost use Rattle.std.specs.Prelude.{◌≡◌, ◌+◌, ◌≤◌, length};
ghost use Rattle.table.specs.Memory.{written};
ghost use Rattle.table.specs.Rows.{flat, captures, annotations, table};
ghost use Rattle.output.specs.Left.{left_after};
ghost use Rattle.listing.specs.Lines.{capture_line, annotation_line};
ghost use Rattle.listing.specs.Listing.{listing_of, listing_answer, listing_memory};

use crate::lines::{
    annotation_left, capture_length, put_annotation_line, put_capture_line, put_recording_line,
    recording_length,
};
use table::{Summary, Wrote};

// What the captures' lines leave of the room.
#[tactic(auto, using(output::proofs::RowLines::row_lengths), unfolding(output::specs::Left::left_after))]
fn captures_left(t: Summary, caps: &[u64], room: usize) -> Option<usize>
    ensures { result ≡ left_after room (length (flat capture_line (captures caps.now t.captures))) }
{
    let n = t.captures as usize;
    let mut left = room;
    for k in 0..n {
        left = left.checked_sub(capture_length(table::capture_at(caps, k)))?;
    }
    Some(left)
}

// What the annotations' lines leave of the room.
#[tactic(auto, using(output::proofs::RowLines::row_lengths), unfolding(output::specs::Left::left_after))]
fn annotations_left(t: Summary, notes: &[u64], s: &[u8], room: usize) -> Option<usize>
    ensures { result ≡ left_after room (length (flat (annotation_line s.now) (annotations notes.now t.annotations))) }
{
    let n = t.annotations as usize;
    let mut left = room;
    for k in 0..n {
        left = annotation_left(table::annotation_at(notes, k), s, left)?;
    }
    Some(left)
}

// What the listing leaves of the room.
#[tactic(auto, using(std::proofs::lemmas::Bool::Decides::nat_tests, crate::proofs::ListingLaws::long), unfolding(output::specs::Left::left_after))]
fn listing_left(t: Summary, caps: &[u64], notes: &[u64], s: &[u8], room: usize) -> Option<usize>
    ensures { result ≡ left_after room (length (listing_of (table t caps.now notes.now) s.now)) }
{
    let left = room.checked_sub(recording_length(t))?;
    let left = captures_left(t, caps, left)?;
    annotations_left(t, notes, s, left)
}

// The captures' lines, written to the front of out, which has room; how many bytes they are.
fn write_captures(out: &mut [u8], t: Summary, caps: &[u64]) -> usize
    requires { length (flat capture_line (captures caps.now t.captures)) ≤ length out.old }
    ensures count { result ≡ length (flat capture_line (captures caps.now t.captures)) }
    ensures memory { out.new ≡ written (flat capture_line (captures caps.now t.captures)) out.old }
{
    let n = t.captures as usize;
    let mut used = 0;
    for k in 0..n {
        let x = table::capture_at(caps, k);
        used += put_capture_line(&mut out[used..], x);
    }
    used
}

// The annotations' lines, written to the front of out, which has room; how many bytes they are.
fn write_annotations(out: &mut [u8], t: Summary, notes: &[u64], s: &[u8]) -> usize
    requires { length (flat (annotation_line s.now) (annotations notes.now t.annotations)) ≤ length out.old }
    ensures count { result ≡ length (flat (annotation_line s.now) (annotations notes.now t.annotations)) }
    ensures memory { out.new ≡ written (flat (annotation_line s.now) (annotations notes.now t.annotations)) out.old }
{
    let n = t.annotations as usize;
    let mut used = 0;
    for k in 0..n {
        let x = table::annotation_at(notes, k);
        used += put_annotation_line(&mut out[used..], x, s);
    }
    used
}

// The listing, written to the front of out, which has room; how many bytes it is.
#[tactic(auto, using(std::proofs::lemmas::Bool::Decides::nat_tests, std::proofs::lemmas::Slice::overwrites, crate::proofs::ListingLaws::long), unfolding(crate::specs::Listing::listing_of))]
fn write_listing(out: &mut [u8], t: Summary, caps: &[u64], notes: &[u64], s: &[u8]) -> usize
    requires { length (listing_of (table t caps.now notes.now) s.now) ≤ length out.old }
    ensures count { result ≡ length (listing_of (table t caps.now notes.now) s.now) }
    ensures memory { out.new ≡ written (listing_of (table t caps.now notes.now) s.now) out.old }
{
    let a = put_recording_line(out, t);
    let c = write_captures(&mut out[a..], t, caps);
    let b = a + c;
    let d = write_annotations(&mut out[b..], t, notes, s);
    b + d
}

// The listing of a table, written to the front of out.
#[tactic(auto, using(std::proofs::lemmas::Bool::Decides::nat_tests), unfolding(output::specs::Left::left_after, crate::specs::Listing::listing_answer))]
pub fn listing(t: Summary, caps: &[u64], notes: &[u64], s: &[u8], out: &mut [u8]) -> Wrote
    ensures answer { result ≡ listing_answer (table t caps.now notes.now) s.now (length out.old) }
    ensures memory { out.new ≡ listing_memory (table t caps.now notes.now) s.now out.old }
{
    if !table::well_formed(t, caps, notes) || !listing_labels::labels_ok(t, notes, s) {
        return Wrote {
            refusal: 18,
            count: 0,
        };
    }
    if listing_left(t, caps, notes, s, out.len()).is_none() {
        return Wrote {
            refusal: 20,
            count: 0,
        };
    }
    let n = write_listing(out, t, caps, notes, s);
    Wrote {
        refusal: 0,
        count: n as u64,
    }
}
