// The lines of the listing: how long each is, and each written to the front of memory that has room.
ghost use Rattle.std.specs.Prelude.{◌≡◌, ◌≤◌, ◌++◌, length};
ghost use Rattle.sigmf_datatypes.specs.Datatypes.{datatype_name};
ghost use Rattle.table.specs.Memory.{written};
ghost use Rattle.output.specs.Left.{left_after};
ghost use Rattle.listing.specs.Lines.{recording_line, capture_line, annotation_line};
ghost use Rattle.listing.specs.LineParts.{two_fields, last_text};

use decimal::{decimal_length, put_field};
use listing_text::{put_text, text_left};
use output::{put_datatype_name, put_word};
use table::{Annotation, Capture, Place, Summary};

// Two words, each with its number, and how many bytes they are.
#[tactic(auto, using(std::proofs::lemmas::Bool::Decides::nat_tests, std::proofs::lemmas::Slice::overwrites, crate::proofs::LineLaws::two_long), unfolding(output::specs::Put::put_count, output::specs::Put::put_front))]
fn put_two(out: &mut [u8], first: &[u8], n: u64, second: &[u8], m: u64) -> usize
    requires { length (two_fields first.now n second.now m) ≤ length out.old }
    ensures count { result ≡ length (two_fields first.now n second.now m) }
    ensures memory { out.new ≡ written (two_fields first.now n second.now m) out.old }
{
    let a = put_field(out, first, n);
    let b = put_field(&mut out[a..], second, m);
    a + b
}

// A word and a datatype's name, and how many bytes they are.
#[tactic(auto, using(std::proofs::lemmas::Bool::Decides::nat_tests, std::proofs::lemmas::Slice::overwrites), unfolding(output::specs::Put::put_count, output::specs::Put::put_front))]
fn put_datatype(out: &mut [u8], word: &[u8], code: u64) -> usize
    requires { length (word.now ++ datatype_name code) ≤ length out.old }
    ensures count { result ≡ length (word.now ++ datatype_name code) }
    ensures memory { out.new ≡ written (word.now ++ datatype_name code) out.old }
{
    let a = put_word(out, word);
    let b = put_datatype_name(&mut out[a..], code);
    a + b
}

// A text between a space and a line feed, and how many bytes they are.
#[tactic(auto, using(std::proofs::lemmas::Bool::Decides::nat_tests, std::proofs::lemmas::Slice::overwrites, crate::proofs::LineLaws::last_long), unfolding(output::specs::Put::put_count, output::specs::Put::put_front))]
fn put_last(out: &mut [u8], s: &[u8], p: Place) -> usize
    requires { length (last_text s.now p) ≤ length out.old }
    ensures count { result ≡ length (last_text s.now p) }
    ensures memory { out.new ≡ written (last_text s.now p) out.old }
{
    out[0] = b' ';
    let n = 1 + put_text(&mut out[1..], s, p);
    out[n] = b'\n';
    n + 1
}

#[tactic(auto, using(sigmf_datatypes::proofs::Laws::name_most, crate::proofs::LineLaws::recording_long))]
pub(crate) fn recording_length(t: Summary) -> usize
    ensures { result ≡ length (recording_line t) }
{
    38 + sigmf_datatypes::name_length(t.datatype)
        + decimal_length(t.channels)
        + decimal_length(t.offset)
        + decimal_length(t.samples)
}

#[tactic(auto, using(std::proofs::lemmas::Bool::Decides::nat_tests, std::proofs::lemmas::Slice::overwrites, crate::proofs::LineLaws::recording_long, crate::proofs::LineLaws::two_long), unfolding(output::specs::Put::put_count, output::specs::Put::put_front, crate::specs::Lines::recording_line))]
pub(crate) fn put_recording_line(out: &mut [u8], t: Summary) -> usize
    requires { length (recording_line t) ≤ length out.old }
    ensures count { result ≡ length (recording_line t) }
    ensures memory { out.new ≡ written (recording_line t) out.old }
{
    let a = put_datatype(out, b"recording ", t.datatype);
    let b = a
        + put_two(
            &mut out[a..],
            b" channels ",
            t.channels,
            b" offset ",
            t.offset,
        );
    let c = b + put_field(&mut out[b..], b" samples ", t.samples);
    out[c] = b'\n';
    c + 1
}

#[tactic(auto, using(crate::proofs::LineLaws::capture_long))]
pub(crate) fn capture_length(x: Capture) -> usize
    ensures { result ≡ length (capture_line x) }
{
    12 + decimal_length(x.start)
        + decimal_length(x.end)
        + decimal_length(x.first)
        + decimal_length(x.header)
}

#[tactic(auto, using(std::proofs::lemmas::Bool::Decides::nat_tests, std::proofs::lemmas::Slice::overwrites, crate::proofs::LineLaws::capture_long, crate::proofs::LineLaws::two_long), unfolding(output::specs::Put::put_count, output::specs::Put::put_front, crate::specs::Lines::capture_line))]
pub(crate) fn put_capture_line(out: &mut [u8], x: Capture) -> usize
    requires { length (capture_line x) ≤ length out.old }
    ensures count { result ≡ length (capture_line x) }
    ensures memory { out.new ≡ written (capture_line x) out.old }
{
    let a = put_two(out, b"capture ", x.start, b" ", x.end);
    let b = a + put_two(&mut out[a..], b" ", x.first, b" ", x.header);
    out[b] = b'\n';
    b + 1
}

// What an annotation's line leaves of a room.
#[tactic(auto, using(std::proofs::lemmas::Bool::Decides::nat_tests, crate::proofs::LineLaws::annotation_long), unfolding(output::specs::Left::left_after))]
pub(crate) fn annotation_left(x: Annotation, s: &[u8], room: usize) -> Option<usize>
    ensures { result ≡ left_after room (length (annotation_line s.now x)) }
{
    let numbers = decimal_length(x.start) + decimal_length(x.end);
    let left = room.checked_sub(14 + numbers)?;
    text_left(s, x.texts.label, left)
}

#[tactic(auto, using(std::proofs::lemmas::Bool::Decides::nat_tests, std::proofs::lemmas::Slice::overwrites, crate::proofs::LineLaws::annotation_long, crate::proofs::LineLaws::two_long, crate::proofs::LineLaws::last_long), unfolding(output::specs::Put::put_count, output::specs::Put::put_front, crate::specs::Lines::annotation_line))]
pub(crate) fn put_annotation_line(out: &mut [u8], x: Annotation, s: &[u8]) -> usize
    requires { length (annotation_line s.now x) ≤ length out.old }
    ensures count { result ≡ length (annotation_line s.now x) }
    ensures memory { out.new ≡ written (annotation_line s.now x) out.old }
{
    let a = put_two(out, b"annotation ", x.start, b" ", x.end);
    let b = put_last(&mut out[a..], s, x.texts.label);
    a + b
}
