// The parts of the text: how long each is, or what it leaves of a room, and each written to the front of memory that has room.
ghost use Rattle.std.specs.Prelude.{◌≡◌, ◌++◌, ◌-◌, ◌≤◌, length};
ghost use Rattle.table.specs.Memory.{written};
ghost use Rattle.output.specs.Left.{left_after};
ghost use Rattle.writer.specs.Metadata.{capture_text, annotation_text};
ghost use Rattle.writer.specs.TextParts.{raw_member, raw_length, comma_before, format_text, head_text};

use decimal::{decimal_length, put_field};
use listing_labels::{is_absent, text_part};
use output::{put_datatype_name, put_word};
use table::{Annotation, Capture, Place, Summary};

// How many samples an annotation has.
fn count_of(x: Annotation) -> u64
    ensures { result ≡ x.end - x.start }
{
    x.end.saturating_sub(x.start)
}

// What a raw text with n bytes around it leaves of a room; an absent one takes nothing.
#[tactic(auto, using(std::proofs::lemmas::Bool::Decides::nat_tests), unfolding(crate::specs::TextParts::raw_length, output::specs::Left::left_after))]
fn raw_left(n: usize, s: &[u8], p: Place, room: usize) -> Option<usize>
    ensures { result ≡ left_after room (raw_length n s.now p) }
{
    if is_absent(p) {
        return Some(room);
    }
    room.checked_sub(n)?.checked_sub(text_part(s, p).len())
}

// How long the comma before row k is.
#[tactic(auto, using(crate::proofs::LengthLaws::comma_none, crate::proofs::LengthLaws::comma_one))]
fn comma_length(k: usize) -> usize
    ensures { (result ≡ length (comma_before k)) × (result ≤ 1) }
{
    if k == 0 { 0 } else { 1 }
}

// What is left of a room by what comes before the captures: its words have 112 bytes, that of a sample rate 20.
#[tactic(auto, using(std::proofs::lemmas::Bool::Decides::nat_tests, sigmf_datatypes::proofs::Laws::name_most, crate::proofs::LengthLaws::head_long), unfolding(output::specs::Left::left_after))]
pub(crate) fn head_left(t: Summary, s: &[u8], room: usize) -> Option<usize>
    ensures { result ≡ left_after room (length (head_text s.now t)) }
{
    let name = sigmf_datatypes::name_length(t.datatype);
    let numbers = decimal_length(t.channels)
        + decimal_length(t.offset)
        + decimal_length(t.trailing);
    raw_left(20, s, t.rate, room.checked_sub(112 + name + numbers)?)
}

// How long capture k is, with its comma: its words have 43 bytes.
#[tactic(auto, using(crate::proofs::LengthLaws::capture_long))]
pub(crate) fn capture_length(k: usize, x: Capture) -> usize
    ensures { result ≡ length (comma_before k ++ capture_text x) }
{
    43 + comma_length(k) + decimal_length(x.start) + decimal_length(x.header)
}

// What annotation k leaves of a room, with its comma: its words have 43 bytes, those of a label 16.
#[tactic(auto, using(std::proofs::lemmas::Bool::Decides::nat_tests, crate::proofs::LengthLaws::annotation_long), unfolding(output::specs::Left::left_after))]
pub(crate) fn annotation_left(k: usize, x: Annotation, s: &[u8], room: usize) -> Option<usize>
    ensures { result ≡ left_after room (length (comma_before k ++ annotation_text s.now x)) }
{
    let numbers = decimal_length(x.start) + decimal_length(count_of(x));
    let left = room.checked_sub(43 + comma_length(k) + numbers)?;
    raw_left(16, s, x.texts.label, left)
}

// ---- the same, written

// A raw text between two words, or nothing if it is absent.
#[tactic(auto, using(std::proofs::lemmas::Bool::Decides::nat_tests, std::proofs::lemmas::Slice::overwrites), unfolding(output::specs::Put::put_count, output::specs::Put::put_front, crate::specs::TextParts::raw_member))]
fn put_raw(out: &mut [u8], before: &[u8], s: &[u8], p: Place, after: &[u8]) -> usize
    requires { length (raw_member before.now s.now p after.now) ≤ length out.old }
    ensures count { result ≡ length (raw_member before.now s.now p after.now) }
    ensures memory { out.new ≡ written (raw_member before.now s.now p after.now) out.old }
{
    if is_absent(p) {
        return 0;
    }
    let raw = text_part(s, p);
    let a = put_word(out, before);
    let b = a + put_word(&mut out[a..], raw);
    let c = put_word(&mut out[b..], after);
    b + c
}

// The comma before row k.
fn put_comma(out: &mut [u8], k: usize) -> usize
    requires { length (comma_before k) ≤ length out.old }
    ensures count { result ≡ length (comma_before k) }
    ensures memory { out.new ≡ written (comma_before k) out.old }
{
    if k == 0 {
        return 0;
    }
    out[0] = b',';
    1
}

// The first members of global: datatype, version and channels.
#[tactic(auto, using(std::proofs::lemmas::Bool::Decides::nat_tests, std::proofs::lemmas::Slice::overwrites), unfolding(output::specs::Put::put_count, output::specs::Put::put_front))]
fn put_format(out: &mut [u8], t: Summary) -> usize
    requires { length (format_text t) ≤ length out.old }
    ensures count { result ≡ length (format_text t) }
    ensures memory { out.new ≡ written (format_text t) out.old }
{
    let a = put_word(out, b"{\"global\":{\"core:datatype\":\"");
    let b = a + put_datatype_name(&mut out[a..], t.datatype);
    let c = put_field(
        &mut out[b..],
        b"\",\"core:version\":\"1.0.0\",\"core:num_channels\":",
        t.channels,
    );
    b + c
}

// What comes before the captures.
#[tactic(auto, using(std::proofs::lemmas::Bool::Decides::nat_tests, std::proofs::lemmas::Slice::overwrites, crate::proofs::LengthLaws::head_in_long), unfolding(output::specs::Put::put_count, output::specs::Put::put_front))]
pub(crate) fn put_head(out: &mut [u8], t: Summary, s: &[u8]) -> usize
    requires { length (head_text s.now t) ≤ length out.old }
    ensures count { result ≡ length (head_text s.now t) }
    ensures memory { out.new ≡ written (head_text s.now t) out.old }
{
    let a = put_format(out, t);
    let b = a + put_field(&mut out[a..], b",\"core:offset\":", t.offset);
    let c = b + put_field(&mut out[b..], b",\"core:trailing_bytes\":", t.trailing);
    let d = c + put_raw(&mut out[c..], b",\"core:sample_rate\":", s, t.rate, b"");
    out[d] = b'}';
    d + 1
}

// Capture k, with its comma.
#[tactic(auto, using(std::proofs::lemmas::Bool::Decides::nat_tests, std::proofs::lemmas::Slice::overwrites, crate::proofs::LengthLaws::capture_in_long), unfolding(output::specs::Put::put_count, output::specs::Put::put_front))]
pub(crate) fn put_capture(out: &mut [u8], k: usize, x: Capture) -> usize
    requires { length (comma_before k ++ capture_text x) ≤ length out.old }
    ensures count { result ≡ length (comma_before k ++ capture_text x) }
    ensures memory { out.new ≡ written (comma_before k ++ capture_text x) out.old }
{
    let a = put_comma(out, k);
    let b = a + put_field(&mut out[a..], b"{\"core:sample_start\":", x.start);
    let c = b + put_field(&mut out[b..], b",\"core:header_bytes\":", x.header);
    out[c] = b'}';
    c + 1
}

// Annotation k, with its comma.
#[tactic(auto, using(std::proofs::lemmas::Bool::Decides::nat_tests, std::proofs::lemmas::Slice::overwrites, crate::proofs::LengthLaws::annotation_in_long), unfolding(output::specs::Put::put_count, output::specs::Put::put_front))]
pub(crate) fn put_annotation(out: &mut [u8], k: usize, x: Annotation, s: &[u8]) -> usize
    requires { length (comma_before k ++ annotation_text s.now x) ≤ length out.old }
    ensures count { result ≡ length (comma_before k ++ annotation_text s.now x) }
    ensures memory { out.new ≡ written (comma_before k ++ annotation_text s.now x) out.old }
{
    let n = count_of(x);
    let a = put_comma(out, k);
    let b = a + put_field(&mut out[a..], b"{\"core:sample_start\":", x.start);
    let c = b + put_field(&mut out[b..], b",\"core:sample_count\":", n);
    let d = c
        + put_raw(
            &mut out[c..],
            b",\"core:label\":\"",
            s,
            x.texts.label,
            b"\"",
        );
    out[d] = b'}';
    d + 1
}
