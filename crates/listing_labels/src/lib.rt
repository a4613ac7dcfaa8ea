// The label of an annotation, as a part of the lent metadata.
#![tactic(auto)]

ghost use Rattle.std.specs.Prelude.{◌≡◌, ◌+◌};
ghost use Rattle.table.specs.Rows.{annotations, table};
ghost use Rattle.table.specs.Place.{absent};
ghost use Rattle.listing_labels.specs.Text.{part, place_from, stands, text_good};
ghost use Rattle.listing_labels.specs.Label.{label_answer, label_from, label_of, label_start, labels_ok};

use table::{Annotation, Place, Summary};

// A text's place says that there is none.
#[tactic(auto, unfolding(table::specs::Place::absent))]
pub fn is_absent(p: Place) -> bool
    ensures { result ≡ absent p }
{
    p.at == 0 && p.len == 0
}

// The part at a place, as far as the text goes.
pub fn text_part(s: &[u8], p: Place) -> &[u8]
    ensures part { result.now ≡ part s.now p }
    ensures text { result.ref_ptr.0 ≡ s.entry.ref_ptr.0 }
    ensures place { result.ref_ptr.1 ≡ s.entry.ref_ptr.1 + place_from s.now p }
{
    let from = p.at.min(s.len() as u64) as usize;
    let rest = &s[from..];
    let n = p.len.min(rest.len() as u64) as usize;
    &rest[..n]
}

// A text stands at its place: a quote before it and after it, and a string's body between them.
#[tactic(auto, using(std::proofs::lemmas::Bool::Decides::nat_tests, std::proofs::lemmas::List::get_or_past, crate::proofs::TextLaws::part_in), unfolding(crate::specs::Text::stands))]
fn text_stands(s: &[u8], p: Place) -> bool
    ensures { result ≡ stands s.now p }
{
    let n = s.len();
    if p.at < 1 || p.at >= n as u64 {
        return false;
    }
    let a = p.at as usize;
    if p.len >= (n - a) as u64 {
        return false;
    }
    let e = a + p.len as usize;
    s[a - 1] == b'"' && s[e] == b'"' && json_strings::is_body(&s[a..e])
}

// A text is absent, or stands at its place.
#[tactic(auto, unfolding(crate::specs::Text::text_good))]
fn text_good(s: &[u8], p: Place) -> bool
    ensures { result ≡ text_good s.now p }
{
    is_absent(p) || text_stands(s, p)
}

// Each label is absent or stands at its place.
#[tactic(auto, using(crate::proofs::LabelLaws::labels_more, crate::proofs::LabelLaws::labels_none))]
pub fn labels_ok(t: Summary, notes: &[u64], s: &[u8]) -> bool
    ensures { result ≡ labels_ok s.now (annotations notes.now t.annotations) }
{
    let n = t.annotations as usize;
    for k in 0..n {
        if !text_good(s, table::annotation_at(notes, k).texts.label) {
            return false;
        }
    }
    true
}

// The label of an annotation's row; in refusal 18 or 0, in present 1 or 0.
#[tactic(auto, using(std::proofs::lemmas::Bool::Decides::nat_tests, crate::proofs::TextLaws::stands_from), unfolding(crate::specs::Label::label_of))]
fn label_of<'a>(s: &'a [u8], x: Annotation, refusal: &mut u64, present: &mut u64) -> &'a [u8]
    ensures label { result.now ≡ (label_of s.now x).label }
    ensures refusal { refusal.new ≡ (label_of s.now x).refusal }
    ensures present { present.new ≡ (label_of s.now x).present }
    ensures text { result.ref_ptr.0 ≡ s.entry.ref_ptr.0 }
    ensures place { result.ref_ptr.1 ≡ s.entry.ref_ptr.1 + label_from (label_of s.now x) x.texts.label.at }
{
    *refusal = 0;
    *present = 0;
    if is_absent(x.texts.label) {
        return &s[..0];
    }
    if text_stands(s, x.texts.label) {
        *present = 1;
        return text_part(s, x.texts.label);
    }
    *refusal = 18;
    &s[..0]
}

// The label of annotation n: its number of refusal, 1 if there is one and 0 if not, and its part of the metadata s.
#[tactic(auto, using(std::proofs::lemmas::Bool::Decides::nat_tests), unfolding(crate::specs::Label::label_answer))]
pub fn label<'a>(
    t: Summary,
    caps: &[u64],
    notes: &[u64],
    s: &'a [u8],
    n: u64,
    refusal: &mut u64,
    present: &mut u64,
) -> &'a [u8]
    ensures label { result.now ≡ (label_answer (table t caps.now notes.now) s.now n).label }
    ensures refusal { refusal.new ≡ (label_answer (table t caps.now notes.now) s.now n).refusal }
    ensures present { present.new ≡ (label_answer (table t caps.now notes.now) s.now n).present }
    ensures text { result.ref_ptr.0 ≡ s.entry.ref_ptr.0 }
    ensures place { result.ref_ptr.1 ≡ s.entry.ref_ptr.1 + label_start (table t caps.now notes.now) s.now n }
{
    *present = 0;
    if !table::well_formed(t, caps, notes) {
        *refusal = 18;
        return &s[..0];
    }
    if n >= t.annotations {
        *refusal = 19;
        return &s[..0];
    }
    label_of(s, table::annotation_at(notes, n as usize), refusal, present)
}
