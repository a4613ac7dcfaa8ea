ghost use Rattle.std.specs.Prelude.{◌≡◌, ◌<◌, length};
ghost use Rattle.json_names.specs.Same.{same};
ghost use Rattle.sigmf_names.specs.Names.{global_fields, capture_fields, annotation_fields, core_of, type_at};
ghost use Rattle.sigmf_names.specs.Lookup.{lookup_in};
ghost use Rattle.sigmf_names.specs.LookupCode.{one_more};

use crate::{AnnotationField, CaptureField, GlobalField, NameLookup, Object};
use sigmf_values::FieldType;

// A constant that is an array is built anew wherever it is used, a match is not; so the types are a match on a field's number, and the names one on their length.

// The type of the value of field i of the global object.
pub(crate) fn global_type(i: usize) -> FieldType
    ensures { result ≡ type_at global_fields i }
{
    match i {
        0..=11 => FieldType::Text,
        12..=14 => FieldType::Uint,
        15..=16 => FieldType::Double,
        17 => FieldType::Boolean,
        18 => FieldType::Object,
        19 => FieldType::Array,
        _ => FieldType::Any,
    }
}

// The type of the value of field i of a capture.
pub(crate) fn capture_type(i: usize) -> FieldType
    ensures { result ≡ type_at capture_fields i }
{
    match i {
        0..=2 => FieldType::Uint,
        3 => FieldType::Double,
        4 => FieldType::Text,
        5 => FieldType::Object,
        _ => FieldType::Any,
    }
}

// The type of the value of field i of an annotation.
pub(crate) fn annotation_type(i: usize) -> FieldType
    ensures { result ≡ type_at annotation_fields i }
{
    match i {
        0..=1 => FieldType::Uint,
        2..=5 => FieldType::Text,
        6..=7 => FieldType::Double,
        _ => FieldType::Any,
    }
}

// Two texts of one length are equal. No byte ends the loop, so that it is compiled to a comparison of them all; with `a == b` a core name's lookup
// took a quarter longer.
fn are_equal(a: &[u8], b: &[u8]) -> bool
    requires { length a.now ≡ length b.now }
    ensures { result ≡ same a.now b.now }
{
    let mut ok = true;
    for i in 0..b.len() {
        ok &= a[i] == b[i];
    }
    ok
}

// One name more, compared byte for byte with a text of its length: the text is the name of field i, or else what the rest tell.
#[tactic(auto, unfolding(crate::specs::LookupCode::one_more))]
fn compare(text: &[u8], name: &[u8], i: usize, rest: NameLookup) -> NameLookup
    requires text_len { length text.now ≡ length name.now }
    requires compared_bound { rest.compared < 20 }
    ensures { result ≡ one_more (same text.now name.now) i rest }
{
    NameLookup {
        number: if are_equal(text, name) {
            i
        } else {
            rest.number
        },
        compared: rest.compared + 1,
    }
}

// The fields of the global object whose names have a text's length, from the last on.
#[tactic(auto, unfolding(crate::specs::LookupCode::one_more))]
fn compare_global(text: &[u8]) -> NameLookup
    ensures { result ≡ lookup_in global_fields text.now }
{
    let r = NameLookup {
        number: GlobalField::COUNT,
        compared: 0,
    };
    match text.len() {
        7 => compare(text, b"core:hw", 9, r),
        9 => compare(text, b"core:hagl", 16, r),
        11 => {
            let r = compare(text, b"core:offset", 13, r);
            let r = compare(text, b"core:author", 4, r);
            compare(text, b"core:sha512", 2, r)
        }
        12 => {
            let r = compare(text, b"core:dataset", 10, r);
            let r = compare(text, b"core:license", 8, r);
            compare(text, b"core:version", 1, r)
        }
        13 => {
            let r = compare(text, b"core:recorder", 7, r);
            let r = compare(text, b"core:data_doi", 6, r);
            let r = compare(text, b"core:meta_doi", 5, r);
            compare(text, b"core:datatype", 0, r)
        }
        15 => {
            let r = compare(text, b"core:extensions", 19, r);
            compare(text, b"core:collection", 11, r)
        }
        16 => {
            let r = compare(text, b"core:geolocation", 18, r);
            let r = compare(text, b"core:sample_rate", 15, r);
            compare(text, b"core:description", 3, r)
        }
        17 => compare(text, b"core:num_channels", 12, r),
        18 => compare(text, b"core:metadata_only", 17, r),
        19 => compare(text, b"core:trailing_bytes", 14, r),
        _ => r,
    }
}

// The same of a capture.
#[tactic(auto, unfolding(crate::specs::LookupCode::one_more))]
fn compare_capture(text: &[u8]) -> NameLookup
    ensures { result ≡ lookup_in capture_fields text.now }
{
    let r = NameLookup {
        number: CaptureField::COUNT,
        compared: 0,
    };
    match text.len() {
        13 => compare(text, b"core:datetime", 4, r),
        14 => compare(text, b"core:frequency", 3, r),
        16 => compare(text, b"core:geolocation", 5, r),
        17 => {
            let r = compare(text, b"core:header_bytes", 2, r);
            let r = compare(text, b"core:global_index", 1, r);
            compare(text, b"core:sample_start", 0, r)
        }
        _ => r,
    }
}

// The same of an annotation.
#[tactic(auto, unfolding(crate::specs::LookupCode::one_more))]
fn compare_annotation(text: &[u8]) -> NameLookup
    ensures { result ≡ lookup_in annotation_fields text.now }
{
    let r = NameLookup {
        number: AnnotationField::COUNT,
        compared: 0,
    };
    match text.len() {
        9 => compare(text, b"core:uuid", 5, r),
        10 => compare(text, b"core:label", 3, r),
        12 => compare(text, b"core:comment", 4, r),
        13 => compare(text, b"core:latitude", 8, r),
        14 => {
            let r = compare(text, b"core:longitude", 9, r);
            compare(text, b"core:generator", 2, r)
        }
        17 => {
            let r = compare(text, b"core:sample_count", 1, r);
            compare(text, b"core:sample_start", 0, r)
        }
        20 => {
            let r = compare(text, b"core:freq_upper_edge", 7, r);
            compare(text, b"core:freq_lower_edge", 6, r)
        }
        _ => r,
    }
}

// A decoded name, compared with the names of its length.
pub(crate) fn compare_names(kind: Object, text: &[u8]) -> NameLookup
    ensures { result ≡ lookup_in (core_of kind) text.now }
{
    match kind {
        Object::Global => compare_global(text),
        Object::Capture => compare_capture(text),
        Object::Annotation => compare_annotation(text),
    }
}

// How many fields of a kind of object are known.
#[tactic(auto, unfolding(crate::specs::Names::global_fields, crate::specs::Names::capture_fields, crate::specs::Names::annotation_fields))]
pub(crate) fn core_count(kind: Object) -> usize
    ensures { result ≡ length (core_of kind) }
{
    match kind {
        Object::Global => GlobalField::COUNT,
        Object::Capture => CaptureField::COUNT,
        Object::Annotation => AnnotationField::COUNT,
    }
}
