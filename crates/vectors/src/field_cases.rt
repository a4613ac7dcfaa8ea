// Answers about one value or one name.
use crate::print::{end, line, numbers, word};
use crate::sum::{print_sum, sum_decoded};
use sigmf_datetimes::datetimes::datetime;
use sigmf_extensions::Extension;
use sigmf_extensions::entry::extension;
use sigmf_names::Object;
use sigmf_names::names::{field_type, look_up};
use sigmf_texts::form::name_form;
use sigmf_texts::{datatype, is_version};
use sigmf_values::FieldType;
use sigmf_values::value::{has_type, uint};
use std::io::Stdout;

// `u`: whether a value is a uint, and which.
pub(crate) fn answer_uint(to: Stdout, part: &[u8]) -> bool {
    match uint(part) {
        Some(x) => line(to, b"u 1", &[x]),
        None => line(to, b"u 0", &[]),
    }
}

// `d`: the code of a datatype's text.
pub(crate) fn answer_datatype(to: Stdout, part: &[u8]) -> bool {
    line(to, b"d", &[datatype(part)])
}

// `v`: whether a version can be read.
pub(crate) fn answer_version(to: Stdout, part: &[u8]) -> bool {
    line(to, b"v", &[u64::from(is_version(part))])
}

// `m`: whether a text is a datetime, its numbers and its fraction's digits.
pub(crate) fn answer_datetime(to: Stdout, part: &[u8]) -> bool {
    let Some((d, c, p)) = datetime(part) else {
        return line(to, b"m 0", &[]);
    };
    word(to, b"m 1");
    numbers(to, &[d.year, d.month, d.day, c.hour, c.minute, c.second]);
    print_sum(to, b"", sum_decoded(part, p, Some(b'Z')))
}

// `n`: whether a name has the form, and the part after its colon.
pub(crate) fn answer_form(to: Stdout, raw: &[u8]) -> bool {
    match name_form(raw) {
        Some(p) => print_sum(to, b"n 1", sum_decoded(raw, p, None)),
        None => line(to, b"n 0", &[]),
    }
}

// `g`, `c`, `a`: the number and the type of the core field with a name, and how many names were compared with it.
pub(crate) fn answer_name(to: Stdout, letter: u8, raw: &[u8]) -> bool {
    match letter {
        b'g' => print_field(to, b"g", Object::Global, raw),
        b'c' => print_field(to, b"c", Object::Capture, raw),
        _ => print_field(to, b"a", Object::Annotation, raw),
    }
}

fn print_field(to: Stdout, w: &[u8], kind: Object, raw: &[u8]) -> bool {
    let r = look_up(kind, raw);
    let wanted = field_type(kind, r.number);
    line(to, w, &[r.number as u64, wanted as u64, r.compared as u64])
}

// `k`: whether a value is of each of six types.
pub(crate) fn answer_types(to: Stdout, part: &[u8]) -> bool {
    let types = [
        FieldType::Text,
        FieldType::Uint,
        FieldType::Double,
        FieldType::Boolean,
        FieldType::Object,
        FieldType::Array,
    ];
    word(to, b"k");
    for wanted in &types {
        numbers(to, &[u64::from(has_type(*wanted, part))]);
    }
    end(to, &[])
}

// `x`: an extension entry may be ignored, is malformed or is needed.
pub(crate) fn answer_extension(to: Stdout, part: &[u8]) -> bool {
    match extension(part) {
        Extension::Ignored => line(to, b"x 0", &[]),
        Extension::Malformed => line(to, b"x 12", &[]),
        Extension::Needed => line(to, b"x 13", &[]),
    }
}
