// Judges of one value. A judge is handed the part of the text that holds the value, a string with its quotes.
#![tactic(auto)]

pub mod value;

// The types of core fields.
#[derive(Clone, Copy)]
pub enum FieldType {
    Text,
    Uint,
    Double,
    Boolean,
    Object,
    Array,
    Any,
}
