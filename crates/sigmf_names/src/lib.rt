// The core names of each kind of object, with their numbers and types. A name's judge is handed the raw name between its quotes.
#![tactic(auto)]

mod decoded;
mod lookup;
pub mod names;

// The kinds of object that have core fields.
#[derive(Clone, Copy)]
pub enum Object {
    Global,
    Capture,
    Annotation,
}

// The number of the field with a name, or how many fields there are, and how many names were compared with it byte for byte.
#[repr(C)]
#[derive(Clone, Copy)]
pub struct NameLookup {
    pub number: usize,
    pub compared: usize,
}

// The numbers of the global object's fields whose values are read, and how many fields there are.
#[derive(Clone, Copy)]
pub struct GlobalField {}

impl GlobalField {
    pub const DATATYPE: usize = 0;

    pub const VERSION: usize = 1;

    pub const DATASET: usize = 10;

    pub const NUM_CHANNELS: usize = 12;

    pub const OFFSET: usize = 13;

    pub const TRAILING_BYTES: usize = 14;

    pub const SAMPLE_RATE: usize = 15;

    pub const METADATA_ONLY: usize = 17;

    pub const EXTENSIONS: usize = 19;

    pub const COUNT: usize = 20;
}

// The same of a capture.
#[derive(Clone, Copy)]
pub struct CaptureField {}

impl CaptureField {
    pub const SAMPLE_START: usize = 0;

    pub const HEADER_BYTES: usize = 2;

    pub const DATETIME: usize = 4;

    pub const COUNT: usize = 6;
}

// The same of an annotation.
#[derive(Clone, Copy)]
pub struct AnnotationField {}

impl AnnotationField {
    pub const SAMPLE_START: usize = 0;

    pub const SAMPLE_COUNT: usize = 1;

    pub const LABEL: usize = 3;

    pub const COUNT: usize = 10;
}
