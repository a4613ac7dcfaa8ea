// Extension entries.
#![tactic(auto)]

pub mod entries;
pub mod entry;

// What a member of an extension entry is.
#[derive(Clone, Copy)]
pub enum EntryMember {
    Name,
    Version,
    OptionalTrue,
    OptionalFalse,
    Other,
}

// How many members of each class an extension entry has.
#[derive(Clone, Copy)]
pub struct Tally {
    pub names: u64,
    pub versions: u64,
    pub optionals: u64,
    pub trues: u64,
    pub others: u64,
}

// What an extension entry is: well formed, with an extension that is needed or may be ignored, or not well formed.
#[derive(Clone, Copy)]
pub enum Extension {
    Needed,
    Ignored,
    Malformed,
}
