// A JSON text taken byte by byte: the automaton's types. Its moves stand in specs/ and, as code, in json_transitions.
#![tactic(auto)]

use limits::Limits;

// What may stand next, how far inside a token the text ended, and the brackets that are open. Numbers and no enums: a state goes
// through C by them, and the theorems of specs/Control speak of them.
#[derive(Clone, Copy)]
pub struct Control {
    pub place: u64,
    pub token: u64,
    pub stack: u64,
}

impl Control {
    // The places: what may stand next, once the token has ended.
    // A value, at the top level or after a colon.
    pub const VALUE: u64 = 1;
    // Past an opening bracket: an item or the close.
    pub const FIRST: u64 = 2;
    // Past a comma: an item.
    pub const NEXT: u64 = 3;
    // After a name: a colon.
    pub const COLON: u64 = 4;
    // After a value: a comma, the close, or the end of the text.
    pub const AFTER: u64 = 5;
    // Nothing: the text is lost.
    pub const LOST: u64 = 6;

    // A stack that is not below has as many brackets open as may nest.
    pub const FULL: u64 = 1 << Limits::NESTING;
}

// The same, and how many bytes there were.
#[repr(C)]
#[derive(Clone, Copy)]
pub struct State {
    pub place: u64,
    pub token: u64,
    pub stack: u64,
    pub count: usize,
}
