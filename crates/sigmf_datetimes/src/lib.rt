// Datetimes, judged decoded and taken apart. The judge is handed the part of the text that holds the value, with its quotes.
#![tactic(auto)]

pub mod datetimes;

use json_strings::Position;

#[derive(Clone, Copy)]
pub struct Date {
    pub year: u64,
    pub month: u64,
    pub day: u64,
}

#[derive(Clone, Copy)]
pub struct Clock {
    pub hour: u64,
    pub minute: u64,
    pub second: u64,
}
