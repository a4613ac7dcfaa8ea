// Numbers of a JSON text (number.rt), and what a member's name and its colon are (specs/MemberName.antt).
#![tactic(auto)]

pub mod number;
