// The moves of the automaton over JSON texts, and a run over the bytes of a chunk.
#![tactic(auto)]

mod token;

ghost use Rattle.std.specs.Prelude.{◌≡◌, ◌≤◌, length};
ghost use Rattle.json_transitions.specs.Kept.{Kept};
ghost use Rattle.json_automaton.specs.Token.{whole};
ghost use Rattle.json_automaton.specs.Control.{control, lost, is_object_top, closing, push, pop, number_move, value_move, item_move, first_move, colon_move, after_move, place_move, move, run_moves};

use crate::token::{BAD, FALSE, MINUS, NULL, STRING, TRUE, minus_move, token_move};
use json_automaton::Control;
use json_blocks::{Cursor, is_blank};
use json_characters::skip_plain_bytes;

// The control of three numbers.
fn at(place: u64, token: u64, stack: u64) -> Control
    ensures { result ≡ control place token stack }
{
    Control {
        place,
        token,
        stack,
    }
}

// No continuation makes a JSON text.
fn lost() -> Control
    ensures { result ≡ lost }
{
    at(Control::LOST, 0, 0)
}

// Nothing is wanted: no token, or a number that may end here.
#[tactic(auto, unfolding(json_automaton::specs::Token::whole))]
pub fn is_whole(t: u64) -> bool
    ensures { result ≡ whole t }
{
    matches!(t, 0 | 22 | 23 | 25 | 28)
}

// The innermost open bracket is an object's.
pub fn is_object_top(stack: u64) -> bool
    ensures { result ≡ is_object_top stack }
{
    stack % 2 == 1
}

// The byte that closes it.
fn close_of(stack: u64) -> u8
    ensures { result ≡ closing stack }
{
    if is_object_top(stack) { b'}' } else { b']' }
}

// Past an opening bracket: kind is 0 for an array, 1 for an object, the bit that the stack gets.
#[tactic(auto, unfolding(json_automaton::specs::Control::push))]
fn push(stack: u64, kind: u64) -> Control
    requires { kind ≤ 1 }
    ensures { result ≡ push stack kind }
{
    if stack < Control::FULL {
        at(Control::FIRST, 0, stack * 2 + kind)
    } else {
        lost()
    }
}

// Past a closing bracket.
fn pop(stack: u64) -> Control
    ensures { result ≡ pop stack }
{
    at(Control::AFTER, 0, stack / 2)
}

// A number begins.
#[tactic(auto, unfolding(json_automaton::specs::Control::number_move))]
fn number_move(stack: u64, b: u8) -> Control
    ensures { result ≡ number_move stack b }
{
    let n = if b == b'-' { MINUS } else { minus_move(b) };
    if n == BAD {
        return lost();
    }
    at(Control::AFTER, n, stack)
}

// A value begins.
#[tactic(auto, unfolding(json_automaton::specs::Control::value_move))]
fn value_move(stack: u64, b: u8) -> Control
    ensures { result ≡ value_move stack b }
{
    match b {
        b'"' => at(Control::AFTER, STRING, stack),
        b'[' => push(stack, 0),
        b'{' => push(stack, 1),
        b't' => at(Control::AFTER, TRUE, stack),
        b'f' => at(Control::AFTER, FALSE, stack),
        b'n' => at(Control::AFTER, NULL, stack),
        _ => number_move(stack, b),
    }
}

// An element begins, or a member's name.
#[tactic(auto, unfolding(json_automaton::specs::Control::item_move))]
fn item_move(stack: u64, b: u8) -> Control
    ensures { result ≡ item_move stack b }
{
    if !is_object_top(stack) {
        value_move(stack, b)
    } else if b == b'"' {
        at(Control::COLON, STRING, stack)
    } else {
        lost()
    }
}

// Past an opening bracket: the close, or an item.
#[tactic(auto, unfolding(json_automaton::specs::Control::first_move))]
fn first_move(stack: u64, b: u8) -> Control
    ensures { result ≡ first_move stack b }
{
    if b == close_of(stack) {
        pop(stack)
    } else {
        item_move(stack, b)
    }
}

// After a name.
#[tactic(auto, unfolding(json_automaton::specs::Control::colon_move))]
fn colon_move(stack: u64, b: u8) -> Control
    ensures { result ≡ colon_move stack b }
{
    if b == b':' {
        at(Control::VALUE, 0, stack)
    } else {
        lost()
    }
}

// After a value.
#[tactic(auto, unfolding(json_automaton::specs::Control::after_move))]
fn after_move(stack: u64, b: u8) -> Control
    ensures { result ≡ after_move stack b }
{
    if stack < 2 {
        lost()
    } else if b == b',' {
        at(Control::NEXT, 0, stack)
    } else if b == close_of(stack) {
        pop(stack)
    } else {
        lost()
    }
}

// Between tokens: a blank, or what the place takes.
#[tactic(auto, unfolding(json_automaton::specs::Control::place_move, json_automaton::specs::Control::place_moves))]
fn place_move(place: u64, stack: u64, b: u8) -> Control
    ensures { result ≡ place_move place stack b }
{
    if is_blank(b) {
        return at(place, 0, stack);
    }
    match place {
        1 => value_move(stack, b),
        2 => first_move(stack, b),
        3 => item_move(stack, b),
        4 => colon_move(stack, b),
        5 => after_move(stack, b),
        _ => lost(),
    }
}

// One byte more. A byte that the token can't take goes to the place, if the token is whole.
fn step(c: Control, b: u8) -> Control
    ensures { result ≡ move c b }
{
    let n = token_move(c.token, b);
    if n != BAD {
        at(c.place, n, c.stack)
    } else if is_whole(c.token) {
        place_move(c.place, c.stack, b)
    } else {
        lost()
    }
}

// Past the bytes that leave a control between tokens as it is: all where the text is lost, and blanks.
fn skip_between(c: Control, s: &[u8], at: usize) -> usize
    requires token_value { c.token ≡ 0 }
    requires at_in_bounds { at ≤ length s.now }
    ensures { Kept c s.now at result }
{
    if c.place == Control::LOST && c.stack == 0 {
        return s.len();
    }
    Cursor { at }.skip_indent(s).at
}

// Past bytes that leave the control as it is: plain bytes of a string, and those between tokens.
fn skip_kept(c: Control, s: &[u8], at: usize) -> usize
    requires { at ≤ length s.now }
    ensures { Kept c s.now at result }
{
    if c.token == STRING {
        skip_plain_bytes(s, at)
    } else if c.token == 0 {
        skip_between(c, s, at)
    } else {
        at
    }
}

// The control after the bytes of s.
pub fn run(c: Control, s: &[u8]) -> Control
    ensures { result ≡ run_moves c s.now }
{
    let mut d = c;
    let mut i = 0;
    while i < s.len() {
        d = step(d, s[i]);
        i = skip_kept(d, s, i + 1);
    }
    d
}
