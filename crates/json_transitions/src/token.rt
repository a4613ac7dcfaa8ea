// How far inside a token the text is, and one byte more of it. The tokens are those of json_automaton/specs/Token, by the same numbers.
ghost use Rattle.std.specs.Prelude.{◌≡◌};
ghost use Rattle.json_automaton.specs.Token.{byte_move, is_move, hex_move, low_move, wide_move, text_move, escape_move, first_hex_move, surrogate_move, minus_move, exponent_move, fraction_move, sign_move, token_move};

use json_blocks::{code_within, is_within};
use json_characters::{hex_digit, is_short_escape};

// The token cannot take the byte: a number, as the tokens are (json_automaton's Control).
pub(crate) const BAD: u64 = 38;

// The tokens that values begin with.
pub(crate) const STRING: u64 = 1;

pub(crate) const MINUS: u64 = 21;

pub(crate) const TRUE: u64 = 29;

pub(crate) const FALSE: u64 = 32;

pub(crate) const NULL: u64 = 35;

// A byte from lo to hi.
#[tactic(auto, unfolding(json_automaton::specs::Token::byte_move))]
fn byte_move(lo: u8, hi: u8, next: u64, b: u8) -> u64
    ensures { result ≡ byte_move lo hi next b }
{
    if is_within(lo, hi, b) { next } else { BAD }
}

// The byte w.
#[tactic(auto, unfolding(json_automaton::specs::Token::is_move))]
fn is_move(w: u8, next: u64, b: u8) -> u64
    ensures { result ≡ is_move w next b }
{
    if b == w { next } else { BAD }
}

// A hexadecimal digit.
#[tactic(auto, unfolding(json_automaton::specs::Token::hex_move))]
fn hex_move(next: u64, b: u8) -> u64
    ensures { result ≡ hex_move next b }
{
    if hex_digit(b) < 16 { next } else { BAD }
}

// A hexadecimal digit from lo to hi: the first two of a low surrogate.
#[tactic(auto, unfolding(json_automaton::specs::Token::low_move))]
fn low_move(lo: usize, hi: usize, next: u64, b: u8) -> u64
    ensures { result ≡ low_move lo hi next b }
{
    if code_within(lo, hi, hex_digit(b)) {
        next
    } else {
        BAD
    }
}

// The first byte of a character above ASCII.
#[tactic(auto, unfolding(json_automaton::specs::Token::wide_move, json_blocks::specs::TextBytes::within))]
fn wide_move(b: u8) -> u64
    ensures { result ≡ wide_move b }
{
    match b {
        0xC2..=0xDF => 2,
        0xE0 => 5,
        0xE1..=0xEC | 0xEE..=0xEF => 3,
        0xED => 6,
        0xF0 => 7,
        0xF1..=0xF3 => 4,
        0xF4 => 8,
        _ => BAD,
    }
}

// In a string.
#[tactic(auto, unfolding(json_automaton::specs::Token::text_move))]
fn text_move(b: u8) -> u64
    ensures { result ≡ text_move b }
{
    match b {
        b'"' => 0,
        0..=0x1F => BAD,
        b'\\' => 9,
        0x20..=0x7F => 1,
        _ => wide_move(b),
    }
}

// After a backslash.
#[tactic(auto, unfolding(json_automaton::specs::Token::escape_move))]
fn escape_move(b: u8) -> u64
    ensures { result ≡ escape_move b }
{
    if is_short_escape(b) {
        1
    } else if b == b'u' {
        13
    } else {
        BAD
    }
}

// The first digit of an escape: a `d` may begin a surrogate.
#[tactic(auto, unfolding(json_automaton::specs::Token::first_hex_move))]
fn first_hex_move(b: u8) -> u64
    ensures { result ≡ first_hex_move b }
{
    let h = hex_digit(b);
    if 15 < h {
        BAD
    } else if h == 13 {
        14
    } else {
        12
    }
}

// The digit after it: no surrogate, or a high one; a low one stands nowhere first.
#[tactic(auto, unfolding(json_automaton::specs::Token::surrogate_move))]
fn surrogate_move(b: u8) -> u64
    ensures { result ≡ surrogate_move b }
{
    let h = hex_digit(b);
    if h < 8 {
        11
    } else if h < 12 {
        15
    } else {
        BAD
    }
}

// The first digit of a number.
#[tactic(auto, unfolding(json_automaton::specs::Token::minus_move))]
pub(crate) fn minus_move(b: u8) -> u64
    ensures { result ≡ minus_move b }
{
    if b == b'0' {
        return 22;
    }
    byte_move(b'0', b'9', 23, b)
}

// An exponent begins.
#[tactic(auto, unfolding(json_automaton::specs::Token::exponent_move))]
fn exponent_move(b: u8) -> u64
    ensures { result ≡ exponent_move b }
{
    match b {
        b'e' | b'E' => 26,
        _ => BAD,
    }
}

// A fraction begins, or an exponent.
#[tactic(auto, unfolding(json_automaton::specs::Token::fraction_move))]
fn fraction_move(b: u8) -> u64
    ensures { result ≡ fraction_move b }
{
    if b == b'.' {
        return 24;
    }
    exponent_move(b)
}

// After `e`.
#[tactic(auto, unfolding(json_automaton::specs::Token::sign_move))]
fn sign_move(b: u8) -> u64
    ensures { result ≡ sign_move b }
{
    match b {
        b'+' | b'-' => 27,
        _ => byte_move(b'0', b'9', 28, b),
    }
}

// In an integer that does not begin with 0.
#[tactic(auto, unfolding(json_automaton::specs::Token::token_move, json_automaton::specs::Token::token_moves))]
fn integer_move(b: u8) -> u64
    ensures { result ≡ token_move 23 b }
{
    if is_within(b'0', b'9', b) {
        return 23;
    }
    fraction_move(b)
}

// In a fraction.
#[tactic(auto, unfolding(json_automaton::specs::Token::token_move, json_automaton::specs::Token::token_moves))]
fn decimal_move(b: u8) -> u64
    ensures { result ≡ token_move 25 b }
{
    if is_within(b'0', b'9', b) {
        return 25;
    }
    exponent_move(b)
}

// One byte more of the token t: the token then, 0 where it has ended, or BAD.
#[tactic(auto, unfolding(json_automaton::specs::Token::token_move, json_automaton::specs::Token::token_moves))]
pub(crate) fn token_move(t: u64, b: u8) -> u64
    ensures { result ≡ token_move t b }
{
    match t {
        0 => BAD,
        1 => text_move(b),
        2 => byte_move(0x80, 0xBF, 1, b),
        3 => byte_move(0x80, 0xBF, 2, b),
        4 => byte_move(0x80, 0xBF, 3, b),
        5 => byte_move(0xA0, 0xBF, 2, b),
        6 => byte_move(0x80, 0x9F, 2, b),
        7 => byte_move(0x90, 0xBF, 3, b),
        8 => byte_move(0x80, 0x8F, 3, b),
        9 => escape_move(b),
        10 => hex_move(1, b),
        11 => hex_move(10, b),
        12 => hex_move(11, b),
        13 => first_hex_move(b),
        14 => surrogate_move(b),
        15 => hex_move(16, b),
        16 => hex_move(17, b),
        17 => is_move(b'\\', 18, b),
        18 => is_move(b'u', 19, b),
        19 => low_move(13, 13, 20, b),
        20 => low_move(12, 15, 11, b),
        21 => minus_move(b),
        22 => fraction_move(b),
        23 => integer_move(b),
        24 => byte_move(b'0', b'9', 25, b),
        25 => decimal_move(b),
        26 => sign_move(b),
        27 => byte_move(b'0', b'9', 28, b),
        28 => byte_move(b'0', b'9', 28, b),
        29 => is_move(b'r', 30, b),
        30 => is_move(b'u', 31, b),
        31 => is_move(b'e', 0, b),
        32 => is_move(b'a', 33, b),
        33 => is_move(b'l', 34, b),
        34 => is_move(b's', 31, b),
        35 => is_move(b'u', 36, b),
        36 => is_move(b'l', 37, b),
        37 => is_move(b'l', 0, b),
        _ => BAD,
    }
}
