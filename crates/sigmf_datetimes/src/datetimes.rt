ghost use Rattle.std.specs.Prelude.{◌≡◌, true, ◌+◌, ◌<◌, ◌≤◌, length, leb, IfSome};
ghost use Rattle.json_strings.specs.Stream.{start_at, next_byte, stream};
ghost use Rattle.sigmf_texts.specs.Texts.{value_text};
ghost use Rattle.sigmf_datetimes.specs.Datetimes.{pair_of, pair_then, date_of, clock_of, is_empty, starts_digit, zoned, fraction_of, leap, last_day, date_ok, clock_ok, datetime_answer, datetime_says};
ghost use Rattle.sigmf_datetimes.specs.DatetimeCode.{pair_says, date_says, clock_says, fraction_says, has_pair, has_pair_then, pair_at, has_date, has_clock};

use crate::{Clock, Date};
use json_blocks::blocks::has_room;
use json_blocks::{is_within, peek};
use json_strings::{Position, next_byte};

// The next decoded byte, quickly where it stands for itself. The bytes of a datetime lie between these two. Not inlined it hands its answer back
// through memory, for which a long fraction pays.
#[inline(always)]
fn next(s: &[u8], p: Position) -> Option<(u8, Position)>
    ensures { result ≡ next_byte s.now p }
{
    if p.passed == 0 {
        let b = peek(s, p.at);
        if is_within(b'-', b'Z', b) {
            return Some((
                b,
                Position {
                    at: p.at + 1,
                    passed: 0,
                },
            ));
        }
    }
    next_byte(s, p)
}

// Two digits stand at a place.
#[tactic(auto, unfolding(crate::specs::DatetimeCode::has_pair))]
fn has_pair(s: &[u8], at: usize) -> bool
    requires { at + 2 ≤ length s.now }
    ensures { result ≡ has_pair s.now at }
{
    is_within(b'0', b'9', s[at]) && is_within(b'0', b'9', s[at + 1])
}

// Two digits and a mark stand at a place.
#[tactic(auto, unfolding(crate::specs::DatetimeCode::has_pair_then))]
fn has_pair_then(s: &[u8], at: usize, mark: u8) -> bool
    requires { at + 3 ≤ length s.now }
    ensures { result ≡ has_pair_then mark s.now at }
{
    has_pair(s, at) && s[at + 2] == mark
}

// The number of two digits at a place.
#[tactic(auto, unfolding(crate::specs::DatetimeCode::has_pair, crate::specs::DatetimeCode::pair_at, json_blocks::specs::TextBytes::within))]
fn pair_at(s: &[u8], at: usize) -> u64
    requires { has_pair s.now at ≡ true }
    ensures digits { result ≡ pair_at s.now at }
    ensures small { result < 100 }
{
    (s[at] - b'0') as u64 * 10 + (s[at + 1] - b'0') as u64
}

// Two digits from a position on.
#[tactic(auto, using(json_strings::proofs::DecodeLaws::streamed_end), unfolding(crate::specs::Datetimes::pair_of, json_blocks::specs::TextBytes::within))]
pub(crate) fn pair(s: &[u8], p: Position) -> Option<(u64, Position)>
    ensures read { pair_says s.now result ≡ pair_of (stream s.now p) }
    ensures small { IfSome result (λ r. r.0 < 100) }
{
    let (a, i) = next(s, p)?;
    if !is_within(b'0', b'9', a) {
        return None;
    }
    let (b, j) = next(s, i)?;
    if !is_within(b'0', b'9', b) {
        return None;
    }
    Some(((a - b'0') as u64 * 10 + (b - b'0') as u64, j))
}

// Two digits and a mark.
#[tactic(auto, using(json_strings::proofs::DecodeLaws::streamed_next, json_strings::proofs::DecodeLaws::streamed_end), unfolding(crate::specs::Datetimes::pair_then, crate::specs::Datetimes::mark_after))]
pub(crate) fn pair_then(s: &[u8], p: Position, mark: u8) -> Option<(u64, Position)>
    ensures read { pair_says s.now result ≡ pair_then mark (stream s.now p) }
    ensures small { IfSome result (λ r. r.0 < 100) }
{
    let (v, p) = pair(s, p)?;
    let (b, p) = next(s, p)?;
    if b != mark {
        return None;
    }
    Some((v, p))
}

// YYYY-MM-DDT stands at a place, each byte for itself.
#[tactic(auto, unfolding(crate::specs::DatetimeCode::has_date))]
fn has_date(s: &[u8], at: usize) -> bool
    ensures { result ≡ has_date s.now at }
{
    has_room(s, at, 11)
        && has_pair(s, at)
        && has_pair_then(s, at + 2, b'-')
        && has_pair_then(s, at + 5, b'-')
        && has_pair_then(s, at + 8, b'T')
}

// YYYY-MM-DDT
#[tactic(auto, unfolding(crate::specs::DatetimeCode::has_date, crate::specs::DatetimeCode::has_pair_then))]
pub(crate) fn date(s: &[u8], at: usize) -> Option<(Date, Position)>
    ensures { date_says s.now result ≡ date_of (stream s.now (start_at at)) }
{
    if has_date(s, at) {
        return Some((
            Date {
                year: pair_at(s, at) * 100 + pair_at(s, at + 2),
                month: pair_at(s, at + 5),
                day: pair_at(s, at + 8),
            },
            Position {
                at: at + 11,
                passed: 0,
            },
        ));
    }
    decoded_date(s, at)
}

// The same, decoded.
#[tactic(auto, unfolding(crate::specs::Datetimes::date_of))]
fn decoded_date(s: &[u8], at: usize) -> Option<(Date, Position)>
    ensures { date_says s.now result ≡ date_of (stream s.now (start_at at)) }
{
    let (century, p) = pair(s, Position { at, passed: 0 })?;
    let (year, p) = pair_then(s, p, b'-')?;
    let (month, p) = pair_then(s, p, b'-')?;
    let (day, p) = pair_then(s, p, b'T')?;
    Some((
        Date {
            year: century * 100 + year,
            month,
            day,
        },
        p,
    ))
}

// HH:MM:SS stands at a place, each byte for itself.
#[tactic(auto, unfolding(crate::specs::DatetimeCode::has_clock))]
fn has_clock(s: &[u8], at: usize) -> bool
    ensures { result ≡ has_clock s.now at }
{
    has_room(s, at, 8)
        && has_pair_then(s, at, b':')
        && has_pair_then(s, at + 3, b':')
        && has_pair(s, at + 6)
}

// HH:MM:SS
#[tactic(auto, unfolding(crate::specs::DatetimeCode::has_clock, crate::specs::DatetimeCode::has_pair_then))]
pub(crate) fn clock(s: &[u8], p: Position) -> Option<(Clock, Position)>
    ensures { clock_says s.now result ≡ clock_of (stream s.now p) }
{
    if p.passed == 0 && has_clock(s, p.at) {
        return Some((
            Clock {
                hour: pair_at(s, p.at),
                minute: pair_at(s, p.at + 3),
                second: pair_at(s, p.at + 6),
            },
            Position {
                at: p.at + 8,
                passed: 0,
            },
        ));
    }
    decoded_clock(s, p)
}

// The same, decoded.
#[tactic(auto, unfolding(crate::specs::Datetimes::clock_of))]
fn decoded_clock(s: &[u8], from: Position) -> Option<(Clock, Position)>
    ensures { clock_says s.now result ≡ clock_of (stream s.now from) }
{
    let (hour, p) = pair_then(s, from, b':')?;
    let (minute, p) = pair_then(s, p, b':')?;
    let (second, p) = pair(s, p)?;
    Some((
        Clock {
            hour,
            minute,
            second,
        },
        p,
    ))
}

pub(crate) fn is_end(s: &[u8], p: Position) -> bool
    ensures { result ≡ is_empty (stream s.now p) }
{
    next(s, p).is_none()
}

#[tactic(auto, using(json_strings::proofs::DecodeLaws::streamed_end))]
pub(crate) fn begins_digit(s: &[u8], p: Position) -> bool
    ensures { result ≡ starts_digit (stream s.now p) }
{
    let Some((b, _)) = next(s, p) else {
        return false;
    };
    is_within(b'0', b'9', b)
}

// Digits, Z and no more.
#[tactic(auto, using(json_strings::proofs::DecodeLaws::streamed_next, json_strings::proofs::DecodeLaws::streamed_end), unfolding(crate::specs::Datetimes::zoned))]
pub(crate) fn is_zoned(s: &[u8], from: Position) -> bool
    ensures { result ≡ zoned (stream s.now from) }
{
    let mut p = from;
    while let Some((b, q)) = next(s, p) {
        if b == b'Z' {
            return is_end(s, q);
        }
        if !is_within(b'0', b'9', b) {
            return false;
        }
        p = q;
    }
    false
}

// Where the digits of the fraction stand, if there are any, before the Z that ends the text.
#[tactic(auto, using(json_strings::proofs::DecodeLaws::streamed_next, json_strings::proofs::DecodeLaws::streamed_end, crate::proofs::DatetimeLaws::no_digits), unfolding(crate::specs::Datetimes::fraction_of))]
pub(crate) fn fraction(s: &[u8], p: Position) -> Option<Position>
    ensures { fraction_says s.now result ≡ fraction_of (stream s.now p) }
{
    let (b, q) = next(s, p)?;
    match b {
        b'.' if begins_digit(s, q) && is_zoned(s, q) => Some(q),
        b'Z' if is_end(s, q) => Some(q),
        _ => None,
    }
}

#[tactic(auto, unfolding(crate::specs::Datetimes::leap))]
pub(crate) fn is_leap(y: u64) -> bool
    ensures { result ≡ leap y }
{
    y % 4 == 0 && (y % 100 != 0 || y % 400 == 0)
}

// The last day of a month; 0 if there is no such month.
#[tactic(auto, unfolding(crate::specs::Datetimes::last_day, crate::specs::Datetimes::month_days))]
pub(crate) fn last_day(y: u64, m: u64) -> u64
    ensures { result ≡ last_day y m }
{
    match m {
        1 | 3 | 5 | 7 | 8 | 10 | 12 => 31,
        4 | 6 | 9 | 11 => 30,
        2 if is_leap(y) => 29,
        2 => 28,
        _ => 0,
    }
}

#[tactic(auto, unfolding(crate::specs::Datetimes::date_ok))]
pub(crate) fn is_date(d: Date) -> bool
    ensures { result ≡ date_ok d }
{
    1 <= d.day && d.day <= last_day(d.year, d.month)
}

// A time of day; last says that it is on a month's last day.
#[tactic(auto, unfolding(crate::specs::Datetimes::clock_ok))]
pub(crate) fn is_clock(last: bool, c: Clock) -> bool
    ensures { result ≡ clock_ok last c }
{
    c.hour <= 23
        && c.minute <= 59
        && (c.second <= 59 || (c.second == 60 && c.hour == 23 && c.minute == 59 && last))
}

// The parts of a datetime.
#[tactic(auto, using(json_strings::proofs::DecodeLaws::stream_start), unfolding(crate::specs::Datetimes::datetime_of))]
pub fn datetime(part: &[u8]) -> Option<(Date, Clock, Position)>
    ensures { datetime_says part.now result ≡ datetime_answer (value_text part.now) }
{
    let (d, p) = date(part, 1)?;
    let (c, p) = clock(part, p)?;
    let digits = fraction(part, p)?;
    if is_date(d) && is_clock(d.day == last_day(d.year, d.month), c) {
        return Some((d, c, digits));
    }
    None
}
