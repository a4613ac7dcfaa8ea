// A label as the listing shows it: what it leaves of a room, and written to the front of memory.
#![tactic(auto)]

ghost use Rattle.std.specs.Prelude.{◌≡◌, ◌≤◌, ◌<◌, length};
ghost use Rattle.json_strings.specs.Decode.{decoded_from};
ghost use Rattle.table.specs.Memory.{written};
ghost use Rattle.table.specs.Rows.{flat};
ghost use Rattle.output.specs.Left.{left_after};
ghost use Rattle.output.specs.Put.{put_count, put_front};
ghost use Rattle.listing_text.specs.Shown.{hex_digit_of, as_it_is, shown_byte, quoted, shown_text};

use json_strings::Position;
use table::Place;

// A byte is shown as it is.
#[tactic(auto, unfolding(crate::specs::Shown::as_it_is))]
fn is_as_it_is(b: u8) -> bool
    ensures { result ≡ as_it_is b }
{
    json_blocks::is_within(0x20, 0x7E, b) && b != b'"' && b != b'\\'
}

#[tactic(auto, unfolding(crate::specs::Shown::hex_digit_of))]
fn hex_digit(d: u8) -> u8
    requires { d < 16 }
    ensures { result ≡ hex_digit_of d }
{
    if d < 10 { b'0' + d } else { b'a' + (d - 10) }
}

#[tactic(auto, unfolding(crate::specs::Shown::shown_byte))]
fn byte_length(b: u8) -> usize
    ensures { result ≡ length (shown_byte b) }
{
    if is_as_it_is(b) { 1 } else { 4 }
}

#[tactic(auto, unfolding(crate::specs::Shown::shown_byte))]
fn put_byte(out: &mut [u8], b: u8) -> usize
    requires { length (shown_byte b) ≤ length out.old }
    ensures count { result ≡ length (shown_byte b) }
    ensures memory { out.new ≡ written (shown_byte b) out.old }
{
    if is_as_it_is(b) {
        out[0] = b;
        return 1;
    }
    out[..4].copy_from_slice(&[b'\\', b'x', hex_digit(b / 16), hex_digit(b % 16)]);
    4
}

// What the text of a string's body in quotes leaves of a room.
#[tactic(auto, using(std::proofs::lemmas::Bool::Decides::nat_tests, crate::proofs::ShownLaws::quoted_long), unfolding(output::specs::Left::left_after))]
fn quoted_left(raw: &[u8], room: usize) -> Option<usize>
    ensures { result ≡ left_after room (length (quoted raw.now)) }
{
    let mut left = room.checked_sub(2)?;
    let mut p = Position { at: 0, passed: 0 };
    while let Some((b, q)) = json_strings::next_byte(raw, p) {
        left = left.checked_sub(byte_length(b))?;
        p = q;
    }
    Some(left)
}

// The text of a string's body.
fn put_shown(out: &mut [u8], raw: &[u8]) -> usize
    requires { length (flat shown_byte (decoded_from raw.now 0)) ≤ length out.old }
    ensures count { result ≡ length (flat shown_byte (decoded_from raw.now 0)) }
    ensures memory { out.new ≡ written (flat shown_byte (decoded_from raw.now 0)) out.old }
{
    let mut n = 0;
    let mut p = Position { at: 0, passed: 0 };
    while let Some((b, q)) = json_strings::next_byte(raw, p) {
        n += put_byte(&mut out[n..], b);
        p = q;
    }
    n
}

// The text of a string's body in quotes.
fn put_quoted(out: &mut [u8], raw: &[u8]) -> usize
    requires { length (quoted raw.now) ≤ length out.old }
    ensures count { result ≡ length (quoted raw.now) }
    ensures memory { out.new ≡ written (quoted raw.now) out.old }
{
    out[0] = b'"';
    let n = 1 + put_shown(&mut out[1..], raw);
    out[n] = b'"';
    n + 1
}

// What a text leaves of a room.
#[tactic(auto, using(std::proofs::lemmas::Bool::Decides::nat_tests), unfolding(crate::specs::Shown::shown_text, output::specs::Left::left_after))]
pub fn text_left(s: &[u8], p: Place, room: usize) -> Option<usize>
    ensures { result ≡ left_after room (length (shown_text s.now p)) }
{
    if listing_labels::is_absent(p) {
        return room.checked_sub(1);
    }
    quoted_left(listing_labels::text_part(s, p), room)
}

// A text, written to the front of out, which has room.
#[tactic(auto, unfolding(crate::specs::Shown::shown_text))]
fn put_in_room(out: &mut [u8], s: &[u8], p: Place) -> usize
    requires { length (shown_text s.now p) ≤ length out.old }
    ensures count { result ≡ length (shown_text s.now p) }
    ensures memory { out.new ≡ written (shown_text s.now p) out.old }
{
    if listing_labels::is_absent(p) {
        out[0] = b'-';
        return 1;
    }
    put_quoted(out, listing_labels::text_part(s, p))
}

// A text, written to the front of out if it fits; how many bytes were written.
#[tactic(auto, using(std::proofs::lemmas::Bool::Decides::nat_tests), unfolding(output::specs::Put::put_count, output::specs::Put::put_front, output::specs::Left::left_after))]
pub fn put_text(out: &mut [u8], s: &[u8], p: Place) -> usize
    ensures count { result ≡ put_count (shown_text s.now p) out.old }
    ensures memory { out.new ≡ put_front (shown_text s.now p) out.old }
{
    if text_left(s, p, out.len()).is_none() {
        return 0;
    }
    put_in_room(out, s, p)
}
