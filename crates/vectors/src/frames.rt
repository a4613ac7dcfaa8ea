// A case's frame: its letter, a space, its payload's length and a line feed.
use standard_streams::read_full;
use std::io::Stdin;

// What stands there is no frame, or the input ends in it.
#[derive(Clone, Copy)]
pub struct Broken;

// The next byte of standard input, if there is one.
fn read_byte(mut from: Stdin) -> Option<u8> {
    let mut byte = [0u8; 1];
    (read_full(&mut from, &mut byte) == 1).then_some(byte[0])
}

// One to seven digits and a line feed.
fn read_length(from: Stdin) -> Option<usize> {
    let mut n = 0;
    for digits in 0..8 {
        match read_byte(from)? {
            b'\n' => return (digits > 0).then_some(n),
            b @ b'0'..=b'9' if n < 1000000 => n = n * 10 + usize::from(b - b'0'),
            _ => return None,
        }
    }
    None
}

// A space and a length.
fn read_size(from: Stdin) -> Option<usize> {
    if read_byte(from)? != b' ' {
        return None;
    }
    read_length(from)
}

// A case's letter and its payload's length, or None where the input ends before a letter.
pub(crate) fn read_header(from: Stdin) -> Result<Option<(u8, usize)>, Broken> {
    let Some(letter) = read_byte(from) else {
        return Ok(None);
    };
    let n = read_size(from).ok_or(Broken)?;
    Ok(Some((letter, n)))
}
