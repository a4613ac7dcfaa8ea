// The first line of a program's input, and what follows it.
#![tactic(auto)]

ghost use Rattle.std.specs.Prelude.{◌≡◌, ◌+◌, ◌-◌, ◌*◌, ◌^◌, ◌<◌, ◌≤◌, SomeIff, drop};
ghost use Rattle.first_line.specs.FirstLine.{first_line, line_says};

// The most digits of the line.
const DIGITS: usize = 20;

// The bytes of the longest line.
pub const LONGEST: usize = DIGITS + 1;

// A number with a digit more; None past 64 bits.
fn with_digit(n: u64, digit: u8) -> Option<u64>
    requires { 0x30 ≤ digit }
    ensures { SomeIff result (n * 10 + (digit - 0x30) < 2 ^ 64) (n * 10 + (digit - 0x30)) }
{
    n.checked_mul(10)?.checked_add(u64::from(digit - b'0'))
}

// The first line of an input: digits and a line feed.
pub fn first_line(input: &[u8]) -> Option<(u64, usize)>
    ensures { line_says result ≡ first_line input.now }
{
    let mut n = 0;
    for (i, b) in input.iter().enumerate() {
        match *b {
            b'0'..=b'9' if i < DIGITS => n = with_digit(n, *b)?,
            b'\n' if i > 0 => return Some((n, i + 1)),
            _ => return None,
        }
    }
    None
}

// What follows a place of the input; past its end nothing.
pub fn after(input: &[u8], at: usize) -> &[u8]
    ensures { result.now ≡ drop at input.now }
{
    &input[at.min(input.len())..]
}
