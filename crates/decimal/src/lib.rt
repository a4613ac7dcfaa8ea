// Whole numbers in decimal digits.
#![tactic(auto)]

ghost use Rattle.std.specs.Prelude.{◌≡◌, ◌+◌, ◌%◌, ◌<◌, ◌≤◌, length};
ghost use Rattle.table.specs.Memory.{written};
ghost use Rattle.output.specs.Put.{put_count, put_front};
ghost use Rattle.decimal.specs.Decimal.{digits_of, field};

// How many digits a number has.
pub fn decimal_length(n: u64) -> usize
    ensures { (result ≡ length (digits_of n)) × (result ≤ 20) }
{
    let mut m = n;
    let mut c = 0;
    while m >= 10000 {
        m /= 10000;
        c += 4;
    }
    c + short_length(m)
}

// The same of a number below 10000.
#[tactic(auto, using(crate::proofs::PutLaws::one_digit, crate::proofs::PutLaws::two_digits, crate::proofs::PutLaws::three_digits, crate::proofs::PutLaws::four_digits))]
fn short_length(n: u64) -> usize
    requires { n < 10000 }
    ensures { result ≡ length (digits_of n) }
{
    match n {
        0..=9 => 1,
        10..=99 => 2,
        100..=999 => 3,
        _ => 4,
    }
}

// The digits of a number, written to the front of out if they fit; how many were written.
#[tactic(auto, unfolding(output::specs::Put::put_count, output::specs::Put::put_front))]
pub fn put_decimal(out: &mut [u8], n: u64) -> usize
    ensures count { result ≡ put_count (digits_of n) out.old }
    ensures memory { out.new ≡ put_front (digits_of n) out.old }
{
    let c = decimal_length(n);
    if c > out.len() {
        return 0;
    }
    put_digits(out, n, c);
    c
}

// A word and a number, likewise.
#[tactic(auto, using(std::proofs::lemmas::Bool::Decides::nat_tests, std::proofs::lemmas::Slice::overwrites), unfolding(output::specs::Put::put_count, output::specs::Put::put_front, crate::specs::Decimal::field))]
pub fn put_field(out: &mut [u8], word: &[u8], n: u64) -> usize
    ensures count { result ≡ put_count (field word.now n) out.old }
    ensures memory { out.new ≡ put_front (field word.now n) out.old }
{
    let c = decimal_length(n);
    let w = word.len();
    if w > out.len() || c > out.len() - w {
        return 0;
    }
    output::put_word(out, word);
    put_digits(&mut out[w..], n, c);
    w + c
}

fn digit_of(n: u64) -> u8
    ensures { result ≡ 0x30 + n % 10 }
{
    b'0' + (n % 10) as u8
}

// The c digits of a number, written to the front of out from the last to the first, two at a time, so that the place is counted by hand.
fn put_digits(out: &mut [u8], n: u64, c: usize)
    requires { (c ≡ length (digits_of n)) × (c ≤ length out.old) }
    ensures { out.new ≡ written (digits_of n) out.old }
{
    let mut m = n;
    let mut i = c - 1;
    while m >= 100 {
        let d = m % 100;
        out[i] = digit_of(d);
        out[i - 1] = digit_of(d / 10);
        m /= 100;
        i -= 2;
    }
    out[i] = digit_of(m);
    if m >= 10 {
        out[i - 1] = digit_of(m / 10);
    }
}
