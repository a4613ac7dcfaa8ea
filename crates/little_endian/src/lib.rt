// Numbers of eight bytes each, one after the other, little-endian.
#![tactic(auto)]

ghost use Rattle.std.specs.Prelude.{◌≡◌, ◌/◌, ◌<◌, length, get_or};
ghost use Rattle.little_endian.specs.LittleEndian.{number_width, numbers_of};

// How many bytes a number has.
pub const WIDTH: usize = 8;

// Number i, which the bytes have whole.
fn number(bytes: &[u8], i: usize) -> u64
    requires { i < length bytes.now / number_width }
    ensures { result ≡ get_or (numbers_of bytes.now) i 0 }
{
    let (numbers, _) = bytes.as_chunks::<WIDTH>();
    u64::from_le_bytes(numbers[i])
}

// Number i; 0 if the bytes have no whole number i.
pub fn number_at(bytes: &[u8], i: usize) -> u64
    ensures { result ≡ get_or (numbers_of bytes.now) i 0 }
{
    if i < bytes.len() / WIDTH {
        number(bytes, i)
    } else {
        0
    }
}
