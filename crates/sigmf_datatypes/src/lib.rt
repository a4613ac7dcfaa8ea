// The datatypes of a recording: their names, the bytes of a component and of a sample.
#![tactic(auto)]

ghost use Rattle.std.specs.Prelude.{◌≡◌, length, get_or};
ghost use Rattle.sigmf_datatypes.specs.Datatypes.{is_listed, datatype_of, datatype_name, zero_filled, channel_bytes, sample_bytes};
ghost use Rattle.sigmf_datatypes.specs.Entry.{EntryOf};

use limits::Limits;

// A row of the table: the name, the bytes of a component, complex or not.
#[derive(Clone, Copy)]
struct Entry {
    name: &'static [u8],
    bytes: u64,
    complex: bool,
}

// The list of datatypes.
#[derive(Clone, Copy)]
pub struct Datatypes {}

impl Datatypes {
    // How many there are.
    pub const COUNT: u64 = 28;
}

// A row of the table.
fn row(name: &'static [u8], bytes: u64, complex: bool) -> Entry
    ensures { EntryOf result (record { name = name.entry.now; bytes = bytes; complex = complex }) }
{
    Entry {
        name,
        bytes,
        complex,
    }
}

// The row of a code; an empty one for an unlisted code. A constant that is an array is built anew wherever it is used, a match is not.
#[tactic(auto, unfolding(crate::specs::Datatypes::datatype_of, crate::specs::Datatypes::datatypes, crate::specs::Datatypes::twelve))]
fn entry_of(code: u64) -> Entry
    ensures { EntryOf result (datatype_of code) }
{
    match code {
        0 => row(b"rf32_le", 4, false),
        1 => row(b"rf32_be", 4, false),
        2 => row(b"ri32_le", 4, false),
        3 => row(b"ri32_be", 4, false),
        4 => row(b"ri16_le", 2, false),
        5 => row(b"ri16_be", 2, false),
        6 => row(b"ru32_le", 4, false),
        7 => row(b"ru32_be", 4, false),
        8 => row(b"ru16_le", 2, false),
        9 => row(b"ru16_be", 2, false),
        10 => row(b"ri8", 1, false),
        11 => row(b"ru8", 1, false),
        12 => row(b"cf32_le", 4, true),
        13 => row(b"cf32_be", 4, true),
        14 => row(b"ci32_le", 4, true),
        15 => row(b"ci32_be", 4, true),
        16 => row(b"ci16_le", 2, true),
        17 => row(b"ci16_be", 2, true),
        18 => row(b"cu32_le", 4, true),
        19 => row(b"cu32_be", 4, true),
        20 => row(b"cu16_le", 2, true),
        21 => row(b"cu16_be", 2, true),
        22 => row(b"ci8", 1, true),
        23 => row(b"cu8", 1, true),
        24 => row(b"rf64_le", 8, false),
        25 => row(b"rf64_be", 8, false),
        26 => row(b"cf64_le", 8, true),
        27 => row(b"cf64_be", 8, true),
        _ => row(&[], 0, false),
    }
}

// The code is one of the list. It is the number that C gets in a summary.
#[tactic(auto, using(crate::proofs::Laws::counted), unfolding(crate::specs::Datatypes::is_listed))]
pub fn is_listed(code: u64) -> bool
    ensures { result ≡ is_listed code }
{
    code < Datatypes::COUNT
}

// The bytes of a sample of one channel.
#[tactic(auto, using(crate::proofs::Laws::component_most))]
fn channel_bytes(code: u64) -> u64
    ensures { result ≡ channel_bytes (datatype_of code) }
{
    let entry = entry_of(code);
    if entry.complex {
        entry.bytes * 2
    } else {
        entry.bytes
    }
}

// W, for a listed code and an allowed number of channels; otherwise 0.
#[tactic(auto, using(crate::proofs::Laws::width_fits), unfolding(crate::specs::Datatypes::sample_bytes, crate::specs::Datatypes::width_of))]
pub fn sample_bytes(code: u64, channels: u64) -> u64
    ensures { result ≡ sample_bytes code channels }
{
    if is_listed(code) && 1 <= channels && channels <= Limits::CHANNELS {
        channel_bytes(code) * channels
    } else {
        0
    }
}

// The name; an empty one for an unlisted code.
pub fn name_bytes(code: u64) -> &'static [u8]
    ensures { result.now ≡ datatype_name code }
{
    entry_of(code).name
}

// How many bytes the name has; 0 for an unlisted code.
pub fn name_length(code: u64) -> usize
    ensures { result ≡ length (datatype_name code) }
{
    name_bytes(code).len()
}

// The name, filled up with zeros; zeros alone for an unlisted code.
pub fn name(code: u64) -> [u8; 8]
    ensures { result ≡ zero_filled (datatype_name code) }
{
    let word = name_bytes(code);
    let mut name = [0u8; 8];
    name[..word.len()].copy_from_slice(word);
    name
}

// The name's byte at a place; 0 past its end.
pub fn name_byte(code: u64, at: usize) -> u8
    ensures { result ≡ get_or (datatype_name code) at 0 }
{
    let word = name_bytes(code);
    if at < word.len() { word[at] } else { 0 }
}
