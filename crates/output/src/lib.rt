// Bytes put to the front of lent memory, all or none, and what they leave of a room.
#![tactic(auto)]

ghost use Rattle.std.specs.Prelude.{◌≡◌};
ghost use Rattle.sigmf_datatypes.specs.Datatypes.{datatype_name};
ghost use Rattle.output.specs.Put.{put_count, put_front};

// A word, put to the front of out if it fits; how many bytes were put. A loop by hand: `copy_from_slice` makes the archives for C need `memmove`.
pub fn put_word(out: &mut [u8], word: &[u8]) -> usize
    ensures count { result ≡ put_count word.now out.old }
    ensures memory { out.new ≡ put_front word.now out.old }
{
    let n = word.len();
    if n > out.len() {
        return 0;
    }
    for i in 0..n {
        out[i] = word[i];
    }
    n
}

// The name of a datatype, likewise.
pub fn put_datatype_name(out: &mut [u8], code: u64) -> usize
    ensures count { result ≡ put_count (datatype_name code) out.old }
    ensures memory { out.new ≡ put_front (datatype_name code) out.old }
{
    put_word(out, sigmf_datatypes::name_bytes(code))
}
