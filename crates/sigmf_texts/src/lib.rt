// Judges of decoded texts. A value's judge is handed the part of the text that holds the value, with its quotes; a name's judge
// is handed the raw name between its quotes.
#![tactic(auto)]

pub mod form;

ghost use Rattle.std.specs.Prelude.{◌≡◌};
ghost use Rattle.sigmf_texts.specs.Texts.{value_text, version_ok, code_of};

use json_names::text_is;
use sigmf_datatypes::{Datatypes, name_bytes};

// A version that can be read.
pub fn is_version(part: &[u8]) -> bool
    ensures { result ≡ version_ok part.now }
{
    text_is(part, 1, b"1.0.0")
}

// The code of a datatype's text; how many codes there are if it is not listed.
pub fn datatype(part: &[u8]) -> u64
    ensures { result ≡ code_of (value_text part.now) }
{
    for code in 0..Datatypes::COUNT {
        if text_is(part, 1, name_bytes(code)) {
            return code;
        }
    }
    Datatypes::COUNT
}
