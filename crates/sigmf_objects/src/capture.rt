// A capture.
ghost use Rattle.std.specs.Prelude.{◌≡◌, [], ◌∷◌};
ghost use Rattle.refusals.specs.Refusals.{rule, lowest, least};
ghost use Rattle.sigmf_objects.specs.Fields.{is_absent};
ghost use Rattle.sigmf_objects.specs.Places.{noted, length_of};
ghost use Rattle.sigmf_objects.specs.Capture.{breaks_rule, read_capture};

use crate::CaptureFound;
use crate::value::sized_part;
use crate::walk::find_fields;
use refusals::least;
use sigmf_datetimes::datetimes::datetime;
use sigmf_names::{CaptureField, Object};
use table::CaptureEntry;

// What the places of sample_start and datetime tell of 6 and 11; n is how many bytes the datetime has with its quotes.
fn places_low(s: &[u8], start: usize, moment: usize, n: u64) -> u64
    requires { n ≡ length_of (noted s.now moment) }
    ensures { result ≡ lowest (rule 6 (is_absent (noted s.now start)) ∷ rule 11 (breaks_rule (noted s.now moment)) ∷ []) }
{
    if start == 0 {
        return 6;
    }
    if moment == 0 {
        return 0;
    }
    if datetime(sized_part(s, moment, n)).is_some() {
        0
    } else {
        11
    }
}

// The capture at a place.
pub fn read_capture(s: &[u8], at: usize) -> CaptureFound
    ensures { result ≡ read_capture s.now at }
{
    let mut places = [0usize; CaptureField::COUNT + 1];
    let mut sizes = [0u64; CaptureField::COUNT + 1];
    let w = find_fields(Object::Capture, s, at, &mut places, &mut sizes);
    let low = places_low(
        s,
        places[CaptureField::SAMPLE_START],
        places[CaptureField::DATETIME],
        sizes[CaptureField::DATETIME],
    );
    CaptureFound {
        low: least(w.low, low),
        entry: CaptureEntry {
            start: sizes[CaptureField::SAMPLE_START],
            header: sizes[CaptureField::HEADER_BYTES],
        },
        close: w.close,
    }
}
