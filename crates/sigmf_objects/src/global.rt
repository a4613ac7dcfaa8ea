// The global object.
ghost use Rattle.std.specs.Prelude.{◌≡◌, length};
ghost use Rattle.refusals.specs.Refusals.{lowest, least};
ghost use Rattle.sigmf_extensions.specs.Extensions.{entries_rules};
ghost use Rattle.sigmf_names.specs.Names.{global_fields};
ghost use Rattle.sigmf_objects.specs.Places.{noted, length_of, Fitting};
ghost use Rattle.sigmf_objects.specs.Global.{datatype_code, channels_of, entries_of, lacks_dataset, globals_of, read_global};
ghost use Rattle.sigmf_objects.specs.GlobalPlaces.{placed, first_rules, later_rules, placed_rules};

use crate::GlobalFound;
use crate::value::{sized_part, uint_or};
use crate::walk::find_fields;
use limits::Limits;
use refusals::least;
use sigmf_datatypes::{Datatypes, is_listed};
use sigmf_extensions::entries::entries_refusal;
use sigmf_names::{GlobalField, Object};
use sigmf_texts::{datatype, is_version};
use sigmf_values::value::is_true;
use table::{Globals, Place};

// The code of the datatype at a place, of n bytes with its quotes; without one, how many codes there are.
fn code_at(s: &[u8], place: usize, n: u64) -> u64
    requires { n ≡ length_of (noted s.now place) }
    ensures { result ≡ datatype_code (noted s.now place) }
{
    if place == 0 {
        return Datatypes::COUNT;
    }
    datatype(sized_part(s, place, n))
}

// What the places of datatype and version tell of 6, 8 and 9; n is how many bytes the version has with its quotes.
fn first_low(s: &[u8], place: usize, code: u64, version: usize, n: u64) -> u64
    requires code_value { code ≡ datatype_code (noted s.now place) }
    requires n_value { n ≡ length_of (noted s.now version) }
    ensures { result ≡ lowest (first_rules (noted s.now place) (noted s.now version)) }
{
    if place == 0 || version == 0 {
        return 6;
    }
    if !is_version(sized_part(s, version, n)) {
        return 8;
    }
    if is_listed(code) { 0 } else { 9 }
}

// metadata_only, of n bytes, is true, or stands beside dataset.
fn lacks_dataset(s: &[u8], only: usize, n: u64, dataset: usize) -> bool
    requires { n ≡ length_of (noted s.now only) }
    ensures { result ≡ lacks_dataset (noted s.now only) (noted s.now dataset) }
{
    only != 0 && (is_true(sized_part(s, only, n)) || dataset != 0)
}

// What the entries of core:extensions at a place tell of 12 and 13.
fn entries_low(s: &[u8], place: usize) -> u64
    ensures { result ≡ lowest (entries_rules (entries_of s.now (noted s.now place))) }
{
    if place == 0 {
        0
    } else {
        entries_refusal(s, place)
    }
}

// What the number of channels and the places of extensions, metadata_only, of n bytes, and dataset tell of 10 and of 12 to 14.
fn later_low(s: &[u8], channels: u64, entries: usize, only: usize, n: u64, dataset: usize) -> u64
    requires { n ≡ length_of (noted s.now only) }
    ensures { result ≡ lowest (later_rules channels (entries_of s.now (noted s.now entries)) (lacks_dataset (noted s.now only) (noted s.now dataset))) }
{
    if channels < 1 || Limits::CHANNELS < channels {
        return 10;
    }
    let low = entries_low(s, entries);
    if low == 0 && lacks_dataset(s, only, n, dataset) {
        14
    } else {
        low
    }
}

// What all places and sizes, by the fields' numbers, tell of 6 and of 8 to 14.
fn places_low(s: &[u8], places: &[usize], sizes: &[u64], code: u64, channels: u64) -> u64
    requires places_len { length places.now ≡ 21 }
    requires sizes_len { length sizes.now ≡ 21 }
    requires fitting { Fitting s.now global_fields places.now sizes.now }
    requires code_value { code ≡ datatype_code (placed s.now places.now "core:datatype") }
    requires channels_value { channels ≡ channels_of (placed s.now places.now "core:num_channels") }
    ensures { result ≡ lowest (placed_rules s.now (placed s.now places.now)) }
{
    let place = places[GlobalField::DATATYPE];
    let version = places[GlobalField::VERSION];
    let dataset = places[GlobalField::DATASET];
    let only = places[GlobalField::METADATA_ONLY];
    let entries = places[GlobalField::EXTENSIONS];
    let first = first_low(s, place, code, version, sizes[GlobalField::VERSION]);
    let n = sizes[GlobalField::METADATA_ONLY];
    let later = later_low(s, channels, entries, only, n, dataset);
    least(first, later)
}

// What the object with these places and sizes says.
fn globals_at(s: &[u8], places: &[usize], sizes: &[u64]) -> Globals
    requires places_len { length places.now ≡ 21 }
    requires sizes_len { length sizes.now ≡ 21 }
    requires fitting { Fitting s.now global_fields places.now sizes.now }
    ensures { result ≡ globals_of (placed s.now places.now) }
{
    let place = places[GlobalField::DATATYPE];
    let number = places[GlobalField::NUM_CHANNELS];
    let rate = places[GlobalField::SAMPLE_RATE];
    Globals {
        datatype: code_at(s, place, sizes[GlobalField::DATATYPE]),
        channels: uint_or(1, number, sizes[GlobalField::NUM_CHANNELS]),
        offset: sizes[GlobalField::OFFSET],
        trailing: sizes[GlobalField::TRAILING_BYTES],
        rate: Place {
            at: rate as u64,
            len: sizes[GlobalField::SAMPLE_RATE],
        },
    }
}

// The global object at a place.
pub fn read_global(s: &[u8], at: usize) -> GlobalFound
    ensures { result ≡ read_global s.now at }
{
    let mut places = [0usize; GlobalField::COUNT + 1];
    let mut sizes = [0u64; GlobalField::COUNT + 1];
    let w = find_fields(Object::Global, s, at, &mut places, &mut sizes);
    let g = globals_at(s, &places, &sizes);
    let low = places_low(s, &places, &sizes, g.datatype, g.channels);
    GlobalFound {
        low: least(w.low, low),
        globals: g,
        close: w.close,
    }
}
