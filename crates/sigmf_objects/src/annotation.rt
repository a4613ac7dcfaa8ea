// An annotation.
ghost use Rattle.std.specs.Prelude.{◌≡◌, cond, ◌<◌, eqb};
ghost use Rattle.refusals.specs.Refusals.{least};
ghost use Rattle.sigmf_objects.specs.Annotation.{read_annotation, count_by, place_by};

use crate::AnnotationFound;
use crate::walk::find_fields;
use refusals::least;
use sigmf_names::{AnnotationField, Object};
use table::{AnnotationEntry, Place, Texts};

// The text at a place; n is how many bytes it has with its quotes.
fn raw_text(place: usize, n: u64) -> Place
    requires { place < 18446744073709551615 }
    ensures { result ≡ place_by place n }
{
    if place == 0 {
        return Place { at: 0, len: 0 };
    }
    Place {
        at: place as u64 + 1,
        len: n.saturating_sub(2),
    }
}

// The count at a place; n is its number.
fn count_at(place: usize, n: u64) -> Option<u64>
    ensures { result ≡ count_by place n }
{
    if place == 0 { None } else { Some(n) }
}

// 6 where sample_start has no place.
fn place_low(start: usize) -> u64
    ensures { result ≡ cond (eqb start 0) 6 0 }
{
    if start == 0 { 6 } else { 0 }
}

// The annotation at a place.
pub fn read_annotation(s: &[u8], at: usize) -> AnnotationFound
    ensures { result ≡ read_annotation s.now at }
{
    let mut places = [0usize; AnnotationField::COUNT + 1];
    let mut sizes = [0u64; AnnotationField::COUNT + 1];
    let w = find_fields(Object::Annotation, s, at, &mut places, &mut sizes);
    let low = place_low(places[AnnotationField::SAMPLE_START]);
    let count = count_at(
        places[AnnotationField::SAMPLE_COUNT],
        sizes[AnnotationField::SAMPLE_COUNT],
    );
    let label = raw_text(
        places[AnnotationField::LABEL],
        sizes[AnnotationField::LABEL],
    );
    AnnotationFound {
        low: least(w.low, low),
        entry: AnnotationEntry {
            start: sizes[AnnotationField::SAMPLE_START],
            count,
            texts: Texts { label },
        },
        close: w.close,
    }
}
