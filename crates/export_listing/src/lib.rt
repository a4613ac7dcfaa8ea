// The label of an annotation and the listing, as C and Rust call them through the static library `export_listing_c`. The header is
// export_listing.h. They stand apart from the crate `export`, since the compiler then makes a faster judge of strings that are not ASCII
// there.
#![tactic(auto)]

ghost use Rattle.std.specs.Prelude.{◌≡◌, length};
ghost use Rattle.listing.specs.Listing.{listing_answer, listing_memory};
ghost use Rattle.export_listing.specs.LabelPlace.{labelled};
ghost use Rattle.table.specs.Rows.{table};

use table::{Place, Summary, Wrote};

// A label: 1 if there is one and 0 if not, and its place and length in the metadata, or why there is none, in numbers for C.
#[repr(C)]
#[derive(Clone, Copy)]
pub struct Labelled {
    pub refusal: u64,
    pub present: u64,
    pub label: Place,
}

// The label of annotation n.
pub fn table_label(t: Summary, caps: &[u64], notes: &[u64], text: &[u8], n: u64) -> Labelled
    ensures { result ≡ labelled (table t caps.now notes.now) text.now n }
{
    let mut refusal = 0u64;
    let mut present = 0u64;
    let part = listing_labels::label(t, caps, notes, text, n, &mut refusal, &mut present);
    let len = part.len() as u64;
    if present == 1 {
        let x = table::annotation_at(notes, n as usize);
        return Labelled {
            refusal: refusal,
            present: 1,
            label: Place {
                at: x.texts.label.at,
                len: len,
            },
        };
    }
    Labelled {
        refusal: refusal,
        present: 0,
        label: Place { at: 0, len: 0 },
    }
}

// The listing of a table, written to the front of out.
pub fn table_listing(t: Summary, caps: &[u64], notes: &[u64], text: &[u8], out: &mut [u8]) -> Wrote
    ensures answer { result ≡ listing_answer (table t caps.now notes.now) text.now (length out.old) }
    ensures memory { out.new ≡ listing_memory (table t caps.now notes.now) text.now out.old }
{
    listing::listing(t, caps, notes, text, out)
}
