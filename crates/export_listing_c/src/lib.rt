// The label of an annotation and the listing, for C and Rust to call, as `export_listing` gives them to other crates. The header is
// ../export_listing/export_listing.h.
#![tactic(auto)]

ghost use Rattle.std.specs.Prelude.{◌≡◌, length};
ghost use Rattle.listing.specs.Listing.{listing_answer, listing_memory};
ghost use Rattle.export_listing.specs.LabelPlace.{labelled};
ghost use Rattle.table.specs.Rows.{table};

use export_listing::Labelled;
use table::{Summary, Wrote};

// The label of annotation n.
#[unsafe(no_mangle)]
pub extern "C" fn table_label(
    t: Summary,
    caps: &[u64],
    notes: &[u64],
    text: &[u8],
    n: u64,
) -> Labelled
    ensures { result ≡ labelled (table t caps.now notes.now) text.now n }
{
    export_listing::table_label(t, caps, notes, text, n)
}

// The listing of a table, written to the front of out.
#[unsafe(no_mangle)]
pub extern "C" fn table_listing(
    t: Summary,
    caps: &[u64],
    notes: &[u64],
    text: &[u8],
    out: &mut [u8],
) -> Wrote
    ensures answer { result ≡ listing_answer (table t caps.now notes.now) text.now (length out.old) }
    ensures memory { out.new ≡ listing_memory (table t caps.now notes.now) text.now out.old }
{
    export_listing::table_listing(t, caps, notes, text, out)
}
