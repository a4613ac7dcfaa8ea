// The listing of a table on standard output, and the rooms of the programs that list.
#![tactic(auto)]

use listing::listing;
use standard_streams::{refuse, write_first};
use table::Summary;

// In captures, annotations and output bytes.
pub const CAPTURES: usize = 1024;

pub const ANNOTATIONS: usize = 1024;

pub const OUTPUT: usize = 61440;

// Prints the listing of a table, or `refused` and a number: the table's, if it is a refusal, or the listing's. Whether all was written.
pub fn print_listing<P: Print>(
    to: &P,
    t: Summary,
    captures: &[u64],
    annotations: &[u64],
    metadata: &[u8],
) -> bool {
    if t.refusal != 0 {
        return refuse(to, t.refusal);
    }
    let mut out = [0u8; OUTPUT];
    let l = listing(t, captures, annotations, metadata, &mut out);
    if l.refusal != 0 {
        return refuse(to, l.refusal);
    }
    write_first(to, &out, l.count as usize)
}
