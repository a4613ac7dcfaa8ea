// Tables kept in files, for C and Rust to call. The header is export_stored.h.
#![tactic(auto)]

ghost use Rattle.std.specs.Prelude.{◌≡◌, length};
ghost use Rattle.table.specs.Rows.{table};
ghost use Rattle.table_stored.specs.Store.{store_answer, store_memory};
ghost use Rattle.table_stored.specs.Load.{load_answer, captures_loaded, annotations_loaded};

use table::{Summary, Wrote};

// The table, stored to the front of out.
#[unsafe(no_mangle)]
pub extern "C" fn table_store(t: Summary, caps: &[u64], notes: &[u64], out: &mut [u8]) -> Wrote
    ensures answer { result ≡ store_answer (table t caps.now notes.now) (length out.old) }
    ensures memory { out.new ≡ store_memory (table t caps.now notes.now) out.old }
{
    table_stored::store(t, caps, notes, out)
}

// The table of a file: its summary, and its rows written to the front of lent memory.
#[unsafe(no_mangle)]
pub extern "C" fn table_load(file: &[u8], caps: &mut [u64], notes: &mut [u64]) -> Summary
    ensures answer { result ≡ load_answer file.now (length caps.old) (length notes.old) }
    ensures captures { caps.new ≡ captures_loaded file.now caps.old notes.old }
    ensures annotations { notes.new ≡ annotations_loaded file.now caps.old notes.old }
{
    table_stored::load(file, caps, notes)
}
