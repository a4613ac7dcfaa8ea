// The metadata of a table, for C and Rust to call. The header is export_writer.h.
#![tactic(auto)]

ghost use Rattle.std.specs.Prelude.{◌≡◌, length};
ghost use Rattle.table.specs.Rows.{table};
ghost use Rattle.writer.specs.Writer.{writer_answer, writer_memory};

use table::{Summary, Wrote};

// The metadata of a table, written to the front of out.
#[unsafe(no_mangle)]
pub extern "C" fn table_metadata(
    t: Summary,
    caps: &[u64],
    notes: &[u64],
    text: &[u8],
    out: &mut [u8],
) -> Wrote
    ensures answer { result ≡ writer_answer (table t caps.now notes.now) text.now (length out.old) }
    ensures memory { out.new ≡ writer_memory (table t caps.now notes.now) text.now out.old }
{
    writer::write(t, caps, notes, text, out)
}
