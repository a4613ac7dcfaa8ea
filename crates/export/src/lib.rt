// The judge, the reader and the functions on tables, for C and Rust to call. The header is export.h.
#![tactic(auto)]

ghost use Rattle.std.specs.Prelude.{◌≡◌, length};
ghost use Rattle.refusals.specs.Refusals.{lowest};
ghost use Rattle.json_judge.specs.Judged.{judge_rules};
ghost use Rattle.table.specs.Locate.{locate_answer};
ghost use Rattle.table.specs.Rows.{table};
ghost use Rattle.table_pieces.specs.Pieces.{pieces_answer, pieces_memory};
ghost use Rattle.table_cuts.specs.Cut.{cut_answer, cut_capture_memory, cut_annotation_memory};
ghost use Rattle.table_pieces.specs.Copy.{copy_answer, copy_memory};
ghost use Rattle.reader.specs.Reading.{read_answer, captures_read, annotations_read};

use table::{Located, Summary, Wrote};

// Document 01's number of a text: 0, or refusal 2 or 3.
#[unsafe(no_mangle)]
pub extern "C" fn json_judge(text: &[u8]) -> u32
    ensures { result ≡ lowest (judge_rules text.now) }
{
    match json_judge::judge(text) {
        Ok(()) => 0,
        Err(e) => e.refusal() as u32,
    }
}

// The summary of a metadata text beside a dataset of d bytes, and its rows at the front of the lent memory.
#[unsafe(no_mangle)]
pub extern "C" fn recording_read(
    text: &[u8],
    d: u64,
    rows: &mut [u64],
    notes: &mut [u64],
) -> Summary
    ensures answer { result ≡ read_answer text.now d rows.old notes.old }
    ensures captures { rows.new ≡ captures_read text.now d rows.old notes.old }
    ensures annotations { notes.new ≡ annotations_read text.now d rows.old notes.old }
{
    reader::read(text, d, rows, notes)
}

// Where sample i starts.
#[unsafe(no_mangle)]
pub extern "C" fn table_locate(t: Summary, caps: &[u64], notes: &[u64], i: u64) -> Located
    ensures { result ≡ locate_answer (table t caps.now notes.now) i }
{
    table::locate(t, caps, notes, i)
}

// The pieces of samples a to b, written to the front of out.
#[unsafe(no_mangle)]
pub extern "C" fn table_pieces(
    t: Summary,
    caps: &[u64],
    notes: &[u64],
    a: u64,
    b: u64,
    out: &mut [u64],
) -> Wrote
    ensures answer { result ≡ pieces_answer (table t caps.now notes.now) a b (length out.old) }
    ensures memory { out.new ≡ pieces_memory (table t caps.now notes.now) a b out.old }
{
    table_pieces::pieces(t, caps, notes, a, b, out)
}

// The table of samples a to b, its rows written to the front of capto and noteto.
#[unsafe(no_mangle)]
pub extern "C" fn table_cut(
    t: Summary,
    caps: &[u64],
    notes: &[u64],
    a: u64,
    b: u64,
    capto: &mut [u64],
    noteto: &mut [u64],
) -> Summary
    ensures answer { result ≡ cut_answer (table t caps.now notes.now) a b (length capto.old) (length noteto.old) }
    ensures captures { capto.new ≡ cut_capture_memory (table t caps.now notes.now) a b capto.old noteto.old }
    ensures annotations { noteto.new ≡ cut_annotation_memory (table t caps.now notes.now) a b capto.old noteto.old }
{
    table_cuts::cut(t, caps, notes, a, b, capto, noteto)
}

// The bytes of samples a to b, copied to the front of out.
#[unsafe(no_mangle)]
pub extern "C" fn table_copy(
    t: Summary,
    caps: &[u64],
    notes: &[u64],
    bytes: &[u8],
    a: u64,
    b: u64,
    out: &mut [u8],
) -> Wrote
    ensures answer { result ≡ copy_answer (table t caps.now notes.now) bytes.now a b (length out.old) }
    ensures memory { out.new ≡ copy_memory (table t caps.now notes.now) bytes.now a b out.old }
{
    table_pieces::copy(t, caps, notes, bytes, a, b, out)
}
