// A table kept in a file: stored as bytes, and loaded back.
#![tactic(auto)]

ghost use Rattle.std.specs.Prelude.{◌≡◌, true, cond, ◌+◌, ◌*◌, ◌≤◌, length, take, leb, eqb};
ghost use Rattle.little_endian.specs.LittleEndian.{little_endian, number_width, numbers_of};
ghost use Rattle.table.specs.Memory.{written};
ghost use Rattle.table.specs.Rows.{table};
ghost use Rattle.table.specs.Summary.{summary_numbers, summary_of};
ghost use Rattle.table.specs.Table.{counts_ok};
ghost use Rattle.output.specs.Put.{put_front};
ghost use Rattle.table_stored.specs.Form.{eight_each, stored_of, head_size, summary_in, capture_bytes, annotation_bytes, table_in};
ghost use Rattle.table_stored.specs.Store.{store_answer, store_memory};
ghost use Rattle.table_stored.specs.Load.{opens, length_ok, load_answer, captures_loaded, annotations_loaded};
ghost use Rattle.table_stored.specs.LoadParts.{rows_refusal};

use limits::Limits;
use little_endian::{WIDTH, number_at};
use output::put_word;
use table::{Annotation, Capture, Place, Summary, Wrote, no_table};

// Mark and version.
const OPENING: usize = 5;

// The numbers of a summary.
const NUMBERS: usize = 12;

// Mark, version and summary.
const HEAD: usize = OPENING + WIDTH * NUMBERS;

// The bytes of a row, of either kind.
const ROW: usize = WIDTH * Capture::WIDTH;

// The most entries of a kind in metadata: one has 24 bytes at least, its comma included.
pub const ENTRIES: usize = Limits::METADATA / 24;

// The bytes of the longest stored table that was read from metadata.
pub const LONGEST: usize = HEAD + 2 * ROW * ENTRIES;

// A number, written in eight bytes to the front of out, which has room.
fn put_number(out: &mut [u8], x: u64)
    requires { 8 ≤ length out.old }
    ensures { out.new ≡ written (little_endian number_width x) out.old }
{
    out[..WIDTH].copy_from_slice(&x.to_le_bytes());
}

// Numbers, written to the front of out, which has room; how many bytes they are.
fn put_numbers(out: &mut [u8], numbers: &[u64]) -> usize
    requires { 8 * length numbers.now ≤ length out.old }
    ensures count { result ≡ length (eight_each numbers.now) }
    ensures memory { out.new ≡ written (eight_each numbers.now) out.old }
{
    let mut used = 0;
    for x in numbers {
        put_number(&mut out[used..], *x);
        used += WIDTH;
    }
    used
}

// The summary, written to the front of out, which has room; how many bytes it is.
fn put_summary(out: &mut [u8], t: Summary) -> usize
    requires { 8 * 12 ≤ length out.old }
    ensures count { result ≡ length (eight_each (summary_numbers t)) }
    ensures memory { out.new ≡ written (eight_each (summary_numbers t)) out.old }
{
    let numbers = [
        t.refusal,
        t.datatype,
        t.channels,
        t.width,
        t.offset,
        t.trailing,
        t.samples,
        t.size,
        t.captures,
        t.annotations,
        t.rate.at,
        t.rate.len,
    ];
    put_numbers(out, &numbers)
}

// The stored form of a table whose counts fit its rows, written to the front of out, which has room; how many bytes it is.
fn put_table(out: &mut [u8], t: Summary, caps: &[u64], notes: &[u64]) -> usize
    requires notes_value { counts_ok (table t caps.now notes.now) ≡ true }
    requires notes_in_bounds { length (stored_of (table t caps.now notes.now)) ≤ length out.old }
    ensures count { result ≡ length (stored_of (table t caps.now notes.now)) }
    ensures memory { out.new ≡ written (stored_of (table t caps.now notes.now)) out.old }
{
    let caps = &caps[..Capture::WIDTH * t.captures as usize];
    let notes = &notes[..Annotation::WIDTH * t.annotations as usize];
    let a = put_word(out, b"SGT\x01\x00");
    let b = a + put_summary(&mut out[a..], t);
    let c = b + put_numbers(&mut out[b..], caps);
    c + put_numbers(&mut out[c..], notes)
}

// A room of n bytes holds the stored form.
fn has_room(t: Summary, n: usize) -> bool
    ensures { result ≡ leb (head_size + capture_bytes t.captures + annotation_bytes t.annotations) n }
{
    if n < HEAD {
        return false;
    }
    let rows = (n - HEAD) / ROW;
    let c = t.captures as usize;
    c <= rows && t.annotations as usize <= rows - c
}

// The table, stored to the front of out.
pub fn store(t: Summary, caps: &[u64], notes: &[u64], out: &mut [u8]) -> Wrote
    ensures answer { result ≡ store_answer (table t caps.now notes.now) (length out.old) }
    ensures memory { out.new ≡ store_memory (table t caps.now notes.now) out.old }
{
    if !table::well_formed(t, caps, notes) {
        return Wrote {
            refusal: 18,
            count: 0,
        };
    }
    if !has_room(t, out.len()) {
        return Wrote {
            refusal: 20,
            count: 0,
        };
    }
    let n = put_table(out, t, caps, notes);
    Wrote {
        refusal: 0,
        count: n as u64,
    }
}

// A file begins with mark and version.
fn is_opening(file: &[u8]) -> bool
    ensures { result ≡ opens file.now }
{
    file.starts_with(b"SGT\x01\x00")
}

// The numbers of bytes, written to the front of out if they fit.
fn get_numbers(bytes: &[u8], out: &mut [u64])
    ensures { out.new ≡ put_front (numbers_of bytes.now) out.old }
{
    let (numbers, _) = bytes.as_chunks::<WIDTH>();
    let n = bytes.len() / WIDTH;
    if n <= out.len() {
        for i in 0..n {
            out[i] = u64::from_le_bytes(numbers[i]);
        }
    }
}

// The summary of its bytes.
fn summary_of(bytes: &[u8]) -> Summary
    ensures { result ≡ summary_of (numbers_of bytes.now) }
{
    Summary {
        refusal: number_at(bytes, 0),
        datatype: number_at(bytes, 1),
        channels: number_at(bytes, 2),
        width: number_at(bytes, 3),
        offset: number_at(bytes, 4),
        trailing: number_at(bytes, 5),
        samples: number_at(bytes, 6),
        size: number_at(bytes, 7),
        captures: number_at(bytes, 8),
        annotations: number_at(bytes, 9),
        rate: Place {
            at: number_at(bytes, 10),
            len: number_at(bytes, 11),
        },
    }
}

// The counts give n bytes of rows.
fn rows_are(t: Summary, n: usize) -> bool
    ensures { result ≡ eqb n (capture_bytes t.captures + annotation_bytes t.annotations) }
{
    let rows = n / ROW;
    let c = t.captures as usize;
    n % ROW == 0 && c <= rows && t.annotations as usize == rows - c
}

// A table whose rows stand in bytes, as many as it counts: judged, and its rows written to the front of lent memory; or the refusal.
fn load_rows(t: Summary, caps: &[u8], notes: &[u8], capto: &mut [u64], noteto: &mut [u64]) -> u64
    requires { (length caps.now ≡ capture_bytes t.captures) × (length notes.now ≡ annotation_bytes t.annotations) }
    ensures answer { result ≡ rows_refusal (table t (numbers_of caps.now) (numbers_of notes.now)) (length capto.old) (length noteto.old) }
    ensures captures { capto.new ≡ cond (eqb result 0) (written (numbers_of caps.now) capto.old) capto.old }
    ensures annotations { noteto.new ≡ cond (eqb result 0) (written (numbers_of notes.now) noteto.old) noteto.old }
{
    if !table::bytes::well_formed(t, caps, notes) {
        return 18;
    }
    if t.captures as usize > capto.len() / Capture::WIDTH {
        return 20;
    }
    if t.annotations as usize > noteto.len() / Annotation::WIDTH {
        return 20;
    }
    get_numbers(caps, capto);
    get_numbers(notes, noteto);
    0
}

// The rows of a file with the summary t, whose counts give its length: their bytes judged and written.
fn load_from(file: &[u8], t: Summary, capto: &mut [u64], noteto: &mut [u64]) -> u64
    requires { (t ≡ summary_in file.now) × (length_ok file.now ≡ true) }
    ensures answer { result ≡ rows_refusal (table_in file.now) (length capto.old) (length noteto.old) }
    ensures captures { capto.new ≡ cond (eqb result 0) (written (table_in file.now).captures capto.old) capto.old }
    ensures annotations { noteto.new ≡ cond (eqb result 0) (written (table_in file.now).annotations noteto.old) noteto.old }
{
    let from = HEAD + ROW * t.captures as usize;
    let end = from + ROW * t.annotations as usize;
    load_rows(t, &file[HEAD..from], &file[from..end], capto, noteto)
}

// The table of a file: its summary, and its rows written to the front of lent memory.
pub fn load(file: &[u8], capto: &mut [u64], noteto: &mut [u64]) -> Summary
    ensures answer { result ≡ load_answer file.now (length capto.old) (length noteto.old) }
    ensures captures { capto.new ≡ captures_loaded file.now capto.old noteto.old }
    ensures annotations { noteto.new ≡ annotations_loaded file.now capto.old noteto.old }
{
    if !is_opening(file) {
        return no_table(21);
    }
    if file.len() < HEAD {
        return no_table(22);
    }
    let t = summary_of(&file[OPENING..HEAD]);
    if !rows_are(t, file.len() - HEAD) {
        return no_table(22);
    }
    let r = load_from(file, t, capto, noteto);
    if r != 0 {
        return no_table(r);
    }
    // read again: so it is not kept while the rows are read
    summary_of(&file[OPENING..HEAD])
}
