// Ranges of samples: their pieces, and the copy of their bytes.
#![tactic(auto)]

ghost use Rattle.std.specs.Prelude.{◌≡◌, true, false, ◌+◌, ◌-◌, ◌*◌, ◌^◌, ◌<◌, ◌≤◌, [], length};
ghost use Rattle.table.specs.Memory.{written, put_row};
ghost use Rattle.table.specs.Rows.{capture_at, rest, flat, table};
ghost use Rattle.table.specs.Samples.{header_sum};
ghost use Rattle.table.specs.Judge.{Laid};
ghost use Rattle.table.specs.Wrote.{wrote};
ghost use Rattle.table_pieces.specs.Pieces.{piece_width, piece_numbers, pieces_in, inside, pieces_answer, pieces_memory};
ghost use Rattle.table_pieces.specs.Run.{breaks, run_from, piece, put_bytes};
ghost use Rattle.table_pieces.specs.Copy.{bytes_in, copy_answer, copy_memory};
ghost use Rattle.table.specs.Table.{own_entries};

use table::{Capture, Summary, Wrote};

// Samples whose bytes follow each other: the header bytes before them, the sample at which they end, and the first row left then.
#[derive(Clone, Copy)]
struct Run {
    headers: u64,
    end: u64,
    row: usize,
}

// Nothing written: refusal n.
fn refused(n: u64) -> Wrote
    ensures { result ≡ wrote n 0 }
{
    Wrote {
        refusal: n,
        count: 0,
    }
}

// Samples a to b are in the recording.
#[tactic(auto, unfolding(crate::specs::Pieces::inside))]
pub fn is_inside(t: Summary, a: u64, b: u64) -> bool
    ensures { result ≡ inside t a b }
{
    t.offset <= a && a <= b && b - t.offset <= t.samples
}

// The header of x stands between sample i and a later one.
#[tactic(auto, unfolding(crate::specs::Run::breaks))]
fn breaks_run(x: Capture, i: u64) -> bool
    ensures { result ≡ breaks i x }
{
    i < x.start && 0 < x.header
}

// The next run of samples before b, from sample i on, past h header bytes, where row k of n is the first that is left.
pub(crate) fn next_run(caps: &[u64], n: usize, b: u64, i: u64, h: u64, k: usize) -> Run
    requires { h + header_sum (own_entries (rest (capture_at caps.now) n k)) < 2 ^ 63 }
    ensures { result ≡ run_from b i h k (rest (capture_at caps.now) n k) }
{
    let mut g = h;
    for j in k..n {
        let x = table::capture_at(caps, j);
        if b <= x.start {
            return Run {
                headers: g,
                end: b,
                row: j,
            };
        }
        if breaks_run(x, i) {
            return Run {
                headers: g,
                end: x.start,
                row: j,
            };
        }
        g += x.header;
    }
    Run {
        headers: g,
        end: b,
        row: n.max(k),
    }
}

// How many pieces samples a to b have.
pub(crate) fn count_pieces(t: Summary, caps: &[u64], a: u64, b: u64) -> usize
    requires { Laid t caps.now × (inside t a b ≡ true) }
    ensures { result ≡ length (pieces_in (table t caps.now []) a b) }
{
    let n = t.captures as usize;
    let mut i = a;
    let mut h: u64 = 0;
    let mut c: usize = 0;
    let mut k: usize = 0;
    while i < b {
        let r = next_run(caps, n, b, i, h, k);
        c += 1;
        i = r.end;
        h = r.headers;
        k = r.row;
    }
    c
}

// Samples i to e, past h header bytes, written as piece c.
fn put_piece(out: &mut [u64], c: usize, o: u64, w: u64, h: u64, i: u64, e: u64)
    requires { (2 * c + 2 ≤ length out.old) × (o ≤ i) × (i ≤ e) × ((i - o) * w + h < 2 ^ 63) × ((e - i) * w < 2 ^ 63) }
    ensures { out.new ≡ put_row piece_width out.old c (piece_numbers (piece o w h i e)) }
{
    out[2 * c] = (i - o) * w + h;
    out[2 * c + 1] = (e - i) * w;
}

// The pieces of samples a to b, written to the front of out, which has room.
pub(crate) fn write_pieces(t: Summary, caps: &[u64], a: u64, b: u64, out: &mut [u64])
    requires { Laid t caps.now × (inside t a b ≡ true) × (piece_width * length (pieces_in (table t caps.now []) a b) ≤ length out.old) }
    ensures { out.new ≡ written (flat piece_numbers (pieces_in (table t caps.now []) a b)) out.old }
{
    let n = t.captures as usize;
    let o = t.offset;
    let w = t.width;
    let mut i = a;
    let mut h: u64 = 0;
    let mut c: usize = 0;
    let mut k: usize = 0;
    while i < b {
        let r = next_run(caps, n, b, i, h, k);
        put_piece(out, c, o, w, r.headers, i, r.end);
        c += 1;
        i = r.end;
        h = r.headers;
        k = r.row;
    }
}

// The pieces of samples a to b.
pub fn pieces(t: Summary, caps: &[u64], notes: &[u64], a: u64, b: u64, out: &mut [u64]) -> Wrote
    ensures answer { result ≡ pieces_answer (table t caps.now notes.now) a b (length out.old) }
    ensures memory { out.new ≡ pieces_memory (table t caps.now notes.now) a b out.old }
{
    if !table::well_formed(t, caps, notes) {
        return refused(18);
    }
    if !is_inside(t, a, b) {
        return refused(19);
    }
    let c = count_pieces(t, caps, a, b);
    if c > out.len() / 2 {
        return refused(20);
    }
    write_pieces(t, caps, a, b, out);
    Wrote {
        refusal: 0,
        count: c as u64,
    }
}

// The bytes of samples i to e, past h header bytes, written to out from place p on; and where they end there.
fn copy_run(bytes: &[u8], o: u64, w: u64, h: u64, i: u64, e: u64, out: &mut [u8], p: usize) -> usize
    requires { (o ≤ i) × (i ≤ e) × ((i - o) * w + h + (e - i) * w ≤ length bytes.now) × (p + (e - i) * w ≤ length out.old) }
    ensures end { result ≡ p + (e - i) * w }
    ensures memory { out.new ≡ put_bytes out.old p bytes.now ((i - o) * w + h) ((e - i) * w) }
{
    let f = ((i - o) * w + h) as usize;
    let n = ((e - i) * w) as usize;
    out[p..p + n].copy_from_slice(&bytes[f..f + n]);
    p + n
}

// The bytes of samples a to b, written to the front of out, which has room.
pub(crate) fn copy_samples(t: Summary, caps: &[u64], bytes: &[u8], a: u64, b: u64, out: &mut [u8])
    requires { Laid t caps.now × (length bytes.now ≡ t.size) × (inside t a b ≡ true) × (length (bytes_in (table t caps.now []) bytes.now a b) ≤ length out.old) }
    ensures { out.new ≡ written (bytes_in (table t caps.now []) bytes.now a b) out.old }
{
    let n = t.captures as usize;
    let o = t.offset;
    let w = t.width;
    let mut i = a;
    let mut h: u64 = 0;
    let mut p: usize = 0;
    let mut k: usize = 0;
    while i < b {
        let r = next_run(caps, n, b, i, h, k);
        p = copy_run(bytes, o, w, r.headers, i, r.end, out, p);
        i = r.end;
        h = r.headers;
        k = r.row;
    }
}

// The bytes of samples a to b, copied to the front of out.
pub fn copy(
    t: Summary,
    caps: &[u64],
    notes: &[u64],
    bytes: &[u8],
    a: u64,
    b: u64,
    out: &mut [u8],
) -> Wrote
    ensures answer { result ≡ copy_answer (table t caps.now notes.now) bytes.now a b (length out.old) }
    ensures memory { out.new ≡ copy_memory (table t caps.now notes.now) bytes.now a b out.old }
{
    if !table::well_formed(t, caps, notes) {
        return refused(18);
    }
    if bytes.len() as u64 != t.size {
        return refused(18);
    }
    if !is_inside(t, a, b) {
        return refused(19);
    }
    let n = (b - a) * t.width;
    if n > out.len() as u64 {
        return refused(20);
    }
    copy_samples(t, caps, bytes, a, b, out);
    Wrote {
        refusal: 0,
        count: n,
    }
}
