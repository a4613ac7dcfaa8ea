// Rows of numbers that stand in memory, or in the bytes of a stored table: whether a table with them is well formed.
ghost use Rattle.std.specs.Prelude.{◌≡◌, ℕ, List, length, get_or, ◌+◌, ◌-◌, ◌*◌, ◌/◌, ◌^◌, ◌<◌, ◌≤◌};
ghost use Rattle.little_endian.specs.LittleEndian.{numbers_of};
ghost use Rattle.limits.specs.Limits.{dataset};
ghost use Rattle.table.specs.Rows.{capture_at, annotation_at, rest, captures, annotations, table};
ghost use Rattle.table.specs.Samples.{header_sum, next_start};
ghost use Rattle.table.specs.Table.{own_entries, well_formed};
ghost use Rattle.table.specs.Judge.{RowsThere, captures_ok, annotations_ok, layout_ok, summed};

use crate::{
    Annotation, Capture, Place, Summary, Texts, annotation_ok, capture_ok, fixed_bytes, numbers_ok,
};
use little_endian::WIDTH;

// Numbers one after the other.
pub(crate) trait Numbers: Copy {
    ghost numbers: { Self → List ℕ };

    fn count(self) -> usize
        ensures { result ≡ length (numbers self) };

    fn number(self, i: usize) -> u64
        requires { i < length (numbers self) }
        ensures { result ≡ get_or (numbers self) i 0 };
}

impl Numbers for &[u64] {
    ghost numbers = { λ s. s.now };

    fn count(self) -> usize {
        self.len()
    }

    fn number(self, i: usize) -> u64 {
        self[i]
    }
}

// Numbers of eight bytes each.
impl Numbers for &[u8] {
    ghost numbers = { λ s. numbers_of s.now };

    fn count(self) -> usize {
        self.len() / WIDTH
    }

    fn number(self, i: usize) -> u64 {
        let (numbers, _) = self.as_chunks::<WIDTH>();
        u64::from_le_bytes(numbers[i])
    }
}

// Capture row i, which is there whole.
fn capture<N: Numbers>(rows: N, i: usize) -> Capture
    requires { RowsThere (N.numbers rows) (i + 1) }
    ensures { result ≡ capture_at (N.numbers rows) i }
{
    let p = Capture::WIDTH * i;
    Capture {
        start: rows.number(p),
        end: rows.number(p + 1),
        first: rows.number(p + 2),
        header: rows.number(p + 3),
    }
}

// Capture row i; zeros if there is no whole row i.
pub(crate) fn capture_at<N: Numbers>(rows: N, i: usize) -> Capture
    ensures { result ≡ capture_at (N.numbers rows) i }
{
    if i < rows.count() / Capture::WIDTH {
        return capture(rows, i);
    }
    Capture {
        start: 0,
        end: 0,
        first: 0,
        header: 0,
    }
}

// Annotation row i, which is there whole.
fn annotation<N: Numbers>(rows: N, i: usize) -> Annotation
    requires { RowsThere (N.numbers rows) (i + 1) }
    ensures { result ≡ annotation_at (N.numbers rows) i }
{
    let p = Annotation::WIDTH * i;
    Annotation {
        start: rows.number(p),
        end: rows.number(p + 1),
        texts: Texts {
            label: Place {
                at: rows.number(p + 2),
                len: rows.number(p + 3),
            },
        },
    }
}

// Annotation row i; zeros if there is no whole row i.
pub(crate) fn annotation_at<N: Numbers>(rows: N, i: usize) -> Annotation
    ensures { result ≡ annotation_at (N.numbers rows) i }
{
    if i < rows.count() / Annotation::WIDTH {
        return annotation(rows, i);
    }
    Annotation {
        start: 0,
        end: 0,
        texts: Texts {
            label: Place { at: 0, len: 0 },
        },
    }
}

// Where capture row i starts, or e past the last row.
fn next_start<N: Numbers>(caps: N, n: usize, i: usize, e: u64) -> u64
    requires { RowsThere (N.numbers caps) n }
    ensures { result ≡ next_start e (own_entries (rest (capture_at (N.numbers caps)) n i)) }
{
    if i < n { capture(caps, i).start } else { e }
}

// The header bytes of n captures, if their rows are in order and the sum is at most cap.
fn header_sum<N: Numbers>(caps: N, n: usize, o: u64, e: u64, w: u64, cap: u64) -> Option<u64>
    requires { RowsThere (N.numbers caps) n × ((e - o) * w + cap < 2 ^ 63) }
    ensures { result ≡ summed (captures_ok o e w o 0 (captures (N.numbers caps) n)) cap (header_sum (own_entries (captures (N.numbers caps) n))) }
{
    let mut s = o;
    let mut h = 0;
    for i in 0..n {
        let x = capture(caps, i);
        if x.header > cap - h {
            return None;
        }
        h += x.header;
        let next = next_start(caps, n, i + 1, e);
        if !capture_ok(x, o, e, w, s, h, next) {
            return None;
        }
        s = x.start;
    }
    Some(h)
}

// The captures' rows are in order, and the parts of the dataset make its size.
fn layout_ok<N: Numbers>(t: Summary, caps: N) -> bool
    requires { RowsThere (N.numbers caps) t.captures × (t.size ≤ dataset) × (t.offset + t.samples < 2 ^ 64) }
    ensures { result ≡ layout_ok t (captures (N.numbers caps) t.captures) }
{
    let Some(fixed) = fixed_bytes(t) else {
        return false;
    };
    let o = t.offset;
    let cap = t.size - fixed;
    header_sum(caps, t.captures as usize, o, o + t.samples, t.width, cap) == Some(cap)
}

// The n annotations are in order from o on, and end at e at most.
fn annotations_ok<N: Numbers>(notes: N, n: usize, e: u64, o: u64) -> bool
    requires { RowsThere (N.numbers notes) n }
    ensures { result ≡ annotations_ok e o (annotations (N.numbers notes) n) }
{
    let mut s = o;
    for i in 0..n {
        let x = annotation(notes, i);
        if !annotation_ok(x, e, s) {
            return false;
        }
        s = x.start;
    }
    true
}

// The table is well formed.
#[tactic(auto, using(crate::proofs::TableLaws::numbers_wide, crate::proofs::TableLaws::numbers_small, crate::proofs::TableLaws::numbers_ends, crate::proofs::TableLaws::well_formed_is))]
pub(crate) fn well_formed<C: Numbers, N: Numbers>(t: Summary, caps: C, notes: N) -> bool
    ensures { result ≡ well_formed (table t (C.numbers caps) (N.numbers notes)) }
{
    let captures = t.captures as usize;
    let annotations = t.annotations as usize;
    numbers_ok(t)
        && captures <= caps.count() / Capture::WIDTH
        && annotations <= notes.count() / Annotation::WIDTH
        && layout_ok(t, caps)
        && annotations_ok(notes, annotations, t.offset + t.samples, t.offset)
}
