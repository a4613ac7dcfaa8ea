// Entries of captures or of annotations in flat memory: whether they ascend, and whether they lie inside.
ghost use Rattle.std.specs.Prelude.{◌≡◌, ℕ, Bool, List, map};
ghost use Rattle.std.specs.List.{list_all};
ghost use Rattle.table.specs.Rows.{rest};
ghost use Rattle.table.specs.Samples.{ascending, start_ok, note_ok};
ghost use Rattle.reader_layout.specs.Entries.{entry_at, note_at};

use crate::{entry_at, note_at};
use table::{AnnotationEntry, CaptureEntry};

// What one entry says of its samples.
pub(crate) trait Entry: Copy {
    ghost at: { List ℕ → ℕ → Self };

    ghost start: { Self → ℕ };

    ghost inside: { ℕ → ℕ → Self → Bool };

    fn at(m: &[u64], i: usize) -> Self
        ensures { result ≡ at m.now i };

    fn start(self) -> u64
        ensures { result ≡ start self };

    // It lies from o to e.
    fn is_inside(self, o: u64, e: u64) -> bool
        ensures { result ≡ inside o e self };
}

impl Entry for CaptureEntry {
    ghost at = { entry_at };

    ghost start = { λ c. c.start };

    ghost inside = { λ o e c. start_ok o e c.start };

    fn at(m: &[u64], i: usize) -> CaptureEntry {
        entry_at(m, i)
    }

    fn start(self) -> u64 {
        self.start
    }

    fn is_inside(self, o: u64, e: u64) -> bool {
        o <= self.start && self.start <= e
    }
}

impl Entry for AnnotationEntry {
    ghost at = { note_at };

    ghost start = { λ a. a.start };

    ghost inside = { note_ok };

    fn at(m: &[u64], i: usize) -> AnnotationEntry {
        note_at(m, i)
    }

    fn start(self) -> u64 {
        self.start
    }

    // It starts from o to e, and ends at e at most.
    fn is_inside(self, o: u64, e: u64) -> bool {
        o <= self.start && self.start <= e && self.count.is_none_or(|c| c <= e - self.start)
    }
}

// The n entries ascend by start.
pub(crate) fn ascend<E: Entry>(m: &[u64], n: usize) -> bool
    ensures { result ≡ ascending (map E.start (rest (E.at m.now) n 0)) }
{
    let mut s = 0;
    for i in 0..n {
        let start = E::at(m, i).start();
        if start < s {
            return false;
        }
        s = start;
    }
    true
}

// The n entries lie from o to e.
pub(crate) fn lie_inside<E: Entry>(m: &[u64], n: usize, o: u64, e: u64) -> bool
    ensures { result ≡ list_all (E.inside o e) (rest (E.at m.now) n 0) }
{
    for i in 0..n {
        if !E::at(m, i).is_inside(o, e) {
            return false;
        }
    }
    true
}
