// A table whose rows stand in bytes, numbers of eight bytes each, as in a stored table.
ghost use Rattle.std.specs.Prelude.{◌≡◌};
ghost use Rattle.little_endian.specs.LittleEndian.{numbers_of};
ghost use Rattle.table.specs.Rows.{table};
ghost use Rattle.table.specs.Table.{well_formed};

use crate::{Summary, rows};

// The table is well formed.
pub fn well_formed(t: Summary, caps: &[u8], notes: &[u8]) -> bool
    ensures { result ≡ well_formed (table t (numbers_of caps.now) (numbers_of notes.now)) }
{
    rows::well_formed(t, caps, notes)
}
