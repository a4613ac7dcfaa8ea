// Parts of slices, as far as those go.
ghost use Rattle.std.specs.Prelude.{◌≤◌};

// As many of a room as are asked for, or all of it.
fn lent(size: u64, room: usize) -> usize
    ensures { result ≤ room }
{
    size.min(room as u64) as usize
}

// The first of a slice.
pub(crate) fn first<T>(v: &[T], size: u64) -> &[T] {
    let n = lent(size, v.len());
    &v[..n]
}

// What is past the first.
pub(crate) fn past<T>(v: &[T], size: u64) -> &[T] {
    let n = lent(size, v.len());
    &v[n..]
}

// The first, to be written.
pub(crate) fn front<T>(v: &mut [T], size: u64) -> &mut [T] {
    let n = lent(size, v.len());
    &mut v[..n]
}

// The first rows of four numbers each.
pub(crate) fn first_rows(v: &[u64], count: u64) -> &[u64] {
    let n = lent(count, v.len() / 4);
    &v[..4 * n]
}
