// The numbers at the front of a payload, each of eight bytes with the lowest first.

// Number i; 0 past the end.
pub(crate) fn at(v: &[u64], i: usize) -> u64 {
    v.get(i).copied().unwrap_or(0)
}

// Fills the numbers from a payload, as far as both go, and answers how many.
pub(crate) fn read_numbers(s: &[u8], v: &mut [u64]) -> usize {
    let (eights, _) = s.as_chunks::<8>();
    for (x, bytes) in v.iter_mut().zip(eights) {
        *x = u64::from_le_bytes(*bytes);
    }
    v.len().min(eights.len())
}

// The bytes of a payload past n numbers.
pub(crate) fn past_numbers(s: &[u8], n: usize) -> &[u8] {
    let at = n.saturating_mul(8).min(s.len());
    &s[at..]
}
