// What lent memory holds beforehand, and storing in a room.

// 200 and up, modulo 251.
pub(crate) fn fill<T: From<u8> + Copy>(v: &mut [T]) {
    let mut x = 200u8;
    for place in v.iter_mut() {
        *place = T::from(x);
        x = x.wrapping_add(1) % 251;
    }
}

// A dataset: 3 and up by 7, modulo 251.
pub(crate) fn fill_dataset(v: &mut [u8]) {
    let mut x = 3u8;
    for place in v.iter_mut() {
        *place = x;
        x = if x < 244 { x + 7 } else { x - 244 };
    }
}

// The numbers to the front of a room, and zeros after them.
pub(crate) fn store<T: Copy + Default>(v: &[T], room: &mut [T]) {
    for (i, place) in room.iter_mut().enumerate() {
        *place = v.get(i).copied().unwrap_or_default();
    }
}

// The bytes again and again, up to the end of a room.
pub(crate) fn store_again(v: &[u8], room: &mut [u8]) {
    for part in room.chunks_mut(v.len().max(1)) {
        store(v, part);
    }
}
