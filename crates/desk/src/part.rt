// Parts of what is lent. A part that is not there is the whole, so that no caller has to show that
// it is.
use crate::state::{MOST_ROWS, MOST_SLOTS, SLOTS};

// The first n, or all where there are fewer.
pub fn start_of<T>(list: &[T], n: usize) -> &[T] {
    &list[..n.min(list.len())]
}

// .. to be written to.
pub fn lent<T>(out: &mut [T], n: usize) -> &mut [T] {
    let n = n.min(out.len());
    &mut out[..n]
}

// How many bytes the slots of n rows have.
pub fn slots_length(n: usize) -> usize {
    SLOTS * n.min(MOST_ROWS)
}

// The slots of one row, or none where it is not there.
pub fn slots_at(list: &[u8; MOST_SLOTS], row: usize) -> &[u8] {
    list.chunks_exact(SLOTS).nth(row).unwrap_or(b"")
}
