// Parts of what is lent to a case, and what stays of it. A part that is not there is the whole, so that
// no caller has to show that it is.

// What stays untouched in a lent output is 5A.
pub const FILL: u8 = 0x5A;

// The first n, or all where there are fewer.
pub fn start<T>(list: &[T], n: usize) -> &[T] {
    &list[..n.min(list.len())]
}

// The bytes from the nth on, or none where there are fewer.
pub fn rest(list: &[u8], n: usize) -> &[u8] {
    list.get(n..).unwrap_or(b"")
}

// The first n, to be written to.
pub fn lent<T>(out: &mut [T], n: usize) -> &mut [T] {
    let n = n.min(out.len());
    &mut out[..n]
}

// Whether the output starts with these bytes and is filled behind them.
pub fn holds(out: &[u8], expected: &[u8]) -> bool {
    let n = expected.len();
    start(out, n) == expected && rest(out, n).iter().all(|b| *b == FILL)
}
