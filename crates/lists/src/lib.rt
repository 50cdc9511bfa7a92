// What every crate above does with a lent list: bytes are put at its start, as many as there is room
// for, and one is looked at wherever it would stand.
//
// The crate's definitions are the ones that every other takes for granted: a choice by a test, a
// list that starts with another, and how many, which and where the numbers are that pass a test.
#![tactic(auto)]

ghost use Rattle.std.specs.Prelude.{◌≡◌, min, length, get_or, take};
ghost use Rattle.lists.specs.Starting.{starting};

// The smaller of two numbers.
pub fn smaller(a: usize, b: usize) -> usize
    ensures { result ≡ min a b }
{
    a.min(b)
}

// The byte at a place; 0 behind the end.
pub fn byte_at(bytes: &[u8], at: usize) -> u8
    ensures { result ≡ get_or bytes.now at 0 }
{
    bytes.get(at).copied().unwrap_or(0)
}

// Puts the bytes at the start of a lent output, as many as it holds; the bytes behind them stay.
pub fn put(bytes: &[u8], out: &mut [u8])
    ensures { out.new ≡ starting (take (length out.old) bytes.now) out.old }
{
    let n = bytes.len().min(out.len());
    out[..n].copy_from_slice(&bytes[..n]);
}
