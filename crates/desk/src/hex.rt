// Bytes in hexadecimal.
ghost use Rattle.std.specs.Prelude.{◌<◌, length, IfSome};

use crate::fault::{Fault, Wrong};
use crate::number::{behind_prefix, digit};
use crate::word;

// The most bytes that a line holds.
pub const MOST: usize = 8192;

// What may stand once between two bytes.
fn is_separator(b: u8) -> bool {
    matches!(b, b':' | b',')
}

// Whether a separator may stand at this place, behind n bytes. The next that is no blank has to be a
// byte, and what is wrong with that is seen when it is read.
fn separator(line: &[u8], at: usize, n: usize) -> Result<(), Fault>
    requires { at < length line.now }
{
    if n == 0 {
        return Err(Wrong::NothingBefore.at(at));
    }
    let next = word::next(line, at + 1).from;
    match line.get(next) {
        None => Err(Wrong::NothingBehind.at(at)),
        Some(b) if is_separator(*b) => Err(Wrong::NothingBefore.at(next)),
        Some(_) => Ok(()),
    }
}

// The digit at this place.
pub(crate) fn digit_at(line: &[u8], at: usize) -> Option<u8>
    ensures { IfSome result (λ d. d < 16) }
{
    let b = line.get(at)?;
    digit(*b)
}

// What is wrong with the second digit of a byte: it is missing, or it is none.
fn second_wrong(line: &[u8], at: usize) -> Wrong {
    match line.get(at) {
        Some(b) if !word::is_blank(*b) && !is_separator(*b) => Wrong::NotHex,
        _ => Wrong::HalfByte,
    }
}

// The bytes that the rest of a line is, from `at` on: two digits each, 0x before them or not, with any
// blanks and one separator between bytes. They stand at the start of the output; Ok says how many.
pub fn bytes(line: &[u8], at: usize, out: &mut [u8]) -> Result<usize, Fault> {
    let mut n = 0;
    let mut i = at;
    // A step is one character, or the two to four of a byte.
    while i < line.len() {
        let b = line[i];
        if word::is_blank(b) {
            i += 1;
            continue;
        }
        if is_separator(b) {
            separator(line, i, n)?;
            i += 1;
            continue;
        }
        i = behind_prefix(line, i);
        let Some(high) = digit_at(line, i) else {
            return Err(Wrong::NotHex.at(i));
        };
        let Some(low) = digit_at(line, i + 1) else {
            return Err(second_wrong(line, i + 1).at(i + 1));
        };
        if out.len() <= n {
            return Err(Wrong::TooManyBytes.at(i));
        }
        out[n] = high * 16 + low;
        n += 1;
        i += 2;
    }
    Ok(n)
}
