// Words of a line.
ghost use Rattle.std.specs.Prelude.{◌≤◌, length, IfOk};

use crate::fault::{Fault, Wrong};

// A word: where it begins and where it ends. None is left where both are the same.
#[derive(Clone, Copy)]
pub struct Span {
    pub from: usize,
    pub to: usize,
}

pub(crate) fn is_blank(b: u8) -> bool {
    matches!(b, b' ' | b'\t')
}

// The first place from `at` on that is no blank, or with `blanks` false the first that is one; the
// line's end where there is none.
fn past(line: &[u8], at: usize, blanks: bool) -> usize
    requires { at ≤ length line.now }
    ensures { (at ≤ result) × (result ≤ length line.now) }
{
    for i in at..line.len() {
        if is_blank(line[i]) != blanks {
            return i;
        }
    }
    line.len()
}

// The next word from `at` on.
pub fn next(line: &[u8], at: usize) -> Span
    ensures { (result.from ≤ result.to) × (result.to ≤ length line.now) }
{
    let from = past(line, at.min(line.len()), true);
    let to = past(line, from, false);
    Span { from, to }
}

// .. which has to be there.
pub fn due(line: &[u8], at: usize) -> Result<Span, Fault>
    ensures { IfOk result (λ w. (w.from ≤ w.to) × (w.to ≤ length line.now)) }
{
    let w = next(line, at);
    if w.from == w.to {
        return Err(Wrong::Missing.at(w.from));
    }
    Ok(w)
}

// Whether another word follows from `at` on.
pub fn more(line: &[u8], at: usize) -> bool {
    let w = next(line, at);
    w.from < w.to
}

// .. which is one too many.
pub fn nothing_more(line: &[u8], at: usize) -> Result<(), Fault> {
    let w = next(line, at);
    if w.from < w.to {
        return Err(Wrong::Extra.at(w.from));
    }
    Ok(())
}

// The bytes from `from` to `to`, or none where the line does not have them.
pub fn part(line: &[u8], from: usize, to: usize) -> &[u8] {
    line.get(from..to).unwrap_or(&line[..0])
}

// The first newline from `from` on, or `to` where there is none before it.
pub fn end_of(input: &[u8], from: usize, to: usize) -> usize {
    for (i, b) in input.iter().enumerate().take(to).skip(from) {
        if *b == b'\n' {
            return i;
        }
    }
    to
}

// The line without its comment, which begins with a # behind a blank.
pub fn uncommented(line: &[u8]) -> &[u8] {
    let mut blank = false;
    for (i, b) in line.iter().enumerate() {
        if blank && *b == b'#' {
            return &line[..i];
        }
        blank = is_blank(*b);
    }
    line
}
