// Numbers of a line. Those that are read from a place on come with where the rest of the line begins.
ghost use Rattle.std.specs.Prelude.{◌<◌, ◌≤◌, length, IfSome};

use crate::fault::{Fault, Wrong};
use crate::word;

// The value of a digit.
pub(crate) fn digit(b: u8) -> Option<u8>
    ensures { IfSome result (λ d. d < 16) }
{
    match b {
        b'0'..=b'9' => Some(b - b'0'),
        b'A'..=b'F' => Some(b - b'A' + 10),
        b'a'..=b'f' => Some(b - b'a' + 10),
        _ => None,
    }
}

// The number whose digits to this base, 10 or 16, stand from `from` to `to`.
fn number_in(line: &[u8], from: usize, to: usize, base: u8) -> Result<u64, Fault>
    requires { to ≤ length line.now }
{
    let mut value: u64 = 0;
    for i in from..to {
        let d = match digit(line[i]) {
            Some(d) if d < base => d as u64,
            _ => return Err(no_digit(base).at(i)),
        };
        let higher = value.checked_mul(base as u64);
        let Some(next) = higher.and_then(|n| n.checked_add(d)) else {
            return Err(Wrong::TooLarge.at(from));
        };
        value = next;
    }
    Ok(value)
}

fn no_digit(base: u8) -> Wrong {
    if base == 10 {
        Wrong::NotNumber
    } else {
        Wrong::NotHex
    }
}

// Where the digits of the number at this place begin: behind 0x, where that and more stands there.
pub(crate) fn behind_prefix(line: &[u8], at: usize) -> usize
    requires { at < length line.now }
    ensures { (at ≤ result) × (result < length line.now) }
{
    if line.len() - at >= 3 && line[at] == b'0' && line[at + 1] == b'x' {
        return at + 2;
    }
    at
}

// The number that the word from `from` to `to` is: decimal, or hexadecimal with 0x.
fn number(line: &[u8], from: usize, to: usize) -> Result<u64, Fault>
    requires { (from ≤ to) × (to ≤ length line.now) }
{
    if from == to {
        return Err(Wrong::Missing.at(from));
    }
    if to - from >= 3 && line[from] == b'0' && line[from + 1] == b'x' {
        return number_in(line, from + 2, to, 16);
    }
    number_in(line, from, to, 10)
}

// The number that is the next word from `at` on, at most `most`.
fn next_number(line: &[u8], at: usize, most: u64) -> Result<(u64, usize), Fault> {
    let w = word::next(line, at);
    let n = number(line, w.from, w.to)?;
    if most < n {
        return Err(Wrong::TooLarge.at(w.from));
    }
    Ok((n, w.to))
}

// The number that is the last word of the line, at most `most`.
pub fn last_number(line: &[u8], at: usize, most: u64) -> Result<u64, Fault> {
    let w = word::next(line, at);
    word::nothing_more(line, w.to)?;
    let (n, _) = next_number(line, at, most)?;
    Ok(n)
}

// The hexadecimal number that is the next word from `at` on, of one digit to `most`.
fn digits(line: &[u8], at: usize, most: usize) -> Result<(u64, usize), Fault> {
    let w = word::due(line, at)?;
    if most < w.to - w.from {
        return Err(Wrong::TooManyDigits.at(w.from));
    }
    let n = number_in(line, w.from, w.to, 16)?;
    Ok((n, w.to))
}

// The number of up to eight hexadecimal digits that is the next word from `at` on.
pub fn eight_digits(line: &[u8], at: usize) -> Result<(u32, usize), Fault> {
    let (n, next) = digits(line, at, 8)?;
    Ok(((n % 0x1_0000_0000) as u32, next))
}

// .. of up to four.
pub fn four_digits(line: &[u8], at: usize) -> Result<(u16, usize), Fault> {
    let (n, next) = digits(line, at, 4)?;
    Ok(((n % 0x1_0000) as u16, next))
}

// The byte that is the next word from `at` on: one or two hexadecimal digits, 0x before them or not.
pub fn one_byte(line: &[u8], at: usize) -> Result<(u8, usize), Fault> {
    let w = word::next(line, at);
    let first = if w.to - w.from < 3 {
        w.from
    } else {
        behind_prefix(line, w.from)
    };
    let (n, next) = digits(line, first, 2)?;
    Ok(((n % 0x100) as u8, next))
}

// .. and the last word of the line.
pub fn last_byte(line: &[u8], at: usize) -> Result<u8, Fault> {
    let (b, next) = one_byte(line, at)?;
    word::nothing_more(line, next)?;
    Ok(b)
}

// The byte that is the next word from `at` on: one or two digits, or a number.
fn byte(line: &[u8], at: usize, hexadecimal: bool) -> Result<(u8, usize), Fault> {
    if hexadecimal {
        return one_byte(line, at);
    }
    let (n, next) = next_number(line, at, 255)?;
    Ok(((n % 0x100) as u8, next))
}

// Four bytes of a line.
#[derive(Clone, Copy)]
pub struct Four {
    pub first: u8,
    pub second: u8,
    pub third: u8,
    pub fourth: u8,
}

// The four bytes that are the next words from `at` on.
pub fn four_bytes(line: &[u8], at: usize, hexadecimal: bool) -> Result<(Four, usize), Fault> {
    let (first, second_at) = byte(line, at, hexadecimal)?;
    let (second, third_at) = byte(line, second_at, hexadecimal)?;
    let (third, fourth_at) = byte(line, third_at, hexadecimal)?;
    let (fourth, next) = byte(line, fourth_at, hexadecimal)?;
    let four = Four {
        first,
        second,
        third,
        fourth,
    };
    Ok((four, next))
}

// The four bytes that are the last words of the line.
pub fn last_four(line: &[u8], at: usize, hexadecimal: bool) -> Result<Four, Fault> {
    let (four, next) = four_bytes(line, at, hexadecimal)?;
    word::nothing_more(line, next)?;
    Ok(four)
}
