// Lines of text, put together in an array that is lent, and the short names of the numbers of
// refusals.
//
// Each function takes how many bytes are there and answers how many are there then. What has no room
// is left out.
#![tactic(auto)]

use itoa::Buffer;
use lists::{put, smaller};

// Room for a line.
pub const LINE: usize = 512;

// Puts bytes behind so many, as many as there is room for.
pub fn put_behind(out: &mut [u8], at: usize, bytes: &[u8]) {
    if at <= out.len() {
        put(bytes, &mut out[at..]);
    }
}

pub fn text(at: usize, line: &mut [u8; LINE], bytes: &[u8]) -> usize {
    if LINE <= at {
        return at;
    }
    put_behind(line, at, bytes);
    at + smaller(bytes.len(), LINE - at)
}

pub fn byte(at: usize, line: &mut [u8; LINE], b: u8) -> usize {
    if LINE <= at {
        return at;
    }
    line[at] = b;
    at + 1
}

pub fn decimal(at: usize, line: &mut [u8; LINE], number: u64) -> usize {
    let mut digits = Buffer::new();
    text(at, line, digits.format(number).as_bytes())
}

// A digit's letter, in upper case.
pub fn glyph(digit: u8) -> u8 {
    let d = digit % 16;
    if d < 10 { 48 + d } else { 55 + d }
}

pub fn hex(at: usize, line: &mut [u8; LINE], b: u8) -> usize {
    let high = byte(at, line, glyph(b / 16));
    byte(high, line, glyph(b))
}

// Bytes, each behind a blank.
pub fn bytes(at: usize, line: &mut [u8; LINE], list: &[u8]) -> usize {
    let mut k = at;
    for b in list {
        k = byte(k, line, b' ');
        k = hex(k, line, *b);
    }
    k
}

// The line with this number, from 0 on, of lines that each end in a newline; nothing where there is
// none.
fn line_of<'a>(lines: &'a [u8], number: u8) -> &'a [u8] {
    let mut left = number;
    let mut from = 0;
    for i in 0..lines.len() {
        if lines[i] != b'\n' {
            continue;
        }
        if left == 0 {
            return &lines[from..i];
        }
        left -= 1;
        from = i + 1;
    }
    &lines[..0]
}

// A number's short name, as in docs/numbers.txt: a line for each number from 0 on, empty where it is
// not in use.
pub fn name(at: usize, line: &mut [u8; LINE], number: u8) -> usize {
    let names = b"
output too short
table not valid
run ended
wrong escape
SYN too early
source no initiator
destination A9 or AA
LEN over 16
wrong check byte
command NACKed twice
reply NACKed twice
bus error
wrong length
wrong mark
subcommand or letter not taken
wrong check
serial too large
queue full
over 32 FF






no hex digit
";
    text(at, line, line_of(names, number))
}
