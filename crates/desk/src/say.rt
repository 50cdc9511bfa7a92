// The page: answers are collected here, and written out when it is full or before more input is
// read.
//
// A page is handed on by value. Each function takes one and answers it with something more on it.
use crate::part::start_of;
use crate::texts::Text;
use crate::{names, texts};
use itoa::Buffer;
use refusal::Refusal;
use spelling::glyph;
use std::io::Error;

// How many bytes a page has.
const PAGE: usize = 4096;

#[derive(Clone, Copy)]
pub struct Page {
    bytes: [u8; PAGE],
    // How many of them wait to be written out.
    used: usize,
    // Why writing out has failed, where it has. Nothing is written from then on.
    pub(crate) failed: Option<Error>,
}

pub(crate) fn empty(failed: Option<Error>) -> Page {
    Page {
        bytes: [0u8; PAGE],
        used: 0,
        failed,
    }
}

// Writes out what waits.
pub(crate) fn flush(rt: &impl Print, page: Page) -> Page {
    let failed = page.failed;
    if failed.is_some() {
        return empty(failed);
    }
    let used = page.used;
    let bytes = page.bytes;
    empty(rt.write_all(start_of(&bytes, used)).err())
}

// A page with room for a byte.
fn roomy(rt: &impl Print, page: Page) -> Page {
    if page.used < PAGE {
        return page;
    }
    flush(rt, page)
}

pub fn byte(rt: &impl Print, page: Page, b: u8) -> Page {
    let mut next = roomy(rt, page);
    let used = next.used;
    if used < PAGE {
        next.bytes[used] = b;
        next.used = used + 1;
    }
    next
}

// Bytes as they stand.
pub fn put(rt: &impl Print, page: Page, bytes: &[u8]) -> Page {
    let mut p = page;
    for b in bytes {
        p = byte(rt, p, *b);
    }
    p
}

fn decimal(rt: &impl Print, page: Page, number: u64) -> Page {
    let mut digits = Buffer::new();
    put(rt, page, digits.format(number).as_bytes())
}

fn hex(rt: &impl Print, page: Page, b: u8) -> Page {
    byte(rt, byte(rt, page, glyph(b / 16)), glyph(b))
}

// Bytes, each behind a space.
fn bytes(rt: &impl Print, page: Page, list: &[u8]) -> Page {
    let mut p = page;
    for b in list {
        p = hex(rt, byte(rt, p, b' '), *b);
    }
    p
}

// A serial, in eight digits.
fn serial(rt: &impl Print, page: Page, s: u32) -> Page {
    let mut p = page;
    for b in s.to_be_bytes() {
        p = hex(rt, p, b);
    }
    p
}

// Up to three numbers that a text is filled with, the next one first.
#[derive(Clone, Copy)]
pub struct Numbers(u64, u64, u64);

pub fn no_number() -> Numbers {
    Numbers(0, 0, 0)
}

pub fn one(a: u64) -> Numbers {
    Numbers(a, 0, 0)
}

pub fn two(a: u64, b: u64) -> Numbers {
    Numbers(a, b, 0)
}

pub fn three(a: u64, b: u64, c: u64) -> Numbers {
    Numbers(a, b, c)
}

// The numbers that are left behind this byte of a text.
fn left_behind(b: u8, numbers: Numbers) -> Numbers {
    match b {
        b'#' | b'$' | b'^' => Numbers(numbers.1, numbers.2, 0),
        _ => numbers,
    }
}

// A byte of a text, or the number that it stands for.
fn piece(rt: &impl Print, page: Page, b: u8, number: u64) -> Page {
    match b {
        b'#' => decimal(rt, page, number),
        b'$' => hex(rt, page, (number % 256) as u8),
        b'^' => serial(rt, page, (number % 0x100000000) as u32),
        _ => byte(rt, page, b),
    }
}

// A text in which `#` stands for the next number in decimal, `$` for it in two hexadecimal digits, and
// `^` for it in eight.
pub(crate) fn filled(rt: &impl Print, page: Page, text: &str, numbers: Numbers) -> Page {
    let mut p = page;
    let mut left = numbers;
    for b in text.as_bytes() {
        p = piece(rt, p, *b, left.0);
        left = left_behind(*b, left);
    }
    p
}

// Bytes, as the rest of a line.
pub fn ended(rt: &impl Print, page: Page, list: &[u8]) -> Page {
    byte(rt, bytes(rt, page, list), b'\n')
}

// A line of bytes, behind their name.
pub fn named(rt: &impl Print, page: Page, name: Text, list: &[u8]) -> Page {
    ended(rt, texts::plain(rt, page, name), list)
}

// A line of text, behind its name.
pub fn spelled(rt: &impl Print, page: Page, name: Text, text: &[u8]) -> Page {
    byte(
        rt,
        put(rt, byte(rt, texts::plain(rt, page, name), b' '), text),
        b'\n',
    )
}

// The end of a first line: how many FF were passed over.
pub fn skipped(rt: &impl Print, page: Page, count: usize) -> Page {
    texts::filled(rt, page, Text::Skipped, one(count as u64))
}

pub fn refused(rt: &impl Print, page: Page, why: Refusal) -> Page {
    texts::plain(rt, refused_for(rt, page, why), Text::RefusedEnd)
}

// A refusal through its name. The bracket is still open, for who has more to say in it.
pub(crate) fn refused_for(rt: &impl Print, page: Page, why: Refusal) -> Page {
    let numbers = two(why.number as u64, why.place as u64);
    names::name(
        rt,
        texts::filled(rt, page, Text::Refused, numbers),
        why.number,
    )
}

// What a writer answered: so many bytes at the start of its output, or its refusal.
pub fn written(rt: &impl Print, page: Page, w: Result<usize, Refusal>, out: &[u8]) -> Page {
    match w {
        Ok(n) => named(rt, page, Text::Written, start_of(out, n)),
        Err(why) => refused(rt, page, why),
    }
}
