// What reading a packet must give, by rules R1 to R4: worked out here a second time, with the checksum
// bit by bit.
use lists::byte_at;
use refusal::{Refusal, refused};
use tally::part::{rest, start};

// How long a packet with this letter is.
pub(crate) fn length_for(letter: u8) -> Option<usize> {
    match letter {
        b'R' | b'S' | b'N' => Some(9),
        b'W' | b'K' | b'I' | b'n' => Some(17),
        _ => None,
    }
}

fn is_digit(c: u8) -> bool {
    matches!(c, b'0'..=b'9' | b'A'..=b'F')
}

// The character of a digit.
pub(crate) fn glyph(digit: u8) -> u8 {
    byte_at(b"0123456789ABCDEF", usize::from(digit))
}

// What a character makes of the checksum's register.
fn bit_by_bit(before: u8, c: u8) -> u8 {
    (0..8u32).fold(before ^ c, |register, _| {
        let doubled = register % 128 * 2;
        if register < 128 {
            doubled
        } else {
            doubled ^ 0x12
        }
    })
}

// The checksum of these characters, with the top bit set.
fn checksum(text: &[u8]) -> [u8; 2] {
    let register = text.iter().fold(0, |register, c| bit_by_bit(register, *c));
    let sum = 128 + register / 2;
    [glyph(sum / 16), glyph(sum % 16)]
}

// The place of the first character that is no digit where one is due.
fn no_digit(text: &[u8]) -> Option<usize> {
    text.iter()
        .enumerate()
        .position(|(i, c)| 2 <= i && i != 4 && !is_digit(*c))
}

// The mark, the letter and the length.
fn head(text: &[u8]) -> Result<(), Refusal> {
    if byte_at(text, 0) != b'R' {
        return refused(14, 0);
    }
    if byte_at(text, 1) != b'P' {
        return refused(14, 1);
    }
    match length_for(byte_at(text, 4)) {
        None => refused(15, 4),
        Some(length) if length != text.len() => refused(13, 0),
        Some(_) => Ok(()),
    }
}

// Whether the checksum is examined, or the refusal.
pub(crate) fn due(text: &[u8]) -> Result<bool, Refusal> {
    if text.len() < 9 {
        return refused(13, 0);
    }
    head(text)?;
    if let Some(place) = no_digit(text) {
        return refused(26, place);
    }
    let place = text.len() - 2;
    if text[place] < b'8' {
        return Ok(false);
    }
    if rest(text, place) == checksum(start(text, place)).as_slice() {
        return Ok(true);
    }
    refused(16, place)
}
