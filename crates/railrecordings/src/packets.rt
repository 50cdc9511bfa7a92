// Packets: read, held to what is due, and what was read written again.
use crate::rules::{due, glyph};
use lists::put;
use railbus::{Packet, read_packet, write_packet};
use tally::part::{FILL, lent, start};
use tally::{Tally, none};

// Room for a packet and one character more.
pub(crate) const ROOM: usize = 18;

// Whether a packet is written as this text but for the checksum, which is then right, into an output
// that it fills.
fn written(packet: Packet, text: &[u8]) -> bool {
    let n = text.len();
    let mut out = [FILL; ROOM];
    let answer = write_packet(packet, lent(&mut out, n));
    let out = start(&out, n);
    answer == Ok(n) && due(out) == Ok(true) && body(out) == body(text)
}

// All but the checksum.
fn body(text: &[u8]) -> &[u8] {
    start(text, text.len().saturating_sub(2))
}

// Whether reading gives what is due, and what was read is written as it was, with its checksum.
fn right(text: &[u8]) -> bool {
    match read_packet(text) {
        Ok((packet, examined)) => due(text) == Ok(examined) && written(packet, text),
        Err(why) => due(text) == Err(why),
    }
}

// ---- groups of cases

// The packets that document 001 prints: each with the checksum that its routine gives, and as it
// prints it. The first two are short.
const PUBLISHED: &[u8] = b"RPFFR009E
RPFFR0000
RPFFK000015002AF4
RPFFK000015002A00
RP93W00000000109F
RP93W000000001000
RP93I0000000010EE
RP93I000000001000
RP93W0100000010A2
RP93W010000001000
RP93I0100000010D3
RP93I010000001000
RP93WFD0000E100E4
RP93WFD0000E10000
RP93nFD00000009A4
RP93nFD0000000900";

// A published packet, filled up with 0.
fn filled(packet: &[u8]) -> [u8; ROOM] {
    let mut bytes = [b'0'; ROOM];
    put(packet, &mut bytes);
    bytes
}

// With this character at a place.
fn with(bytes: [u8; ROOM], place: usize, c: u8) -> [u8; ROOM] {
    let mut next = bytes;
    if let Some(there) = next.get_mut(place) {
        *there = c;
    }
    next
}

fn each<F: Fn(&[u8], Tally) -> Tally>(group: F) -> Tally
    requires { F.IsAlwaysCallable group }
{
    let mut t = none();
    for packet in PUBLISHED.split(|b| *b == b'\n') {
        t = group(packet, t);
    }
    t
}

// A published packet as it stands, which is accepted.
pub(crate) fn published() -> Tally {
    each(|packet, t| t.with(right(packet) && due(packet).is_ok()))
}

// With each letter, as far as each length.
fn with_letters(packet: &[u8], from: Tally) -> Tally {
    let mut t = from;
    for c in 0..=255u8 {
        let bytes = with(filled(packet), 4, c);
        for n in 0..=ROOM {
            t = t.with(right(&bytes[..n]));
        }
    }
    t
}

pub(crate) fn letters() -> Tally {
    each(with_letters)
}

// With each character at each place.
fn with_characters(packet: &[u8], from: Tally) -> Tally {
    let mut t = from;
    for place in 0..packet.len() {
        for c in 0..=255u8 {
            let bytes = with(filled(packet), place, c);
            t = t.with(right(start(&bytes, packet.len())));
        }
    }
    t
}

pub(crate) fn characters() -> Tally {
    each(with_characters)
}

// Its first 17 characters, with each checksum.
fn with_checksums(packet: &[u8], from: Tally) -> Tally {
    let mut t = from;
    for c in 0..=255u8 {
        let mut bytes = filled(packet);
        bytes[15] = glyph(c / 16);
        bytes[16] = glyph(c % 16);
        t = t.with(right(&bytes[..17]));
    }
    t
}

pub(crate) fn checksums() -> Tally {
    each(with_checksums)
}
