// The two checks on published values, and on every byte alone.
//
// A case is a line: the bytes, `=` and their check as it is sent.
use crate::lines::{Base, cases, read_field};
use tally::{Tally, none};

fn ebus_case(line: &[u8]) -> bool {
    let input = read_field::<64>(line, Base::Hexadecimal);
    let due = read_field::<1>(input.rest, Base::Hexadecimal);
    due.n == 1 && checkbyte::ebus_check(input.all()) == due.numbers[0]
}

fn modbus_case(line: &[u8]) -> bool {
    let input = read_field::<64>(line, Base::Hexadecimal);
    let due = read_field::<2>(input.rest, Base::Hexadecimal);
    due.n == 2 && crc::modbus_check(input.all()) == u16::from_le_bytes(due.numbers)
}

// W1 to W4 of docs/RULES.md, and the example of the eBUS overview whose check byte is 42.
pub(crate) fn ebus_published() -> Tally {
    cases(
        b"10 08 B5 11 01 01 = 89
AA = EC
A9 = ED
= 00
10 08 B5 04 01 7F = 42
",
        ebus_case,
    )
}

// A lone byte is its own check byte, but for the two that are escaped.
fn alone(byte: u8) -> u8 {
    match byte {
        0xA9 => 0xED,
        0xAA => 0xEC,
        _ => byte,
    }
}

pub(crate) fn ebus_alone() -> Tally {
    (0..=255u8).fold(none(), |t, byte| {
        t.with(checkbyte::ebus_check(&[byte]) == alone(byte))
    })
}

// The whole frames that the Fast Modbus extension prints, but for the 0x18 example, whose check there
// is wrong; and the check value that catalogues of CRCs give for Modbus, of the digits 1 to 9.
pub(crate) fn modbus_published() -> Tally {
    cases(
        b"FD 46 01 = 13 90
FD 46 02 = 53 91
FD 46 03 00 01 EB 37 0C = CE DC
FD 46 04 = D3 93
FD 46 08 00 01 EB 37 03 00 C8 00 14 = 5B 07
FD 46 09 00 01 EB 37 03 28 00 57 00 42 00 4D 00 53 00 57 00 34 00 00 00 00 00 00 00 00 00 00 00 00 00 00 00 00 00 00 00 00 00 00 00 00 00 00 00 00 = 30 4F
FD 46 12 = 52 5D
31 32 33 34 35 36 37 38 39 = 37 4B
",
        modbus_case,
    )
}

// What a byte makes of the Modbus register, bit by bit as the serial line standard describes it.
fn bit_by_bit(before: u16, byte: u8) -> u16 {
    (0..8u32).fold(before ^ u16::from(byte), |register, _| {
        if register % 2 == 1 {
            register / 2 ^ 0xA001
        } else {
            register / 2
        }
    })
}

pub(crate) fn modbus_alone() -> Tally {
    (0..=255u8).fold(none(), |t, byte| {
        t.with(crc::modbus_check(&[byte]) == bit_by_bit(0xFFFF, byte))
    })
}

// Runs of each length below this one are checked; it is past the longest frame.
const LENGTHS: usize = 300;

// A run of each length, on both sides of where two bytes a step begin. The byte that makes a run longer
// is the high one of the check so far, in no order; the low one would leave the check at 0.
// The loop is over lengths, since each run is the one before it and one byte more.
pub(crate) fn modbus_each_length() -> Tally {
    let mut t = none();
    let mut bytes = [0u8; LENGTHS];
    let mut register: u16 = 0xFFFF;
    for n in 0..LENGTHS {
        t = t.with(crc::modbus_check(&bytes[..n]) == register);
        let byte = (register / 256) as u8;
        bytes[n] = byte;
        register = bit_by_bit(register, byte);
    }
    t
}
