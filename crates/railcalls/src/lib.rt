// Railbus for C: packets, and the relay device.
//
// In an answer of a call that can refuse the number is 0 where the call was accepted, and else rule
// N1's number with the place beside it; the other values are then 0, but for the remembered write.
#![tactic(auto)]

ghost use Rattle.std.specs.Prelude.{◌≡◌, length};
ghost use Rattle.refusal.specs.Output.{Wrote};
ghost use Rattle.crc7.specs.Check.{checksum};
ghost use Rattle.railbus.specs.Reading.{read_packet};
ghost use Rattle.relay.specs.Device.{valid_relay};
ghost use Rattle.relay.specs.Calls.{Relays, offer_call, finish_call};
ghost use Rattle.boundary.specs.ForC.{written_for_c};
ghost use Rattle.railcalls.specs.ForC.{railbus_for_c, remembered_for_c, remembered_from_c, relayed_for_c, write_by_letter};

use boundary::{MoorWritten, refused_for_c, written_for_c};
use railbus::{Packet, is_letter, letter_of, message_for, value_of};
use refusal::{Refusal, SUBCOMMAND_WRONG};
use relay::{Relayed, Remembered};

// A packet that was read: its letter and numbers, and whether its checksum was examined.
#[repr(C)]
#[derive(Clone, Copy)]
pub struct MoorRailbusRead {
    pub number: u8,
    pub letter: u8,
    pub address: u8,
    pub reg: u8,
    pub checked: u8,
    pub carried: u32,
    pub place: usize,
}

// The write that a device remembers.
#[repr(C)]
#[derive(Clone, Copy)]
pub struct MoorRemembered {
    pub phase: u8,
    pub reg: u8,
    pub carried: u32,
}

// What a relay device gives: what it remembers from now on, and how long its answer is, 0 where there
// is none.
#[repr(C)]
#[derive(Clone, Copy)]
pub struct MoorRelayed {
    pub number: u8,
    pub write: MoorRemembered,
    pub place: usize,
    pub length: usize,
}

// The phases of a remembered write.
const RUNNING: u8 = 1;

const FINISHED: u8 = 2;

// ---- what the crates below answer, as numbers

fn railbus_for_c(x: Result<(Packet, bool), Refusal>) -> MoorRailbusRead
    ensures { result ≡ railbus_for_c x }
{
    match x {
        Ok((packet, checked)) => {
            let message = packet.message;
            MoorRailbusRead {
                number: 0,
                letter: letter_of(message),
                address: packet.address,
                reg: packet.register,
                checked: u8::from(checked),
                carried: value_of(message),
                place: 0,
            }
        }
        Err(why) => MoorRailbusRead {
            number: why.number,
            letter: 0,
            address: 0,
            reg: 0,
            checked: 0,
            carried: 0,
            place: why.place,
        },
    }
}

fn remembered_for_c(write: Remembered) -> MoorRemembered
    ensures { result ≡ remembered_for_c write }
{
    match write {
        Remembered::Idle => MoorRemembered {
            phase: 0,
            reg: 0,
            carried: 0,
        },
        Remembered::Running(reg, carried) => MoorRemembered {
            phase: RUNNING,
            reg,
            carried,
        },
        Remembered::Finished(reg, carried) => MoorRemembered {
            phase: FINISHED,
            reg,
            carried,
        },
    }
}

// Any phase but that of a running and that of a finished write is none.
fn remembered_from_c(write: MoorRemembered) -> Remembered
    ensures { result ≡ remembered_from_c write }
{
    match write.phase {
        RUNNING => Remembered::Running(write.reg, write.carried),
        FINISHED => Remembered::Finished(write.reg, write.carried),
        _ => Remembered::Idle,
    }
}

fn relayed_for_c(x: Relayed) -> MoorRelayed
    ensures { result ≡ relayed_for_c x.reply x.write }
{
    let write = remembered_for_c(x.write);
    match x.reply {
        Ok(answer) => MoorRelayed {
            number: 0,
            write,
            place: 0,
            length: answer.unwrap_or(0),
        },
        Err(why) => MoorRelayed {
            number: why.number,
            write,
            place: why.place,
            length: 0,
        },
    }
}

// ---- packets

// The checksum of the characters, its top bit set.
#[unsafe(no_mangle)]
pub extern "C" fn moor_railbus_check(characters: &[u8]) -> u8
    ensures { result ≡ checksum characters.now }
{
    crc7::checksum(characters)
}

// What a packet says. It must fill the whole input.
#[unsafe(no_mangle)]
pub extern "C" fn moor_read_railbus(input: &[u8]) -> MoorRailbusRead
    ensures { result ≡ railbus_for_c (read_packet input.now) }
{
    railbus_for_c(railbus::read_packet(input))
}

// Writes a packet with its checksum, by its letter: 15, then 1.
#[unsafe(no_mangle)]
pub extern "C" fn moor_write_railbus(
    letter: u8,
    address: u8,
    reg: u8,
    carried: u32,
    out: &mut [u8],
) -> MoorWritten
    ensures { Wrote written_for_c (write_by_letter letter address reg carried (length out.old)) result out.old out.new }
{
    if !is_letter(letter) {
        return refused_for_c(Refusal {
            number: SUBCOMMAND_WRONG,
            place: 0,
        });
    }
    let packet = Packet {
        address,
        register: reg,
        message: message_for(letter, carried),
    };
    written_for_c(railbus::write_packet(packet, out))
}

// ---- the relay device

// Whether registers and access bytes are those of a device.
#[unsafe(no_mangle)]
pub extern "C" fn moor_relay_valid(registers: &[u32], access: &[u8]) -> bool
    ensures { result ≡ valid_relay (record { registers = registers.now; access = access.now }) }
{
    relay::valid_relay(registers, access)
}

// A packet offered to the device with this address.
#[unsafe(no_mangle)]
pub extern "C" fn moor_offer_railbus(
    address: u8,
    packet: &[u8],
    registers: &[u32],
    access: &[u8],
    write: MoorRemembered,
    answer: &mut [u8],
) -> MoorRelayed
    ensures { Relays relayed_for_c (offer_call address packet.now answer.old (record { registers = registers.now; access = access.now }) (remembered_from_c write)) result answer.new registers.now }
{
    let remembered = remembered_from_c(write);
    relayed_for_c(relay::offer(address, packet, registers, access, remembered, answer))
}

// The running write has finished.
#[unsafe(no_mangle)]
pub extern "C" fn moor_finish_railbus(
    address: u8,
    registers: &mut [u32],
    access: &[u8],
    write: MoorRemembered,
    answer: &mut [u8],
) -> MoorRelayed
    ensures { Relays relayed_for_c (finish_call address answer.old (record { registers = registers.old; access = access.now }) (remembered_from_c write)) result answer.new registers.new }
{
    let remembered = remembered_from_c(write);
    relayed_for_c(relay::finish(address, registers, access, remembered, answer))
}
