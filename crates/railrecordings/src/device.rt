// One call on a relay device: what is answered, and what the device then is.
use crate::packets::ROOM;
use crate::rules::length_for;
use lists::put;
use railbus::{Packet, message_for, write_packet};
use refusal::{Refusal, refused};
use relay::{REGISTERS, Relayed, Remembered};
use tally::part::{FILL, holds, lent, rest, start};
use tally::{Tally, none};

// The device's address.
const ADDRESS: u8 = 0x93;

// A device, and what it gave last.
#[derive(Clone, Copy)]
pub(crate) struct Device {
    registers: [u32; REGISTERS],
    access: [u8; REGISTERS],
    write: Remembered,
    reply: Result<Option<usize>, Refusal>,
    answer: [u8; ROOM],
}

// A device with registers of 0 that remembers this write. The first nine may be read and written, but 5
// is absent, 6 may only be read, 7 only written, and 8 has this access byte.
pub(crate) fn fresh(write: Remembered, eighth: u8) -> Device {
    let mut access = [1; REGISTERS];
    put(&[3, 3, 3, 3, 3, 0, 1, 2, eighth], &mut access);
    Device {
        registers: [0; REGISTERS],
        access,
        write,
        reply: Ok(None),
        answer: [FILL; ROOM],
    }
}

// What is done with a device: a packet is offered, or where there is none the device is told that its
// write has finished.
pub(crate) type Call = Option<&'static [u8]>;

fn called(
    call: Call,
    registers: &mut [u32],
    access: &[u8],
    write: Remembered,
    answer: &mut [u8],
) -> Relayed {
    match call {
        Some(packet) => relay::offer(ADDRESS, packet, registers, access, write, answer),
        None => relay::finish(ADDRESS, registers, access, write, answer),
    }
}

// What a call must give: a packet with this letter, no answer, number 2, or anything.
#[derive(Clone, Copy)]
pub(crate) enum Due {
    Packet(u8),
    Silence,
    Refused,
    Any,
}

impl Device {
    pub(crate) fn call(&mut self, call: Call) {
        self.answer = [FILL; ROOM];
        let relayed = called(
            call,
            &mut self.registers,
            &self.access,
            self.write,
            &mut self.answer,
        );
        self.write = relayed.write;
        self.reply = relayed.reply;
    }

    // Whether the last call gave what is due, a packet of this register and with this value.
    pub(crate) fn gave(&self, due: Due, register: u8, value: u32) -> bool {
        match due {
            Due::Packet(letter) => {
                self.reply == Ok(length_for(letter))
                    && self.answer == answer_by(letter, register, value)
            }
            Due::Silence => self.reply == Ok(None) && self.answer == [FILL; ROOM],
            Due::Refused => self.reply == refused(2, 0) && self.answer == [FILL; ROOM],
            Due::Any => true,
        }
    }
}

// What an answer buffer holds behind a packet with this letter.
fn answer_by(letter: u8, register: u8, value: u32) -> [u8; ROOM] {
    let mut answer = [FILL; ROOM];
    let packet = Packet {
        address: ADDRESS,
        register,
        message: message_for(letter, value),
    };
    let _ = write_packet(packet, &mut answer);
    answer
}

// ---- groups of cases

// Whether register 8 with this access byte answers a call as is due by that: a letter for each of the
// four access bytes there are, and a value. With any other the device is refused as it stands.
fn answered(call: Call, access: u8, letters: [u8; 4], values: [u32; 4]) -> bool {
    let mut device = fresh(Remembered::Running(8, 0), access);
    device.call(call);
    match access {
        0..=3 => {
            let i = usize::from(access);
            device.gave(Due::Packet(letters[i]), 8, values[i])
        }
        _ => device.gave(Due::Refused, 8, 0),
    }
}

// Each access byte: the register is read, a copy of its running write comes, or that finishes.
pub(crate) fn each_access() -> Tally {
    let mut t = none();
    for access in 0..=255u8 {
        t = t
            .with(answered(Some(b"RP93R0800"), access, *b"NKnK", [0, 0, 7, 0]))
            .with(answered(Some(b"RP93W080000000000"), access, *b"Nnnn", [0, 7, 2, 2]))
            .with(answered(None, access, *b"IIII", [0; 4]));
    }
    t
}

// Whether a call answers as is due where so many registers, access bytes and characters of an answer
// buffer are lent.
fn lent_so(call: Call, registers: usize, access: usize, room: usize) -> bool {
    let mut values = [0u32; 257];
    let bytes = [3u8; 257];
    let mut answer = [FILL; ROOM];
    let relayed = called(
        call,
        lent(&mut values, registers),
        start(&bytes, access),
        Remembered::Running(1, 0x10),
        lent(&mut answer, room),
    );
    let due = due_for(registers, access, room);
    relayed.reply == due.map(Some) && holds(rest(&answer, due.unwrap_or(0)), b"")
}

// The length of the answer.
fn due_for(registers: usize, access: usize, room: usize) -> Result<usize, Refusal> {
    if room < 17 {
        return refused(1, 0);
    }
    if registers == 256 && access == 256 {
        return Ok(17);
    }
    refused(2, 0)
}

// Lengths on both sides of what is asked for, for a read and a finish.
pub(crate) fn each_length() -> Tally {
    let mut t = none();
    for registers in 255..258 {
        for access in 255..258 {
            for room in 16..18 {
                t = t
                    .with(lent_so(Some(b"RP93R0100"), registers, access, room))
                    .with(lent_so(None, registers, access, room));
            }
        }
    }
    t
}
