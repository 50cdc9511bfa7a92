// A relay device on Railbus.
//
// Rules R5 to R10. The device is 256 lent registers and as many access bytes; the one write that it
// remembers goes in by value and comes back by value. Every call checks what it was lent before it
// changes anything: the room of its output first, then registers and access bytes, then its input.
#![tactic(auto)]

mod answers;

ghost use Rattle.std.specs.Prelude.{◌≡◌, ◌≤◌, length};
ghost use Rattle.std.specs.List.{list_all};
ghost use Rattle.lists.specs.Starting.{starting};
ghost use Rattle.relay.specs.Device.{register_count, access_right, valid_relay};
ghost use Rattle.relay.specs.Answers.{on_packet};
ghost use Rattle.relay.specs.Calls.{relay_room, said_text, reply_of, Relays, relayed, responded, offer_call, finish_call};

use answers::on_message;
use railbus::{Long, Message, Packet, read_packet, write_packet};
use refusal::Refusal;

// A device has so many registers.
pub const REGISTERS: usize = 256;

// An answer buffer holds at least this: the longest packet.
pub const RELAY_ROOM: usize = 17;

// The write that a device remembers: none, or one with its register and data.
#[derive(Clone, Copy)]
pub enum Remembered {
    Idle,
    Running(u8, u32),
    Finished(u8, u32),
}

// What a device says, if anything, and what it remembers from then on.
#[derive(Clone, Copy)]
pub struct Response {
    pub said: Option<Message>,
    pub write: Remembered,
}

// What a call answers: how many characters the answer at the start of the buffer has, none where there
// is no answer, or the refusal; and the write that the device remembers from then on.
#[derive(Clone, Copy)]
pub struct Relayed {
    pub reply: Result<Option<usize>, Refusal>,
    pub write: Remembered,
}

// Whether each access byte is one of the four. The loop has no way out before its end, so that a
// processor takes several bytes at a time.
fn access_right(access: &[u8]) -> bool
    ensures { result ≡ list_all access_right access.now }
{
    let mut right = true;
    for byte in access {
        right &= *byte <= 3;
    }
    right
}

// Whether registers and access bytes are those of a device: what number 2 asks.
#[tactic(auto, using(lists::proofs::Std::all_is), unfolding(crate::specs::Device::valid_relay))]
pub fn valid_relay(registers: &[u32], access: &[u8]) -> bool
    ensures { result ≡ valid_relay (record { registers = registers.now; access = access.now }) }
{
    registers.len() == REGISTERS && access.len() == REGISTERS && access_right(access)
}

// Writes what is said, as a packet from the device with this address on this register.
fn say(
    address: u8,
    register: u8,
    said: Option<Message>,
    answer: &mut [u8],
) -> Result<Option<usize>, Refusal>
    requires { relay_room ≤ length answer.old }
    ensures { (result ≡ reply_of address register said) × (answer.new ≡ starting (said_text address register said) answer.old) }
{
    let Some(message) = said else {
        return Ok(None);
    };
    let packet = Packet {
        address,
        register,
        message,
    };
    let size = write_packet(packet, answer)?;
    Ok(Some(size))
}

// A refusal. What the device remembers stays.
fn refused(why: Refusal, write: Remembered) -> Relayed
    ensures { result ≡ relayed (Err why) write }
{
    Relayed {
        reply: Err(why),
        write,
    }
}

// A packet as it was read, behind the guard. One for another address gets no answer.
fn respond(
    address: u8,
    packet: Packet,
    registers: &[u32],
    access: &[u8],
    write: Remembered,
    answer: &mut [u8],
) -> Relayed
    requires { (relay_room ≤ length answer.old) × (length registers.now ≡ register_count) × (length access.now ≡ register_count) }
    ensures { Relays relayed (responded address packet.register (on_packet address packet (record { registers = registers.now; access = access.now }) write) answer.old registers.now) result answer.new registers.now }
{
    if packet.address != address {
        return Relayed {
            reply: Ok(None),
            write,
        };
    }
    let register = packet.register;
    let message = packet.message;
    let at = register as usize;
    let response = on_message(access[at], registers[at], register, message, write);
    let said = response.said;
    let write = response.write;
    Relayed {
        reply: say(address, register, said, answer),
        write,
    }
}

// A packet offered to the device with this address. No register changes.
pub fn offer(
    address: u8,
    input: &[u8],
    registers: &[u32],
    access: &[u8],
    write: Remembered,
    answer: &mut [u8],
) -> Relayed
    ensures { Relays relayed (offer_call address input.now answer.old (record { registers = registers.now; access = access.now }) write) result answer.new registers.now }
{
    let ok = valid_relay(registers, access);
    if let Err(why) = guard::admit(RELAY_ROOM, answer.len(), ok) {
        return refused(why, write);
    }
    match read_packet(input) {
        Err(why) => refused(why, write),
        Ok((packet, _)) => respond(address, packet, registers, access, write, answer),
    }
}

// The running write has finished: its register takes its value. With none running nothing happens.
pub fn finish(
    address: u8,
    registers: &mut [u32],
    access: &[u8],
    write: Remembered,
    answer: &mut [u8],
) -> Relayed
    ensures { Relays relayed (finish_call address answer.old (record { registers = registers.old; access = access.now }) write) result answer.new registers.new }
{
    let ok = valid_relay(registers, access);
    if let Err(why) = guard::admit(RELAY_ROOM, answer.len(), ok) {
        return refused(why, write);
    }
    match write {
        Remembered::Running(register, value) => {
            registers[register as usize] = value;
            let said = Some(Message::With(Long::WriteAcknowledge, value));
            Relayed {
                reply: say(address, register, said, answer),
                write: Remembered::Finished(register, value),
            }
        }
        _ => Relayed {
            reply: Ok(None),
            write,
        },
    }
}
