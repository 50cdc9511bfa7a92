// The desk tool's commands of Railbus. Each is one call of the library.
#![tactic(auto)]

mod device;
mod packets;

use desk::part::start_of;
use desk::state::Desk;
use desk::{hex, word};

// The commands: those on a packet, which is text or bytes, those with words of their own, and those
// that take no word.
#[derive(Clone, Copy)]
pub enum Command {
    ReadRailbus,
    OfferRailbus,
    ReadRailbusHex,
    OfferRailbusHex,
    WriteRailbus,
    Relay,
    Register,
    Finish,
    Registers,
}

impl Command {
    pub fn named(name: &[u8]) -> Option<Command> {
        match name {
            b"read-railbus" => Some(Command::ReadRailbus),
            b"offer-railbus" => Some(Command::OfferRailbus),
            b"read-railbus-hex" => Some(Command::ReadRailbusHex),
            b"offer-railbus-hex" => Some(Command::OfferRailbusHex),
            b"write-railbus" => Some(Command::WriteRailbus),
            b"relay" => Some(Command::Relay),
            b"register" => Some(Command::Register),
            b"finish" => Some(Command::Finish),
            b"registers" => Some(Command::Registers),
            _ => None,
        }
    }

    // Whether it takes the rest of its line as it stands.
    pub fn takes_text(self) -> bool {
        matches!(self, Command::ReadRailbus | Command::OfferRailbus)
    }

    // .. on the rest of the line, from `at` on.
    pub fn obey(self, rt: &impl Print, line: &[u8], at: usize, d: Desk) -> Desk {
        match self {
            Command::ReadRailbus => read(rt, rest_of(line, at), d),
            Command::OfferRailbus => device::offer(rt, rest_of(line, at), d),
            Command::ReadRailbusHex => on_bytes(rt, true, line, at, d),
            Command::OfferRailbusHex => on_bytes(rt, false, line, at, d),
            Command::WriteRailbus => packets::write(rt, line, at, d),
            Command::Relay => device::relay(rt, line, at, d),
            Command::Register => device::register(rt, line, at, d),
            Command::Finish => alone(rt, true, line, at, d),
            Command::Registers => alone(rt, false, line, at, d),
        }
    }
}

// The rest of the line as it stands, without the blanks before it.
fn rest_of(line: &[u8], at: usize) -> &[u8] {
    let w = word::next(line, at);
    word::part(line, w.from, line.len())
}

fn read(rt: &impl Print, packet: &[u8], d: Desk) -> Desk {
    d.with_page(packets::read(rt, packet, d.page))
}

// A packet of any bytes is read, or offered to the device.
fn on_bytes(rt: &impl Print, reading: bool, line: &[u8], at: usize, d: Desk) -> Desk {
    let mut store = [0u8; hex::MOST];
    match hex::bytes(line, at, &mut store) {
        Ok(n) if reading => read(rt, start_of(&store, n), d),
        Ok(n) => device::offer(rt, start_of(&store, n), d),
        Err(why) => d.wrong(rt, why),
    }
}

fn alone(rt: &impl Print, finishing: bool, line: &[u8], at: usize, d: Desk) -> Desk {
    match word::nothing_more(line, at) {
        Ok(()) if finishing => device::finish(rt, d),
        Ok(()) => device::show(rt, d),
        Err(why) => d.wrong(rt, why),
    }
}
