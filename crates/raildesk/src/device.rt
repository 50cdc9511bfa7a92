// The tool's relay device: set as it stands, offered packets, told that its write has finished, and
// shown.
use desk::expected::refused_packet;
use desk::fault::Fault;
use desk::number::{eight_digits, last_byte, last_number, one_byte};
use desk::part::{lent, start_of};
use desk::say::{Page, three, two};
use desk::state::{Desk, FILL, FULL, Relay};
use desk::texts::Text;
use desk::{say, state, texts};
use relay::{Relayed, Remembered};

// An access byte of any value can be tried.
const MOST_ACCESS: u64 = 255;

// ---- the device as it stands

pub(crate) fn relay(rt: &impl Print, line: &[u8], at: usize, d: Desk) -> Desk {
    match last_byte(line, at) {
        Ok(address) => d.with_relay(state::fresh_relay(address), d.page).ok(rt),
        Err(why) => d.wrong(rt, why),
    }
}

// A register as a line has it: which one, what it holds, and its access byte.
fn register_at(line: &[u8], at: usize) -> Result<(u8, u32, u8), Fault> {
    let (number, value_at) = one_byte(line, at)?;
    let (value, access_at) = eight_digits(line, value_at)?;
    let access = last_number(line, access_at, MOST_ACCESS)?;
    Ok((number, value, (access % 256) as u8))
}

// The remembered write stays.
pub(crate) fn register(rt: &impl Print, line: &[u8], at: usize, d: Desk) -> Desk {
    match register_at(line, at) {
        Ok((number, value, access)) => {
            let i = number as usize;
            let mut device = d.relay;
            device.registers[i] = value;
            device.access[i] = access;
            d.with_relay(device, d.page).ok(rt)
        }
        Err(why) => d.wrong(rt, why),
    }
}

// ---- packets, and the end of a write

pub(crate) fn offer(rt: &impl Print, packet: &[u8], d: Desk) -> Desk {
    let mut answer = [FILL; FULL];
    let mut device = d.relay;
    let given = relay::offer(
        device.address,
        packet,
        &device.registers,
        &device.access,
        device.write,
        lent(&mut answer, d.room),
    );
    device.write = given.write;
    d.with_relay(device, say_reply(rt, given, packet, &answer, d.page))
}

pub(crate) fn finish(rt: &impl Print, d: Desk) -> Desk {
    let mut answer = [FILL; FULL];
    let mut device = d.relay;
    let mut registers = device.registers;
    let access = device.access;
    let given = relay::finish(
        device.address,
        &mut registers,
        &access,
        device.write,
        lent(&mut answer, d.room),
    );
    device.registers = registers;
    device.write = given.write;
    d.with_relay(device, say_reply(rt, given, b"", &answer, d.page))
}

fn say_reply(rt: &impl Print, given: Relayed, packet: &[u8], answer: &[u8], page: Page) -> Page {
    match given.reply {
        Ok(Some(n)) => say::spelled(rt, page, Text::Answer, start_of(answer, n)),
        Ok(None) => texts::plain(rt, page, Text::NoAnswer),
        Err(why) => refused_packet(rt, page, why, packet),
    }
}

// ---- the device shown

pub(crate) fn show(rt: &impl Print, d: Desk) -> Desk {
    let device = d.relay;
    let write = device.write;
    d.with_page(say_registers(rt, device, say_write(rt, write, d.page)))
}

fn say_write(rt: &impl Print, write: Remembered, page: Page) -> Page {
    match write {
        Remembered::Idle => texts::plain(rt, page, Text::Idle),
        Remembered::Running(register, value) => {
            texts::filled(rt, page, Text::Running, two(register as u64, value as u64))
        }
        Remembered::Finished(register, value) => {
            texts::filled(rt, page, Text::Finished, two(register as u64, value as u64))
        }
    }
}

// Each register that is not absent.
fn say_registers(rt: &impl Print, device: Relay, page: Page) -> Page {
    let registers = device.registers;
    let access = device.access;
    let mut p = page;
    for (i, (value, access)) in registers.iter().zip(access.iter()).enumerate() {
        if *access != 0 {
            let numbers = three(i as u64, *value as u64, *access as u64);
            p = texts::filled(rt, p, Text::Register, numbers);
        }
    }
    p
}
