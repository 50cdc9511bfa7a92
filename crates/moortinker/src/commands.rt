// The commands by their names, each with what its line takes: bytes, nothing, or words of its own.
use crate::device_commands::Asked;
use crate::{device_commands, ebus_commands, help, listening_commands, modbus_commands};
use desk::explain::explain;
use desk::fault::{Fault, Wrong};
use desk::number::last_number;
use desk::part::start_of;
use desk::state::{Desk, FULL, MOST_ROOM};
use desk::{hex, word};

// What a line is answered. An empty line and a comment are answered nothing.
pub(crate) fn answer(rt: &impl Print, line: &[u8], d: Desk) -> Desk {
    let w = word::next(line, 0);
    let name = word::part(line, w.from, w.to);
    if matches!(name, [] | [b'#', ..]) {
        return d;
    }
    by_name(rt, name, line, w.to, d.echoed(rt, line))
}

// The commands of events and those of Railbus are enums of their own.
fn by_name(rt: &impl Print, name: &[u8], line: &[u8], at: usize, d: Desk) -> Desk {
    let words = word::uncommented(line);
    if let Some(command) = Command::named(name) {
        return command.obey(rt, words, at, d);
    }
    if let Some(command) = eventdesk::Command::named(name) {
        return command.obey(rt, words, at, d);
    }
    match raildesk::Command::named(name) {
        Some(command) if command.takes_text() => command.obey(rt, line, at, d),
        Some(command) => command.obey(rt, words, at, d),
        None => d.unknown(rt, words),
    }
}

// The commands on the bytes that the rest of the line is, those that take no word, and those with
// words of their own.
#[derive(Clone, Copy)]
enum Command {
    EbusCheck,
    Expand,
    Undo,
    Judge,
    WriteReply,
    ModbusCheck,
    ReadRequest,
    ReadAnswer,
    Feed,
    WriteEnd,
    Forget,
    Table,
    Start,
    Continue,
    Listen,
    Close,
    Quit,
    Help,
    Kind,
    WriteCommand,
    WriteRequest,
    WriteFound,
    Device,
    Offer,
    Scan,
    Room,
    Echo,
    Explain,
}

impl Command {
    fn named(name: &[u8]) -> Option<Command> {
        match name {
            b"ebus-check" => Some(Command::EbusCheck),
            b"expand" => Some(Command::Expand),
            b"undo" => Some(Command::Undo),
            b"judge" => Some(Command::Judge),
            b"write-reply" => Some(Command::WriteReply),
            b"modbus-check" => Some(Command::ModbusCheck),
            b"read-request" => Some(Command::ReadRequest),
            b"read-answer" => Some(Command::ReadAnswer),
            b"feed" => Some(Command::Feed),
            b"write-end" => Some(Command::WriteEnd),
            b"forget" => Some(Command::Forget),
            b"table" => Some(Command::Table),
            b"start" => Some(Command::Start),
            b"continue" => Some(Command::Continue),
            b"listen" => Some(Command::Listen),
            b"close" => Some(Command::Close),
            b"quit" | b"exit" => Some(Command::Quit),
            b"help" | b"?" => Some(Command::Help),
            b"kind" => Some(Command::Kind),
            b"write-command" => Some(Command::WriteCommand),
            b"write-request" => Some(Command::WriteRequest),
            b"write-found" => Some(Command::WriteFound),
            b"device" => Some(Command::Device),
            b"offer" => Some(Command::Offer),
            b"scan" => Some(Command::Scan),
            b"room" => Some(Command::Room),
            b"echo" => Some(Command::Echo),
            b"explain" => Some(Command::Explain),
            _ => None,
        }
    }

    // .. on the rest of the line, from `at` on.
    fn obey(self, rt: &impl Print, line: &[u8], at: usize, d: Desk) -> Desk {
        match self {
            Command::EbusCheck
            | Command::Expand
            | Command::Undo
            | Command::Judge
            | Command::WriteReply
            | Command::ModbusCheck
            | Command::ReadRequest
            | Command::ReadAnswer
            | Command::Feed => self.on_bytes(rt, line, at, d),
            Command::Kind => ebus_commands::kind(rt, line, at, d),
            Command::WriteCommand => ebus_commands::write_command(rt, line, at, d),
            Command::WriteRequest => modbus_commands::write_request(rt, line, at, d),
            Command::WriteFound => modbus_commands::write_found(rt, line, at, d),
            Command::Device => device_commands::device(rt, line, at, d),
            Command::Offer => device_commands::offer(rt, line, at, d),
            Command::Scan => device_commands::scan(rt, line, at, d),
            Command::Room => room(rt, line, at, d),
            Command::Echo => echo(rt, line, at, d),
            Command::Explain => explain(rt, line, at, d),
            _ => self.alone(rt, line, at, d),
        }
    }

    fn on_bytes(self, rt: &impl Print, line: &[u8], at: usize, d: Desk) -> Desk {
        let mut store = [0u8; hex::MOST];
        match hex::bytes(line, at, &mut store) {
            Ok(n) => self.with_bytes(rt, start_of(&store, n), d),
            Err(why) => d.wrong(rt, why),
        }
    }

    fn with_bytes(self, rt: &impl Print, input: &[u8], d: Desk) -> Desk {
        let room = d.room;
        match self {
            Command::EbusCheck => d.with_page(ebus_commands::check(rt, input, d.page)),
            Command::Expand => d.with_page(ebus_commands::expand(rt, input, room, d.page)),
            Command::Undo => d.with_page(ebus_commands::undo(rt, input, room, d.page)),
            Command::Judge => d.with_page(ebus_commands::judge(rt, input, room, d.page)),
            Command::WriteReply => {
                d.with_page(ebus_commands::write_reply(rt, input, room, d.page))
            }
            Command::ModbusCheck => d.with_page(modbus_commands::check(rt, input, d.page)),
            Command::ReadRequest => d.with_page(modbus_commands::read_request(rt, input, d.page)),
            Command::ReadAnswer => d.with_page(modbus_commands::read_answer(rt, input, d.page)),
            _ => listening_commands::feed(rt, input, d),
        }
    }

    fn alone(self, rt: &impl Print, line: &[u8], at: usize, d: Desk) -> Desk {
        if let Err(why) = word::nothing_more(line, at) {
            return d.wrong(rt, why);
        }
        match self {
            Command::WriteEnd => d.with_page(modbus_commands::write_end(rt, d.room, d.page)),
            Command::Forget => d.forgotten().ok(rt),
            Command::Table => device_commands::show(rt, d),
            Command::Start => device_commands::request(rt, Asked::Start, d),
            Command::Continue => device_commands::request(rt, Asked::Continue, d),
            Command::Listen => listening_commands::listen(rt, d),
            Command::Close => listening_commands::close(rt, d),
            Command::Quit => d.ended(),
            _ => d.with_page(help::commands(rt, d.page)),
        }
    }
}

// `room` alone is the full size again; with a number each lent output has that many bytes.
fn room(rt: &impl Print, line: &[u8], at: usize, d: Desk) -> Desk {
    if !word::more(line, at) {
        return d.with_room(FULL).ok(rt);
    }
    match last_number(line, at, MOST_ROOM as u64) {
        Ok(n) => d.with_room(n as usize).ok(rt),
        Err(why) => d.wrong(rt, why),
    }
}

// Whether the last word of the line is on, or off.
fn switch_at(line: &[u8], at: usize) -> Result<bool, Fault> {
    let w = word::due(line, at)?;
    word::nothing_more(line, w.to)?;
    match word::part(line, w.from, w.to) {
        b"on" => Ok(true),
        b"off" => Ok(false),
        _ => Err(Wrong::NotSwitch.at(w.from)),
    }
}

// `echo on` repeats each command from the next line on, `echo off` no more.
fn echo(rt: &impl Print, line: &[u8], at: usize, d: Desk) -> Desk {
    match switch_at(line, at) {
        Ok(on) => d.with_echo(on).ok(rt),
        Err(why) => d.wrong(rt, why),
    }
}
