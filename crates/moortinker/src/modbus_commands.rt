// The commands of Fast Modbus frames. Each is one call of the library.
use answers::AnswerRead;
use desk::expected::refused_frame;
use desk::fault::{Fault, Wrong};
use desk::number::{eight_digits, last_byte};
use desk::part::lent;
use desk::say::{Page, two};
use desk::state::{Desk, FILL, FULL};
use desk::texts::Text;
use desk::{say, texts, word};
use requests::Request;

// The check as it is sent, low byte first.
pub(crate) fn check(rt: &impl Print, input: &[u8], page: Page) -> Page {
    let value = crc::modbus_check(input) as u64;
    texts::filled(rt, page, Text::ModbusCheck, two(value, value / 256))
}

pub(crate) fn read_request(rt: &impl Print, input: &[u8], page: Page) -> Page {
    match requests::read_request(input) {
        Ok(request) => say_request(rt, request, page),
        Err(why) => refused_frame(rt, page, why, input),
    }
}

fn say_request(rt: &impl Print, request: Request, page: Page) -> Page {
    match request {
        Request::Start => texts::plain(rt, page, Text::Start),
        Request::Continue => texts::plain(rt, page, Text::Continue),
    }
}

pub(crate) fn read_answer(rt: &impl Print, input: &[u8], page: Page) -> Page {
    match answers::read_answer(input) {
        Ok(
            AnswerRead::Found {
                skipped,
                serial,
                address,
            },
        ) => {
            let found = texts::filled(rt, page, Text::Found, two(serial as u64, address as u64));
            say::skipped(rt, found, skipped)
        }
        Ok(AnswerRead::End { skipped }) => say::skipped(
            rt,
            texts::plain(rt, page, Text::End),
            skipped,
        ),
        Err(why) => refused_frame(rt, page, why, input),
    }
}

// The request that the last word of the line names.
fn request_at(line: &[u8], at: usize) -> Result<Request, Fault> {
    let w = word::due(line, at)?;
    word::nothing_more(line, w.to)?;
    match word::part(line, w.from, w.to) {
        b"start" => Ok(Request::Start),
        b"continue" => Ok(Request::Continue),
        _ => Err(Wrong::NotRequest.at(w.from)),
    }
}

pub(crate) fn write_request(rt: &impl Print, line: &[u8], at: usize, d: Desk) -> Desk {
    match request_at(line, at) {
        Ok(request) => d.with_page(write_asked(rt, request, d.room, d.page)),
        Err(why) => d.wrong(rt, why),
    }
}

fn write_asked(rt: &impl Print, request: Request, room: usize, page: Page) -> Page {
    let mut out = [FILL; FULL];
    let w = requests::write_request(request, lent(&mut out, room));
    say::written(rt, page, w, &out)
}

// A device's serial and address, the last words of the line.
fn device_at(line: &[u8], at: usize) -> Result<(u32, u8), Fault> {
    let (serial, address_at) = eight_digits(line, at)?;
    let address = last_byte(line, address_at)?;
    Ok((serial, address))
}

pub(crate) fn write_found(rt: &impl Print, line: &[u8], at: usize, d: Desk) -> Desk {
    match device_at(line, at) {
        Ok((serial, address)) => d.with_page(write_device(rt, serial, address, d.room, d.page)),
        Err(why) => d.wrong(rt, why),
    }
}

fn write_device(rt: &impl Print, serial: u32, address: u8, room: usize, page: Page) -> Page {
    let mut out = [FILL; FULL];
    let w = answers::write_found(serial, address, lent(&mut out, room));
    say::written(rt, page, w, &out)
}

pub(crate) fn write_end(rt: &impl Print, room: usize, page: Page) -> Page {
    let mut out = [FILL; FULL];
    let w = answers::write_end(lent(&mut out, room));
    say::written(rt, page, w, &out)
}
