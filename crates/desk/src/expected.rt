// What a check should have been and what stood there, worked out again from the bytes that were
// refused.
use crate::hex::digit_at;
use crate::part::start_of;
use crate::say::{Page, two};
use crate::texts::Text;
use crate::{say, texts, word};
use beginning::command_start;
use checkbyte::ebus_check;
use crc::modbus_check;
use crc7::checksum;
use lists::byte_at;
use refusal::{CHECK_WRONG, FRAME_CHECK, Refusal};
use telegram::{Telegram, telegram_at};

// The acknowledge byte behind which an exchange goes on with its reply.
const ACK: u8 = 0x00;

// What stands before the answer to a request on Fast Modbus.
const FILL_BYTE: u8 = 0xFF;

// An exchange has at most two attempts at its command and two at its reply.
const MOST_TELEGRAMS: u8 = 4;

// The check that is due and the one that was found.
#[derive(Clone, Copy)]
pub struct Checked {
    pub expected: u8,
    pub found: u8,
}

// ---- eBUS

// The check byte of an exchange whose first raw byte stands at this place of the run, if one does. Its
// telegrams are read in order, as the judge does: behind a NACK the same is read once more.
pub fn check_of(run: &[u8], place: usize) -> Option<Checked> {
    let mut at = command_start(run);
    let mut command = true;
    for _ in 0..MOST_TELEGRAMS {
        let t = telegram_at(run, command, at).ok()?;
        if t.last == place {
            return last_of(t);
        }
        if byte_at(run, t.next) == ACK {
            command = false;
        }
        at = t.next.saturating_add(1);
    }
    None
}

// The check byte of a telegram is its last, over those before it.
fn last_of(t: Telegram) -> Option<Checked> {
    let bytes = t.bytes;
    let (found, before) = start_of(&bytes, t.len).split_last()?;
    Some(Checked {
        expected: ebus_check(before),
        found: *found,
    })
}

// A refusal of what was heard on eBUS. `before` bytes were heard before the run, and the place
// counts them.
pub fn refused_run(rt: &impl Print, page: Page, why: Refusal, run: &[u8], before: usize) -> Page {
    if why.number != CHECK_WRONG {
        return say::refused(rt, page, why);
    }
    if why.place < before {
        return say::refused(rt, page, why);
    }
    say_checked(rt, page, why, check_of(run, why.place - before))
}

// ---- Fast Modbus

// The check of a frame, low byte first. The FF before an answer are not part of it, and no frame
// begins with one.
pub fn refused_frame(rt: &impl Print, page: Page, why: Refusal, input: &[u8]) -> Page {
    if why.number != FRAME_CHECK {
        return say::refused(rt, page, why);
    }
    let place = why.place;
    let fill = input.iter().take_while(|b| **b == FILL_BYTE).count();
    let value = modbus_check(word::part(input, fill, place)) as u64;
    let named = say::refused_for(rt, page, why);
    let due = texts::filled(rt, named, Text::ExpectedPair, two(value, value / 256));
    let low = byte_at(input, place) as u64;
    let high = byte_at(input, place.saturating_add(1)) as u64;
    let said = texts::filled(rt, due, Text::FoundPair, two(low, high));
    texts::plain(rt, said, Text::RefusedEnd)
}

// ---- Railbus

// The checksum of a packet, as the two digits stand for it.
pub fn refused_packet(rt: &impl Print, page: Page, why: Refusal, input: &[u8]) -> Page {
    if why.number != FRAME_CHECK {
        return say::refused(rt, page, why);
    }
    let place = why.place;
    let high = digit_at(input, place).unwrap_or(0);
    let low = digit_at(input, place.saturating_add(1)).unwrap_or(0);
    let checked = Checked {
        expected: checksum(start_of(input, place)),
        found: high * 16 + low,
    };
    say_checked(rt, page, why, Some(checked))
}

// ---- saying it

// A refusal, and in its brackets what was expected and found, where that is known.
fn say_checked(rt: &impl Print, page: Page, why: Refusal, checked: Option<Checked>) -> Page {
    let Some(checked) = checked else {
        return say::refused(rt, page, why);
    };
    let named = say::refused_for(rt, page, why);
    let bytes = two(checked.expected as u64, checked.found as u64);
    let said = texts::filled(rt, named, Text::Expected, bytes);
    texts::plain(rt, said, Text::RefusedEnd)
}
