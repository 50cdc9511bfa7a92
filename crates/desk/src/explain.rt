// What a number means, and where the place of its refusal points, in two or three lines.
use crate::fault::Wrong;
use crate::number::last_number;
use crate::say::{Page, one};
use crate::state::Desk;
use crate::texts::Text;
use crate::{names, say, texts, word};

pub fn explain(rt: &impl Print, line: &[u8], at: usize, d: Desk) -> Desk {
    match last_number(line, at, u64::MAX) {
        Ok(number) => match meaning(number) {
            Some(text) => d.with_page(say_meaning(rt, d.page, number, text)),
            None => meaningless(rt, line, at, d),
        },
        Err(why) if why.what == Wrong::TooLarge => meaningless(rt, line, at, d),
        Err(why) => d.wrong(rt, why),
    }
}

// The next word from `at` on is a number, and means nothing.
fn meaningless(rt: &impl Print, line: &[u8], at: usize, d: Desk) -> Desk {
    let w = word::next(line, at);
    d.wrong_at(rt, Wrong::NoMeaning, w.from)
}

fn say_meaning(rt: &impl Print, page: Page, number: u64, text: &str) -> Page {
    let a = texts::filled(rt, page, Text::Explained, one(number));
    let b = names::name(rt, a, (number % 256) as u8);
    say::put(rt, say::byte(rt, b, b'\n'), text.as_bytes())
}

fn meaning(number: u64) -> Option<&'static str> {
    match number {
        1 => Some(
            "  What was lent for the output has too little room. It is left as it was.\n  The place is 0: no byte is named.\n",
        ),
        2 => Some(
            "  The device table breaks a rule, or with events its queues do, or the registers and\n  access bytes of a relay. The commands table and queues say which rule and where.\n  The place is 0: no byte is named.\n",
        ),
        3 => Some(
            "  The bytes end before the exchange does, or behind an A9 that begins an escape.\n  The place is the number of bytes that there are.\n",
        ),
        4 => Some(
            "  On eBUS A9 begins an escape, and 00 or 01 must follow it. Another byte did.\n  The place is that of the byte behind A9.\n",
        ),
        5 => Some(
            "  A raw AA, the SYN of eBUS, stands where another byte was due.\n  The place is that of the AA.\n",
        ),
        6 => Some(
            "  SRC, the first byte of a command, is no initiator address: each of its two digits\n  has to be 0, 1, 3, 7 or F.\n  The place is that of SRC, its first raw byte, and 0 where a command is written.\n",
        ),
        7 => Some(
            "  DST, the second byte of a command, is A9 or AA. Nobody has such an address.\n  The place is that of DST, its first raw byte, and 0 where a command is written.\n",
        ),
        8 => Some(
            "  A telegram has, or its LEN promises, more than 16 data bytes.\n  The place is that of LEN, its first raw byte, and 0 where a telegram is written.\n",
        ),
        9 => Some(
            "  A telegram was taken, acknowledged by 00 or sent to all, and its check byte does\n  not fit the bytes before it.\n  The place is that of the check byte, its first raw byte.\n",
        ),
        10 => Some(
            "  The command was sent twice, and both times answered by FF, a NACK.\n  The place is that of the second FF.\n",
        ),
        11 => Some(
            "  The reply was sent twice, and both times answered by FF, a NACK.\n  The place is that of the second FF.\n",
        ),
        12 => Some(
            "  Where an acknowledge byte was due stands none of 00, FF and AA; or all was\n  exchanged, and the byte behind it is not AA, the SYN that ends it.\n  The place is that of this byte.\n",
        ),
        13 => Some(
            "  A frame or packet is too short or too long, or does not have the length that it says;\n  or a new event has over 8 data bytes, or a device id that no device has.\n  The place is 0: no byte is named.\n",
        ),
        14 => Some(
            "  A frame does not begin as it must: with FD 46, or with a device's id and 46 where\n  events are read, or as a Railbus packet with RP.\n  The place is that of the first wrong byte.\n",
        ),
        15 => Some(
            "  A subcommand, or a Railbus letter, that is not taken here.\n  The place is that of the subcommand or letter.\n",
        ),
        16 => Some(
            "  The check at the end of a frame or packet does not fit the bytes before it.\n  The place is that of the check's first byte.\n",
        ),
        17 => Some(
            "  A serial is over 0FFFFFFF, so it has more than 28 bits.\n  The place is that of the serial's first byte, and 0 where an answer is written.\n",
        ),
        18 => Some(
            "  The device has 8 events queued, and no queue holds more.\n  The place is 0: no byte is named.\n",
        ),
        19 => Some(
            "  More than 32 FF stand before an answer. No contest puts so many there.\n  The place is 32, that of the 33rd FF.\n",
        ),
        26 => Some(
            "  A Railbus packet has another character where a digit is due, one of 0 to 9 and\n  A to F in upper case.\n  The place is that of this character.\n",
        ),
        _ => None,
    }
}
