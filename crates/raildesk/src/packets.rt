// Railbus packets, read and written.
use desk::expected::refused_packet;
use desk::fault::{Fault, Wrong};
use desk::number::{eight_digits, one_byte};
use desk::part::{lent, start_of};
use desk::say::{Page, three};
use desk::state::{Desk, FILL, FULL};
use desk::texts::Text;
use desk::{say, texts, word};
use railbus::{Message, Packet};

pub(crate) fn read(rt: &impl Print, input: &[u8], page: Page) -> Page {
    match railbus::read_packet(input) {
        Ok((packet, examined)) => say_packet(rt, packet, examined, page),
        Err(why) => refused_packet(rt, page, why, input),
    }
}

fn say_packet(rt: &impl Print, packet: Packet, examined: bool, page: Page) -> Page {
    let message = packet.message;
    let letter = say::byte(rt, page, railbus::letter_of(message));
    let value = railbus::value_of(message);
    let numbers = three(packet.address as u64, packet.register as u64, value as u64);
    let said = texts::filled(rt, letter, text_of(message), numbers);
    if examined {
        return texts::plain(rt, said, Text::Checked);
    }
    texts::plain(rt, said, Text::Unchecked)
}

fn text_of(message: Message) -> Text {
    match message {
        Message::Bare(_) => Text::Packet,
        Message::With(_, _) => Text::PacketWith,
    }
}

// ---- writing: the letter, the address, the register, and the data where the letter has any

// The next word from `at` on, which is a letter.
fn letter_at(line: &[u8], at: usize) -> Result<(u8, usize), Fault> {
    let w = word::due(line, at)?;
    match word::part(line, w.from, w.to) {
        [letter] if railbus::is_letter(*letter) => Ok((*letter, w.to)),
        _ => Err(Wrong::NotLetter.at(w.from)),
    }
}

// What a packet with this letter says, with its data where it has any.
fn message_at(line: &[u8], at: usize, letter: u8) -> Result<(Message, usize), Fault> {
    match railbus::message_for(letter, 0) {
        Message::Bare(short) => Ok((Message::Bare(short), at)),
        Message::With(long, _) => {
            let (value, next) = eight_digits(line, at)?;
            Ok((Message::With(long, value), next))
        }
    }
}

fn packet_at(line: &[u8], at: usize) -> Result<Packet, Fault> {
    let (letter, address_at) = letter_at(line, at)?;
    let (address, register_at) = one_byte(line, address_at)?;
    let (register, data_at) = one_byte(line, register_at)?;
    let (message, end) = message_at(line, data_at, letter)?;
    word::nothing_more(line, end)?;
    Ok(Packet {
        address,
        register,
        message,
    })
}

pub(crate) fn write(rt: &impl Print, line: &[u8], at: usize, d: Desk) -> Desk {
    match packet_at(line, at) {
        Ok(packet) => d.with_page(write_packet(rt, packet, d.room, d.page)),
        Err(why) => d.wrong(rt, why),
    }
}

fn write_packet(rt: &impl Print, packet: Packet, room: usize, page: Page) -> Page {
    let mut out = [FILL; FULL];
    match railbus::write_packet(packet, lent(&mut out, room)) {
        Ok(n) => say::spelled(rt, page, Text::Written, start_of(&out, n)),
        Err(why) => say::refused(rt, page, why),
    }
}
