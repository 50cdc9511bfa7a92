// Railbus packets, read and written.
//
// Rules R1 to R4. A packet is text: RP, the address, a letter, the register, for four of the seven
// letters 32 bits of data, and a checksum, numbers in upper-case hex. The reader takes any bytes and
// any length; what it refuses, it refuses by number and place. The writer writes the whole packet or
// nothing, and leaves the bytes behind it.
#![tactic(auto)]

mod hex;

ghost use Rattle.std.specs.Prelude.{◌≡◌, not, ◌&&◌, ◌||◌, ◌++◌, ◌+◌, ◌-◌, ◌≤◌, eqb, leb, length, take, drop};
ghost use mathlib.Mathlib.Logic.Function.Defs.{id};
ghost use Rattle.refusal.specs.Output.{bytes, fitting, Wrote};
ghost use Rattle.crc7.specs.Check.{examined, checksum};
ghost use Rattle.railbus.specs.Hex.{digits, spelled};
ghost use Rattle.railbus.specs.Layout.{is_short, is_long, length_for, letter_of, check_digits};
ghost use Rattle.railbus.specs.Reading.{data_of, short_for, long_for, message_for, no_digit_from, found_in, read_packet};
ghost use Rattle.railbus.specs.Writing.{write_packet};

use crc7::{EXAMINED, checksum};
use hex::{digit, no_digit, pair_at, word_at};
use refusal::{
    DIGIT_WRONG, FRAME_CHECK, FRAME_HEAD, FRAME_LENGTH, OUTPUT_SHORT, Refusal, SUBCOMMAND_WRONG,
    refused,
};

// The mark that a packet begins with.
const MARK_FIRST: u8 = 0x52;

const MARK_SECOND: u8 = 0x50;

// The letters: R, S, N, and W, K, I, n.
pub const READ_REQUEST: u8 = 0x52;

pub const SYNC: u8 = 0x53;

pub const NOT_ACKNOWLEDGE: u8 = 0x4E;

pub const WRITE_REQUEST: u8 = 0x57;

pub const READ_ACKNOWLEDGE: u8 = 0x4B;

pub const WRITE_ACKNOWLEDGE: u8 = 0x49;

pub const SPECIAL: u8 = 0x6E;

// How long a packet is: one without data, and one with.
pub const SHORT_LENGTH: usize = 9;

pub const LONG_LENGTH: usize = 17;

// The checksum is taken from here on, over the mark too.
const CHECKED_FROM: usize = 0;

// What a packet says that carries no data: R, S, N.
#[derive(Clone, Copy)]
pub enum Short {
    ReadRequest,
    Sync,
    NotAcknowledge,
}

// What a packet says that carries data: W, K, I, n.
#[derive(Clone, Copy)]
pub enum Long {
    WriteRequest,
    ReadAcknowledge,
    WriteAcknowledge,
    Special,
}

// What a packet says, with its data where it has any.
#[derive(Clone, Copy)]
pub enum Message {
    Bare(Short),
    With(Long, u32),
}

#[derive(Clone, Copy)]
pub struct Packet {
    pub address: u8,
    pub register: u8,
    pub message: Message,
}

// ---- reading

// Whether the letter is one of the three without data.
fn is_short(letter: u8) -> bool
    ensures { result ≡ is_short letter }
{
    if letter == READ_REQUEST {
        return true;
    }
    if letter == SYNC {
        return true;
    }
    letter == NOT_ACKNOWLEDGE
}

// Whether it is one of the four with data.
fn is_long(letter: u8) -> bool
    ensures { result ≡ is_long letter }
{
    if letter == WRITE_REQUEST {
        return true;
    }
    if letter == READ_ACKNOWLEDGE {
        return true;
    }
    if letter == WRITE_ACKNOWLEDGE {
        return true;
    }
    letter == SPECIAL
}

// Whether it is one of the seven.
pub fn is_letter(letter: u8) -> bool
    ensures { result ≡ (is_short letter || is_long letter) }
{
    if is_short(letter) {
        return true;
    }
    is_long(letter)
}

// How long a packet with this letter is.
fn length_for(letter: u8) -> usize
    ensures { result ≡ length_for letter }
{
    if is_short(letter) {
        return SHORT_LENGTH;
    }
    LONG_LENGTH
}

fn short_for(letter: u8) -> Short
    ensures { result ≡ short_for letter }
{
    match letter {
        READ_REQUEST => Short::ReadRequest,
        SYNC => Short::Sync,
        _ => Short::NotAcknowledge,
    }
}

fn long_for(letter: u8) -> Long
    ensures { result ≡ long_for letter }
{
    match letter {
        WRITE_REQUEST => Long::WriteRequest,
        READ_ACKNOWLEDGE => Long::ReadAcknowledge,
        WRITE_ACKNOWLEDGE => Long::WriteAcknowledge,
        _ => Long::Special,
    }
}

// What a packet with this letter says, with this data where it carries any. A letter that is none of the
// seven is taken for an n.
pub fn message_for(letter: u8, value: u32) -> Message
    ensures { result ≡ message_for letter value }
{
    if is_short(letter) {
        return Message::Bare(short_for(letter));
    }
    Message::With(long_for(letter), value)
}

// The data that a packet carries; 0 where it carries none.
pub fn value_of(message: Message) -> u32
    ensures { result ≡ data_of message }
{
    match message {
        Message::Bare(_) => 0,
        Message::With(_, value) => value,
    }
}

// What a packet says whose letter, length and digits are right.
fn message_of(letter: u8, input: &[u8]) -> Message
    requires { (length input.now ≡ length_for letter) × (length input.now ≤ no_digit_from 0 input.now) }
    ensures { result ≡ message_for letter (spelled (take (length input.now - 9) (drop 7 input.now))) }
{
    if is_short(letter) {
        return message_for(letter, 0);
    }
    message_for(letter, word_at(input, 7))
}

// Whether a checksum is examined and is not that of the characters before this place.
fn check_fails(sent: u8, input: &[u8], place: usize) -> bool
    requires { (2 ≤ place) × (place ≤ length input.now) }
    ensures { result ≡ (leb examined sent && not (eqb sent (checksum (take place input.now)))) }
{
    if sent < EXAMINED {
        return false;
    }
    sent != checksum(&input[CHECKED_FROM..place])
}

// What a packet says whose mark, letter and length are right: its digits are asked first, then its
// checksum.
fn found_in(letter: u8, input: &[u8]) -> Result<(Packet, bool), Refusal>
    requires { length input.now ≡ length_for letter }
    ensures { result ≡ found_in input.now (take 4 input.now) letter (take (length input.now - 7) (drop 5 input.now)) }
{
    let wrong = no_digit(input);
    if wrong < input.len() {
        return refused(DIGIT_WRONG, wrong);
    }
    let place = input.len() - 2;
    let sent = pair_at(input, place);
    if check_fails(sent, input, place) {
        return refused(FRAME_CHECK, place);
    }
    let packet = Packet {
        address: pair_at(input, 2),
        register: pair_at(input, 5),
        message: message_of(letter, input),
    };
    Ok((packet, sent >= EXAMINED))
}

// What a packet says, and whether its checksum was examined. It must fill the whole input; nothing is
// passed over.
pub fn read_packet(input: &[u8]) -> Result<(Packet, bool), Refusal>
    ensures { result ≡ read_packet input.now }
{
    if input.len() < SHORT_LENGTH {
        return refused(FRAME_LENGTH, 0);
    }
    if input[0] != MARK_FIRST {
        return refused(FRAME_HEAD, 0);
    }
    if input[1] != MARK_SECOND {
        return refused(FRAME_HEAD, 1);
    }
    let letter = input[4];
    if !is_letter(letter) {
        return refused(SUBCOMMAND_WRONG, 4);
    }
    if input.len() != length_for(letter) {
        return refused(FRAME_LENGTH, 0);
    }
    found_in(letter, input)
}

// ---- writing

// The letter of a packet.
pub fn letter_of(message: Message) -> u8
    ensures { result ≡ letter_of message }
{
    match message {
        Message::Bare(short) => match short {
            Short::ReadRequest => READ_REQUEST,
            Short::Sync => SYNC,
            Short::NotAcknowledge => NOT_ACKNOWLEDGE,
        },
        Message::With(long, _) => match long {
            Long::WriteRequest => WRITE_REQUEST,
            Long::ReadAcknowledge => READ_ACKNOWLEDGE,
            Long::WriteAcknowledge => WRITE_ACKNOWLEDGE,
            Long::Special => SPECIAL,
        },
    }
}

// Writes the characters and their checksum behind them, at the start of the output, where both fit.
fn write_checked(characters: &[u8], out: &mut [u8]) -> Result<usize, Refusal>
    ensures { Wrote id (fitting (length out.old) (bytes (characters.now ++ check_digits characters.now))) result out.old out.new }
{
    let size = characters.len();
    let room = out.len();
    if room < 2 {
        return refused(OUTPUT_SHORT, 0);
    }
    if room - 2 < size {
        return refused(OUTPUT_SHORT, 0);
    }
    let sum = checksum(characters);
    lists::put(characters, out);
    out[size] = digit(sum / 16);
    out[size + 1] = digit(sum % 16);
    Ok(size + 2)
}

// Writes a packet with its checksum, the top bit set.
pub fn write_packet(packet: Packet, out: &mut [u8]) -> Result<usize, Refusal>
    ensures { Wrote id (write_packet packet (length out.old)) result out.old out.new }
{
    let message = packet.message;
    let head = [
        MARK_FIRST,
        MARK_SECOND,
        digit(packet.address / 16),
        digit(packet.address % 16),
        letter_of(message),
        digit(packet.register / 16),
        digit(packet.register % 16),
    ];
    match message {
        Message::Bare(_) => write_checked(&head, out),
        Message::With(_, value) => write_long(head, value, out),
    }
}

// .. whose first characters are these, and then the data.
fn write_long(head: [u8; 7], value: u32, out: &mut [u8]) -> Result<usize, Refusal>
    ensures { Wrote id (fitting (length out.old) (bytes ((head ++ digits 8 value) ++ check_digits (head ++ digits 8 value)))) result out.old out.new }
{
    let characters = [
        head[0],
        head[1],
        head[2],
        head[3],
        head[4],
        head[5],
        head[6],
        digit((value / 0x1000_0000) as u8),
        digit((value / 0x100_0000 % 16) as u8),
        digit((value / 0x10_0000 % 16) as u8),
        digit((value / 0x1_0000 % 16) as u8),
        digit((value / 0x1000 % 16) as u8),
        digit((value / 0x100 % 16) as u8),
        digit((value / 0x10 % 16) as u8),
        digit((value % 16) as u8),
    ];
    write_checked(&characters, out)
}
