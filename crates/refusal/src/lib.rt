// What a call answers when it refuses: rule N1's number and the place of the raw byte named.
//
// The constants read like the table of numbers in docs/RULES.md. Each crate above
// takes its numbers from here, so a new number is a new line here and changes no `match`.
#![tactic(auto)]

ghost use Rattle.std.specs.Prelude.{◌≡◌, Err};
ghost use Rattle.refusal.specs.Number.{at_place};

// What was lent for output has too little room.
pub const OUTPUT_SHORT: u8 = 1;
// The device table is not valid.
pub const TABLE_NOT_VALID: u8 = 2;
// The run is over before the exchange, or an escape, is whole.
pub const RUN_ENDED: u8 = 3;
// The byte after A9 is none of 00, 01, AA.
pub const ESCAPE_WRONG: u8 = 4;
// SYN came too early.
pub const SYN_EARLY: u8 = 5;
// SRC is no initiator address.
pub const SOURCE_WRONG: u8 = 6;
// DST is A9 or AA.
pub const DESTINATION_WRONG: u8 = 7;
// LEN is over 16.
pub const LENGTH_OVER: u8 = 8;
// An attempt was accepted, and its check byte is wrong.
pub const CHECK_WRONG: u8 = 9;
// The command was NACKed twice.
pub const COMMAND_NACKED: u8 = 10;
// The reply was NACKed twice.
pub const REPLY_NACKED: u8 = 11;
// Bus error: an acknowledge byte that is none of 00, FF, AA, or not AA where SYN is due.
pub const BUS_ERROR: u8 = 12;
// A frame's length does not fit.
pub const FRAME_LENGTH: u8 = 13;
// A frame does not begin as it must.
pub const FRAME_HEAD: u8 = 14;
// A reader was given a subcommand of others.
pub const SUBCOMMAND_WRONG: u8 = 15;
// A frame's check does not fit its bytes.
pub const FRAME_CHECK: u8 = 16;
// A serial has more than 28 bits.
pub const SERIAL_OVER: u8 = 17;
// A device's event queue is full.
pub const QUEUE_FULL: u8 = 18;
// More than 32 FF stand before an answer.
pub const FILL_OVER: u8 = 19;
// No hex digit stands where one is due.
pub const DIGIT_WRONG: u8 = 26;

// A refusal: the number, and the offset of the raw byte named, 0 where none is named. The number is a
// byte and no enum, since `devices::ask` and `polls::ask` hand on any number that a caller's refusal has.
#[derive(Clone, Copy, PartialEq, Eq)]
pub struct Refusal {
    pub place: usize,
    pub number: u8,
}

// What a call answers that refuses, whatever it gives where it accepts.
pub fn refused<T>(number: u8, place: usize) -> Result<T, Refusal>
    ensures { result ≡ Err (at_place number place) }
{
    Err(Refusal { number, place })
}
