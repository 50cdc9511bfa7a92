// Bytes as they arrive: an exchange is judged while its bytes come in, run after run (rules E19 to E21).
//
// A state holds the raw bytes of the attempt in hand. Each run is looked at behind them, an attempt at
// once as far as its bytes are there; what is cut off stays in hand. So nothing is judged byte by byte,
// and yet the answer is that of one byte after the other.
//
// This crate has the state and the definitions; `feeding` feeds it and `closing` closes it.
#![tactic(auto)]

ghost use Rattle.std.specs.Prelude.{◌≡◌, ◌+◌, min};
ghost use Rattle.exchange.specs.Exchange.{limit};
ghost use Rattle.listening.specs.Listening.{hand_room, fresh, has_answered};

use exchange::judge::LIMIT;

// What is due next: an attempt at the command or at the reply, SYN, and then nothing.
pub const FIRST_COMMAND: u8 = 0;

pub const SECOND_COMMAND: u8 = 1;

pub const FIRST_REPLY: u8 = 2;

pub const SECOND_REPLY: u8 = 3;

pub const SYN_DUE: u8 = 4;

pub const NOTHING_DUE: u8 = 5;

// Room for the raw bytes of an attempt: 22 that take two each, and its acknowledge byte, and one more,
// with which a state has 128 bytes and none that is in no field, so that it is copied sixteen at a time.
pub const HAND_ROOM: usize = 46;

// Where the replies are kept behind the command, and room for all three.
pub const FIRST_PLACE: usize = 22;

pub const SECOND_PLACE: usize = 40;

pub const KEPT_ROOM: usize = 58;

// A state of listening, by value: where in the recording what is in hand starts; the place and number
// of the answer, once it is known; what is due next; how many raw bytes are in hand; the attempts; and
// how many bytes of `kept` the accepted command has, and each attempt at the reply.
#[repr(C)]
#[derive(Clone, Copy)]
pub struct Listening {
    pub start: usize,
    pub place: usize,
    pub due: u8,
    pub number: u8,
    pub held: u8,
    pub command_attempts: u8,
    pub reply_attempts: u8,
    pub command_length: u8,
    pub reply_1_length: u8,
    pub reply_2_length: u8,
    pub raw: [u8; HAND_ROOM],
    pub kept: [u8; KEPT_ROOM],
}

// What a run made of a state, and how many of its bytes were used.
#[repr(C)]
#[derive(Clone, Copy)]
pub struct Fed {
    pub state: Listening,
    pub used: usize,
}

// How many raw bytes are in hand, of a state that says so many.
pub fn hand_length(held: u8) -> usize
    ensures { result ≡ min held hand_room }
{
    let n = held as usize;
    if n < HAND_ROOM {
        return n;
    }
    HAND_ROOM
}

// How many bytes of the recording were used, of a state that starts there and says so many in hand.
pub fn heard(start: usize, held: u8) -> usize
    ensures { result ≡ min limit (start + min held hand_room) }
{
    if LIMIT <= start {
        return LIMIT;
    }
    let n = start + hand_length(held);
    if n < LIMIT {
        return n;
    }
    LIMIT
}

// Nothing was heard: listening starts here.
pub fn listen() -> Listening
    ensures { result ≡ fresh }
{
    Listening {
        start: 0,
        place: 0,
        due: FIRST_COMMAND,
        number: 0,
        held: 0,
        command_attempts: 0,
        reply_attempts: 0,
        command_length: 0,
        reply_1_length: 0,
        reply_2_length: 0,
        raw: [0u8; HAND_ROOM],
        kept: [0u8; KEPT_ROOM],
    }
}

// Whether the answer is known, so that no more bytes are used.
pub fn has_answered(state: Listening) -> bool
    ensures { result ≡ has_answered state }
{
    NOTHING_DUE <= state.due
}
