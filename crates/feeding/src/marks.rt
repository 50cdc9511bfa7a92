// All of a state but its bytes, and the state that it makes with them.
ghost use Rattle.std.specs.Prelude.{◌≡◌};
ghost use Rattle.feeding.specs.Inner.{marks_of, state_with, answers_on};

use listening::{HAND_ROOM, KEPT_ROOM, Listening, NOTHING_DUE};

// The numbers of a state with nothing in hand.
#[derive(Clone, Copy)]
pub(crate) struct Marks {
    pub start: usize,
    pub place: usize,
    pub due: u8,
    pub number: u8,
    pub command_attempts: u8,
    pub reply_attempts: u8,
    pub command_length: u8,
    pub reply_1_length: u8,
    pub reply_2_length: u8,
}

// Those of a state, from a start in the recording.
pub(crate) fn marks_of(state: Listening, start: usize) -> Marks
    ensures { result ≡ marks_of state start }
{
    Marks {
        start,
        place: state.place,
        due: state.due,
        number: state.number,
        command_attempts: state.command_attempts,
        reply_attempts: state.reply_attempts,
        command_length: state.command_length,
        reply_1_length: state.reply_1_length,
        reply_2_length: state.reply_2_length,
    }
}

// The answer is known: a number and its place in the recording, or 0 and 0.
pub(crate) fn answers(mut m: Marks, start: usize, number: u8, place: usize) -> Marks
    ensures { result ≡ answers_on m start number place }
{
    m.start = start;
    m.place = place;
    m.due = NOTHING_DUE;
    m.number = number;
    m
}

// The state with these bytes, of which so many are in hand.
pub(crate) fn with_marks(
    m: Marks,
    held: u8,
    raw: [u8; HAND_ROOM],
    kept: [u8; KEPT_ROOM],
) -> Listening
    ensures { result ≡ state_with m held raw kept }
{
    Listening {
        start: m.start,
        place: m.place,
        due: m.due,
        number: m.number,
        held,
        command_attempts: m.command_attempts,
        reply_attempts: m.reply_attempts,
        command_length: m.command_length,
        reply_1_length: m.reply_1_length,
        reply_2_length: m.reply_2_length,
        raw,
        kept,
    }
}
