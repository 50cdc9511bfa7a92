// Closing a state of listening: its answer, and the three buffers (rules E19 and E20).
#![tactic(auto)]

ghost use Rattle.std.specs.Prelude.{◌≡◌, true, length};
ghost use mathlib.Mathlib.Logic.Function.Defs.{id};
ghost use Rattle.refusal.specs.Number.{run_ended};
ghost use Rattle.addresses.specs.Address.{kind_of};
ghost use Rattle.telegram.specs.Telegram.{destination_of};
ghost use Rattle.exchange.specs.Exchange.{accepted, rooms};
ghost use Rattle.exchange.specs.View.{Judges};
ghost use Rattle.listening.specs.Listening.{answers, kept_command, kept_first, kept_second, closing, closing_state};

use addresses::kind;
use exchange::judge::{Accepted, have_room};
use listening::{FIRST_PLACE, HAND_ROOM, Listening, NOTHING_DUE, SECOND_PLACE, heard};
use lists::{put, smaller};
use refusal::{OUTPUT_SHORT, RUN_ENDED, Refusal, refused};
use telegram::{COMMAND_ROOM, REPLY_ROOM};

// The answer, and the state afterwards.
#[derive(Clone, Copy)]
pub struct Closed {
    pub answer: Result<Accepted, Refusal>,
    pub state: Listening,
}

// An accepted exchange, into buffers that have room: what is kept is put at their starts.
fn accept(
    state: Listening,
    command: &mut [u8],
    reply_1: &mut [u8],
    reply_2: &mut [u8],
) -> Result<Accepted, Refusal>
    requires { rooms (length command.old) (length reply_1.old) (length reply_2.old) ≡ true }
    ensures { Judges id (accepted (kind_of (destination_of state.kept)) state.command_attempts state.reply_attempts state.start (kept_command state) (kept_first state) (kept_second state)) result command.old command.new reply_1.old reply_1.new reply_2.old reply_2.new }
{
    let kept = state.kept;
    let end = smaller(state.command_length as usize, COMMAND_ROOM);
    put(&kept[..end], command);
    let first = FIRST_PLACE + smaller(state.reply_1_length as usize, REPLY_ROOM);
    put(&kept[FIRST_PLACE..first], reply_1);
    let second = SECOND_PLACE + smaller(state.reply_2_length as usize, REPLY_ROOM);
    put(&kept[SECOND_PLACE..second], reply_2);
    Ok(Accepted {
        kind: kind(kept[1]),
        command_attempts: state.command_attempts,
        reply_attempts: state.reply_attempts,
        read: state.start,
    })
}

// The recording ends here, before the answer was known: number 3 is the answer.
fn ended(mut state: Listening, end: usize) -> Listening
    ensures { result ≡ answers state end run_ended end }
{
    state.start = end;
    state.place = end;
    state.due = NOTHING_DUE;
    state.number = RUN_ENDED;
    state.held = 0;
    state.raw = [0u8; HAND_ROOM];
    state
}

// Closes a state: the recording ends with what it was fed. The answer and the three buffers are those
// of the judge on all of that; the buffers hold at least 22, 18 and 18 bytes, else number 1, which
// comes before any other refusal and keeps the state, so that it can be closed again.
pub fn close(state: Listening, command: &mut [u8], reply_1: &mut [u8], reply_2: &mut [u8]) -> Closed
    ensures judges { Judges id (closing state (length command.old) (length reply_1.old) (length reply_2.old)) result.answer command.old command.new reply_1.old reply_1.new reply_2.old reply_2.new }
    ensures state_value { result.state ≡ closing_state state (length command.old) (length reply_1.old) (length reply_2.old) }
{
    if !have_room(command.len(), reply_1.len(), reply_2.len()) {
        let answer = refused(OUTPUT_SHORT, 0);
        return Closed { answer, state };
    }
    if state.due < NOTHING_DUE {
        let end = heard(state.start, state.held);
        return Closed {
            answer: refused(RUN_ENDED, end),
            state: ended(state, end),
        };
    }
    if state.number != 0 {
        return Closed {
            answer: refused(state.number, state.place),
            state,
        };
    }
    Closed {
        answer: accept(state, command, reply_1, reply_2),
        state,
    }
}
