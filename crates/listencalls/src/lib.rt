// Listening to an exchange, for C.
#![tactic(auto)]

ghost use Rattle.std.specs.Prelude.{◌≡◌, length};
ghost use Rattle.exchange.specs.View.{Judges};
ghost use Rattle.listening.specs.Listening.{fresh, has_answered, fed, closing, closing_state};
ghost use Rattle.boundary.specs.ForC.{judged_for_c};

use boundary::{MoorJudged, judged_for_c};
use listening::{Fed, Listening};

// The answer as the judge gives it, and the state afterwards.
#[repr(C)]
#[derive(Clone, Copy)]
pub struct MoorClosed {
    pub judged: MoorJudged,
    pub state: Listening,
}

// Nothing was heard: listening starts here.
#[unsafe(no_mangle)]
pub extern "C" fn moor_listen() -> Listening
    ensures { result ≡ fresh }
{
    listening::listen()
}

// Feeds a run to a state: the state then, and how many bytes were used.
#[unsafe(no_mangle)]
pub extern "C" fn moor_feed(state: Listening, run: &[u8]) -> Fed
    ensures { result ≡ fed state run.now }
{
    feeding::feed(state, run)
}

// Whether the answer is known, so that no more bytes are used.
#[unsafe(no_mangle)]
pub extern "C" fn moor_has_answered(state: Listening) -> bool
    ensures { result ≡ has_answered state }
{
    listening::has_answered(state)
}

// Closes a state, into buffers of at least 22, 18 and 18 bytes.
#[unsafe(no_mangle)]
pub extern "C" fn moor_close(
    state: Listening,
    command: &mut [u8],
    reply_1: &mut [u8],
    reply_2: &mut [u8],
) -> MoorClosed
    ensures judges { Judges judged_for_c (closing state (length command.old) (length reply_1.old) (length reply_2.old)) result.judged command.old command.new reply_1.old reply_1.new reply_2.old reply_2.new }
    ensures state_value { result.state ≡ closing_state state (length command.old) (length reply_1.old) (length reply_2.old) }
{
    let closed = closing::close(state, command, reply_1, reply_2);
    let answer = closed.answer;
    let after = closed.state;
    MoorClosed {
        judged: judged_for_c(answer),
        state: after,
    }
}
