// Feeding a run of bytes to a state of listening (rules E19 to E21).
//
// All of a state but its bytes is in hand as marks, a few numbers; what was kept lies in one array,
// and the raw bytes are put into a state at the end, where an attempt stays undecided. So a state is
// copied once, and not at every step.
#![tactic(auto)]

mod attempt;
mod marks;

ghost use Rattle.std.specs.Prelude.{◌≡◌, ◌+◌, ◌≤◌, ◌<◌, min, eqb, ltb, length, take, replicate};
ghost use Rattle.lists.specs.Choice.{pick};
ghost use Rattle.exchange.specs.Exchange.{limit};
ghost use Rattle.listening.specs.Listening.{hand_room, syn_due, in_hand_now, listened, fed};
ghost use Rattle.feeding.specs.Inner.{state_with, state_of, joined_room, joined};

use crate::attempt::turn;
use crate::marks::{Marks, marks_of, with_marks};
use checkbyte::ebus_tables;
use exchange::judge::LIMIT;
use listening::{Fed, HAND_ROOM, KEPT_ROOM, Listening, NOTHING_DUE, SYN_DUE, hand_length, heard};
use lists::{put, smaller};

// Room for the bytes in hand and some of a run: more than can stay in hand, so that an attempt which
// is still open has looked at all of the run. With 64 they are copied sixteen at a time.
const JOINED: usize = 64;

// What a run leaves: the marks, how many bytes are in hand, and how many of the run were used.
#[derive(Clone, Copy)]
struct Left {
    pub marks: Marks,
    pub held: u8,
    pub used: usize,
}

// How many bytes an attempt has in hand: where SYN is due, there is none.
fn attempt_length(due: u8, held: u8) -> usize
    ensures { result ≡ pick (ltb due syn_due) (min held hand_room) 0 }
{
    if due < SYN_DUE {
        return hand_length(held);
    }
    0
}

// The first n raw bytes, if there are any, and behind them those of a run that there is room for. All
// the raw bytes are copied, as many as are known beforehand, and the run goes over those behind.
fn join(raw: &[u8; HAND_ROOM], n: usize, run: &[u8], both: &mut [u8])
    requires { (n ≤ hand_room) × (length both.old ≡ joined_room) }
    ensures { (n ≡ 0 → ⊥) → take (min joined_room (n + length run.now)) both.new ≡ joined (take n raw.now) run.now }
{
    if n == 0 {
        return;
    }
    put(raw, both);
    put(run, &mut both[n..]);
}

// The bytes to look at: what is left of a run, or where so many are in hand, those joined with it.
fn bytes_at<'a>(held: usize, both: &'a [u8], run: &'a [u8]) -> &'a [u8]
    ensures { result.now ≡ pick (eqb held 0) run.now both.now }
{
    if held == 0 {
        return run;
    }
    both
}

// Decision after decision, with these bytes in hand before the run, and both joined. Bytes that stay
// in hand are put into `raw`.
fn fed_on<'a>(
    first: Marks,
    hand: &[u8],
    both: &'a [u8],
    run: &'a [u8],
    raw: &mut [u8; HAND_ROOM],
    kept: &mut [u8; KEPT_ROOM],
) -> Left
    requires { (length hand.now ≤ hand_room) × ((length hand.now ≡ 0 → ⊥) → first.due < syn_due) × (0 < length run.now) × (first.start + length hand.now + length run.now ≤ limit) × ((length hand.now ≡ 0 → ⊥) → both.now ≡ joined hand.now run.now) × (raw.old ≡ replicate hand_room 0) }
    ensures { record { state = state_with result.marks result.held raw.new kept.new; used = result.used } ≡ listened (in_hand_now (state_of first kept.old) hand.now) run.now }
{
    let tables = ebus_tables();
    let mut m = first;
    let mut held = hand.len();
    let mut i = 0;
    while i < run.len() {
        if NOTHING_DUE <= m.due {
            return Left {
                marks: m,
                held: 0,
                used: i,
            };
        }
        let bytes = bytes_at(held, both, &run[i..]);
        let t = turn(m, bytes, held, &tables, kept);
        m = t.marks;
        if t.open {
            put(bytes, raw);
            return Left {
                marks: m,
                held: bytes.len() as u8,
                used: run.len(),
            };
        }
        i += t.used - held;
        held = 0;
    }
    Left {
        marks: m,
        held: 0,
        used: i,
    }
}

// Feeds a run to a state, byte after byte, until the answer is known: the state that it makes, and
// how many bytes were used, which includes the one that decides. A state that has answered uses none,
// and no byte behind the last that is read of a recording is used.
pub fn feed(state: Listening, run: &[u8]) -> Fed
    ensures { result ≡ fed state run.now }
{
    let end = heard(state.start, state.held);
    let n = smaller(LIMIT - end, run.len());
    if n == 0 {
        return Fed { state, used: 0 };
    }
    if NOTHING_DUE <= state.due {
        return Fed { state, used: 0 };
    }
    let hand = attempt_length(state.due, state.held);
    let old = state.raw;
    let mut kept = state.kept;
    let mut both = [0u8; JOINED];
    join(&old, hand, &run[..n], &mut both);
    let joined = smaller(JOINED, hand + n);
    let mut raw = [0u8; HAND_ROOM];
    let left = fed_on(
        marks_of(state, end - hand),
        &old[..hand],
        &both[..joined],
        &run[..n],
        &mut raw,
        &mut kept,
    );
    Fed {
        state: with_marks(left.marks, left.held, raw, kept),
        used: left.used,
    }
}
