// One decision: an attempt of which all the bytes that are there are looked at at once, or SYN, and
// what it makes of the marks and of what is kept.
ghost use Rattle.std.specs.Prelude.{◌≡◌, Bool, false, List, ◌++◌, ℕ, ◌+◌, ◌≤◌, ◌<◌, max, length, take, drop};
ghost use Rattle.lists.specs.Starting.{starting};
ghost use Rattle.refusal.specs.Number.{run_ended};
ghost use Rattle.escapes.specs.Logical.{logicals_at};
ghost use Rattle.addresses.specs.Address.{kind_of};
ghost use Rattle.checkbyte.specs.BitByBit.{EbusTables};
ghost use Rattle.attempts.specs.Attempt.{failed};
ghost use Rattle.attempts.specs.View.{Ready};
ghost use Rattle.exchange.specs.Exchange.{limit, nacked_twice};
ghost use Rattle.listening.specs.Listening.{hand_room, due_behind, on_taken, on_nacked, on_syn};
ghost use Rattle.feeding.specs.Inner.{state_of, command_due, fed_of, Ends, step_by, thrown_by, begins_anew, unless_thrown, tries_on, turn_on};

use crate::marks::{Marks, answers};
use addresses::{ExchangeKind, kind};
use attempts::attempt_at;
use beginning::passed_over;
use escapes::{ESC, SYN};
use listening::{
    FIRST_COMMAND, FIRST_PLACE, FIRST_REPLY, KEPT_ROOM, SECOND_COMMAND, SECOND_PLACE, SECOND_REPLY,
    SYN_DUE,
};
use refusal::{BUS_ERROR, COMMAND_NACKED, REPLY_NACKED, RUN_ENDED, Refusal};

// What a decision makes of the marks, and how many bytes it used; or it is open, and all are in hand.
#[derive(Clone, Copy)]
pub(crate) struct Step {
    pub marks: Marks,
    pub used: usize,
    pub open: bool,
}

// What is due behind a command to this destination: only initiator/target has a reply.
fn due_behind(destination: u8) -> u8
    ensures { result ≡ due_behind (kind_of destination) }
{
    let k = kind(destination);
    match k {
        ExchangeKind::Broadcast => SYN_DUE,
        ExchangeKind::InitiatorInitiator => SYN_DUE,
        ExchangeKind::InitiatorTarget => FIRST_REPLY,
    }
}

// Puts an attempt's logical bytes at the start of an output with room for them. Nothing is looked at
// but A9, since all else was judged before. `exchange` has its own, since a public one could not ask
// that they were judged.
fn copy_logical(run: &[u8], len: usize, out: &mut [u8])
    requires { ((command : Bool) × Ready command run.now 0 len) × (len ≤ length out.old) }
    ensures { out.new ≡ starting (logicals_at run.now len 0) out.old }
{
    let mut next = 0;
    for i in 0..len {
        let byte = run[next];
        if byte == ESC {
            out[i] = ESC + run[next + 1];
            next += 2;
        } else {
            out[i] = byte;
            next += 1;
        }
    }
}

// .. and into what is kept, at a place.
fn keep(run: &[u8], len: usize, at: usize, kept: &mut [u8])
    requires { ((command : Bool) × Ready command run.now 0 len) × (at + len ≤ length kept.old) }
    ensures { kept.new ≡ take at kept.old ++ starting (logicals_at run.now len 0) (drop at kept.old) }
{
    copy_logical(run, len, &mut kept[at..]);
}

// An attempt of so many logical bytes was taken, and n raw bytes are used: it is kept. A command's
// second attempt is one more than its first.
fn on_taken(mut m: Marks, n: usize, run: &[u8], len: usize, kept: &mut [u8; KEPT_ROOM]) -> Marks
    requires { (m.start + n ≤ limit) × Ready (command_due m) run.now 0 len }
    ensures { state_of result kept.new ≡ on_taken (state_of m kept.old) n (logicals_at run.now len 0) }
{
    m.start += n;
    if m.due < FIRST_REPLY {
        keep(run, len, 0, kept);
        m.command_attempts = m.due + 1;
        m.command_length = len as u8;
        m.due = due_behind(kept[1]);
        return m;
    }
    if m.due == FIRST_REPLY {
        keep(run, len, FIRST_PLACE, kept);
        m.reply_attempts = 1;
        m.reply_1_length = len as u8;
        m.due = SYN_DUE;
        return m;
    }
    keep(run, len, SECOND_PLACE, kept);
    m.reply_attempts = 2;
    m.reply_2_length = len as u8;
    m.due = SYN_DUE;
    m
}

// The number of a second NACK.
fn nacked_twice(command: bool) -> u8
    ensures { result ≡ nacked_twice command }
{
    if command {
        return COMMAND_NACKED;
    }
    REPLY_NACKED
}

// An attempt was NACKed, by the byte at a place of the n that are used: the first of a command is
// forgotten, and the first of a reply is kept.
fn on_nacked(
    mut m: Marks,
    n: usize,
    run: &[u8],
    len: usize,
    place: usize,
    kept: &mut [u8; KEPT_ROOM],
) -> Marks
    requires { (m.start + n ≤ limit) × (place ≤ n) × Ready (command_due m) run.now 0 len }
    ensures { state_of result kept.new ≡ on_nacked (state_of m kept.old) n (logicals_at run.now len 0) place }
{
    let start = m.start + n;
    if m.due == FIRST_COMMAND {
        m.start = start;
        m.due = SECOND_COMMAND;
        return m;
    }
    if m.due == FIRST_REPLY {
        keep(run, len, FIRST_PLACE, kept);
        m.start = start;
        m.reply_attempts = 0;
        m.reply_1_length = len as u8;
        m.due = SECOND_REPLY;
        return m;
    }
    answers(m, start, nacked_twice(m.due < FIRST_REPLY), m.start + place)
}

// How many bytes are thrown away behind so many in hand: SYN does so as long as SRC or DST of the
// first command is not whole.
fn thrown_away(due: u8, bytes: &[u8], held: usize) -> usize
    requires { held ≤ length bytes.now }
    ensures { result ≡ thrown_by due bytes.now held }
{
    if due == FIRST_COMMAND {
        return passed_over(&bytes[..held], &bytes[held..]);
    }
    0
}

// The bytes in hand and so many behind them are thrown away: nothing is in hand, and what was due is
// due behind them.
fn begin_anew(mut m: Marks, held: usize, thrown: usize) -> Step
    requires { m.start + (held + thrown) ≤ limit }
    ensures { ((kept c : List ℕ) → fed_of result c kept ≡ begins_anew (state_of m kept) (held + thrown)) × (result.open ≡ false) }
{
    let passed = held + thrown;
    m.start += passed;
    Step {
        marks: m,
        used: passed,
        open: false,
    }
}

// An attempt that failed: by the end of its bytes, which are then all in hand; by a SYN that throws
// away what is in hand, and with it all that the next ones throw away, so that idle time is walked
// over in one loop; or for a reason that n of them tell, whose place counts from the recording's
// start. That SYN is looked for here alone, so that a command pays nothing for it.
fn on_failed(m: Marks, bytes: &[u8], held: usize, n: usize, why: Refusal) -> Step
    requires { (m.start + length bytes.now ≤ limit) × (why.place ≤ length bytes.now) × (why.number ≡ run_ended → length bytes.now ≤ hand_room) × ((why.number ≡ run_ended → ⊥) → n ≤ length bytes.now) × (held ≤ length bytes.now) × (why.number ≡ run_ended → thrown_by m.due bytes.now held ≡ 0) }
    ensures { ((kept : List ℕ) → fed_of result bytes.now kept ≡ unless_thrown (state_of m kept) bytes.now held (step_by (state_of m kept) bytes.now n (failed why))) × Ends result bytes.now }
{
    if why.number == RUN_ENDED {
        return Step {
            marks: m,
            used: bytes.len(),
            open: true,
        };
    }
    let thrown = thrown_away(m.due, bytes, held);
    if thrown != 0 {
        return begin_anew(m, held, thrown);
    }
    Step {
        marks: answers(m, m.start + n, why.number, m.start + why.place),
        used: n,
        open: false,
    }
}

// An attempt on all the bytes that are there, of which so many were in hand: those through the one
// that decides it are used, at least one behind those in hand, and all where none does.
fn decide(
    m: Marks,
    bytes: &[u8],
    held: usize,
    tables: &[u8; 512],
    kept: &mut [u8; KEPT_ROOM],
) -> Step
    requires { EbusTables tables.now × (held < length bytes.now) × (m.start + length bytes.now ≤ limit) }
    ensures kept_after { fed_of result bytes.now kept.new ≡ tries_on (state_of m kept.old) bytes.now held }
    ensures ends { Ends result bytes.now }
{
    let a = attempt_at(bytes, tables, m.due < FIRST_REPLY, 0);
    let n = (held + 1).max(a.next);
    match a.ended {
        Ok(ended) => {
            if ended.taken {
                return Step {
                    marks: on_taken(m, n, bytes, ended.len, kept),
                    used: n,
                    open: false,
                };
            }
            Step {
                marks: on_nacked(m, n, bytes, ended.len, a.next - 1, kept),
                used: n,
                open: false,
            }
        }
        Err(why) => on_failed(m, bytes, held, n, why),
    }
}

// SYN is due: any other byte is a bus error, at its own place.
fn on_syn(m: Marks, byte: u8) -> Marks
    requires { m.start < limit }
    ensures { (kept : List ℕ) → state_of result kept ≡ on_syn (state_of m kept) byte }
{
    if byte == SYN {
        return answers(m, m.start + 1, 0, 0);
    }
    answers(m, m.start + 1, BUS_ERROR, m.start)
}

// One decision, or all the bytes in hand: of those that are there so many were in hand before.
pub(crate) fn turn(
    m: Marks,
    bytes: &[u8],
    held: usize,
    tables: &[u8; 512],
    kept: &mut [u8; KEPT_ROOM],
) -> Step
    requires { EbusTables tables.now × (held < length bytes.now) × (m.start + length bytes.now ≤ limit) }
    ensures kept_after { fed_of result bytes.now kept.new ≡ turn_on (state_of m kept.old) bytes.now held }
    ensures ends { Ends result bytes.now }
{
    if SYN_DUE <= m.due {
        return Step {
            marks: on_syn(m, bytes[0]),
            used: 1,
            open: false,
        };
    }
    decide(m, bytes, held, tables, kept)
}
