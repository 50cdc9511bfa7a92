// One attempt at a command or a reply, with its acknowledge byte (rules E13 and E15).
//
// A refusal is returned as soon as it is met. Nothing is stored: an attempt says where it ends, and
// its bytes are taken from the run once the exchange is accepted.
#![tactic(auto)]

ghost use Rattle.std.specs.Prelude.{◌≡◌, ℕ, ◌+◌, ◌≤◌, ◌<◌, length, get_or, true, ◌&&◌, Ok};
ghost use Rattle.refusal.specs.Number.{source_wrong, at_place};
ghost use Rattle.escapes.specs.Logical.{logicals_at};
ghost use Rattle.addresses.specs.Address.{kind_of};
ghost use Rattle.attempts.specs.Attempt.{acknowledge_at, acknowledged, on_acknowledge, to_all, settled_by, attempt_by};
ghost use Rattle.attempts.specs.Looks.{known_behind, looked_at};
ghost use Rattle.attempts.specs.declared.Ended.{Ended as EndedStruct};
ghost use Rattle.attempts.specs.View.{ended_as, attempt_of, Ready};
ghost use Rattle.attempts.specs.Inner.{ReadFrom, acknowledge_of, right_by};

use addresses::{ExchangeKind, kind};
use checkbyte::wire_check;
use escapes::{ESC, SYN};
use refusal::{BUS_ERROR, CHECK_WRONG, RUN_ENDED, Refusal, SOURCE_WRONG, SYN_EARLY, refused};
use telegram::{Extent, extent_at};

// The two acknowledge bytes.
const ACK: u8 = 0x00;

const NACK: u8 = 0xFF;

// An acknowledge byte: 00 or FF.
#[derive(Clone, Copy)]
enum Acknowledge {
    Positive,
    Negative,
}

// An attempt that was taken or NACKed, and how many bytes it has.
#[derive(Clone, Copy)]
pub struct Ended {
    pub len: usize,
    pub taken: bool,
}

// An attempt: the position behind the byte that decides it, and how it ended, or why it failed. Behind
// a taken attempt the exchange goes on; a NACK's FF is the byte before.
#[derive(Clone, Copy)]
pub struct Attempt {
    pub next: usize,
    pub ended: Result<Ended, Refusal>,
}

// The acknowledge byte at a position: one raw byte, with no escape rule. 00 goes on, only
// FF is a NACK, SYN ends the wait, and any other byte is a bus error.
#[tactic(auto, unfolding(crate::specs::Attempt::acknowledge_at))]
fn acknowledge_at(run: &[u8], at: usize) -> Result<Acknowledge, Refusal>
    ensures { acknowledge_of result at ≡ acknowledge_at run.now at }
{
    if run.len() <= at {
        return refused(RUN_ENDED, run.len());
    }
    let byte = run[at];
    if byte == ACK {
        return Ok(Acknowledge::Positive);
    }
    if byte == NACK {
        return Ok(Acknowledge::Negative);
    }
    if byte == SYN {
        return refused(SYN_EARLY, at);
    }
    refused(BUS_ERROR, at)
}

// The position behind the byte at which a telegram that can't be read is known to be one: of a field
// that is escaped its second byte, and else the byte that the refusal names.
fn known_behind(run: &[u8], number: u8, place: usize) -> usize
    requires { place ≤ length run.now × (source_wrong ≤ number → place < length run.now) }
    ensures { result ≡ known_behind run.now (at_place number place) }
{
    if number < SOURCE_WRONG {
        return place + 1;
    }
    if run[place] == ESC {
        return place + 2;
    }
    place + 1
}

// An acknowledged attempt, or a broadcast: its check byte is judged now, by the raw bytes before it,
// in which escapes are expanded already.
fn settle(run: &[u8], tables: &[u8; 512], start: usize, t: Extent) -> Result<Ended, Refusal>
    requires { ReadFrom run.now start t }
    ensures start_value { (next : ℕ) → ended_as result next run.now start ≡ settled_by (right_by tables.now run.now start) (acknowledged (logicals_at run.now t.len start) t.last next) }
    ensures length_value { (ended : EndedStruct) → result ≡ Ok ended → ended.len ≡ t.len }
{
    if wire_check(tables, &run[start..t.last]) == t.value {
        return Ok(Ended {
            len: t.len,
            taken: true,
        });
    }
    refused(CHECK_WRONG, t.last)
}

// An attempt whose acknowledge byte is due next, which decides it.
fn answered(run: &[u8], tables: &[u8; 512], start: usize, t: Extent) -> Result<Ended, Refusal>
    requires { ReadFrom run.now start t }
    ensures start_value { ended_as result (t.next + 1) run.now start ≡ settled_by (right_by tables.now run.now start) (on_acknowledge (logicals_at run.now t.len start) t.last (acknowledge_at run.now t.next)) }
    ensures length_value { (ended : EndedStruct) → result ≡ Ok ended → ended.len ≡ t.len }
{
    let byte = acknowledge_at(run, t.next)?;
    match byte {
        Acknowledge::Positive => settle(run, tables, start, t),
        Acknowledge::Negative => Ok(Ended {
            len: t.len,
            taken: false,
        }),
    }
}

// Whether no acknowledge byte follows: this is a broadcast command. Neither SRC nor DST is ever
// escaped, so that DST is the second raw byte.
fn is_unanswered(run: &[u8], command: bool, at: usize) -> bool
    requires { command ≡ true → at + 1 < length run.now }
    ensures { result ≡ (command && to_all (kind_of (get_or run.now (at + 1) 0))) }
{
    if command {
        let k = kind(run[at + 1]);
        match k {
            ExchangeKind::Broadcast => {
                return true;
            }
            ExchangeKind::InitiatorInitiator => {
                return false;
            }
            ExchangeKind::InitiatorTarget => {
                return false;
            }
        }
    }
    false
}

// The attempt at a command, or else at a reply, with its acknowledge byte, which a broadcast has not.
// The check is by lent tables: those of `checkbyte::ebus_tables` make it the eBUS check, and one
// who judges more than one attempt takes them once.
//
// The run is handed on as a part that is all of it: handed on as it came it would be copied whole
// where its two halves were stored just before, and the copy would wait for them.
#[inline]
pub fn attempt_at(run: &[u8], tables: &[u8; 512], command: bool, at: usize) -> Attempt
    ensures at_value { attempt_of result run.now at ≡ attempt_by tables.now command run.now at }
    ensures next_value { result.next ≡ looked_at command run.now at }
    ensures ready { (ended : EndedStruct) → result.ended ≡ Ok ended → Ready command run.now at ended.len }
{
    let n = run.len();
    let x = extent_at(&run[..n], command, at);
    match x {
        Ok(t) => {
            if is_unanswered(run, command, at) {
                return Attempt {
                    next: t.next,
                    ended: settle(run, tables, at, t),
                };
            }
            Attempt {
                next: t.next + 1,
                ended: answered(run, tables, at, t),
            }
        }
        Err(why) => Attempt {
            next: known_behind(run, why.number, why.place),
            ended: Err(why),
        },
    }
}
