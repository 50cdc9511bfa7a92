// The judge: a recorded exchange is accepted exactly when the rules accept it (E12 to E16, E20 and E21).
//
// The run is read twice: first to judge it, with nothing stored, and once it is accepted to put the
// telegrams' bytes into the three buffers. So a refusal leaves them as they were.
ghost use Rattle.std.specs.Prelude.{◌≡◌, true, false, List, [], ℕ, ◌≤◌, min, length, Ok};
ghost use mathlib.Mathlib.Logic.Function.Defs.{id};
ghost use Rattle.refusal.specs.Number.{output_short, at_place};
ghost use Rattle.escapes.specs.Logical.{logicals_at};
ghost use Rattle.addresses.specs.Address.{kind_of};
ghost use Rattle.checkbyte.specs.BitByBit.{EbusTables};
ghost use Rattle.telegram.specs.Telegram.{reply_room};
ghost use Rattle.attempts.specs.View.{Ready};
ghost use Rattle.exchange.specs.Exchange.{syn_at, rejected, on_end, on_reply, on_kind, tries_at, exchange_at, limit, rooms, judged};
ghost use Rattle.exchange.specs.View.{answered, Judges};
ghost use Rattle.exchange.specs.Inner.{replies_of, RepliesReady};

use crate::tries::{Tried, tries_at};
use crate::wire::copy_logical;
use addresses::{ExchangeKind, kind};
use beginning::command_start;
use checkbyte::ebus_tables;
use escapes::SYN;
use refusal::{BUS_ERROR, OUTPUT_SHORT, RUN_ENDED, Refusal, refused};
use telegram::{COMMAND_ROOM, REPLY_ROOM};

// The most raw bytes that are read of a recording, at once or as they arrive.
pub const LIMIT: usize = 0x80000000;

// What an accepted exchange is: its kind, the attempts at command and reply, and the raw bytes read,
// SYN included.
#[derive(Clone, Copy, PartialEq, Eq)]
pub struct Accepted {
    pub kind: ExchangeKind,
    pub command_attempts: u8,
    pub reply_attempts: u8,
    pub read: usize,
}

// Behind an accepted command: how many bytes the attempts at the reply have, where the second starts,
// and what the exchange is.
#[derive(Clone, Copy)]
struct Replies {
    pub len1: usize,
    pub second: usize,
    pub len2: usize,
    pub accepted: Accepted,
}

// SYN is due at this position: the verdict on an exchange that is whole but for it.
#[tactic(auto, unfolding(crate::specs::Exchange::syn_at))]
fn verdict_at(
    run: &[u8],
    kind: ExchangeKind,
    command_attempts: u8,
    reply_attempts: u8,
    at: usize,
) -> Result<Accepted, Refusal>
    ensures { result ≡ answered (on_end kind command_attempts reply_attempts [] [] [] (syn_at run.now at)) }
{
    if run.len() <= at {
        return refused(RUN_ENDED, run.len());
    }
    if run[at] == SYN {
        return Ok(Accepted {
            kind,
            command_attempts,
            reply_attempts,
            read: at + 1,
        });
    }
    refused(BUS_ERROR, at)
}

// Behind a command that needs no reply.
fn without_reply(
    run: &[u8],
    kind: ExchangeKind,
    commands: u8,
    at: usize,
) -> Result<Replies, Refusal>
    ensures outcome { (command : List ℕ) → replies_of result run.now at command ≡ on_end kind commands 0 command [] [] (syn_at run.now at) }
    ensures ready { RepliesReady run.now at result }
{
    let accepted = verdict_at(run, kind, commands, 0, at)?;
    Ok(Replies {
        len1: 0,
        second: 0,
        len2: 0,
        accepted,
    })
}

// Behind a command whose reply is due: the attempts at it.
fn with_reply(run: &[u8], tables: &[u8; 512], commands: u8, at: usize) -> Result<Replies, Refusal>
    requires { EbusTables tables.now }
    ensures outcome { (command : List ℕ) → replies_of result run.now at command ≡ on_reply commands command run.now (tries_at false run.now at) }
    ensures ready { RepliesReady run.now at result }
{
    let t = tries_at(run, tables, false, at)?;
    let replies = match t.tried {
        Tried::Once => 1,
        Tried::Twice => 2,
    };
    let accepted = verdict_at(
        run,
        ExchangeKind::InitiatorTarget,
        commands,
        replies,
        t.next,
    )?;
    Ok(Replies {
        len1: t.len1,
        second: t.second,
        len2: t.len2,
        accepted,
    })
}

// Behind an accepted command, by its destination.
fn after_command(
    run: &[u8],
    tables: &[u8; 512],
    commands: u8,
    destination: u8,
    at: usize,
) -> Result<Replies, Refusal>
    requires { EbusTables tables.now }
    ensures outcome { (command : List ℕ) → replies_of result run.now at command ≡ on_kind commands command run.now at (kind_of destination) }
    ensures ready { RepliesReady run.now at result }
{
    let k = kind(destination);
    match k {
        ExchangeKind::Broadcast => without_reply(run, ExchangeKind::Broadcast, commands, at),
        ExchangeKind::InitiatorInitiator => {
            without_reply(run, ExchangeKind::InitiatorInitiator, commands, at)
        }
        ExchangeKind::InitiatorTarget => with_reply(run, tables, commands, at),
    }
}

// An exchange is accepted: its bytes fill the three buffers.
fn finish(
    run: &[u8],
    start: usize,
    len: usize,
    at: usize,
    e: Replies,
    command: &mut [u8],
    reply_1: &mut [u8],
    reply_2: &mut [u8],
) -> Accepted
    requires { Ready true run.now start len × Ready false run.now at e.len1 × Ready false run.now e.second e.len2 × (len ≤ length command.old) × (reply_room ≤ length reply_1.old) × (reply_room ≤ length reply_2.old) }
    ensures { Judges id (replies_of (Ok e) run.now at (logicals_at run.now len start)) (Ok result) command.old command.new reply_1.old reply_1.new reply_2.old reply_2.new }
{
    copy_logical(run, start, len, command);
    copy_logical(run, at, e.len1, reply_1);
    copy_logical(run, e.second, e.len2, reply_2);
    e.accepted
}

// Whether buffers of these lengths have the room that is asked of them.
#[tactic(auto, unfolding(crate::specs::Exchange::rooms))]
pub fn have_room(command: usize, first: usize, second: usize) -> bool
    ensures { result ≡ rooms command first second }
{
    command >= COMMAND_ROOM && first >= REPLY_ROOM && second >= REPLY_ROOM
}

// Judges the exchange whose command starts at a position, into buffers that have room. Neither SRC
// nor DST is ever escaped, so that DST is the command's second raw byte. The tables of the check are
// taken here, once for all attempts.
fn judge_at(
    run: &[u8],
    at: usize,
    command: &mut [u8],
    reply_1: &mut [u8],
    reply_2: &mut [u8],
) -> Result<Accepted, Refusal>
    requires { rooms (length command.old) (length reply_1.old) (length reply_2.old) ≡ true }
    ensures { Judges id (exchange_at run.now at) result command.old command.new reply_1.old reply_1.new reply_2.old reply_2.new }
{
    let tables = ebus_tables();
    let t = tries_at(run, &tables, true, at)?;
    match t.tried {
        Tried::Once => {
            let e = after_command(run, &tables, 1, run[at + 1], t.next)?;
            Ok(finish(run, at, t.len1, t.next, e, command, reply_1, reply_2))
        }
        Tried::Twice => {
            let second = t.second;
            let e = after_command(run, &tables, 2, run[second + 1], t.next)?;
            Ok(finish(run, second, t.len2, t.next, e, command, reply_1, reply_2))
        }
    }
}

// How many bytes of a run are read.
fn read_of(n: usize) -> usize
    ensures { result ≡ min n limit }
{
    if n < LIMIT {
        return n;
    }
    LIMIT
}

// Judges a recorded run, whose command starts behind what a SYN threw away, if any did: accepted with
// kind, attempts and raw bytes read, or refused with its number and place. The buffers hold at least 22, 18 and 18 bytes, else number 1.
// At most 2^31 bytes are read, as if the run ended there. On success the command buffer starts with
// the accepted command, the reply buffers with the attempts that happened, and all other bytes stay;
// on a refusal all three keep their bytes.
pub fn judge(
    run: &[u8],
    command: &mut [u8],
    reply_1: &mut [u8],
    reply_2: &mut [u8],
) -> Result<Accepted, Refusal>
    ensures { Judges id (judged run.now (length command.old) (length reply_1.old) (length reply_2.old)) result command.old command.new reply_1.old reply_1.new reply_2.old reply_2.new }
{
    if !have_room(command.len(), reply_1.len(), reply_2.len()) {
        return refused(OUTPUT_SHORT, 0);
    }
    let n = read_of(run.len());
    let read = &run[..n];
    judge_at(read, command_start(read), command, reply_1, reply_2)
}
