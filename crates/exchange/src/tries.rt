// One attempt at a command or a reply, or two where the first was NACKed (rule E14).
//
// A refusal is returned as soon as it is met. Nothing is stored: the attempts say where they end, and
// their bytes are taken from the run once the exchange is accepted.
ghost use Rattle.std.specs.Prelude.{◌≡◌, ℕ};
ghost use Rattle.escapes.specs.Logical.{logicals_at};
ghost use Rattle.checkbyte.specs.BitByBit.{EbusTables};
ghost use Rattle.attempts.specs.Attempt.{attempt_at};
ghost use Rattle.attempts.specs.View.{Ready};
ghost use Rattle.exchange.specs.Exchange.{nacked_twice, on_second, tries_at};
ghost use Rattle.exchange.specs.Inner.{tries_of, TriesReady};

use attempts::attempt_at;
use refusal::{COMMAND_NACKED, REPLY_NACKED, Refusal, refused};

// How many attempts there were until one was taken.
#[derive(Clone, Copy)]
pub(crate) enum Tried {
    Once,
    Twice,
}

// One attempt or two: how many bytes they have, where the second starts, and the position behind the
// last.
#[derive(Clone, Copy)]
pub(crate) struct Tries {
    pub len1: usize,
    pub second: usize,
    pub len2: usize,
    pub next: usize,
    pub tried: Tried,
}

// The number of a second NACK.
fn nacked_twice(command: bool) -> u8
    ensures { result ≡ nacked_twice command }
{
    if command {
        return COMMAND_NACKED;
    }
    REPLY_NACKED
}

// The second attempt, behind a first one of so many bytes that was NACKed.
fn second_try(
    run: &[u8],
    tables: &[u8; 512],
    command: bool,
    len: usize,
    at: usize,
) -> Result<Tries, Refusal>
    requires { EbusTables tables.now }
    ensures tries_value { (start : ℕ) → tries_of result run.now start ≡ on_second command (logicals_at run.now len start) (attempt_at command run.now at) }
    ensures ready { (start : ℕ) → Ready command run.now start len → TriesReady command run.now start result }
{
    let a = attempt_at(run, tables, command, at);
    let ended = a.ended?;
    if !ended.taken {
        return refused(nacked_twice(command), a.next - 1);
    }
    Ok(Tries {
        len1: len,
        second: at,
        len2: ended.len,
        next: a.next,
        tried: Tried::Twice,
    })
}

// One attempt at a command or reply, or two where the first was NACKed.
pub(crate) fn tries_at(
    run: &[u8],
    tables: &[u8; 512],
    command: bool,
    at: usize,
) -> Result<Tries, Refusal>
    requires { EbusTables tables.now }
    ensures at_value { tries_of result run.now at ≡ tries_at command run.now at }
    ensures ready { TriesReady command run.now at result }
{
    let a = attempt_at(run, tables, command, at);
    let ended = a.ended?;
    if !ended.taken {
        return second_try(run, tables, command, ended.len, a.next);
    }
    Ok(Tries {
        len1: ended.len,
        second: 0,
        len2: 0,
        next: a.next,
        tried: Tried::Once,
    })
}
