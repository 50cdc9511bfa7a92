// Escapes on the wire: A9 goes out as A9 00 and AA as A9 01; a raw AA is always SYN.
//
// Rules E3 to E5. `logical_at` is the one reader that judges escapes, and what is above it reads
// logical bytes. Where they were judged already, the judge's copy of them looks at A9 alone
// (`exchange::wire::copy_logical`).
#![tactic(auto)]

ghost use Rattle.std.specs.Prelude.{◌≡◌, ◌+◌, ◌≤◌, length, take};
ghost use mathlib.Mathlib.Logic.Function.Defs.{id};
ghost use Rattle.lists.specs.Starting.{starting};
ghost use Rattle.refusal.specs.Output.{bytes, fitting, Wrote, written};
ghost use Rattle.escapes.specs.Escape.{expanded};
ghost use Rattle.escapes.specs.Logical.{escape_at, logical_at, logicals_at};
ghost use Rattle.escapes.specs.Undo.{undone};

use refusal::{ESCAPE_WRONG, OUTPUT_SHORT, RUN_ENDED, Refusal, SYN_EARLY, refused};

// The byte that begins an escape, and SYN, which is never escaped.
pub const ESC: u8 = 0xA9;

pub const SYN: u8 = 0xAA;

// The second half of an escape, at its own place. It is added to A9, since nobody can foretell which
// of the two it is, and a branch between them would be guessed wrong.
fn escape_at(run: &[u8], second: usize) -> Result<(u8, usize), Refusal>
    ensures { result ≡ escape_at run.now second }
{
    if run.len() <= second {
        return refused(RUN_ENDED, run.len());
    }
    let half = run[second];
    if half <= 1 {
        return Ok((ESC + half, second + 1));
    }
    if half == SYN {
        return refused(SYN_EARLY, second);
    }
    refused(ESCAPE_WRONG, second)
}

// The logical byte at a position of the run, or 3, 4 or 5 as met (rule E4).
pub fn logical_at(run: &[u8], at: usize) -> Result<(u8, usize), Refusal>
    ensures { result ≡ logical_at run.now at }
{
    let end = run.len();
    if end <= at {
        return refused(RUN_ENDED, end);
    }
    match run[at] {
        ESC => escape_at(run, at + 1),
        SYN => refused(SYN_EARLY, at),
        byte => Ok((byte, at + 1)),
    }
}

// How many logical bytes the raw input has, or the first refusal that is met in it.
fn undone_length(raw: &[u8]) -> Result<usize, Refusal>
    ensures { result ≡ written (undone raw.now) }
{
    let mut at = 0;
    let mut n = 0;
    while at < raw.len() {
        let (_, next) = logical_at(raw, at)?;
        at = next;
        n += 1;
    }
    Ok(n)
}

// Puts n logical bytes from a position on at the start of a lent output: those before the first
// refusal, and as many as the output holds. The bytes behind them stay.
pub fn put_logical(run: &[u8], at: usize, n: usize, out: &mut [u8])
    ensures { out.new ≡ starting (take (length out.old) (logicals_at run.now n at)) out.old }
{
    let mut next = at;
    for i in 0..n.min(out.len()) {
        let Ok((value, behind)) = logical_at(run, next) else {
            return;
        };
        out[i] = value;
        next = behind;
    }
}

// Undoes the escapes of a raw input: 3, 4 or 5 as met, anywhere in the input, and only then 1 by
// exact length. The output starts with the logical bytes and keeps the rest; on a refusal it is as
// it was.
pub fn undo(raw: &[u8], out: &mut [u8]) -> Result<usize, Refusal>
    ensures { Wrote id (fitting (length out.old) (undone raw.now)) result out.old out.new }
{
    let n = undone_length(raw)?;
    if out.len() < n {
        return refused(OUTPUT_SHORT, 0);
    }
    put_logical(raw, 0, n, out);
    Ok(n)
}

// How many raw bytes the logical bytes take on the wire.
fn expanded_length(logical: &[u8]) -> usize
    ensures { result ≡ length (expanded logical.now) }
{
    let mut n = 0;
    for byte in logical {
        match *byte {
            ESC | SYN => n += 2,
            _ => n += 1,
        }
    }
    n
}

// Writes the logical bytes as they go on the wire, where the output has room for them.
fn expand_into(logical: &[u8], out: &mut [u8])
    requires { length (expanded logical.now) ≤ length out.old }
    ensures { out.new ≡ starting (expanded logical.now) out.old }
{
    let mut n = 0;
    for byte in logical {
        match *byte {
            ESC | SYN => {
                out[n] = ESC;
                out[n + 1] = *byte - ESC;
                n += 2;
            }
            _ => {
                out[n] = *byte;
                n += 1;
            }
        }
    }
}

// Writes the logical bytes as they go on the wire. Refuses only with 1, by exact length. The output
// starts with the raw bytes and keeps the rest; on a refusal it is as it was.
pub fn expand(logical: &[u8], out: &mut [u8]) -> Result<usize, Refusal>
    ensures { Wrote id (fitting (length out.old) (bytes (expanded logical.now))) result out.old out.new }
{
    let length = expanded_length(logical);
    if out.len() < length {
        return refused(OUTPUT_SHORT, 0);
    }
    expand_into(logical, out);
    Ok(length)
}
