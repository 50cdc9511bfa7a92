// Telegrams, read from a run at a position. One reader serves commands and replies.
//
// A telegram is its head, which ends with LEN, then LEN data bytes and the check byte. A command's
// head is SRC DST PB SB LEN, a reply's is LEN alone.
//
// The reader stores nothing: it says how far a telegram reaches. Who wants its bytes takes them from
// the run afterwards (`escapes::put_logical`), so that a refusal has written nothing, and no copy
// waits for bytes that were stored just before.
#![tactic(auto)]

ghost use Rattle.std.specs.Prelude.{◌≡◌, true, false, ◌+◌, ◌≤◌, List, [], ℕ, length};
ghost use Rattle.telegram.specs.Telegram.{command_head, head_of, last_of, check_right, field_at, fault_of, collected, telegram_at};
ghost use Rattle.telegram.specs.View.{extent_of, telegram_of};
ghost use Rattle.telegram.specs.Inner.{field_of, why_of};

use addresses::{is_initiator, is_reserved};
use checkbyte::ebus_check;
use escapes::{logical_at, put_logical};
use refusal::{DESTINATION_WRONG, LENGTH_OVER, Refusal, SOURCE_WRONG, refused};

// How many bytes a command's head has, and a reply's: those through LEN.
pub const COMMAND_HEAD: usize = 5;

pub const REPLY_HEAD: usize = 1;

// The largest LEN.
pub const LONGEST: usize = 16;

// The most bytes that a command has, and a reply.
pub const COMMAND_ROOM: usize = 22;

pub const REPLY_ROOM: usize = 18;

// The fields of a telegram that are judged, and all other bytes.
#[derive(Clone, Copy)]
enum Field {
    Source,
    Destination,
    Length,
    Other,
}

// How far a telegram was read: how many bytes, the last of them, its place, and the position behind
// it.
#[derive(Clone, Copy)]
pub struct Extent {
    pub len: usize,
    pub value: u8,
    pub last: usize,
    pub next: usize,
}

// A telegram by value: the first len of its bytes, the place of the last of them, and the position
// behind it.
#[derive(Clone, Copy)]
pub struct Telegram {
    pub bytes: [u8; COMMAND_ROOM],
    pub len: usize,
    pub last: usize,
    pub next: usize,
}

// Whether the last byte of a telegram is the check byte of those before it.
#[tactic(auto, unfolding(crate::specs::Telegram::check_right))]
pub fn check_right(telegram: &[u8]) -> bool
    ensures { result ≡ check_right telegram.now }
{
    if telegram.len() == 0 {
        return false;
    }
    let n = telegram.len() - 1;
    ebus_check(&telegram[..n]) == telegram[n]
}

// How many bytes the head has.
fn head_of(command: bool) -> usize
    ensures { result ≡ head_of command }
{
    if command {
        return COMMAND_HEAD;
    }
    REPLY_HEAD
}

// Which field the byte at a place of a telegram is.
#[tactic(auto, unfolding(crate::specs::Telegram::field_at))]
fn field_at(command: bool, place: usize) -> Field
    ensures { field_of result ≡ field_at command place }
{
    if command {
        if place == 0 {
            return Field::Source;
        }
        if place == 1 {
            return Field::Destination;
        }
        if place == COMMAND_HEAD - 1 {
            return Field::Length;
        }
        return Field::Other;
    }
    if place == REPLY_HEAD - 1 {
        return Field::Length;
    }
    Field::Other
}

// What is wrong with the byte of a field, as its number; 0 is nothing.
#[tactic(auto, unfolding(crate::specs::Telegram::fault_of))]
fn fault_of(field: Field, b: u8) -> u8
    ensures { result ≡ fault_of (field_of field) b }
{
    match field {
        Field::Source => { if is_initiator(b) { 0 } else { SOURCE_WRONG } }
        Field::Destination => { if is_reserved(b) { DESTINATION_WRONG } else { 0 } }
        Field::Length => {
            if b as usize <= LONGEST {
                0
            } else {
                LENGTH_OVER
            }
        }
        Field::Other => 0,
    }
}

// What is wrong with the byte at a place. Behind the head nothing is judged, so that its place need
// not be looked at.
#[tactic(auto, using(crate::proofs::HeadJudged::no_fault_behind))]
fn fault_at(in_head: bool, command: bool, place: usize, b: u8) -> u8
    requires { in_head ≡ false → head_of command ≤ place }
    ensures { result ≡ fault_of (field_at command place) b }
{
    if in_head {
        return fault_of(field_at(command, place), b);
    }
    0
}

// Why there is no logical byte; of a byte, nothing.
fn why_of(x: Result<(u8, usize), Refusal>) -> Refusal
    ensures { result ≡ why_of x }
{
    match x {
        Ok((_, _)) => Refusal {
            number: 0,
            place: 0,
        },
        Err(why) => why,
    }
}

// n bytes more, behind those read so far.
fn collect(
    run: &[u8],
    command: bool,
    in_head: bool,
    n: usize,
    from: Extent,
) -> Result<Extent, Refusal>
    requires n_bound { from.len + n ≤ command_head + 256 }
    requires command_bound { in_head ≡ false → head_of command ≤ from.len }
    ensures { (so_far : List ℕ) → length so_far ≡ from.len → last_of so_far ≡ from.value → result ≡ extent_of (collected command run.now n so_far from.last from.next) }
{
    let len = from.len + n;
    let mut value = from.value;
    let mut last = from.last;
    let mut at = from.next;
    for place in from.len..len {
        // Each logical byte is taken apart here, by `let else`: its refusal is returned at once.
        let x = logical_at(run, at);
        let Ok((b, next)) = x else {
            return Err(why_of(x));
        };
        let fault = fault_at(in_head, command, place, b);
        if fault != 0 {
            return refused(fault, at);
        }
        value = b;
        last = at;
        at = next;
    }
    Ok(Extent {
        len,
        value,
        last,
        next: at,
    })
}

// The head of the telegram at a position: the bytes through LEN.
fn head_at(run: &[u8], command: bool, at: usize) -> Result<Extent, Refusal>
    ensures { result ≡ extent_of (collected command run.now (head_of command) [] at at) }
{
    let nothing = Extent {
        len: 0,
        value: 0,
        last: at,
        next: at,
    };
    collect(run, command, true, head_of(command), nothing)
}

// The command, or else the reply, at a position of the run: how far it reaches, through the check
// byte, or the first refusal that is met.
pub fn extent_at(run: &[u8], command: bool, at: usize) -> Result<Extent, Refusal>
    ensures { result ≡ extent_of (telegram_at command run.now at) }
{
    let head = head_at(run, command, at)?;
    let payload = head.value as usize;
    collect(run, command, false, payload + 1, head)
}

// The same with its bytes, by value. Behind them stand zeros.
pub fn telegram_at(run: &[u8], command: bool, at: usize) -> Result<Telegram, Refusal>
    ensures { result ≡ telegram_of (telegram_at command run.now at) }
{
    let t = extent_at(run, command, at)?;
    let mut bytes = [0u8; COMMAND_ROOM];
    put_logical(run, at, t.len, &mut bytes);
    Ok(Telegram {
        bytes,
        len: t.len,
        last: t.last,
        next: t.next,
    })
}
