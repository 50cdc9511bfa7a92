// The answers of writers and of eBUS as structs that C can take, and how the answers of the crates below
// become them; a telegram and a part of a reply are made in `telegramcalls`.
//
// In an answer of a call that can refuse the number is 0 where the call was accepted, and else rule
// N1's number with the place beside it; the other values are then 0.
#![tactic(auto)]

ghost use Rattle.std.specs.Prelude.{◌≡◌};
ghost use Rattle.addresses.specs.Address.{kind_number};
ghost use Rattle.boundary.specs.ForC.{written_for_c, logical_for_c, judged_for_c};

use addresses::ExchangeKind;
use exchange::judge::Accepted;
use refusal::Refusal;

// The numbers of the kinds.
const BROADCAST: u8 = 1;

const INITIATOR_INITIATOR: u8 = 2;

const INITIATOR_TARGET: u8 = 3;

// What a call that writes gives: the length of what it wrote.
#[repr(C)]
#[derive(Clone, Copy)]
pub struct MoorWritten {
    pub number: u8,
    pub place: usize,
    pub length: usize,
}

// A logical byte, and the position behind it.
#[repr(C)]
#[derive(Clone, Copy)]
pub struct MoorLogical {
    pub number: u8,
    pub byte: u8,
    pub place: usize,
    pub next: usize,
}

// A telegram: the first bytes, as many as length says, the place of the last one, and the position
// behind it.
#[repr(C)]
#[derive(Clone, Copy)]
pub struct MoorTelegram {
    pub number: u8,
    pub place: usize,
    pub length: usize,
    pub last: usize,
    pub next: usize,
    pub bytes: [u8; 22],
}

// A judged exchange: kind, attempts at command and reply, and raw bytes read.
#[repr(C)]
#[derive(Clone, Copy)]
pub struct MoorJudged {
    pub number: u8,
    pub kind: u8,
    pub command_attempts: u8,
    pub reply_attempts: u8,
    pub place: usize,
    pub read: usize,
}

// Where a reply's data stands: so many bytes from a start in the buffer of attempt 1 or 2.
#[repr(C)]
#[derive(Clone, Copy)]
pub struct MoorPart {
    pub attempt: u8,
    pub start: usize,
    pub length: usize,
}

// Nothing was written, for this reason.
pub fn refused_for_c(why: Refusal) -> MoorWritten
    ensures { result ≡ record { number = why.number; place = why.place; length = 0 } }
{
    MoorWritten {
        number: why.number,
        place: why.place,
        length: 0,
    }
}

pub fn written_for_c(x: Result<usize, Refusal>) -> MoorWritten
    ensures { result ≡ written_for_c x }
{
    match x {
        Ok(length) => MoorWritten {
            number: 0,
            place: 0,
            length,
        },
        Err(why) => refused_for_c(why),
    }
}

pub fn logical_for_c(x: Result<(u8, usize), Refusal>) -> MoorLogical
    ensures { result ≡ logical_for_c x }
{
    match x {
        Ok((byte, next)) => MoorLogical {
            number: 0,
            byte,
            place: 0,
            next,
        },
        Err(why) => MoorLogical {
            number: why.number,
            byte: 0,
            place: why.place,
            next: 0,
        },
    }
}

pub fn kind_number(x: ExchangeKind) -> u8
    ensures { result ≡ kind_number x }
{
    match x {
        ExchangeKind::Broadcast => BROADCAST,
        ExchangeKind::InitiatorInitiator => INITIATOR_INITIATOR,
        ExchangeKind::InitiatorTarget => INITIATOR_TARGET,
    }
}

pub fn judged_for_c(x: Result<Accepted, Refusal>) -> MoorJudged
    ensures { result ≡ judged_for_c x }
{
    match x {
        Ok(accepted) => MoorJudged {
            number: 0,
            kind: kind_number(accepted.kind),
            command_attempts: accepted.command_attempts,
            reply_attempts: accepted.reply_attempts,
            place: 0,
            read: accepted.read,
        },
        Err(why) => MoorJudged {
            number: why.number,
            kind: 0,
            command_attempts: 0,
            reply_attempts: 0,
            place: why.place,
            read: 0,
        },
    }
}
