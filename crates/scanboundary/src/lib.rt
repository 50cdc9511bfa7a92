// The answers on scan frames and devices as structs that C can take, and how the answers of the crates
// below become them.
//
// In an answer of a call that can refuse the number is 0 where the call was accepted, and else rule
// N1's number with the place beside it; the other values are then 0.
#![tactic(auto)]

ghost use Rattle.std.specs.Prelude.{◌≡◌, ◌-◌};
ghost use Rattle.scanboundary.specs.ForC.{response_for_c, decided_for_c, request_for_c, answer_for_c, found_by, scanned_for_c};

use answers::AnswerRead;
use arbitration::Decided;
use boundary::{MoorWritten, refused_for_c, written_for_c};
use devices::Scanned;
use refusal::Refusal;
use requests::Request;

// The numbers of requests and answers, and of a scan's end.
pub const START: u8 = 1;

pub const CONTINUE: u8 = 2;

const FOUND: u8 = 3;

const END: u8 = 4;

const COMPLETE: u8 = 1;

const NOBODY: u8 = 2;

const UNFINISHED: u8 = 3;

// A request that was read: start or continue.
#[repr(C)]
#[derive(Clone, Copy)]
pub struct MoorRequestRead {
    pub number: u8,
    pub request: u8,
    pub place: usize,
}

// An answer that was read: a device found with serial and address, or the end, and how many FF were
// passed over.
#[repr(C)]
#[derive(Clone, Copy)]
pub struct MoorAnswerRead {
    pub number: u8,
    pub answer: u8,
    pub address: u8,
    pub serial: u32,
    pub place: usize,
    pub skipped: usize,
}

// The key that remains, and how many windows were dominant.
#[repr(C)]
#[derive(Clone, Copy)]
pub struct MoorDecided {
    pub key: u32,
    pub dominant: usize,
}

// A whole scan: how it ended, the requests sent, how many devices were heard, and how many FF stood
// before its answers.
#[repr(C)]
#[derive(Clone, Copy)]
pub struct MoorScanned {
    pub number: u8,
    pub end: u8,
    pub place: usize,
    pub requests: usize,
    pub found: usize,
    pub skipped: usize,
}

pub fn response_for_c(x: Result<Option<usize>, Refusal>) -> MoorWritten
    ensures { result ≡ response_for_c x }
{
    match x {
        Ok(Some(length)) => written_for_c(Ok(length)),
        Ok(None) => written_for_c(Ok(0)),
        Err(why) => refused_for_c(why),
    }
}

fn asked(request: u8) -> MoorRequestRead
    ensures { result ≡ record { number = 0; request = request; place = 0 } }
{
    MoorRequestRead {
        number: 0,
        request,
        place: 0,
    }
}

pub fn request_for_c(x: Result<Request, Refusal>) -> MoorRequestRead
    ensures { result ≡ request_for_c x }
{
    match x {
        Ok(Request::Start) => asked(START),
        Ok(Request::Continue) => asked(CONTINUE),
        Err(why) => MoorRequestRead {
            number: why.number,
            request: 0,
            place: why.place,
        },
    }
}

// An answer that was accepted.
fn accepted(answer: u8, address: u8, serial: u32, skipped: usize) -> MoorAnswerRead
    ensures { result ≡ record { number = 0; answer = answer; address = address; serial = serial; place = 0; skipped = skipped } }
{
    MoorAnswerRead {
        number: 0,
        answer,
        address,
        serial,
        place: 0,
        skipped,
    }
}

pub fn answer_for_c(x: Result<AnswerRead, Refusal>) -> MoorAnswerRead
    ensures { result ≡ answer_for_c x }
{
    match x {
        Ok(
            AnswerRead::Found {
                skipped,
                serial,
                address,
            },
        ) => accepted(FOUND, address, serial, skipped),
        Ok(AnswerRead::End { skipped }) => accepted(END, 0, 0, skipped),
        Err(why) => MoorAnswerRead {
            number: why.number,
            answer: 0,
            address: 0,
            serial: 0,
            place: why.place,
            skipped: 0,
        },
    }
}

pub fn decided_for_c(x: Decided) -> MoorDecided
    ensures { result ≡ decided_for_c x }
{
    MoorDecided {
        key: x.key,
        dominant: x.dominant,
    }
}

fn scan_ended(end: u8, requests: usize, found: usize, skipped: usize) -> MoorScanned
    ensures { result ≡ record { number = 0; end = end; place = 0; requests = requests; found = found; skipped = skipped } }
{
    MoorScanned {
        number: 0,
        end,
        place: 0,
        requests,
        found,
        skipped,
    }
}

// One less, for the request that found no device.
fn one_less(requests: usize) -> usize
    ensures { result ≡ requests - 1 }
{
    if requests == 0 {
        return 0;
    }
    requests - 1
}

// Every request of a scan found a device but for the one that ended it, so the answer tells how many
// were heard.
pub fn scanned_for_c(x: Result<Scanned, Refusal>) -> MoorScanned
    ensures { result ≡ scanned_for_c x (found_by x) }
{
    match x {
        Ok(Scanned::Complete { requests, skipped }) => {
            scan_ended(COMPLETE, requests, one_less(requests), skipped)
        }
        Ok(Scanned::Nobody { requests, skipped }) => {
            scan_ended(NOBODY, requests, one_less(requests), skipped)
        }
        Ok(Scanned::Unfinished { requests, skipped }) => {
            scan_ended(UNFINISHED, requests, requests, skipped)
        }
        Err(why) => MoorScanned {
            number: why.number,
            end: 0,
            place: why.place,
            requests: 0,
            found: 0,
            skipped: 0,
        },
    }
}
