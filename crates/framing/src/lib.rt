// What every scan frame of Fast Modbus has: its first bytes, its length and its check.
//
// Rules F1 and F2. A frame at a position of an input is read up to its subcommand, and what it carries
// stays where it is; a body is written with its check behind it. The frames themselves, requests and
// answers, are the crates above.
#![tactic(auto)]

ghost use Rattle.std.specs.Prelude.{◌≡◌, ◌||◌, ◌++◌, ◌+◌, ◌-◌, ◌≤◌, eqb, length, get_or, take, drop};
ghost use mathlib.Mathlib.Logic.Function.Defs.{id};
ghost use Rattle.lists.specs.Tests.{same};
ghost use Rattle.refusal.specs.Output.{bytes, fitting, Wrote};
ghost use Rattle.framing.specs.Framing.{framed_at};
ghost use Rattle.framing.specs.Layout.{broadcast, extended, shortest, length_for, check_bytes, closed, scan_framing};
ghost use Rattle.framing.specs.Head.{head_of};

use refusal::{
    FRAME_CHECK, FRAME_HEAD, FRAME_LENGTH, OUTPUT_SHORT, Refusal, SUBCOMMAND_WRONG, refused,
};

// The broadcast address, and the command for extended functions.
pub const BROADCAST: u8 = 0xFD;

pub const EXTENDED: u8 = 0x46;

// The subcommands: of requests, and of answers.
pub const START: u8 = 0x01;

pub const CONTINUE: u8 = 0x02;

pub const FOUND: u8 = 0x03;

pub const END: u8 = 0x04;

// The subcommand of a request for events.
pub const POLL: u8 = 0x10;

// How long the frame of a device found is.
pub const FOUND_LENGTH: usize = 10;

// How long a request for events is.
pub const POLL_LENGTH: usize = 9;

// How long the frame that ends a scan is, and every other that carries nothing: none is shorter.
pub const END_LENGTH: usize = 5;

// A serial is below this.
pub const SERIAL_LIMIT: u32 = 0x1000_0000;

// ---- the check

// The two check bytes of a body.
fn check_of(body: &[u8]) -> [u8; 2]
    ensures { result ≡ check_bytes body.now }
{
    let check = crc::modbus_check(body);
    [(check % 256) as u8, (check / 256) as u8]
}

// Whether the last two bytes of the input, at this place, are the check of all from the position up
// to them.
fn check_passes(input: &[u8], at: usize, place: usize) -> bool
    requires { (at ≤ place) × (place + 2 ≡ length input.now) }
    ensures { result ≡ same (drop place input.now) (check_bytes (take (place - at) (drop at input.now))) }
{
    let check = check_of(&input[at..place]);
    if input[place] != check[0] {
        return false;
    }
    input[place + 1] == check[1]
}

// Whether the input from this position on ends with the check of what stands there before it.
pub fn closed_at(input: &[u8], at: usize) -> bool
    ensures { result ≡ closed (drop at input.now) }
{
    if input.len() < at {
        return false;
    }
    let left = input.len() - at;
    if left < 2 {
        return false;
    }
    let body = left - 2;
    check_passes(input, at, at + body)
}

// ---- reading

// Whether the subcommand is one of the two that a reader takes.
fn takes(one: u8, other: u8, subcommand: u8) -> bool
    ensures { result ≡ (eqb subcommand one || eqb subcommand other) }
{
    if subcommand == one {
        return true;
    }
    subcommand == other
}

// How long a frame of this subcommand is.
fn length_for(subcommand: u8) -> usize
    ensures { result ≡ length_for subcommand }
{
    if subcommand == FOUND {
        return FOUND_LENGTH;
    }
    if subcommand == POLL {
        return POLL_LENGTH;
    }
    END_LENGTH
}

// The head check: the subcommand of a frame at this position that fills the rest of the input, where
// it is one of the two that the caller takes, or the refusal. Behind the end of the input the rest is
// empty, so too short.
pub fn head_at(one: u8, other: u8, input: &[u8], at: usize) -> Result<u8, Refusal>
    ensures { result ≡ head_of (framed_at (scan_framing one other) input.now at) }
{
    if input.len() < at {
        return refused(FRAME_LENGTH, 0);
    }
    let left = input.len() - at;
    if left < END_LENGTH {
        return refused(FRAME_LENGTH, 0);
    }
    if input[at] != BROADCAST {
        return refused(FRAME_HEAD, at);
    }
    if input[at + 1] != EXTENDED {
        return refused(FRAME_HEAD, at + 1);
    }
    marked_at(one, other, input, at)
}

// The same, where the rest is long enough and its first bytes are right.
fn marked_at(one: u8, other: u8, input: &[u8], at: usize) -> Result<u8, Refusal>
    requires { (shortest + at ≤ length input.now) × (get_or input.now at 0 ≡ broadcast) × (get_or input.now (at + 1) 0 ≡ extended) }
    ensures { result ≡ head_of (framed_at (scan_framing one other) input.now at) }
{
    let subcommand = input[at + 2];
    if !takes(one, other, subcommand) {
        return refused(SUBCOMMAND_WRONG, at + 2);
    }
    let left = input.len() - at;
    if left != length_for(subcommand) {
        return refused(FRAME_LENGTH, 0);
    }
    let body = left - 2;
    let check_place = at + body;
    if !check_passes(input, at, check_place) {
        return refused(FRAME_CHECK, check_place);
    }
    Ok(subcommand)
}

// ---- writing

// Writes the body and its check behind it, at the start of the output, where both fit.
pub fn write_closed(body: &[u8], out: &mut [u8]) -> Result<usize, Refusal>
    ensures { Wrote id (fitting (length out.old) (bytes (body.now ++ check_bytes body.now))) result out.old out.new }
{
    let size = body.len();
    let room = out.len();
    if room < 2 {
        return refused(OUTPUT_SHORT, 0);
    }
    if room - 2 < size {
        return refused(OUTPUT_SHORT, 0);
    }
    let check = check_of(body);
    lists::put(body, out);
    out[size] = check[0];
    out[size + 1] = check[1];
    Ok(size + 2)
}
