// The requests of a Fast Modbus scan, read and written.
//
// Rule F3. The reader takes any bytes and any length; what it refuses, it refuses by number and
// place. The writer writes the whole frame or nothing, and leaves the bytes behind it.
#![tactic(auto)]

ghost use Rattle.std.specs.Prelude.{◌≡◌, length};
ghost use mathlib.Mathlib.Logic.Function.Defs.{id};
ghost use Rattle.refusal.specs.Output.{Wrote};
ghost use Rattle.requests.specs.Layout.{subcommand_of};
ghost use Rattle.requests.specs.Reading.{asked_for, read_request};
ghost use Rattle.requests.specs.Writing.{write_request};

use framing::{BROADCAST, CONTINUE, EXTENDED, START, head_at, write_closed};
use refusal::Refusal;

// What a client asks of the devices.
#[derive(Clone, Copy)]
pub enum Request {
    Start,
    Continue,
}

// ---- reading

// What a frame of one of the two request subcommands asks.
fn asked(subcommand: u8) -> Request
    ensures { result ≡ asked_for subcommand }
{
    if subcommand == START {
        return Request::Start;
    }
    Request::Continue
}

// What a request frame asks. It must fill the whole input; nothing is passed over.
pub fn read_request(input: &[u8]) -> Result<Request, Refusal>
    ensures { result ≡ read_request input.now }
{
    let subcommand = head_at(START, CONTINUE, input, 0)?;
    Ok(asked(subcommand))
}

// ---- writing

// The subcommand of a request.
fn subcommand_of(request: Request) -> u8
    ensures { result ≡ subcommand_of request }
{
    match request {
        Request::Start => START,
        Request::Continue => CONTINUE,
    }
}

// Writes a request frame.
pub fn write_request(request: Request, out: &mut [u8]) -> Result<usize, Refusal>
    ensures { Wrote id (write_request request (length out.old)) result out.old out.new }
{
    let body = [BROADCAST, EXTENDED, subcommand_of(request)];
    write_closed(&body, out)
}
