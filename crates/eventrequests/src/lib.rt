// The request of event polling, read and written.
//
// Rule F6. A client asks all devices for events. The reader takes any bytes and any length; what it
// refuses, it refuses by number and place. The writer writes the whole frame or nothing, and leaves
// the bytes behind it.
#![tactic(auto)]

ghost use Rattle.std.specs.Prelude.{◌≡◌, length};
ghost use mathlib.Mathlib.Logic.Function.Defs.{id};
ghost use Rattle.refusal.specs.Output.{Wrote};
ghost use Rattle.eventrequests.specs.Reading.{read_event_request};
ghost use Rattle.eventrequests.specs.Writing.{write_event_request};

use framing::{BROADCAST, EXTENDED, POLL, head_at, write_closed};
use refusal::Refusal;

// What a client asks of all devices: the smallest id that may answer, the most bytes of events, and
// the packet that it confirms, by its sender's id and its flag.
#[derive(Clone, Copy)]
pub struct EventRequest {
    pub minimum: u8,
    pub most: u8,
    pub confirmed: u8,
    pub flag: u8,
}

// What a request asks. It must fill the whole input; nothing is passed over.
pub fn read_event_request(input: &[u8]) -> Result<EventRequest, Refusal>
    ensures { result ≡ read_event_request input.now }
{
    head_at(POLL, POLL, input, 0)?;
    Ok(EventRequest {
        minimum: input[3],
        most: input[4],
        confirmed: input[5],
        flag: input[6],
    })
}

// Writes a request.
pub fn write_event_request(request: EventRequest, out: &mut [u8]) -> Result<usize, Refusal>
    ensures { Wrote id (write_event_request request (length out.old)) result out.old out.new }
{
    let body = [
        BROADCAST,
        EXTENDED,
        POLL,
        request.minimum,
        request.most,
        request.confirmed,
        request.flag,
    ];
    write_closed(&body, out)
}
