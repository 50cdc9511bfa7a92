// The frames of event polling for C.
#![tactic(auto)]

ghost use Rattle.std.specs.Prelude.{◌≡◌, length};
ghost use Rattle.refusal.specs.Output.{Wrote};
ghost use Rattle.eventrequests.specs.Reading.{read_event_request};
ghost use Rattle.eventrequests.specs.Writing.{write_event_request};
ghost use Rattle.events.specs.Events.{event_at};
ghost use Rattle.packets.specs.Reading.{read_events};
ghost use Rattle.packets.specs.Writing.{write_no_events};
ghost use Rattle.boundary.specs.ForC.{written_for_c};
ghost use Rattle.eventboundary.specs.ForC.{event_request_for_c, events_for_c, event_for_c};

use boundary::{MoorWritten, written_for_c};
use eventboundary::{
    MoorEvent, MoorEventRequestRead, MoorEventsRead, event_for_c, event_request_for_c, events_for_c,
};
use eventrequests::EventRequest;

// What an event request asks. It must fill the whole input; nothing is passed over.
#[unsafe(no_mangle)]
pub extern "C" fn moor_read_event_request(input: &[u8]) -> MoorEventRequestRead
    ensures { result ≡ event_request_for_c (read_event_request input.now) }
{
    event_request_for_c(eventrequests::read_event_request(input))
}

// Writes an event request: 1.
#[unsafe(no_mangle)]
pub extern "C" fn moor_write_event_request(
    minimum: u8,
    most: u8,
    confirmed: u8,
    flag: u8,
    out: &mut [u8],
) -> MoorWritten
    ensures { Wrote written_for_c (write_event_request (record { minimum = minimum; most = most; confirmed = confirmed; flag = flag }) (length out.old)) result out.old out.new }
{
    let request = EventRequest {
        minimum,
        most,
        confirmed,
        flag,
    };
    written_for_c(eventrequests::write_event_request(request, out))
}

// What came back for an event request. Up to 32 leading FF are passed over and counted, and the frame
// must fill the rest.
#[unsafe(no_mangle)]
pub extern "C" fn moor_read_events(input: &[u8]) -> MoorEventsRead
    ensures { result ≡ events_for_c (read_events input.now) }
{
    events_for_c(packets::read_events(input))
}

// The event at a position of any bytes, where all of it is there.
#[unsafe(no_mangle)]
pub extern "C" fn moor_event_at(input: &[u8], at: usize) -> MoorEvent
    ensures { result ≡ event_for_c (event_at input.now at) }
{
    event_for_c(events::event_at(input, at))
}

// Writes the answer that nobody has events: 1.
#[unsafe(no_mangle)]
pub extern "C" fn moor_write_no_events(out: &mut [u8]) -> MoorWritten
    ensures { Wrote written_for_c (write_no_events (length out.old)) result out.old out.new }
{
    written_for_c(packets::write_no_events(out))
}
