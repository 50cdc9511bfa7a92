// The answers on event frames, queues and polls as structs that C can take, and how the answers of the
// crates below become them.
//
// In an answer of a call that can refuse the number is 0 where the call was accepted, and else rule
// N1's number with the place beside it; the other values are then 0.
#![tactic(auto)]

ghost use Rattle.std.specs.Prelude.{◌≡◌};
ghost use Rattle.eventboundary.specs.ForC.{event_request_for_c, events_for_c, event_for_c, added_for_c, polled_for_c};

use eventrequests::EventRequest;
use events::PlacedEvent;
use packets::{EventsRead, NO_EVENTS, PACKET};
use polls::Polled;
use refusal::Refusal;

// An event request that was read.
#[repr(C)]
#[derive(Clone, Copy)]
pub struct MoorEventRequestRead {
    pub number: u8,
    pub minimum: u8,
    pub most: u8,
    pub confirmed: u8,
    pub flag: u8,
    pub place: usize,
}

// What came back for an event request: a packet, or that nobody has events, and how many FF were passed
// over.
#[repr(C)]
#[derive(Clone, Copy)]
pub struct MoorEventsRead {
    pub number: u8,
    pub answer: u8,
    pub sender: u8,
    pub flag: u8,
    pub queued: u8,
    pub size: u8,
    pub place: usize,
    pub listed: usize,
    pub first: usize,
    pub skipped: usize,
}

// One event, and where its data starts in the input.
#[repr(C)]
#[derive(Clone, Copy)]
pub struct MoorEvent {
    pub whole: u8,
    pub kind: u8,
    pub size: u8,
    pub identifier: u16,
    pub start: usize,
    pub next: usize,
}

// What a new event gives.
#[repr(C)]
#[derive(Clone, Copy)]
pub struct MoorAdded {
    pub number: u8,
    pub place: usize,
}

// What a poll gives: what was answered, by whom, how long the answer is, and how many FF it begins
// with. Silence is answer 0.
#[repr(C)]
#[derive(Clone, Copy)]
pub struct MoorPolled {
    pub number: u8,
    pub answer: u8,
    pub sender: u8,
    pub flag: u8,
    pub events: u8,
    pub place: usize,
    pub length: usize,
    pub skipped: usize,
}

pub fn event_request_for_c(x: Result<EventRequest, Refusal>) -> MoorEventRequestRead
    ensures { result ≡ event_request_for_c x }
{
    match x {
        Ok(request) => MoorEventRequestRead {
            number: 0,
            minimum: request.minimum,
            most: request.most,
            confirmed: request.confirmed,
            flag: request.flag,
            place: 0,
        },
        Err(why) => MoorEventRequestRead {
            number: why.number,
            minimum: 0,
            most: 0,
            confirmed: 0,
            flag: 0,
            place: why.place,
        },
    }
}

// An answer with no packet: that nobody has events, or why there is none.
fn no_packet(number: u8, answer: u8, place: usize, skipped: usize) -> MoorEventsRead
    ensures { result ≡ record { number = number; answer = answer; sender = 0; flag = 0; queued = 0; size = 0; place = place; listed = 0; first = 0; skipped = skipped } }
{
    MoorEventsRead {
        number,
        answer,
        sender: 0,
        flag: 0,
        queued: 0,
        size: 0,
        place,
        listed: 0,
        first: 0,
        skipped,
    }
}

pub fn events_for_c(x: Result<EventsRead, Refusal>) -> MoorEventsRead
    ensures { result ≡ events_for_c x }
{
    match x {
        Ok(
            EventsRead::Packet {
                skipped,
                sender,
                flag,
                queued,
                listed,
                first,
                size,
            },
        ) => MoorEventsRead {
            number: 0,
            answer: PACKET,
            sender,
            flag,
            queued,
            size,
            place: 0,
            listed,
            first,
            skipped,
        },
        Ok(EventsRead::Nothing { skipped }) => no_packet(0, NO_EVENTS, 0, skipped),
        Err(why) => no_packet(why.number, 0, why.place, 0),
    }
}

pub fn event_for_c(x: Option<PlacedEvent>) -> MoorEvent
    ensures { result ≡ event_for_c x }
{
    match x {
        Some(event) => MoorEvent {
            whole: 1,
            kind: event.kind,
            size: event.size,
            identifier: event.identifier,
            start: event.start,
            next: event.next,
        },
        None => MoorEvent {
            whole: 0,
            kind: 0,
            size: 0,
            identifier: 0,
            start: 0,
            next: 0,
        },
    }
}

pub fn added_for_c(x: Result<(), Refusal>) -> MoorAdded
    ensures { result ≡ added_for_c x }
{
    match x {
        Ok(()) => MoorAdded {
            number: 0,
            place: 0,
        },
        Err(why) => MoorAdded {
            number: why.number,
            place: why.place,
        },
    }
}

// An answer of the devices: how many FF it begins with, how long it is, what it is, and by whom.
fn answered(
    skipped: usize,
    length: usize,
    answer: u8,
    sender: u8,
    flag: u8,
    events: u8,
) -> MoorPolled
    ensures { result ≡ record { number = 0; answer = answer; sender = sender; flag = flag; events = events; place = 0; length = length; skipped = skipped } }
{
    MoorPolled {
        number: 0,
        answer,
        sender,
        flag,
        events,
        place: 0,
        length,
        skipped,
    }
}

pub fn polled_for_c(x: Result<Polled, Refusal>) -> MoorPolled
    ensures { result ≡ polled_for_c x }
{
    match x {
        Ok(
            Polled::Packet {
                skipped,
                length,
                sender,
                flag,
                events,
            },
        ) => answered(skipped, length, PACKET, sender, flag, events),
        Ok(
            Polled::Nothing {
                skipped,
                length,
                sender,
            },
        ) => answered(skipped, length, NO_EVENTS, sender, 0, 0),
        Ok(Polled::Silent) => answered(0, 0, 0, 0, 0, 0),
        Err(why) => MoorPolled {
            number: why.number,
            answer: 0,
            sender: 0,
            flag: 0,
            events: 0,
            place: why.place,
            length: 0,
            skipped: 0,
        },
    }
}
