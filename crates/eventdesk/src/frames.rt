// The frames of event polling, read and written.
use crate::polling;
use crate::showing::say_event;
use desk::expected::refused_frame;
use desk::part::lent;
use desk::say::{Page, three};
use desk::state::{Desk, FILL, FULL};
use desk::texts::Text;
use desk::{say, texts};
use eventrequests::EventRequest;
use packets::EventsRead;

pub(crate) fn read_poll(rt: &impl Print, input: &[u8], page: Page) -> Page {
    match eventrequests::read_event_request(input) {
        Ok(request) => say_request(rt, request, page),
        Err(why) => refused_frame(rt, page, why, input),
    }
}

fn say_request(rt: &impl Print, request: EventRequest, page: Page) -> Page {
    let bytes = [
        request.minimum,
        request.most,
        request.confirmed,
        request.flag,
    ];
    say::named(rt, page, Text::Poll, &bytes)
}

pub(crate) fn write_poll(rt: &impl Print, line: &[u8], at: usize, d: Desk) -> Desk {
    match polling::request_at(line, at) {
        Ok(request) => d.with_page(write_request(rt, request, d.room, d.page)),
        Err(why) => d.wrong(rt, why),
    }
}

fn write_request(rt: &impl Print, request: EventRequest, room: usize, page: Page) -> Page {
    let mut out = [FILL; FULL];
    let w = eventrequests::write_event_request(request, lent(&mut out, room));
    say::written(rt, page, w, &out)
}

pub(crate) fn write_no_events(rt: &impl Print, room: usize, page: Page) -> Page {
    let mut out = [FILL; FULL];
    let w = packets::write_no_events(lent(&mut out, room));
    say::written(rt, page, w, &out)
}

// What comes back for a poll, and each event that it lists.
pub(crate) fn read_events(rt: &impl Print, input: &[u8], page: Page) -> Page {
    match packets::read_events(input) {
        Ok(
            EventsRead::Packet {
                skipped,
                sender,
                flag,
                queued,
                listed,
                first,
                ..
            },
        ) => {
            let numbers = three(sender as u64, flag as u64, queued as u64);
            let head = texts::filled(rt, page, Text::Events, numbers);
            say_listed(rt, listed, input, first, say::skipped(rt, head, skipped))
        }
        Ok(EventsRead::Nothing { skipped }) => {
            say::skipped(rt, texts::plain(rt, page, Text::NoEvents), skipped)
        }
        Err(why) => refused_frame(rt, page, why, input),
    }
}

// So many events from a position on.
fn say_listed(rt: &impl Print, n: usize, input: &[u8], first: usize, page: Page) -> Page {
    let mut p = page;
    let mut at = first;
    for _ in 0..n {
        p = say_event(rt, Text::EventListed, input, at, p);
        at = behind(input, at);
    }
    p
}

// The position behind an event.
fn behind(input: &[u8], at: usize) -> usize {
    events::event_at(input, at).map_or(at, |event| event.next)
}
