// Events, wherever they stand: one at a position of any bytes, its data, how many there are, and which
// bytes are a device's id.
//
// Rule F7. Events stay where they are in the input: `event_at` takes them apart one after the other,
// and `event_data` hands out the data of one as a part of the input.
#![tactic(auto)]

ghost use Rattle.std.specs.Prelude.{◌≡◌};
ghost use Rattle.events.specs.Events.{is_id, event_at, ShowsEventData, events_in, listing_of};

// The ids of devices go up to this.
pub const LARGEST_ID: u8 = 247;

// One event and where it stands: its kind and its identifier, where its data starts in the input and
// how long that is, and the position behind it.
#[derive(Clone, Copy)]
pub struct PlacedEvent {
    pub kind: u8,
    pub identifier: u16,
    pub start: usize,
    pub size: u8,
    pub next: usize,
}

// Whether a byte is a device's id.
#[tactic(auto, unfolding(crate::specs::Events::is_id))]
pub fn is_id(byte: u8) -> bool
    ensures { result ≡ is_id byte }
{
    (1..=LARGEST_ID).contains(&byte)
}

// The event at a position of any bytes, where all of it is there.
#[tactic(auto, unfolding(crate::specs::Events::event_at))]
pub fn event_at(input: &[u8], at: usize) -> Option<PlacedEvent>
    ensures { result ≡ event_at input.now at }
{
    if input.len() < at {
        return None;
    }
    let left = input.len() - at;
    if left < 4 {
        return None;
    }
    let size = input[at];
    if left - 4 < size as usize {
        return None;
    }
    let start = at + 4;
    Some(PlacedEvent {
        kind: input[at + 1],
        identifier: u16::from_be_bytes([input[at + 2], input[at + 3]]),
        start,
        size,
        next: start + size as usize,
    })
}

// The data of the event at a position, a part of the input. Where no whole event stands, it is the
// empty start.
pub fn event_data<'a>(input: &'a [u8], at: usize) -> &'a [u8]
    ensures { ShowsEventData input.now input.entry.ref_ptr at result.ref_ptr result.now }
{
    match event_at(input, at) {
        Some(event) => &input[event.start..event.next],
        None => &input[..0],
    }
}

// How many events these bytes are, where they come out even. A step goes to where the event ends, so no `for` counts it.
pub fn count_events(events: &[u8]) -> Option<usize>
    ensures { result ≡ listing_of (events_in events.now) }
{
    let mut count = 0;
    let mut i = 0;
    while i < events.len() {
        let event = event_at(events, i)?;
        count += 1;
        i = event.next;
    }
    Some(count)
}
