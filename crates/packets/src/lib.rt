// What comes back for a request of event polling, read; and that nobody has events, written.
//
// Rules F5, F7 and F8. The device that answers sends a packet of events, or says that nobody has any,
// behind up to 32 FF, which the reader counts. The reader takes any bytes and any length; what it
// refuses, it refuses by number and place. The writer writes the whole frame or nothing, and leaves the
// bytes behind it. Events stay where they are in the input, where `events::event_at` takes them apart.
#![tactic(auto)]

ghost use Rattle.std.specs.Prelude.{◌≡◌, true, ◌+◌, ◌≤◌, length, get_or};
ghost use mathlib.Mathlib.Logic.Function.Defs.{id};
ghost use Rattle.refusal.specs.Output.{Wrote};
ghost use Rattle.framing.specs.Layout.{shortest, extended};
ghost use Rattle.events.specs.Events.{is_id};
ghost use Rattle.packets.specs.Layout.{event_packet};
ghost use Rattle.packets.specs.Reading.{events_at, read_events};
ghost use Rattle.packets.specs.Writing.{write_no_events};
ghost use Rattle.packets.specs.Listing.{carried_at, packet_listing, sender_at};

use answers::before_frame;
use events::{count_events, is_id};
use framing::{BROADCAST, END_LENGTH, EXTENDED, closed_at, head_at, write_closed};
use refusal::{FRAME_CHECK, FRAME_HEAD, FRAME_LENGTH, Refusal, SUBCOMMAND_WRONG, refused};

// The subcommands of what comes back: a packet of events, and that nobody has any.
pub const PACKET: u8 = 0x11;

pub const NO_EVENTS: u8 = 0x12;

// What came back, and how many FF were passed over before it: a packet, with how many events are queued
// and how many it lists, where the first of those stands in the input, and how many bytes they have; or
// that nobody has any.
#[derive(Clone, Copy)]
pub enum EventsRead {
    Packet {
        skipped: usize,
        sender: u8,
        flag: u8,
        queued: u8,
        listed: usize,
        first: usize,
        size: u8,
    },
    Nothing {
        skipped: usize,
    },
}

// Whether a frame may begin at this position with its sender's id: enough bytes are left for a frame,
// and the first is a device's id.
fn sender_at(input: &[u8], at: usize) -> bool
    ensures { result ≡ sender_at input.now at }
{
    if input.len() < at {
        return false;
    }
    let left = input.len() - at;
    if left < END_LENGTH {
        return false;
    }
    is_id(input[at])
}

// How many events a frame at this position lists, where what it carries is that of a packet: as many
// bytes as it says, whole events, and no more of them than are queued.
fn listing_at(input: &[u8], at: usize) -> Option<usize>
    requires { shortest + at ≤ length input.now }
    ensures { result ≡ packet_listing (carried_at input.now at) }
{
    let left = input.len() - at;
    if left < 8 {
        return None;
    }
    if input[at + 5] as usize != left - 8 {
        return None;
    }
    let end = at + (left - 2);
    let count = count_events(&input[at + 6..end])?;
    if (input[at + 4] as usize) < count {
        return None;
    }
    Some(count)
}

// What a frame at this position says, which begins with its sender's id.
fn packet_at(input: &[u8], at: usize) -> Result<EventsRead, Refusal>
    requires { (shortest + at ≤ length input.now) × (is_id (get_or input.now at 0) ≡ true) }
    ensures { result ≡ events_at input.now at }
{
    if input[at + 1] != EXTENDED {
        return refused(FRAME_HEAD, at + 1);
    }
    if input[at + 2] != PACKET {
        return refused(SUBCOMMAND_WRONG, at + 2);
    }
    listed_at(input, at)
}

// The same, where the second and the third byte are right. What it carries is looked at before its
// check.
fn listed_at(input: &[u8], at: usize) -> Result<EventsRead, Refusal>
    requires { (shortest + at ≤ length input.now) × (is_id (get_or input.now at 0) ≡ true) × (get_or input.now (at + 1) 0 ≡ extended) × (get_or input.now (at + 2) 0 ≡ event_packet) }
    ensures { result ≡ events_at input.now at }
{
    let Some(listed) = listing_at(input, at) else {
        return refused(FRAME_LENGTH, 0);
    };
    if !closed_at(input, at) {
        return refused(FRAME_CHECK, input.len() - 2);
    }
    Ok(EventsRead::Packet {
        skipped: at,
        sender: input[at],
        flag: input[at + 3],
        queued: input[at + 4],
        listed,
        first: at + 6,
        size: input[at + 5],
    })
}

// What a frame at this position says. Where it begins with no id, or is too short for a frame, only a
// frame that says that nobody has events is taken; what else stands there, the head check of that frame
// refuses, with the number that is due.
fn events_at(input: &[u8], at: usize) -> Result<EventsRead, Refusal>
    ensures { result ≡ events_at input.now at }
{
    if sender_at(input, at) {
        return packet_at(input, at);
    }
    head_at(NO_EVENTS, NO_EVENTS, input, at)?;
    Ok(EventsRead::Nothing { skipped: at })
}

// What comes back for a request: a packet, or that nobody has events. Up to 32 FF before the frame are
// passed over and counted, and the frame must fill the rest.
#[tactic(auto, unfolding(crate::specs::Reading::read_events))]
pub fn read_events(input: &[u8]) -> Result<EventsRead, Refusal>
    ensures { result ≡ read_events input.now }
{
    let at = before_frame(input)?;
    events_at(input, at)
}

// Writes the answer that nobody has events.
pub fn write_no_events(out: &mut [u8]) -> Result<usize, Refusal>
    ensures { Wrote id (write_no_events (length out.old)) result out.old out.new }
{
    let body = [BROADCAST, EXTENDED, NO_EVENTS];
    write_closed(&body, out)
}
