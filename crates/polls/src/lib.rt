// Polling the devices for events, as a model on a perfect bus.
//
// Rules D12 to D15. The queues are four lent columns beside the table, which a poll leaves as it is.
// Every call checks what it was lent before it changes anything: the room of its output first,
// then table and queues, then its input.
#![tactic(auto)]

mod answer;
mod keys;
mod packing;

ghost use Rattle.std.specs.Prelude.{Ok};
ghost use mathlib.Mathlib.Logic.Function.Defs.{id};
ghost use Rattle.table.specs.Table.{columns};
ghost use Rattle.queues.specs.Queues.{queue_columns};
ghost use Rattle.polls.specs.Calls.{GivesPoll, poll_call, offer_poll_call};

use eventrequests::EventRequest;
use refusal::Refusal;

// An answer buffer holds at least this: one FF for each of 12 windows, and the longest packet.
pub const POLL_ROOM: usize = 116;

// What a poll gives: how many FF the answer at the start of the buffer begins with, how many bytes it
// has and who sent it, of a packet with its flag and how many events it lists; or silence.
#[derive(Clone, Copy)]
pub enum Polled {
    Packet {
        skipped: usize,
        length: usize,
        sender: u8,
        flag: u8,
        events: u8,
    },
    Nothing {
        skipped: usize,
        length: usize,
        sender: u8,
    },
    Silent,
}

// A request as it was read, behind the guard: a refused one gives its reader's refusal and changes
// nothing. The two calls below are uses of this one.
#[tactic(auto, unfolding(guard::specs::Guard::guard, crate::specs::Calls::poll_call))]
pub fn ask(
    read: Result<EventRequest, Refusal>,
    serials: &[u32],
    addresses: &[u8],
    marks: &[u8],
    flags: &mut [u8],
    lasts: &mut [u8],
    counts: &mut [u8],
    slots: &mut [u8],
    answer: &mut [u8],
) -> Result<Polled, Refusal>
    ensures { GivesPoll id (poll_call read answer.old (columns serials.now addresses.now marks.now) (queue_columns flags.old lasts.old counts.old slots.old)) result answer.new flags.new lasts.new counts.new slots.new }
{
    let ok = queues::valid_queues(serials, addresses, marks, flags, lasts, counts, slots);
    guard::admit(POLL_ROOM, answer.len(), ok)?;
    let request = read?;
    answer::respond(
        request, serials, addresses, marks, flags, lasts, counts, slots, answer,
    )
}

// A poll.
pub fn poll(
    request: EventRequest,
    serials: &[u32],
    addresses: &[u8],
    marks: &[u8],
    flags: &mut [u8],
    lasts: &mut [u8],
    counts: &mut [u8],
    slots: &mut [u8],
    answer: &mut [u8],
) -> Result<Polled, Refusal>
    ensures { GivesPoll id (poll_call (Ok request) answer.old (columns serials.now addresses.now marks.now) (queue_columns flags.old lasts.old counts.old slots.old)) result answer.new flags.new lasts.new counts.new slots.new }
{
    ask(
        Ok(request),
        serials,
        addresses,
        marks,
        flags,
        lasts,
        counts,
        slots,
        answer,
    )
}

// A raw frame offered to the devices: the request that it is.
pub fn offer(
    frame: &[u8],
    serials: &[u32],
    addresses: &[u8],
    marks: &[u8],
    flags: &mut [u8],
    lasts: &mut [u8],
    counts: &mut [u8],
    slots: &mut [u8],
    answer: &mut [u8],
) -> Result<Polled, Refusal>
    ensures { GivesPoll id (offer_poll_call frame.now answer.old (columns serials.now addresses.now marks.now) (queue_columns flags.old lasts.old counts.old slots.old)) result answer.new flags.new lasts.new counts.new slots.new }
{
    let read = eventrequests::read_event_request(frame);
    ask(
        read, serials, addresses, marks, flags, lasts, counts, slots, answer,
    )
}
