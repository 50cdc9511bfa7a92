// The event queues of the devices for C, and polls.
#![tactic(auto)]

ghost use Rattle.std.specs.Prelude.{◌≡◌, Ok};
ghost use Rattle.table.specs.Table.{columns};
ghost use Rattle.queues.specs.Queues.{queue_columns, valid_queues};
ghost use Rattle.newevents.specs.Event.{Adds, event, add_call};
ghost use Rattle.polls.specs.Calls.{GivesPoll, poll_call, offer_poll_call};
ghost use Rattle.eventboundary.specs.ForC.{added_for_c, polled_for_c};
ghost use Rattle.eventcalls.specs.Urgency.{urgent_by};

use eventboundary::{MoorAdded, MoorPolled, added_for_c, polled_for_c};
use eventrequests::EventRequest;

// Whether table and queues are valid.
#[unsafe(no_mangle)]
pub extern "C" fn moor_queues_valid(
    serials: &[u32],
    addresses: &[u8],
    marks: &[u8],
    flags: &[u8],
    lasts: &[u8],
    counts: &[u8],
    slots: &[u8],
) -> bool
    ensures { result ≡ valid_queues (columns serials.now addresses.now marks.now) (queue_columns flags.now lasts.now counts.now slots.now) }
{
    queues::valid_queues(serials, addresses, marks, flags, lasts, counts, slots)
}

// A new event for the device with this id. Urgent is 0 for a normal event, and anything else for an
// urgent one.
#[unsafe(no_mangle)]
pub extern "C" fn moor_add_event(
    serials: &[u32],
    addresses: &[u8],
    marks: &[u8],
    flags: &[u8],
    lasts: &[u8],
    counts: &mut [u8],
    slots: &mut [u8],
    id: u8,
    urgent: u8,
    kind: u8,
    identifier: u16,
    payload: &[u8],
) -> MoorAdded
    ensures { Adds added_for_c (add_call (columns serials.now addresses.now marks.now) (queue_columns flags.now lasts.now counts.old slots.old) id (event (urgent_by urgent) kind identifier payload.now)) result counts.new slots.new }
{
    added_for_c(newevents::add_event(
        serials,
        addresses,
        marks,
        flags,
        lasts,
        counts,
        slots,
        id,
        urgent != 0,
        kind,
        identifier,
        payload,
    ))
}

// A poll.
#[unsafe(no_mangle)]
pub extern "C" fn moor_poll(
    minimum: u8,
    most: u8,
    confirmed: u8,
    flag: u8,
    serials: &[u32],
    addresses: &[u8],
    marks: &[u8],
    flags: &mut [u8],
    lasts: &mut [u8],
    counts: &mut [u8],
    slots: &mut [u8],
    answer: &mut [u8],
) -> MoorPolled
    ensures { GivesPoll polled_for_c (poll_call (Ok (record { minimum = minimum; most = most; confirmed = confirmed; flag = flag })) answer.old (columns serials.now addresses.now marks.now) (queue_columns flags.old lasts.old counts.old slots.old)) result answer.new flags.new lasts.new counts.new slots.new }
{
    let request = EventRequest {
        minimum,
        most,
        confirmed,
        flag,
    };
    polled_for_c(polls::poll(
        request, serials, addresses, marks, flags, lasts, counts, slots, answer,
    ))
}

// A raw event request offered to the devices.
#[unsafe(no_mangle)]
pub extern "C" fn moor_offer_poll(
    frame: &[u8],
    serials: &[u32],
    addresses: &[u8],
    marks: &[u8],
    flags: &mut [u8],
    lasts: &mut [u8],
    counts: &mut [u8],
    slots: &mut [u8],
    answer: &mut [u8],
) -> MoorPolled
    ensures { GivesPoll polled_for_c (offer_poll_call frame.now answer.old (columns serials.now addresses.now marks.now) (queue_columns flags.old lasts.old counts.old slots.old)) result answer.new flags.new lasts.new counts.new slots.new }
{
    polled_for_c(polls::offer(
        frame, serials, addresses, marks, flags, lasts, counts, slots, answer,
    ))
}
