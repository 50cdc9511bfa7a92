// A new event, put into the queue of the device that it is for.
//
// Rule D11.
#![tactic(auto)]

mod slots;

ghost use mathlib.Mathlib.Logic.Function.Defs.{id as itself};
ghost use Rattle.table.specs.Table.{columns};
ghost use Rattle.queues.specs.Queues.{queue_columns};
ghost use Rattle.newevents.specs.Event.{Adds, event, add_call};

use queues::{MOST_DATA, MOST_QUEUED, SLOTS_LENGTH, device_of, valid_queues};
use refusal::{FRAME_LENGTH, QUEUE_FULL, Refusal, TABLE_NOT_VALID, refused};

// A new event for the device with this id, behind those that it has queued. Its flag and its last
// packet stay as they are.
#[tactic(auto, unfolding(crate::specs::Event::add_call))]
pub fn add_event(
    serials: &[u32],
    addresses: &[u8],
    marks: &[u8],
    flags: &[u8],
    lasts: &[u8],
    counts: &mut [u8],
    slots: &mut [u8],
    id: u8,
    urgent: bool,
    kind: u8,
    identifier: u16,
    payload: &[u8],
) -> Result<(), Refusal>
    ensures { Adds itself (add_call (columns serials.now addresses.now marks.now) (queue_columns flags.now lasts.now counts.old slots.old) id (event urgent kind identifier payload.now)) result counts.new slots.new }
{
    if !valid_queues(serials, addresses, marks, flags, lasts, counts, slots) {
        return refused(TABLE_NOT_VALID, 0);
    }
    let device = device_of(addresses, id);
    if device >= addresses.len() {
        return refused(FRAME_LENGTH, 0);
    }
    let count = counts[device];
    let queued = count as usize;
    if payload.len() > MOST_DATA {
        return refused(FRAME_LENGTH, 0);
    }
    if count >= MOST_QUEUED {
        return refused(QUEUE_FULL, 0);
    }
    counts[device] = count + 1;
    let start = SLOTS_LENGTH * device;
    let end = start + SLOTS_LENGTH;
    slots::put(
        queued,
        urgent,
        kind,
        identifier,
        payload,
        &mut slots[start..end],
    );
    Ok(())
}
