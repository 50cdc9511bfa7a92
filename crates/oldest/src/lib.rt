// What a poll asks of the queue of one device: its marker, how long its oldest events are on the wire,
// and the queue without them. Slots that are not there count as 0.
//
// Rule D10.
#![tactic(auto)]

ghost use Rattle.std.specs.Prelude.{◌≡◌, drop};
ghost use Rattle.lists.specs.Starting.{starting};
ghost use Rattle.queues.specs.Queues.{queued_from};
ghost use Rattle.oldest.specs.Oldest.{marker_of, wire_length, counts_without, slots_without};

use lists::byte_at;
use queues::{SLOT_LENGTH, SLOTS_LENGTH};

// The marker of a queue with an urgent event, with normal events only, and with none.
pub const URGENT: u8 = 0;

pub const NORMAL: u8 = 1;

pub const NOTHING_QUEUED: u8 = 15;

// An event on the wire has so many bytes before its data.
pub const EVENT_HEAD: usize = 4;

// The marker of a queue of so many events, which stand in these slots: any urgent one decides.
pub fn marker(count: u8, slots: &[u8]) -> u8
    ensures { result ≡ marker_of (queued_from count slots.now) }
{
    if count == 0 {
        return NOTHING_QUEUED;
    }
    for slot in 0..count as usize {
        if byte_at(slots, SLOT_LENGTH * slot) == 1 {
            return URGENT;
        }
    }
    NORMAL
}

// How many bytes that many of the oldest events have on the wire.
pub fn wire_length(count: u8, slots: &[u8]) -> usize
    ensures { result ≡ wire_length count slots.now }
{
    let mut bytes: usize = 0;
    for slot in 0..count as usize {
        let data = byte_at(slots, SLOT_LENGTH * slot + 1);
        bytes += EVENT_HEAD + data as usize;
    }
    bytes
}

// Moves what stands that far behind the start to the start; the bytes behind it stay.
fn move_up(by: usize, slots: &mut [u8])
    ensures { slots.new ≡ starting (drop by slots.old) slots.old }
{
    for i in 0..slots.len().saturating_sub(by) {
        slots[i] = slots[by + i];
    }
}

// Drops that many of the oldest events of the device at this place. Nothing changes where it has not
// so many, or is not there.
#[tactic(auto, unfolding(crate::specs::Oldest::counts_without, crate::specs::Oldest::slots_without))]
pub fn drop_oldest(device: usize, events: u8, counts: &mut [u8], slots: &mut [u8])
    ensures { (counts.new ≡ counts_without device events counts.old slots.old) × (slots.new ≡ slots_without device events counts.old slots.old) }
{
    if device >= counts.len() || device >= slots.len() / SLOTS_LENGTH || events > counts[device] {
        return;
    }
    counts[device] -= events;
    let start = SLOTS_LENGTH * device;
    let end = start + SLOTS_LENGTH;
    let by = SLOT_LENGTH * events as usize;
    move_up(by, &mut slots[start..end]);
}
