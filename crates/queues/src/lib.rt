// The event queues of the devices: lent columns beside the table, and when they are valid.
//
// Rule D10. Each device has a flag, that of its next packet; how many events its last packet had, as
// long as that waits for its confirmation; how many events are queued; and 8 slots of 13 bytes, the
// oldest event first.
#![tactic(auto)]

mod validity;

ghost use Rattle.std.specs.Prelude.{◌≡◌};
ghost use Rattle.lists.specs.Tests.{position};
ghost use Rattle.table.specs.Table.{columns};
ghost use Rattle.queues.specs.Queues.{queue_columns, valid_queues};

use table::zeros_and_ones;

// A queue has at most this many events.
pub const MOST_QUEUED: u8 = 8;

// An event has at most this many data bytes.
pub const MOST_DATA: usize = 8;

// A slot: whether the event is urgent, then the event as it goes on the wire, with room for its data.
pub const SLOT_LENGTH: usize = 13;

// The slots of one device.
pub const SLOTS_LENGTH: usize = 104;

// Whether table and queues are valid: what number 2 asks in every call on events.
#[tactic(auto, unfolding(crate::specs::Queues::valid_queues))]
pub fn valid_queues(
    serials: &[u32],
    addresses: &[u8],
    marks: &[u8],
    flags: &[u8],
    lasts: &[u8],
    counts: &[u8],
    slots: &[u8],
) -> bool
    ensures { result ≡ valid_queues (columns serials.now addresses.now marks.now) (queue_columns flags.now lasts.now counts.now slots.now) }
{
    if !table::valid(serials, addresses, marks) {
        return false;
    }
    // Only of a valid table is it known that the product below fits.
    let devices = serials.len();
    validity::ids_right(addresses)
        && flags.len() == devices
        && lasts.len() == devices
        && counts.len() == devices
        && slots.len() == SLOTS_LENGTH * devices
        && zeros_and_ones(flags)
        && validity::queues_right(lasts, counts, slots)
}

// The place of the device with this id; as many as there are where there is none.
pub fn device_of(addresses: &[u8], id: u8) -> usize
    ensures { result ≡ position id addresses.now }
{
    addresses
        .iter()
        .position(|address| *address == id)
        .unwrap_or(addresses.len())
}
