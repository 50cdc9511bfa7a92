// The tests of the columns, each over one of them or over the queues together.
ghost use Rattle.std.specs.Prelude.{◌≡◌, ◌&&◌, ◌*◌, length};
ghost use Rattle.lists.specs.Tests.{all, different};
ghost use Rattle.events.specs.Events.{is_id};
ghost use Rattle.queues.specs.Queues.{queue_right, each_below, device_right, slots_length};

use crate::{MOST_DATA, MOST_QUEUED, SLOT_LENGTH, SLOTS_LENGTH};
use events::is_id;

// Ids are told apart by a place for each byte.
const BYTES: usize = 256;

// Whether each is the id of a device and none stands twice.
pub(crate) fn ids_right(ids: &[u8]) -> bool
    ensures { result ≡ (all is_id ids.now && different ids.now) }
{
    let mut taken = [false; BYTES];
    for id in ids {
        let at = *id as usize;
        if !is_id(*id) || taken[at] {
            return false;
        }
        taken[at] = true;
    }
    true
}

// Whether a device's queue is right. Only the slots of queued events are looked at.
fn queue_right(last: u8, count: u8, slots: &[u8]) -> bool
    requires { length slots.now ≡ slots_length }
    ensures { result ≡ queue_right last count slots.now }
{
    if count > MOST_QUEUED || last > count {
        return false;
    }
    let queued = &slots[..SLOT_LENGTH * count as usize];
    for slot in queued.chunks_exact(SLOT_LENGTH) {
        if slot[0] > 1 || slot[1] as usize > MOST_DATA {
            return false;
        }
    }
    true
}

// Whether the queue of each device is right.
pub(crate) fn queues_right(lasts: &[u8], counts: &[u8], slots: &[u8]) -> bool
    requires { (length lasts.now ≡ length counts.now) × (length slots.now ≡ slots_length * length counts.now) }
    ensures { result ≡ each_below (device_right lasts.now counts.now slots.now) (length counts.now) }
{
    for (i, count) in counts.iter().enumerate() {
        let start = SLOTS_LENGTH * i;
        let end = start + SLOTS_LENGTH;
        if !queue_right(lasts[i], *count, &slots[start..end]) {
            return false;
        }
    }
    true
}
