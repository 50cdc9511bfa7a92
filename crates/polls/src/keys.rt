// Who contends in a poll, and with what key.
ghost use Rattle.std.specs.Prelude.{◌≡◌, ◌≤◌, length};
ghost use Rattle.lists.specs.Starting.{starting};
ghost use Rattle.arbitration.specs.Contest.{decided};
ghost use Rattle.table.specs.Table.{most_devices};
ghost use Rattle.queues.specs.Queues.{queued_from};
ghost use Rattle.polls.specs.Poll.{oldest_fits, poll_windows, poll_key, poll_keys};
ghost use Rattle.polls.specs.Inner.{RightSlots, RightQueues, queues_of};

use arbitration::{Decided, contest};
use eventrequests::EventRequest;
use oldest::{marker, wire_length};
use queues::SLOTS_LENGTH;
use table::MOST_DEVICES;

// A window for each bit of a key: four of the marker, eight of the id.
const POLL_WINDOWS: u32 = 12;

// A key that does not fit the windows: a device with it does not contend.
const SITS_OUT: u32 = 4096;

// Whether the oldest event of a queue, if there is one, fits into so many bytes.
fn oldest_fits(most: u8, count: u8, slots: &[u8]) -> bool
    requires { RightSlots count slots.now }
    ensures { result ≡ oldest_fits most (queued_from count slots.now) }
{
    count == 0 || wire_length(1, slots) <= most as usize
}

// The key of a device with this id, of whose queue these are the slots.
#[tactic(auto, unfolding(crate::specs::Poll::poll_key))]
fn key(request: EventRequest, id: u8, count: u8, slots: &[u8]) -> u32
    requires { RightSlots count slots.now }
    ensures { result ≡ poll_key request id (queued_from count slots.now) }
{
    if id < request.minimum || !oldest_fits(request.most, count, slots) {
        return SITS_OUT;
    }
    let high = marker(count, slots) as u32;
    high * 256 + id as u32
}

// Puts the keys of all devices at the start of the list.
fn put_keys(request: EventRequest, ids: &[u8], counts: &[u8], slots: &[u8], keys: &mut [u32])
    requires { RightQueues (length ids.now) counts.now slots.now × (length ids.now ≤ most_devices) × (length ids.now ≤ length keys.old) }
    ensures { keys.new ≡ starting (poll_keys request ids.now (queues_of counts.now slots.now)) keys.old }
{
    for (i, id) in ids.iter().enumerate() {
        let start = SLOTS_LENGTH * i;
        let end = start + SLOTS_LENGTH;
        keys[i] = key(request, *id, counts[i], &slots[start..end]);
    }
}

// The contest of the devices that contend.
pub(crate) fn decide(request: EventRequest, ids: &[u8], counts: &[u8], slots: &[u8]) -> Decided
    requires { RightQueues (length ids.now) counts.now slots.now × (length ids.now ≤ most_devices) }
    ensures { result ≡ decided poll_windows (poll_keys request ids.now (queues_of counts.now slots.now)) }
{
    let mut keys = [0u32; MOST_DEVICES];
    put_keys(request, ids, counts, slots, &mut keys);
    let count = ids.len();
    contest(&keys[..count], POLL_WINDOWS)
}
