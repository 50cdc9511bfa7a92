// The oldest events of a queue as a packet carries them.
ghost use Rattle.std.specs.Prelude.{◌≡◌, map, ◌≤◌, length};
ghost use Rattle.lists.specs.Starting.{starting};
ghost use Rattle.events.specs.Events.{events_bytes};
ghost use Rattle.queues.specs.Queues.{queued_from};
ghost use Rattle.oldest.specs.Oldest.{wire_length};
ghost use Rattle.polls.specs.Poll.{how_many_fit, event_of};
ghost use Rattle.polls.specs.Inner.{RightSlots, packet_body, longest_body};

use framing::EXTENDED;
use oldest::{EVENT_HEAD, wire_length};
use packets::PACKET;
use queues::SLOT_LENGTH;

// A packet's events stand behind so many bytes.
const PACKET_EVENTS: usize = 6;

// How many of the oldest events fit into so many bytes.
pub(crate) fn how_many_fit(count: u8, most: u8, slots: &[u8]) -> u8
    requires { RightSlots count slots.now }
    ensures { result ≡ how_many_fit most (queued_from count slots.now) }
{
    let room = most as usize;
    let mut used: usize = 0;
    for fit in 0..count {
        let data = slots[SLOT_LENGTH * fit as usize + 1];
        let size = EVENT_HEAD + data as usize;
        let next = used + size;
        if next > room {
            return fit;
        }
        used = next;
    }
    count
}

// Puts so many of the oldest events at the start of the output, one behind the other. A slot holds
// its event as it goes on the wire, behind its first byte.
pub(crate) fn put_events(events: u8, slots: &[u8], out: &mut [u8])
    requires { RightSlots events slots.now × (wire_length events slots.now ≤ length out.old) }
    ensures { out.new ≡ starting (events_bytes (map event_of (queued_from events slots.now))) out.old }
{
    let mut to: usize = 0;
    for put in 0..events as usize {
        let first = SLOT_LENGTH * put + 1;
        let size = EVENT_HEAD + slots[first] as usize;
        let end = first + size;
        lists::put(&slots[first..end], &mut out[to..]);
        to += size;
    }
}

// Puts all of a packet but its check at the start of the output, and says how long that is.
pub(crate) fn put_body(
    sender: u8,
    flag: u8,
    count: u8,
    events: u8,
    slots: &[u8],
    out: &mut [u8],
) -> usize
    requires { RightSlots events slots.now × (longest_body ≤ length out.old) }
    ensures { (result ≡ length (packet_body sender flag count (queued_from events slots.now))) × (out.new ≡ starting (packet_body sender flag count (queued_from events slots.now)) out.old) × (result ≤ longest_body) }
{
    let size = wire_length(events, slots);
    let head = [sender, EXTENDED, PACKET, flag, count, size as u8];
    lists::put(&head, out);
    put_events(events, slots, &mut out[PACKET_EVENTS..]);
    PACKET_EVENTS + size
}
