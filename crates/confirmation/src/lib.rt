// What a poll confirms: the packet that it names is done with.
//
// Rule D12. The stored flag of a device is that of its next packet. As long as a packet is not
// confirmed, it is that packet's flag too, since the same events would be sent again with it; so a
// confirmation is right where the flag is the stored one and a packet was sent at all.
#![tactic(auto)]

ghost use Rattle.std.specs.Prelude.{◌≡◌, set};
ghost use Rattle.queues.specs.Queues.{queue_columns};
ghost use Rattle.confirmation.specs.Confirmation.{other_flag, Leaves, confirmed};

use lists::byte_at;
use oldest::drop_oldest;
use queues::device_of;

// Stores a byte at a place; nothing behind the end.
fn set_at(list: &mut [u8], at: usize, byte: u8)
    ensures { list.new ≡ set list.old at byte }
{
    if at < list.len() {
        list[at] = byte;
    }
}

// The other of 0 and 1.
fn other_flag(flag: u8) -> u8
    ensures { result ≡ other_flag flag }
{
    u8::from(flag == 0)
}

// Confirms the packet of the device with this id, where it is the one with this flag: its events are
// dropped, and the flag turns. In valid queues anything else changes nothing.
#[tactic(auto, unfolding(crate::specs::Confirmation::confirmed))]
pub fn confirm(
    ids: &[u8],
    id: u8,
    flag: u8,
    flags: &mut [u8],
    lasts: &mut [u8],
    counts: &mut [u8],
    slots: &mut [u8],
)
    ensures { Leaves (confirmed ids.now id flag (queue_columns flags.old lasts.old counts.old slots.old)) flags.new lasts.new counts.new slots.new }
{
    let device = device_of(ids, id);
    let last = byte_at(lasts, device);
    if last == 0 || byte_at(flags, device) != flag {
        return;
    }
    drop_oldest(device, last, counts, slots);
    set_at(lasts, device, 0);
    set_at(flags, device, other_flag(flag));
}
