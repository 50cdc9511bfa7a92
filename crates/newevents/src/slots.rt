// The slots of one device.
ghost use Rattle.std.specs.Prelude.{◌≡◌, ◌≤◌, ◌<◌, length};
ghost use Rattle.lists.specs.Choice.{pick};
ghost use Rattle.lists.specs.Starting.{starting};
ghost use Rattle.queues.specs.Queues.{slots_length, most_queued, most_data};
ghost use Rattle.newevents.specs.Event.{event, put_slot};

use queues::SLOT_LENGTH;

// Puts an event into the slot behind so many. Of the data, only as many bytes are written as it has.
pub(crate) fn put(
    count: usize,
    urgent: bool,
    kind: u8,
    identifier: u16,
    payload: &[u8],
    slots: &mut [u8],
)
    requires { (count < most_queued) × (length payload.now ≤ most_data) × (length slots.old ≡ slots_length) }
    ensures { slots.new ≡ put_slot count (event urgent kind identifier payload.now) slots.old }
{
    let at = SLOT_LENGTH * count;
    let [high, low] = identifier.to_be_bytes();
    let head = [u8::from(urgent), payload.len() as u8, kind, high, low];
    let data = at + head.len();
    slots[at..data].copy_from_slice(&head);
    put_bytes(payload, &mut slots[data..data + payload.len()]);
}

// Puts the bytes at the start of a list that has room for them, byte after byte: a copy by the library
// would call memmove here, and who links the archive has promised no more than memcpy and memset.
fn put_bytes(bytes: &[u8], out: &mut [u8])
    requires { length bytes.now ≤ length out.old }
    ensures { out.new ≡ starting bytes.now out.old }
{
    for (i, byte) in bytes.iter().enumerate() {
        out[i] = *byte;
    }
}
