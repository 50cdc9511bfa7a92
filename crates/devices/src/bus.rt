// One request on the bus: the devices' keys contend, and the winner answers.
ghost use Rattle.std.specs.Prelude.{◌≡◌, true, ◌≤◌, ◌<◌, length, replicate};
ghost use Rattle.lists.specs.Starting.{starting};
ghost use Rattle.lists.specs.Tests.{all};
ghost use Rattle.table.specs.Table.{columns, serial_right, serial_limit, most_devices, valid};
ghost use Rattle.arbitration.specs.Contest.{decided};
ghost use Rattle.requests.specs.declared.Request.TheVariants.{Continue};
ghost use Rattle.turns.specs.Request.{key, keys_of, windows, respond};
ghost use Rattle.turns.specs.Inner.{GivesTurn};

use arbitration::{Decided, contest};
use requests::Request;
use table::MOST_DEVICES;
use turns::{Answer, WINDOWS};

// The mark bits of a scanned device, above its serial.
const SCANNED: u32 = 0xF000_0000;

// The key of a device.
fn key(mark: u8, serial: u32) -> u32
    requires { serial < serial_limit }
    ensures { result ≡ key mark serial }
{
    if mark == 0 {
        return serial;
    }
    SCANNED + serial
}

// Puts the keys of all devices at the start of the list.
fn put_keys(serials: &[u32], marks: &[u8], keys: &mut [u32])
    requires { (length marks.now ≡ length serials.now) × (length serials.now ≤ length keys.old) × (all serial_right serials.now ≡ true) }
    ensures { keys.new ≡ starting (keys_of serials.now marks.now) keys.old }
{
    for (i, serial) in serials.iter().enumerate() {
        keys[i] = key(marks[i], *serial);
    }
}

// Sets all marks to 0.
fn clear(marks: &mut [u8])
    ensures { marks.new ≡ replicate (length marks.old) 0 }
{
    marks.fill(0);
}

// The contest of all devices with the marks as they stand.
fn arbitrate(serials: &[u32], marks: &[u8]) -> Decided
    requires { (length marks.now ≡ length serials.now) × (length serials.now ≤ most_devices) × (all serial_right serials.now ≡ true) }
    ensures { result ≡ decided windows (keys_of serials.now marks.now) }
{
    let mut keys = [0u32; MOST_DEVICES];
    put_keys(serials, marks, &mut keys);
    let count = serials.len();
    contest(&keys[..count], WINDOWS)
}

// All devices contend with the marks as they stand, as a continue lets them, and an unscanned
// winner is marked.
fn contend(serials: &[u32], addresses: &[u8], marks: &mut [u8]) -> Answer
    requires { valid (columns serials.now addresses.now marks.old) ≡ true }
    ensures { GivesTurn (respond Continue (columns serials.now addresses.now marks.old)) result (columns serials.now addresses.now marks.new) }
{
    if serials.len() == 0 {
        return Answer::Silence;
    }
    let won = arbitrate(serials, marks);
    let place = won.place;
    if marks[place] == 0 {
        marks[place] = 1;
        return Answer::Found {
            dominant: won.dominant,
            serial: serials[place],
            address: addresses[place],
        };
    }
    Answer::End {
        dominant: won.dominant,
    }
}

// One request to the devices: a start clears the marks first.
pub(crate) fn respond(
    request: Request,
    serials: &[u32],
    addresses: &[u8],
    marks: &mut [u8],
) -> Answer
    requires { valid (columns serials.now addresses.now marks.old) ≡ true }
    ensures { GivesTurn (respond request (columns serials.now addresses.now marks.old)) result (columns serials.now addresses.now marks.new) }
{
    match request {
        Request::Start => {
            clear(marks);
            contend(serials, addresses, marks)
        }
        Request::Continue => contend(serials, addresses, marks),
    }
}
