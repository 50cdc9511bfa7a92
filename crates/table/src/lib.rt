// The device table: three lent columns, and when they are valid.
//
// Rule D1.
#![tactic(auto)]

ghost use Rattle.std.specs.Prelude.{◌≡◌, eqb};
ghost use Rattle.lists.specs.Tests.{any, all, different};
ghost use Rattle.table.specs.Table.{columns, serial_right, mark_right, valid};
ghost use Rattle.table.specs.Slots.{slot_of};

use framing::SERIAL_LIMIT;

// A table has at most this many devices.
pub const MOST_DEVICES: usize = 247;

// Serials are told apart by this many slots, one for each value of their low bits.
const SLOTS: usize = 2048;

// Whether each serial is below 2^28. The three loops that look at a whole list have no way out before
// its end, so that a processor takes several numbers at a time.
fn serials_right(serials: &[u32]) -> bool
    ensures { result ≡ all serial_right serials.now }
{
    let mut right = true;
    for serial in serials {
        if *serial >= SERIAL_LIMIT {
            right = false;
        }
    }
    right
}

// Whether the serial stands in the list.
fn stands_in(serial: u32, serials: &[u32]) -> bool
    ensures { result ≡ any (eqb serial) serials.now }
{
    let mut stands = false;
    for other in serials {
        if serial == *other {
            stands = true;
        }
    }
    stands
}

// The slot of a serial: its low bits.
fn slot_of(serial: u32) -> usize
    ensures { result ≡ slot_of serial }
{
    serial as usize % SLOTS
}

// Whether no serial stands twice. A serial whose slot is free stands nowhere before; only one whose
// slot another has taken is compared with all before it.
fn serials_differ(serials: &[u32]) -> bool
    ensures { result ≡ different serials.now }
{
    let mut taken = [0u8; SLOTS];
    for (i, serial) in serials.iter().enumerate() {
        let slot = slot_of(*serial);
        if taken[slot] > 0 && stands_in(*serial, &serials[..i]) {
            return false;
        }
        taken[slot] = 1;
    }
    true
}

// Whether each number of a column is 0 or 1, as marks are and flags.
pub fn zeros_and_ones(column: &[u8]) -> bool
    ensures { result ≡ all mark_right column.now }
{
    let mut right = true;
    for mark in column {
        if *mark > 1 {
            right = false;
        }
    }
    right
}

// Whether the three columns are a valid table.
#[tactic(auto, unfolding(crate::specs::Table::valid))]
pub fn valid(serials: &[u32], addresses: &[u8], marks: &[u8]) -> bool
    ensures { result ≡ valid (columns serials.now addresses.now marks.now) }
{
    addresses.len() == serials.len()
        && marks.len() == serials.len()
        && serials.len() <= MOST_DEVICES
        && serials_right(serials)
        && serials_differ(serials)
        && zeros_and_ones(marks)
}
