// The devices' side of a Fast Modbus scan for C.
#![tactic(auto)]

ghost use Rattle.std.specs.Prelude.{◌≡◌};
ghost use Rattle.arbitration.specs.Contest.{decided};
ghost use Rattle.table.specs.Table.{columns, valid};
ghost use Rattle.devices.specs.Calls.{Gives, start_call, continue_call, offer_call};
ghost use Rattle.devices.specs.WholeScan.{GivesScan, scan_call};
ghost use Rattle.scanboundary.specs.ForC.{decided_for_c, response_for_c, scanned_for_c};

use boundary::MoorWritten;
use scanboundary::{MoorDecided, MoorScanned, decided_for_c, response_for_c, scanned_for_c};
use turns::WINDOWS;

// Whether the three columns are a valid table.
#[unsafe(no_mangle)]
pub extern "C" fn moor_table_valid(serials: &[u32], addresses: &[u8], marks: &[u8]) -> bool
    ensures { result ≡ valid (columns serials.now addresses.now marks.now) }
{
    table::valid(serials, addresses, marks)
}

// The contest of the keys over 32 windows. Where nobody contends, key and dominant windows are 0.
#[unsafe(no_mangle)]
pub extern "C" fn moor_contest(keys: &[u32]) -> MoorDecided
    ensures { result ≡ decided_for_c (decided 32 keys.now) }
{
    decided_for_c(arbitration::contest(keys, WINDOWS))
}

// A start: all marks become 0, then all devices contend. Length 0 is silence.
#[unsafe(no_mangle)]
pub extern "C" fn moor_start(
    serials: &[u32],
    addresses: &[u8],
    marks: &mut [u8],
    answer: &mut [u8],
) -> MoorWritten
    ensures { Gives response_for_c (start_call answer.old (columns serials.now addresses.now marks.old)) result answer.new (columns serials.now addresses.now marks.new) }
{
    response_for_c(devices::start(serials, addresses, marks, answer))
}

// A continue: all devices contend with the marks as they stand.
#[unsafe(no_mangle)]
pub extern "C" fn moor_resume(
    serials: &[u32],
    addresses: &[u8],
    marks: &mut [u8],
    answer: &mut [u8],
) -> MoorWritten
    ensures { Gives response_for_c (continue_call answer.old (columns serials.now addresses.now marks.old)) result answer.new (columns serials.now addresses.now marks.new) }
{
    response_for_c(devices::resume(serials, addresses, marks, answer))
}

// A raw frame offered to the devices: the start or the continue that it names.
#[unsafe(no_mangle)]
pub extern "C" fn moor_offer(
    frame: &[u8],
    serials: &[u32],
    addresses: &[u8],
    marks: &mut [u8],
    answer: &mut [u8],
) -> MoorWritten
    ensures { Gives response_for_c (offer_call frame.now answer.old (columns serials.now addresses.now marks.old)) result answer.new (columns serials.now addresses.now marks.new) }
{
    response_for_c(devices::offer(frame, serials, addresses, marks, answer))
}

// A whole scan of at most so many requests. The serials and addresses heard stand at the start of
// the two lists.
#[unsafe(no_mangle)]
pub extern "C" fn moor_scan(
    serials: &[u32],
    addresses: &[u8],
    marks: &mut [u8],
    found_serials: &mut [u32],
    found_addresses: &mut [u8],
    cap: usize,
) -> MoorScanned
    ensures { GivesScan scanned_for_c (scan_call cap found_serials.old found_addresses.old (columns serials.now addresses.now marks.old)) result found_serials.new found_addresses.new (columns serials.now addresses.now marks.new) }
{
    scanned_for_c(devices::scan(
        serials,
        addresses,
        marks,
        found_serials,
        found_addresses,
        cap,
    ))
}
