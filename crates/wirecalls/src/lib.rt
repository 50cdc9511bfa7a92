// The checks, addresses and escapes for C.
#![tactic(auto)]

ghost use Rattle.std.specs.Prelude.{◌≡◌, length};
ghost use Rattle.refusal.specs.Output.{bytes, fitting, Wrote};
ghost use Rattle.checkbyte.specs.Check.{ebus_check};
ghost use Rattle.crc.specs.Check.{modbus_check};
ghost use Rattle.escapes.specs.Escape.{expanded};
ghost use Rattle.escapes.specs.Logical.{logical_at};
ghost use Rattle.escapes.specs.Undo.{undone};
ghost use Rattle.addresses.specs.Address.{initiator, reserved, kind_of, kind_number};
ghost use Rattle.boundary.specs.ForC.{logical_for_c, written_for_c};

use boundary::{MoorLogical, MoorWritten, kind_number, logical_for_c, written_for_c};

// The eBUS check byte of logical bytes: A9 counts as A9 00 and AA as A9 01.
#[unsafe(no_mangle)]
pub extern "C" fn moor_ebus_check(logical: &[u8]) -> u8
    ensures { result ≡ ebus_check logical.now }
{
    checkbyte::ebus_check(logical)
}

// The Modbus check of the bytes.
#[unsafe(no_mangle)]
pub extern "C" fn moor_modbus_check(bytes: &[u8]) -> u16
    ensures { result ≡ modbus_check bytes.now }
{
    crc::modbus_check(bytes)
}

// Whether this is an initiator's address.
#[unsafe(no_mangle)]
pub extern "C" fn moor_is_initiator(address: u8) -> bool
    ensures { result ≡ initiator address }
{
    addresses::is_initiator(address)
}

// Whether this address is A9 or AA, which no destination may be.
#[unsafe(no_mangle)]
pub extern "C" fn moor_is_reserved(address: u8) -> bool
    ensures { result ≡ reserved address }
{
    addresses::is_reserved(address)
}

// The kind of an exchange with this destination.
#[unsafe(no_mangle)]
pub extern "C" fn moor_kind(destination: u8) -> u8
    ensures { result ≡ kind_number (kind_of destination) }
{
    kind_number(addresses::kind(destination))
}

// The logical byte at a position of the run: 3, 4 or 5 as met.
#[unsafe(no_mangle)]
pub extern "C" fn moor_logical_at(run: &[u8], at: usize) -> MoorLogical
    ensures { result ≡ logical_for_c (logical_at run.now at) }
{
    logical_for_c(escapes::logical_at(run, at))
}

// Writes the logical bytes as they go on the wire: 1, by exact length.
#[unsafe(no_mangle)]
pub extern "C" fn moor_expand(logical: &[u8], out: &mut [u8]) -> MoorWritten
    ensures { Wrote written_for_c (fitting (length out.old) (bytes (expanded logical.now))) result out.old out.new }
{
    written_for_c(escapes::expand(logical, out))
}

// Undoes the escapes of a raw input: 3, 4 or 5 as met, then 1, by exact length.
#[unsafe(no_mangle)]
pub extern "C" fn moor_undo(raw: &[u8], out: &mut [u8]) -> MoorWritten
    ensures { Wrote written_for_c (fitting (length out.old) (undone raw.now)) result out.old out.new }
{
    written_for_c(escapes::undo(raw, out))
}
