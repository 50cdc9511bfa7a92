// The Modbus check one byte a step, as it was taken before longer runs took two. The benchmark measures
// the one against the other; nothing else uses this crate, and the archive for C and Rust leaves it out.
#![tactic(auto)]

ghost use Rattle.std.specs.Prelude.{◌≡◌};
ghost use Rattle.crc.specs.Check.{modbus_check};

// The longest Modbus frame: up to this many bytes the check went without a table.
const LONGEST_FRAME: usize = 256;

// The check by the first row alone.
#[unsafe(no_mangle)]
pub extern "C" fn bench_one_byte(bytes: &[u8]) -> u16
    ensures { result ≡ modbus_check bytes.now }
{
    let rows = crc::modbus_rows();
    let table = rows[0];
    let mut register: u32 = 0xFFFF;
    for byte in bytes {
        let at = ((register ^ u32::from(*byte)) % 256) as usize;
        register = (register / 256) ^ u32::from(table[at]);
    }
    register as u16
}

// The check as it was for every length: a frame's without a table, a longer run's by the table.
#[unsafe(no_mangle)]
pub extern "C" fn bench_before_rows(bytes: &[u8]) -> u16
    ensures { result ≡ modbus_check bytes.now }
{
    if bytes.len() <= LONGEST_FRAME {
        return crc::check_without_rows(bytes);
    }
    bench_one_byte(bytes)
}
