// The Modbus check, and what every check is made of: the register step over direction, width and
// polynomial, with its laws.
//
// The check has two forms, with one contract. A constant array has no storage of its own: the function
// that indexes it builds it on the stack at each call, 1,024 bytes here. On a short frame that costs more
// than the check itself. So a short frame is checked without the rows, a byte a step, and each entry is
// worked out where it is needed; a longer one is checked by the rows, two bytes a step.
#![tactic(auto)]

mod rows;

ghost use Rattle.std.specs.Prelude.{◌≡◌, ◌<◌};
ghost use Rattle.crc.specs.BitByBit.{modbus_times, ModbusRows};
ghost use Rattle.crc.specs.Check.{modbus_check};

use rows::MODBUS_ROWS;

// From so many bytes on the check by the rows is faster, the rows' copy included.
const ROWS_FROM: usize = 64;

// The Modbus check of the bytes.
pub fn modbus_check(bytes: &[u8]) -> u16
    ensures { result ≡ modbus_check bytes.now }
{
    if bytes.len() < ROWS_FROM {
        return check_without_rows(bytes);
    }
    check_by_rows(bytes)
}

// Entry x of the first row, worked out: eight steps of a register that holds a byte. They leave the byte
// six and seven places up, and C001 where it has an odd number of ones.
fn eight_steps(x: u32) -> u32
    requires { x < 256 }
    ensures { result ≡ modbus_times 8 x }
{
    let odd = u32::count_ones(x) % 2;
    (x * 64) ^ (x * 128) ^ (odd * 0xC001)
}

// The check without the rows, one byte a step. It is public for `onebyte`, as the rows are.
pub fn check_without_rows(frame: &[u8]) -> u16
    ensures { result ≡ modbus_check frame.now }
{
    let mut register = 0xFFFF;
    for byte in frame {
        register = (register / 256) ^ eight_steps((register ^ u32::from(*byte)) % 256);
    }
    register as u16
}

// The rows: at every entry, eight steps of the bit-by-bit rule, and sixteen.
pub fn modbus_rows() -> [[u16; 256]; 2]
    ensures { ModbusRows result }
{
    MODBUS_ROWS
}

// The check by the rows, two bytes a step; a last odd byte goes alone, by the first row. The loop's own
// function takes the rows once: indexed inside a small function they would be built again for each step.
// The register has the rows' own 16 bits: in a wider one the compiler would still add entries as 16
// bits, and widen the sum in each step.
fn check_by_rows(input: &[u8]) -> u16
    ensures { result ≡ modbus_check input.now }
{
    let rows = modbus_rows();
    let mut register: u16 = 0xFFFF;
    let (pairs, last) = input.as_chunks::<2>();
    for pair in pairs {
        let at = (register ^ u16::from_le_bytes(*pair)) as usize;
        register = rows[1][at % 256] ^ rows[0][at / 256];
    }
    match last {
        [byte] => {
            let at = (register ^ u16::from(*byte)) as usize;
            (register / 256) ^ rows[0][at % 256]
        }
        _ => register,
    }
}
