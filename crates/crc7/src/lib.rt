// The CRC7 of Railbus and the checksum that a packet ends with: rule R2. A third use of the register
// step of `crc`.
#![tactic(auto)]

ghost use Rattle.std.specs.Prelude.{◌≡◌, ◌<◌};
ghost use Rattle.crc.specs.Register.{left, steps};
ghost use Rattle.crc7.specs.Check.{crc7_polynomial, crc7, checksum};

// With this bit set a checksum is examined.
pub const EXAMINED: u8 = 0x80;

// Four steps of the register. What falls out comes back one place and four places up, since the
// polynomial has these two terms and neither passes the register's end again.
fn four_steps(register: u32) -> u32
    requires { register < 256 }
    ensures { result ≡ steps left 8 crc7_polynomial 4 register }
{
    let out = register / 16;
    (register % 16 * 16) ^ (out * 2) ^ (out * 16)
}

// The CRC7 of the characters.
pub fn crc7(characters: &[u8]) -> u8
    ensures { result ≡ crc7 characters.now }
{
    let mut register: u32 = 0;
    for character in characters {
        register = four_steps(four_steps(register ^ u32::from(*character)));
    }
    (register / 2) as u8
}

// The checksum of the characters: their CRC7 and the bit that says that it is to be examined.
pub fn checksum(characters: &[u8]) -> u8
    ensures { result ≡ checksum characters.now }
{
    EXAMINED + crc7(characters)
}
