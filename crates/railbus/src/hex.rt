// Numbers as text: upper-case hex digits, the highest first. Rule R1.
ghost use Rattle.std.specs.Prelude.{◌≡◌, true, not, ◌&&◌, ◌+◌, ◌≤◌, ◌<◌, length, take, drop};
ghost use Rattle.lists.specs.Tests.{all};
ghost use Rattle.railbus.specs.Hex.{is_digit, digit_value, digit, spelled};
ghost use Rattle.railbus.specs.Reading.{due, no_digit_from};

// Whether the character is a digit.
#[tactic(auto, unfolding(crate::specs::Hex::is_digit))]
fn is_digit(c: u8) -> bool
    ensures { result ≡ is_digit c }
{
    matches!(c, b'0'..=b'9' | b'A'..=b'F')
}

// What a digit stands for.
fn value(c: u8) -> u8
    requires { is_digit c ≡ true }
    ensures { (result ≡ digit_value c) × (result < 16) }
{
    if c <= 0x39 {
        return c - 0x30;
    }
    c - 0x37
}

// The digit for a number below 16.
pub(crate) fn digit(v: u8) -> u8
    requires { v < 16 }
    ensures { result ≡ digit v }
{
    if v < 10 {
        return 0x30 + v;
    }
    0x37 + v
}

// Whether the character is no digit, and at a place where one is due: everywhere but at the mark and
// the letter.
fn is_wrong(place: usize, c: u8) -> bool
    ensures { result ≡ (due place && not (is_digit c)) }
{
    place >= 2 && place != 4 && !is_digit(c)
}

// The place of the first character that is no digit where one is due; the length where there is none.
pub(crate) fn no_digit(input: &[u8]) -> usize
    ensures { result ≡ no_digit_from 0 input.now }
{
    for (at, c) in input.iter().enumerate() {
        if is_wrong(at, *c) {
            return at;
        }
    }
    input.len()
}

// The number that the two digits at this place spell.
pub(crate) fn pair_at(input: &[u8], at: usize) -> u8
    requires { (at + 2 ≤ length input.now) × (all is_digit (take 2 (drop at input.now)) ≡ true) }
    ensures { result ≡ spelled (take 2 (drop at input.now)) }
{
    value(input[at]) * 16 + value(input[at + 1])
}

// The number that the eight digits at this place spell.
pub(crate) fn word_at(input: &[u8], at: usize) -> u32
    requires { (at + 8 ≤ length input.now) × (all is_digit (take 8 (drop at input.now)) ≡ true) }
    ensures { result ≡ spelled (take 8 (drop at input.now)) }
{
    let high = pair_at(input, at) as u32 * 256 + pair_at(input, at + 2) as u32;
    let low = pair_at(input, at + 4) as u32 * 256 + pair_at(input, at + 6) as u32;
    high * 65536 + low
}
