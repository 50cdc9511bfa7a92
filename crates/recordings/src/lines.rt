// Lines of text that hold bytes in hexadecimal and numbers in decimal, two digits each.
use tally::part::{rest, start};
use tally::{Tally, none};

// How numbers are written.
#[derive(Clone, Copy)]
pub(crate) enum Base {
    Decimal = 10,
    Hexadecimal = 16,
}

// The first N numbers of a field, 0 behind them, and how many there were; the character that ended
// them, and what stands behind it.
#[derive(Clone, Copy)]
pub(crate) struct Field<'a, const N: usize> {
    pub(crate) numbers: [u8; N],
    pub(crate) n: usize,
    pub(crate) mark: u8,
    pub(crate) rest: &'a [u8],
}

impl<'a, const N: usize> Field<'a, N> {
    pub(crate) fn all(&self) -> &[u8] {
        start(&self.numbers, self.n)
    }
}

// The value of a digit.
fn digit(b: u8) -> Option<u8> {
    match b {
        b'0'..=b'9' => Some(b - b'0'),
        b'A'..=b'F' => Some(b - b'A' + 10),
        _ => None,
    }
}

// What two digits write.
fn number(digits: &[u8], base: Base) -> u8 {
    let base = base as u8;
    digits.iter().fold(0u8, |n, b| {
        n.wrapping_mul(base).wrapping_add(digit(*b).unwrap_or(0))
    })
}

// The numbers as far as the first character that is neither a digit nor a blank.
pub(crate) fn read_field<const N: usize>(line: &[u8], base: Base) -> Field<'_, N> {
    let end = line
        .iter()
        .position(|b| *b != b' ' && digit(*b).is_none())
        .unwrap_or(line.len());
    let mut numbers = [0; N];
    let mut n = 0;
    let words = start(line, end)
        .split(|b| *b == b' ')
        .filter(|word| !word.is_empty());
    for ((i, place), word) in numbers.iter_mut().enumerate().zip(words) {
        *place = number(word, base);
        n = i + 1;
    }
    let behind = rest(line, end);
    Field {
        numbers,
        n,
        mark: behind.first().copied().unwrap_or(0),
        rest: rest(behind, 1),
    }
}

// Every line is a case, and says what it must give.
pub(crate) fn cases<F: FnMut(&[u8]) -> bool>(text: &[u8], mut case: F) -> Tally
    requires { F.IsAlwaysCallable case }
{
    let mut t = none();
    for line in text.split_inclusive(|b| *b == b'\n') {
        t = t.with(case(line));
    }
    t
}
