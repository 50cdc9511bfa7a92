// What was wrong with a line that can't be read, and where.
use crate::say::{Page, two};
use crate::texts::Text;
use crate::{say, texts};

// What can be wrong.
#[derive(Clone, Copy, PartialEq, Eq)]
pub enum Wrong {
    UnknownCommand,
    Missing,
    Extra,
    NotHex,
    HalfByte,
    TooManyBytes,
    TooManyDigits,
    NotNumber,
    TooLarge,
    NotRequest,
    TableFull,
    LineTooLong,
    NotUrgency,
    NoRow,
    NotLetter,
    NothingBefore,
    NothingBehind,
    NotSwitch,
    NoMeaning,
}

// .. and at which offset in the line.
#[derive(Clone, Copy)]
pub struct Fault {
    pub what: Wrong,
    pub at: usize,
}

impl Wrong {
    pub fn at(self, at: usize) -> Fault {
        Fault { what: self, at }
    }

    fn words(self) -> &'static str {
        match self {
            Wrong::UnknownCommand => "no such command; help lists the commands",
            Wrong::Missing => "a word is missing",
            Wrong::Extra => "a word too many",
            Wrong::NotHex => "not a hexadecimal digit",
            Wrong::HalfByte => "half a byte",
            Wrong::TooManyBytes => "more than 8192 bytes",
            Wrong::TooManyDigits => "too many digits",
            Wrong::NotNumber => "not a decimal digit",
            Wrong::TooLarge => "number too large",
            Wrong::NotRequest => "neither start nor continue",
            Wrong::TableFull => "the table has 256 rows already",
            Wrong::LineTooLong => "line longer than 65535 bytes",
            Wrong::NotUrgency => "neither urgent nor normal",
            Wrong::NoRow => "no such row",
            Wrong::NotLetter => "none of R, S, N, W, K, I, n",
            Wrong::NothingBefore => "no byte before this separator",
            Wrong::NothingBehind => "no byte behind this separator",
            Wrong::NotSwitch => "neither on nor off",
            Wrong::NoMeaning => "no such number",
        }
    }
}

// The answer to a line that can't be read. Lines and columns count from 1.
pub(crate) fn say_fault(rt: &impl Print, page: Page, why: Fault, line: u64) -> Page {
    let a = texts::plain(rt, page, Text::Error);
    let b = say::put(rt, a, why.what.words().as_bytes());
    let column = (why.at as u64).saturating_add(1);
    texts::filled(rt, b, Text::ErrorEnd, two(line, column))
}
