// The arguments behind `capture`.
use desk::part::start_of;
use std::env::{Env, FillError};

// Room for an argument. What is longer names no file.
pub(crate) const ARGUMENT: usize = 4096;

// Which exchanges have a line, and whether help is asked; the places among the arguments of the file
// and of the first one that is not taken.
#[derive(Clone, Copy)]
pub(crate) struct Asked {
    pub(crate) accepted: bool,
    pub(crate) refused: bool,
    pub(crate) help: bool,
    pub(crate) file: Option<usize>,
    pub(crate) wrong: Option<usize>,
}

// The first argument is the program's name, and the second `capture`.
const FIRST: usize = 2;

pub(crate) fn read(rt: &impl Env) -> Asked {
    let mut asked = Asked {
        accepted: true,
        refused: true,
        help: false,
        file: None,
        wrong: None,
    };
    for i in FIRST..usize::MAX {
        let mut store = [0u8; ARGUMENT];
        match argument_at(rt, i, &mut store) {
            Some(argument) => asked = asked.with(i, argument),
            None => return asked,
        }
    }
    asked
}

// The argument at this place, where there is one. What has no room counts as empty.
pub(crate) fn argument_at<'a>(
    rt: &impl Env,
    i: usize,
    store: &'a mut [u8; ARGUMENT],
) -> Option<&'a [u8]> {
    match rt.arg(i, store) {
        Ok(n) => Some(start_of(store, n)),
        Err(FillError::TooLong) => Some(start_of(store, 0)),
        Err(FillError::NotPresent) => None,
    }
}

impl Asked {
    // The argument at this place too. One file is named; what else begins with `-` is no option.
    fn with(mut self, i: usize, argument: &[u8]) -> Asked {
        match argument {
            b"--refused" => self.accepted = false,
            b"--summary" => {
                self.accepted = false;
                self.refused = false;
            }
            b"--help" | b"-h" => self.help = true,
            _ if self.file.is_some() || begins_with_dash(argument) => {
                self.wrong = self.wrong.or(Some(i));
            }
            _ => self.file = Some(i),
        }
        self
    }
}

// `-` alone is standard input.
fn begins_with_dash(name: &[u8]) -> bool {
    matches!(name, [b'-', _, ..])
}
