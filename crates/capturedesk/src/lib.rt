// The capture command: every exchange of a capture judged and reported, a line each, and a summary.
//
// The capture is read in runs of 64 bytes through the byte-fed judge, and only the stretch in hand is
// kept, so that a capture of any size takes the same memory.
#![tactic(auto)]

mod arguments;
mod counts;
mod input;
mod page;
mod report;
mod summary;
mod walk;

use crate::arguments::{ARGUMENT, Asked, argument_at};
use desk::aside::{tell, tell_failure};
use desk::part::start_of;
use std::env::{Env, FillError};
use std::fs::File;
use std::io;
use std::io::Error;

// The system's numbers for what can be wrong with the name of a file: it is not there, it is too long, or
// it is no text.
const NOT_THERE: i32 = 22;

const TOO_LONG: i32 = 36;

const NO_TEXT: i32 = 84;

// Obeys the arguments behind `capture`: a file, and which of its exchanges are said.
pub fn from_arguments(rt: &HostRuntime) {
    let asked = arguments::read(rt);
    if let Some(i) = asked.wrong {
        not_taken(rt, i);
        return;
    }
    if asked.help {
        if let Err(why) = usage(rt) {
            tell_failure(&rt.stderr(), b"moortinker: cannot write", why);
        }
        return;
    }
    let Some(file) = asked.file else {
        let _ = usage(&rt.stderr());
        return;
    };
    let mut path = [0u8; ARGUMENT];
    match rt.arg(file, &mut path) {
        Ok(n) => named(rt, start_of(&path, n), asked),
        Err(FillError::TooLong) => nameless(rt, TOO_LONG),
        Err(FillError::NotPresent) => nameless(rt, NOT_THERE),
    }
}

fn usage(to: &impl Print) -> io::Result<()> {
    to.write_all(
        b"moortinker capture FILE [--refused] [--summary]
  judges every exchange of a capture, a file of raw bytes; - is standard input
  --refused  only the refused exchanges have a line
  --summary  no exchange has a line
",
    )
}

// The argument at this place is named, on standard error.
fn not_taken(rt: &HostRuntime, i: usize) {
    let to = rt.stderr();
    let mut store = [0u8; ARGUMENT];
    tell(&to, b"moortinker: capture takes no ");
    tell(&to, argument_at(rt, i, &mut store).unwrap_or(b""));
    tell(&to, b"\n");
    let _ = usage(&to);
}

// The name of the file can't be had.
fn nameless(rt: &HostRuntime, why: i32) {
    tell_failure(
        &rt.stderr(),
        b"moortinker: capture",
        Error::from_raw_os_error(why),
    );
}

// `-` is standard input.
fn named(rt: &HostRuntime, path: &[u8], asked: Asked) {
    if matches!(path, b"-") {
        input::report(rt, &mut rt.stdin(), b"standard input", asked);
        return;
    }
    match opened(rt, path) {
        Ok(mut file) => input::report(rt, &mut file, path, asked),
        Err(why) => tell_failure(&rt.stderr(), path, why),
    }
}

// A file is opened by a name that is text.
fn opened(rt: &HostRuntime, path: &[u8]) -> io::Result<File> {
    match std::str::from_utf8(path) {
        Ok(name) => File::open(rt, name),
        Err(_) => Err(Error::from_raw_os_error(NO_TEXT)),
    }
}
