// The desk tool: reads commands from standard input, one a line, and writes what the proved library
// answers.
#![tactic(auto)]

mod commands;
mod device_commands;
mod ebus_commands;
mod help;
mod line;
mod listening_commands;
mod modbus_commands;

use desk::aside::{tell, tell_failure};
use desk::fault::Wrong;
use desk::part::start_of;
use desk::state::Desk;
use desk::{say, state, word};
use line::Window;
use std::env::{Env, FillError};
use std::io::{IsTerminal, Read};

// Room for the argument that the program was started with. What is longer is not taken.
const ARGUMENT: usize = 4096;

// Room for what was read and is not yet obeyed.
const INPUT: usize = 65536;

// What the loop over lines carries. `over` says that there is no more to do.
#[derive(Clone, Copy)]
struct State {
    window: Window,
    desk: Desk,
    over: bool,
}

fn main(rt: HostRuntime) {
    let mut first = [0u8; ARGUMENT];
    match rt.arg(1, &mut first) {
        Ok(n) => started_with(&rt, start_of(&first, n)),
        Err(FillError::TooLong) => started_with(&rt, b""),
        Err(FillError::NotPresent) => session(&rt),
    }
}

// What the program was started with says what it does.
fn started_with(rt: &HostRuntime, argument: &[u8]) {
    match argument {
        b"capture" => capturedesk::from_arguments(rt),
        b"--help" | b"-h" | b"help" => usage(rt),
        _ => not_taken(&rt.stderr(), argument),
    }
}

fn usage(rt: &HostRuntime) {
    let d = state::new();
    finish(rt, d.with_page(help::usage(rt, d.page)));
}

// Another argument is named, on standard error.
fn not_taken(to: &impl Print, argument: &[u8]) {
    tell(to, b"moortinker: no such argument: ");
    tell(to, argument);
    tell(to, b"; moortinker --help says what it takes\n");
}

// A person at a terminal is told what the commands are, and prompted.
fn greeted(rt: &HostRuntime, d: Desk) -> Desk {
    if rt.stdin().is_terminal() {
        return d.with_page(help::greet(rt, d.page)).prompting();
    }
    d
}

// What waits is written out. Where that fails, or has failed, the reason is said on standard error.
fn finish(rt: &HostRuntime, d: Desk) {
    if let Some(why) = d.written_out(rt).failure() {
        tell_failure(&rt.stderr(), b"moortinker: cannot write", why);
    }
}

// A proved loop has to end, and nothing says that the input does. So it takes a number of turns that no
// run uses up.
fn session(rt: &HostRuntime) {
    let mut from = rt.stdin();
    let mut input = [0u8; INPUT];
    let mut s = State {
        window: line::new(),
        desk: greeted(rt, state::new()),
        over: false,
    };
    for _ in 0..u64::MAX {
        s = turn(rt, s, &mut from, &mut input);
        if s.over {
            finish(rt, s.desk);
            return;
        }
    }
}

// Obeys the next line where it is there whole, and otherwise reads more.
fn turn(rt: &impl Print, s: State, from: &mut impl Read, input: &mut [u8]) -> State {
    let window = s.window;
    let to = window.to;
    let end = word::end_of(input, window.from, to);
    if end < to {
        let desk = obey(rt, window, end, s.desk, input);
        return State {
            window: window.past(end),
            desk: desk.past_line(),
            over: desk.over || desk.failed(),
        };
    }
    let next = more(rt, s, from, input);
    if next.over {
        return last(rt, next, input);
    }
    next
}

// Reads more behind the part of a line that is there. What was answered so far is written out
// first, so that a person at a terminal sees it before the tool waits.
fn more(rt: &impl Print, s: State, source: &mut impl Read, input: &mut [u8]) -> State {
    let window = s.window;
    let desk = prompted(rt, window, s.desk).written_out(rt);
    if desk.failed() {
        return State {
            window: line::new(),
            desk,
            over: true,
        };
    }
    let from = if window.skipping {
        window.to
    } else {
        window.from
    };
    let held = line::move_down(input, from, window.to);
    if input.len() <= held {
        return State {
            window: window.too_long(),
            desk: desk.wrong_at(rt, Wrong::LineTooLong, 0),
            over: false,
        };
    }
    let to = line::read_behind(source, input, held);
    State {
        window: window.holding(to),
        desk,
        over: to <= held,
    }
}

// A person is prompted where a line begins.
fn prompted(rt: &impl Print, window: Window, d: Desk) -> Desk {
    if window.skipping {
        return d;
    }
    if window.from < window.to {
        return d;
    }
    if d.prompt {
        return d.with_page(say::put(rt, d.page, b"> "));
    }
    d
}

// The prompt that was not followed by a line is ended.
fn unprompted(rt: &impl Print, d: Desk) -> Desk {
    if d.prompt {
        return d.with_page(say::byte(rt, d.page, b'\n'));
    }
    d
}

// The input has ended: what is left is a line without its newline.
fn last(rt: &impl Print, s: State, input: &[u8]) -> State {
    let window = s.window;
    let desk = obey(rt, window, window.to, s.desk, input);
    State {
        window,
        desk: unprompted(rt, desk),
        over: true,
    }
}

// Obeys the line that ends at `end`, unless the rest of one that is too long is passed over.
fn obey(rt: &impl Print, window: Window, end: usize, d: Desk, input: &[u8]) -> Desk {
    if window.skipping {
        return d;
    }
    let line = word::part(input, window.from, end);
    commands::answer(rt, line::trimmed(line), d)
}
