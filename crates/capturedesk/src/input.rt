// A capture, read to its end.
use crate::arguments::Asked;
use crate::page::{FULL, PAGE};
use crate::walk::{STRETCH, Walk};
use crate::{summary, walk};
use desk::aside::{tell, tell_failure};
use desk::part::start_of;
use spelling::LINE;
use std::io::{IsTerminal, Read};

// How many bytes the judge is fed at once.
const RUN: usize = 64;

// After each so many bytes a person who waits is told.
const OFTEN: u64 = 0x400000;

// A proved loop has to end, and nothing says that the input does. So it takes a number of turns that no
// run uses up.
pub(crate) fn report(rt: &HostRuntime, from: &mut impl Read, name: &[u8], asked: Asked) {
    let mut input = [0u8; PAGE];
    let mut page = [0u8; PAGE];
    let mut stretch = [0u8; STRETCH];
    let mut w = walk::begin();
    for _ in 0..u64::MAX {
        w = turn(
            rt,
            w,
            from,
            name,
            asked,
            &mut input,
            &mut stretch,
            &mut page,
        );
        if w.over {
            return;
        }
    }
}

// Reads once, walks over what came, and writes out what that gave, so that nobody waits for it.
fn turn(
    rt: &HostRuntime,
    w: Walk,
    from: &mut impl Read,
    name: &[u8],
    asked: Asked,
    input: &mut [u8; PAGE],
    stretch: &mut [u8; STRETCH],
    page: &mut [u8; PAGE],
) -> Walk {
    match from.read(input) {
        Err(why) => {
            tell_failure(&rt.stderr(), name, why);
            last(rt, w, false, asked, stretch, page)
        }
        Ok(0) => last(rt, w, true, asked, stretch, page),
        Ok(n) => {
            progress(rt, w.at, n as u64, asked);
            let walk = over(rt, w, start_of(input, n), asked, stretch, page);
            if walk.over {
                return walk;
            }
            written_out(rt, walk, page)
        }
    }
}

// What was read, no more than a page, in runs of 64.
fn over(
    rt: &HostRuntime,
    w: Walk,
    bytes: &[u8],
    asked: Asked,
    stretch: &mut [u8; STRETCH],
    page: &mut [u8; PAGE],
) -> Walk {
    let mut walk = w;
    for run in bytes.chunks(RUN) {
        walk::over_run(&mut walk, run, asked, stretch, page);
        if FULL < walk.waiting {
            walk = written_out(rt, walk, page);
        }
        if walk.over {
            return walk;
        }
    }
    walk
}

// Writes out what waits. An error in writing is the end.
fn written_out(rt: &HostRuntime, w: Walk, page: &[u8; PAGE]) -> Walk {
    match rt.write_all(start_of(page, w.waiting)) {
        Ok(()) => w.with_waiting(0),
        Err(why) => {
            tell_failure(&rt.stderr(), b"moortinker: cannot write", why);
            w.with_waiting(0).over(true)
        }
    }
}

// Whether a person sees standard error, and no lines of the report between.
fn is_watched(rt: &HostRuntime, asked: Asked) -> bool {
    rt.stderr().is_terminal() && !(asked.refused && rt.stdout().is_terminal())
}

// How far it is, where it takes long.
fn progress(rt: &HostRuntime, at: u64, n: u64, asked: Asked) {
    let far = at.saturating_add(n);
    if at / OFTEN == far / OFTEN {
        return;
    }
    if !is_watched(rt, asked) {
        return;
    }
    let mut line = [0u8; LINE];
    let a = spelling::byte(0, &mut line, b'\r');
    let b = spelling::decimal(a, &mut line, far / 0x100000);
    let c = spelling::text(b, &mut line, b" MiB ");
    say(&rt.stderr(), &line, c);
}

// The first n bytes of a line, to a person who waits.
fn say(to: &impl Print, line: &[u8; LINE], n: usize) {
    tell(to, start_of(line, n));
}

// What was said of how far it is goes away.
fn clear(rt: &HostRuntime, at: u64, asked: Asked) {
    if at < OFTEN {
        return;
    }
    if is_watched(rt, asked) {
        tell(&rt.stderr(), b"\r                \r");
    }
}

// The capture has ended, or can't be read further: the exchange that was going on, and the summary.
fn last(
    rt: &HostRuntime,
    w: Walk,
    whole: bool,
    asked: Asked,
    stretch: &mut [u8; STRETCH],
    page: &mut [u8; PAGE],
) -> Walk {
    clear(rt, w.at, asked);
    let mut e = w;
    e.ended(asked, stretch, page);
    let counts = e.counts;
    let waiting = summary::add(e.waiting, page, e.at, e.skipped, counts, whole);
    written_out(rt, e.with_waiting(waiting), page).over(true)
}
