// Captures: the bytes of a bus over any time, exchange after exchange (rules E22 and E23).
//
// A raw AA is always SYN, and an exchange holds none before its end. So the stretch in which the next
// exchange stands begins behind idle time and goes on through the next SYN, whether the exchange is
// accepted or refused there, or was refused before.
#![tactic(auto)]

ghost use Rattle.std.specs.Prelude.{◌≡◌};
ghost use Rattle.captures.specs.Capture.{through_syn, next_exchange};

use beginning::command_start;
use escapes::SYN;

// A part of a capture: where it starts, and the position behind it.
#[repr(C)]
#[derive(Clone, Copy)]
pub struct Stretch {
    pub start: usize,
    pub end: usize,
}

// How many bytes of a run there are through its first SYN; all of them where it has none.
#[tactic(auto, using(crate::proofs::Through::from_here))]
pub fn through_syn(run: &[u8]) -> usize
    ensures { result ≡ through_syn run.now }
{
    for (at, byte) in run.iter().enumerate() {
        if *byte == SYN {
            return at + 1;
        }
    }
    run.len()
}

// The stretch of the next exchange of a capture, from a position on: behind idle time, and through the
// next SYN or to the capture's end. Where no exchange is left, and behind the capture's end, it starts
// and ends at the capture's end.
pub fn next_exchange(capture: &[u8], at: usize) -> Stretch
    ensures { result ≡ next_exchange capture.now at }
{
    let from = at.min(capture.len());
    let start = from + command_start(&capture[from..]);
    let end = start + through_syn(&capture[start..]);
    Stretch { start, end }
}
