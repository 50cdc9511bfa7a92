// Bytes as they arrive: a recording in cuts is held to what judging it at once gives.
use exchange::judge::judge;
use listening::Listening;
use tally::part::{FILL, rest, start};
use tally::{Tally, none};

// How many bytes the recording below has.
const LENGTH: usize = 58;

// It starts in idle time, with each piece that SYN throws away. The command is NACKed and comes again,
// and so does the reply; both have A9 and AA, and so has a check byte.
fn recording() -> [u8; LENGTH] {
    *b"\xAA\xA9\xAA\x31\xAA\x10\xA9\xAA\xAA\x10\x08\xB5\x09\x04\xA9\x00\xA9\x01\x58\x55\xA8\xFF\x10\x08\xB5\x09\x04\xA9\x00\xA9\x01\x58\x55\xA9\x00\x00\x05\xA9\x01\xA9\x00\x00\x25\xFF\x13\xFF\x05\xA9\x01\xA9\x00\x00\x25\xFF\xA9\x00\x00\xAA"
}

// Whether a state gives for a run, and leaves in the buffers, what judging the run at once does.
fn closes_as_judged(state: Listening, run: &[u8]) -> bool {
    let mut c = [FILL; 24];
    let mut f = [FILL; 20];
    let mut s = [FILL; 20];
    let judged = judge(run, &mut c, &mut f, &mut s);
    let mut command = [FILL; 24];
    let mut first = [FILL; 20];
    let mut second = [FILL; 20];
    let closed = closing::close(state, &mut command, &mut first, &mut second);
    closed.answer == judged && command == c && first == f && second == s
}

// A run in three: as far as a position, so many bytes more, and all others.
fn in_three(run: &[u8], at: usize, more: usize) -> bool {
    let behind = rest(run, at);
    let a = feeding::feed(listening::listen(), start(run, at));
    let b = feeding::feed(a.state, start(behind, more));
    let c = feeding::feed(b.state, rest(behind, more));
    closes_as_judged(c.state, run)
}

// The recording in every two cuts, one of them or both at its ends too.
pub(crate) fn every_two_cuts() -> Tally {
    let run = recording();
    let mut t = none();
    for at in 0..=LENGTH {
        for more in 0..=LENGTH {
            t = t.with(in_three(&run, at, more));
        }
    }
    t
}

// Every start of the recording, in runs: number 3 for each that is not whole.
pub(crate) fn every_prefix() -> Tally {
    let run = recording();
    let mut t = none();
    for n in 0..=LENGTH {
        t = t.with(in_three(&run[..n], n / 2, n));
    }
    t
}

// One byte a run, and what was used in all.
pub(crate) fn one_by_one() -> Tally {
    let run = recording();
    let mut state = listening::listen();
    let mut t = none();
    for byte in run {
        let fed = feeding::feed(state, &[byte]);
        t = t.with(fed.used == 1);
        state = fed.state;
    }
    let last = feeding::feed(state, &run);
    t.with(last.used == 0)
        .with(closes_as_judged(last.state, &run))
}
