// Where the command of a recording starts (rule E21): behind any number of pieces that a SYN ended
// before two logical bytes had come.
#![tactic(auto)]

ghost use Rattle.std.specs.Prelude.{◌≡◌, ◌++◌, ◌-◌, ◌<◌, length, get_or, drop};
ghost use Rattle.beginning.specs.Beginning.{piece_of, piece, command_start, passed_over};

use addresses::is_initiator;
use escapes::{ESC, SYN};
use lists::byte_at;

// How many bytes the piece has that three bytes begin with; 0 where they begin with none.
#[tactic(auto, unfolding(crate::specs::Beginning::piece_of))]
fn piece_of(first: u8, second: u8, third: u8) -> usize
    ensures { result ≡ piece_of first second third }
{
    if first == SYN {
        return 1;
    }
    if first == ESC {
        if second == SYN {
            return 2;
        }
        return 0;
    }
    if !is_initiator(first) {
        return 0;
    }
    if second == SYN {
        return 2;
    }
    if second == ESC && third == SYN {
        return 3;
    }
    0
}

// The piece at a position. SYN alone is by far the most frequent, so that it is looked for first.
fn piece_at(run: &[u8], at: usize) -> usize
    requires { at < length run.now }
    ensures { result ≡ piece (drop at run.now) }
{
    if run[at] == SYN {
        return 1;
    }
    piece_of(run[at], byte_at(run, at + 1), byte_at(run, at + 2))
}

// How many bytes of a run stand before the command. The loop goes from piece to piece, each as long as
// `piece_at` says, so it is no count of bytes.
pub fn command_start(run: &[u8]) -> usize
    ensures { result ≡ command_start run.now }
{
    let mut at = 0;
    while at < run.len() {
        let n = piece_at(run, at);
        if n == 0 {
            return at;
        }
        at += n;
    }
    at
}

// The byte at a position of two runs, one behind the other, and 0 where there is none.
fn byte_behind(hand: &[u8], run: &[u8], at: usize) -> u8
    ensures { result ≡ get_or (hand.now ++ run.now) at 0 }
{
    if at < hand.len() {
        return hand[at];
    }
    byte_at(run, at - hand.len())
}

// How many bytes of a run end the piece that those in hand begin with; 0 where none ends there.
fn piece_behind(hand: &[u8], run: &[u8]) -> usize
    ensures { result ≡ piece (hand.now ++ run.now) - length hand.now }
{
    let n = piece_of(
        byte_behind(hand, run, 0),
        byte_behind(hand, run, 1),
        byte_behind(hand, run, 2),
    );
    n.saturating_sub(hand.len())
}

// How many bytes of a run stand before the command, where these bytes are in hand before it.
pub fn passed_over(hand: &[u8], run: &[u8]) -> usize
    ensures { result ≡ passed_over hand.now run.now }
{
    let n = piece_behind(hand, run);
    if n == 0 {
        return 0;
    }
    n + command_start(&run[n..])
}
