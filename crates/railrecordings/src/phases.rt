// Every four calls on a device behind each other, held to a table of what is answered and remembered.
use crate::device::{Call, Device, Due, fresh};
use lists::byte_at;
use relay::Remembered;
use tally::{Tally, none};

// The calls: three writes that differ in data or register, one to an absent register and one to a
// register that may only be read; reads of the registers that are written, of another, of the absent one
// and of one that may only be written; a sync; two packets that a device sends; a write to another
// address; the finish.
const CALLS: [Call; 16] = [
    Some(b"RP93W010000000400"),
    Some(b"RP93W010000000500"),
    Some(b"RP93W020000000400"),
    Some(b"RP93W050000000400"),
    Some(b"RP93W060000000400"),
    Some(b"RP93R0100"),
    Some(b"RP93R0200"),
    Some(b"RP93R0300"),
    Some(b"RP93R0500"),
    Some(b"RP93R0700"),
    Some(b"RP93S0500"),
    Some(b"RP93I010000000400"),
    Some(b"RP93N0100"),
    Some(b"RP93n010000000400"),
    Some(b"RP92W010000000400"),
    None,
];

// A line for each write that is remembered: none, one of the first three that is running, or one of them
// that has finished. A column for each call: the letter of its answer, the line for what is remembered
// then, the register that is named and the value, where @ is 10. A star is any answer, a dash none.
// It is one text, read by offset with 80 characters a line and 5 a column, so that it can be read in columns.
const TABLE: &[u8] =
    b"n111 n211 n321 N050 n067 *000 *000 K030 N050 n077 n05@ -000 -000 -000 -000 -000
n112 n118 n128 N150 n167 *100 *100 K130 N150 n177 n158 -100 -100 -100 -100 I414
n218 n212 n228 N250 n267 *200 *200 K230 N250 n277 n258 -200 -200 -200 -200 I515
n318 n318 n322 N350 n367 *300 *300 K330 N350 n377 n358 -300 -300 -300 -300 I624
n413 n211 n321 N450 n467 K414 *400 K430 N450 n477 n05@ -400 -400 -400 -400 -400
n111 n513 n321 N550 n567 K515 *500 K530 N550 n577 n05@ -500 -500 -500 -500 -500
n111 n211 n623 N650 n667 *600 K624 K630 N650 n677 n05@ -600 -600 -600 -600 -600";

fn due_by(letter: u8) -> Due {
    match letter {
        b'*' => Due::Any,
        b'-' => Due::Silence,
        _ => Due::Packet(letter),
    }
}

// A device, the table's line for what it remembers, and whether all was right so far.
#[derive(Clone, Copy)]
struct Run {
    device: Device,
    line: usize,
    right: bool,
}

impl Run {
    // One call more, the kth.
    fn with(self, k: usize, call: Call) -> Run {
        let mut device = self.device;
        device.call(call);
        let at = self.line % 7 * 80 + k % 16 * 5;
        let value = (u32::from(byte_at(TABLE, at + 3)) + 16) % 64;
        let register = byte_at(TABLE, at + 2) % 16;
        let right = device.gave(due_by(byte_at(TABLE, at)), register, value);
        Run {
            device,
            line: usize::from(byte_at(TABLE, at + 1) % 16),
            right: self.right && right,
        }
    }

    // Every two calls more, with those before all right.
    fn each_two(self, from: Tally) -> Tally {
        let mut t = from;
        for (i, first) in CALLS.into_iter().enumerate() {
            let one = self.with(i, first);
            for (k, second) in CALLS.into_iter().enumerate() {
                t = t.with(one.with(k, second).right);
            }
        }
        t
    }
}

pub(crate) fn four_calls() -> Tally {
    let run = Run {
        device: fresh(Remembered::Idle, 3),
        line: 0,
        right: true,
    };
    let mut t = none();
    for (i, first) in CALLS.into_iter().enumerate() {
        let one = run.with(i, first);
        for (k, second) in CALLS.into_iter().enumerate() {
            t = one.with(k, second).each_two(t);
        }
    }
    t
}
