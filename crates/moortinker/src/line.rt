// Lines of standard input, of any length and however it arrives.
//
// The input buffer holds what was read and not yet obeyed. A line that does not fit into it is
// passed over to its end.
ghost use Rattle.std.specs.Prelude.{◌≤◌, length};

use std::io::Read;

#[derive(Clone, Copy)]
pub(crate) struct Window {
    // The bytes of the input buffer from `from` to `to` are still to be obeyed.
    pub(crate) from: usize,
    pub(crate) to: usize,
    // Whether the line that they begin was too long and its rest is passed over.
    pub(crate) skipping: bool,
}

pub(crate) fn new() -> Window {
    Window {
        from: 0,
        to: 0,
        skipping: false,
    }
}

impl Window {
    // The line that ends at this newline is done.
    pub(crate) fn past(self, newline: usize) -> Window {
        Window {
            from: newline.saturating_add(1),
            to: self.to,
            skipping: false,
        }
    }

    // The part of a line that is there stands at the front, and this many bytes are there.
    pub(crate) fn holding(self, to: usize) -> Window {
        Window {
            from: 0,
            to,
            skipping: self.skipping,
        }
    }

    // The line is too long: what is there of it is passed over, and so will be the rest.
    pub(crate) fn too_long(self) -> Window {
        Window {
            from: 0,
            to: 0,
            skipping: true,
        }
    }
}

// A line without a carriage return before its newline.
pub(crate) fn trimmed(line: &[u8]) -> &[u8] {
    match line {
        [rest @ .., b'\r'] => rest,
        _ => line,
    }
}

// Moves the bytes from `from` to `to` to the front, and answers how many there are.
pub(crate) fn move_down(input: &mut [u8], from: usize, to: usize) -> usize {
    let to = to.min(input.len());
    let from = from.min(to);
    input.copy_within(from..to, 0);
    to - from
}

// Reads behind the first `held` bytes, and answers how many bytes are there then: no more where the
// input has ended.
pub(crate) fn read_behind(from: &mut impl Read, input: &mut [u8], held: usize) -> usize {
    if input.len() <= held {
        return held;
    }
    held + read_into(from, &mut input[held..])
}

// Reads once. An input that can't be read has ended.
fn read_into(from: &mut impl Read, free: &mut [u8]) -> usize
    ensures { result ≤ length free.old }
{
    from.read(free).unwrap_or(0)
}
