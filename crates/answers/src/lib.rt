// The answers of devices to a Fast Modbus scan, read and written.
//
// Rules F4 and F5. An answer comes behind up to 32 FF, which the reader counts. The reader takes any
// bytes and any length; what it refuses, it refuses by number and place. A writer writes the whole
// frame or nothing, and leaves the bytes behind it.
#![tactic(auto)]

ghost use Rattle.std.specs.Prelude.{◌≡◌, ◌+◌, ◌<◌, min, length, drop};
ghost use mathlib.Mathlib.Logic.Function.Defs.{id};
ghost use Rattle.refusal.specs.Output.{Wrote};
ghost use Rattle.answers.specs.Reading.{serial_of, leading_fill, before_frame, found, answer_at, read_answer};
ghost use Rattle.answers.specs.Writing.{filled, write_found, write_end};

use framing::{BROADCAST, END, EXTENDED, FOUND, SERIAL_LIMIT, head_at, write_closed};
use refusal::{FILL_OVER, Refusal, SERIAL_OVER, refused};

// The byte that a dominant window puts before an answer.
pub const FILL: u8 = 0xFF;

// No contest of devices has more dominant windows, so no answer stands behind more FF.
pub const MOST_FILL: usize = 32;

// An answer that was read: what it says, and how many FF were passed over before it.
#[derive(Clone, Copy)]
pub enum AnswerRead {
    Found {
        skipped: usize,
        serial: u32,
        address: u8,
    },
    End {
        skipped: usize,
    },
}

// ---- reading

// What a reader of answers passes over: the FF that the input begins with. It looks no further than
// the one that is too many.
pub fn before_frame(input: &[u8]) -> Result<usize, Refusal>
    ensures { result ≡ before_frame input.now }
{
    let looked_at = &input[..input.len().min(MOST_FILL + 1)];
    let fill = leading_fill(looked_at);
    if fill > MOST_FILL {
        return refused(FILL_OVER, MOST_FILL);
    }
    Ok(fill)
}

// How many FF these bytes begin with.
#[tactic(auto, unfolding(crate::specs::Reading::leading_fill))]
fn leading_fill(bytes: &[u8]) -> usize
    ensures { result ≡ leading_fill bytes.now }
{
    bytes.iter().take_while(|byte| **byte == FILL).count()
}

// Four bytes, high byte first.
#[tactic(auto, unfolding(crate::specs::Reading::serial_of))]
fn serial_at(input: &[u8], place: usize) -> u32
    requires { place + 3 < length input.now }
    ensures { result ≡ serial_of (drop place input.now) }
{
    u32::from_be_bytes([
        input[place],
        input[place + 1],
        input[place + 2],
        input[place + 3],
    ])
}

// What the frame of a device found at this position says.
fn found_at(input: &[u8], at: usize) -> Result<AnswerRead, Refusal>
    requires { at + 7 < length input.now }
    ensures { result ≡ found at (drop (at + 3) input.now) }
{
    let serial = serial_at(input, at + 3);
    if serial < SERIAL_LIMIT {
        return Ok(AnswerRead::Found {
            skipped: at,
            serial,
            address: input[at + 7],
        });
    }
    refused(SERIAL_OVER, at + 3)
}

// What an answer frame at this position says.
fn answer_at(input: &[u8], at: usize) -> Result<AnswerRead, Refusal>
    ensures { result ≡ answer_at input.now at }
{
    let subcommand = head_at(FOUND, END, input, at)?;
    if subcommand != FOUND {
        return Ok(AnswerRead::End { skipped: at });
    }
    found_at(input, at)
}

// What an answer says: a device found, with its serial and its address, or the end of the scan. Up to
// 32 FF before the frame are passed over and counted, and the frame must fill the rest.
#[tactic(auto, unfolding(crate::specs::Reading::read_answer))]
pub fn read_answer(input: &[u8]) -> Result<AnswerRead, Refusal>
    ensures { result ≡ read_answer input.now }
{
    let at = before_frame(input)?;
    answer_at(input, at)
}

// ---- writing

// Puts so many FF at the start of an output, one for each dominant window, as many as it has room
// for.
pub fn put_fill(count: usize, out: &mut [u8])
    ensures { out.new ≡ filled (min count (length out.old)) out.old }
{
    let n = count.min(out.len());
    out[..n].fill(FILL);
}

// Writes the answer of a device with this serial and this address. A serial of 2^28 or more is
// refused before the room is looked at.
pub fn write_found(serial: u32, address: u8, out: &mut [u8]) -> Result<usize, Refusal>
    ensures { Wrote id (write_found serial address (length out.old)) result out.old out.new }
{
    if serial >= SERIAL_LIMIT {
        return refused(SERIAL_OVER, 0);
    }
    let [a, b, c, d] = serial.to_be_bytes();
    let body = [BROADCAST, EXTENDED, FOUND, a, b, c, d, address];
    write_closed(&body, out)
}

// Writes the answer that ends a scan.
pub fn write_end(out: &mut [u8]) -> Result<usize, Refusal>
    ensures { Wrote id (write_end (length out.old)) result out.old out.new }
{
    let body = [BROADCAST, EXTENDED, END];
    write_closed(&body, out)
}
