// The devices' answer as the bytes that it puts on the bus.
ghost use Rattle.std.specs.Prelude.{◌≡◌, ◌≤◌, ◌<◌, length};
ghost use Rattle.lists.specs.Starting.{starting};
ghost use Rattle.devices.specs.Calls.{answer_bytes, response_to, answer_room};
ghost use Rattle.turns.specs.Request.{windows};
ghost use Rattle.table.specs.Table.{serial_limit};
ghost use Rattle.turns.specs.declared.Answer.TheVariants.{Found, End};
ghost use Rattle.turns.specs.Inner.{Writable};

use answers::put_fill;
use framing::{END_LENGTH, FOUND_LENGTH};
use turns::Answer;

// One FF for each dominant window, then the frame of a device found. There is room for both, so the
// frame is written whole.
fn write_found(dominant: usize, serial: u32, address: u8, answer: &mut [u8]) -> usize
    requires { (dominant ≤ windows) × (serial < serial_limit) × (answer_room ≤ length answer.old) }
    ensures { (result ≡ length (answer_bytes (Found dominant serial address))) × (answer.new ≡ starting (answer_bytes (Found dominant serial address)) answer.old) }
{
    put_fill(dominant, answer);
    let _ = answers::write_found(serial, address, &mut answer[dominant..]);
    dominant + FOUND_LENGTH
}

// The same with the frame that ends a scan.
fn write_end(dominant: usize, answer: &mut [u8]) -> usize
    requires { (dominant ≤ windows) × (answer_room ≤ length answer.old) }
    ensures { (result ≡ length (answer_bytes (End dominant))) × (answer.new ≡ starting (answer_bytes (End dominant)) answer.old) }
{
    put_fill(dominant, answer);
    let _ = answers::write_end(&mut answer[dominant..]);
    dominant + END_LENGTH
}

// Writes the answer, and says how many bytes it has: silence has none.
pub(crate) fn write(heard: Answer, answer: &mut [u8]) -> Option<usize>
    requires { Writable heard × (answer_room ≤ length answer.old) }
    ensures { (result ≡ response_to heard) × (answer.new ≡ starting (answer_bytes heard) answer.old) }
{
    match heard {
        Answer::Silence => None,
        Answer::Found {
            dominant,
            serial,
            address,
        } => Some(write_found(dominant, serial, address, answer)),
        Answer::End { dominant } => Some(write_end(dominant, answer)),
    }
}
