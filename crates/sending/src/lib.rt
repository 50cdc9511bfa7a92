// Telegrams written as they go on the wire: the logical bytes are put together, the check byte
// behind them, and all of it is expanded into the lent output.
#![tactic(auto)]

ghost use Rattle.std.specs.Prelude.{◌≡◌, ◌++◌, ◌+◌, ◌<◌, ◌≤◌, length, take};
ghost use mathlib.Mathlib.Logic.Function.Defs.{id};
ghost use Rattle.refusal.specs.Output.{bytes, fitting, Wrote};
ghost use Rattle.escapes.specs.Escape.{expanded};
ghost use Rattle.telegram.specs.Telegram.{command_head, command_room, longest};
ghost use Rattle.sending.specs.Sending.{closed, command_output, reply_output};

use addresses::{is_initiator, is_reserved};
use checkbyte::ebus_check;
use escapes::expand;
use lists::put;
use refusal::{DESTINATION_WRONG, LENGTH_OVER, Refusal, SOURCE_WRONG, refused};
use telegram::{COMMAND_HEAD, COMMAND_ROOM, LONGEST, REPLY_HEAD};

// The first n bytes of a head, and the data behind them.
fn with_data(head: [u8; COMMAND_ROOM], n: usize, payload: &[u8]) -> [u8; COMMAND_ROOM]
    requires { (n ≤ command_head) × (length payload.now ≤ longest) }
    ensures { take (n + length payload.now) result ≡ take n head ++ payload.now }
{
    let mut body = head;
    put(payload, &mut body[n..]);
    body
}

// The first n bytes with their check byte, expanded.
fn send(body: [u8; COMMAND_ROOM], n: usize, out: &mut [u8]) -> Result<usize, Refusal>
    requires { n < command_room }
    ensures { Wrote id (fitting (length out.old) (bytes (expanded (closed (take n body))))) result out.old out.new }
{
    let mut telegram = body;
    telegram[n] = ebus_check(&body[..n]);
    let end = n + 1;
    expand(&telegram[..end], out)
}

// Writes a command: 6, 7, 8, then 1 if its exact wire length exceeds the output. The output starts
// with the raw bytes and keeps the rest; on a refusal it is as it was.
pub fn write_command(
    source: u8,
    destination: u8,
    primary: u8,
    secondary: u8,
    payload: &[u8],
    out: &mut [u8],
) -> Result<usize, Refusal>
    ensures { Wrote id (fitting (length out.old) (command_output source destination primary secondary payload.now)) result out.old out.new }
{
    if !is_initiator(source) {
        return refused(SOURCE_WRONG, 0);
    }
    if is_reserved(destination) {
        return refused(DESTINATION_WRONG, 0);
    }
    let n = payload.len();
    if LONGEST < n {
        return refused(LENGTH_OVER, 0);
    }
    let mut head = [0u8; COMMAND_ROOM];
    head[0] = source;
    head[1] = destination;
    head[2] = primary;
    head[3] = secondary;
    head[4] = n as u8;
    send(
        with_data(head, COMMAND_HEAD, payload),
        COMMAND_HEAD + n,
        out,
    )
}

// Writes a reply: 8, then 1 if its exact wire length exceeds the output. The output starts with the
// raw bytes and keeps the rest; on a refusal it is as it was.
pub fn write_reply(payload: &[u8], out: &mut [u8]) -> Result<usize, Refusal>
    ensures { Wrote id (fitting (length out.old) (reply_output payload.now)) result out.old out.new }
{
    let n = payload.len();
    if LONGEST < n {
        return refused(LENGTH_OVER, 0);
    }
    let mut head = [0u8; COMMAND_ROOM];
    head[0] = n as u8;
    send(with_data(head, REPLY_HEAD, payload), REPLY_HEAD + n, out)
}
