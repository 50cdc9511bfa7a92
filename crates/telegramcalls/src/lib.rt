// Telegrams and exchanges on eBUS for C.
#![tactic(auto)]

ghost use Rattle.std.specs.Prelude.{◌≡◌, length};
ghost use Rattle.refusal.specs.Output.{fitting, Wrote};
ghost use Rattle.telegram.specs.Telegram.{telegram_at, check_right};
ghost use Rattle.sending.specs.Sending.{command_output, reply_output};
ghost use Rattle.exchange.specs.View.{Judges};
ghost use Rattle.exchange.specs.Exchange.{judged};
ghost use Rattle.replies.specs.Data.{empty_start, part_in, part_of};
ghost use Rattle.boundary.specs.ForC.{telegram_for_c, by_value_for_c, part_for_c, written_for_c, judged_for_c};

use boundary::{MoorJudged, MoorPart, MoorTelegram, MoorWritten, judged_for_c, written_for_c};
use refusal::Refusal;
use telegram::{COMMAND_ROOM, Telegram};

// A telegram by value, as an answer.
fn telegram_for_c(x: Result<Telegram, Refusal>) -> MoorTelegram
    ensures { result ≡ by_value_for_c x }
{
    match x {
        Ok(t) => {
            let bytes = t.bytes;
            MoorTelegram {
                number: 0,
                place: 0,
                length: t.len,
                last: t.last,
                next: t.next,
                bytes,
            }
        }
        Err(why) => {
            let bytes = [0u8; COMMAND_ROOM];
            MoorTelegram {
                number: why.number,
                place: why.place,
                length: 0,
                last: 0,
                next: 0,
                bytes,
            }
        }
    }
}

// The command, or else the reply, at a position of the run; its check byte is not judged.
#[unsafe(no_mangle)]
pub extern "C" fn moor_telegram_at(run: &[u8], command: bool, at: usize) -> MoorTelegram
    ensures { result ≡ telegram_for_c (telegram_at command run.now at) }
{
    telegram_for_c(telegram::telegram_at(run, command, at))
}

// Whether the last byte is the check byte of those before it.
#[unsafe(no_mangle)]
pub extern "C" fn moor_check_right(telegram: &[u8]) -> bool
    ensures { result ≡ check_right telegram.now }
{
    telegram::check_right(telegram)
}

// Writes a command: 6, 7, 8, then 1 if its exact wire length exceeds the output.
#[unsafe(no_mangle)]
pub extern "C" fn moor_write_command(
    source: u8,
    destination: u8,
    primary: u8,
    secondary: u8,
    payload: &[u8],
    out: &mut [u8],
) -> MoorWritten
    ensures { Wrote written_for_c (fitting (length out.old) (command_output source destination primary secondary payload.now)) result out.old out.new }
{
    written_for_c(sending::write_command(source, destination, primary, secondary, payload, out))
}

// Writes a reply: 8, then 1 if its exact wire length exceeds the output.
#[unsafe(no_mangle)]
pub extern "C" fn moor_write_reply(payload: &[u8], out: &mut [u8]) -> MoorWritten
    ensures { Wrote written_for_c (fitting (length out.old) (reply_output payload.now)) result out.old out.new }
{
    written_for_c(sending::write_reply(payload, out))
}

// Judges a recorded run from its start into buffers of at least 22, 18 and 18 bytes.
#[unsafe(no_mangle)]
pub extern "C" fn moor_judge(
    run: &[u8],
    command: &mut [u8],
    reply_1: &mut [u8],
    reply_2: &mut [u8],
) -> MoorJudged
    ensures { Judges judged_for_c (judged run.now (length command.old) (length reply_1.old) (length reply_2.old)) result command.old command.new reply_1.old reply_1.new reply_2.old reply_2.new }
{
    judged_for_c(exchange::judge::judge(run, command, reply_1, reply_2))
}

// The empty start of the first buffer.
fn empty_start() -> MoorPart
    ensures { result ≡ part_for_c empty_start }
{
    MoorPart {
        attempt: 1,
        start: 0,
        length: 0,
    }
}

// Where the data stands in the buffer of an attempt.
fn part_in(attempt: u8, buffer: &[u8]) -> MoorPart
    ensures { result ≡ part_for_c (part_in attempt buffer.now) }
{
    if replies::holds_data(buffer) {
        return MoorPart {
            attempt,
            start: 1,
            length: buffer[0] as usize,
        };
    }
    empty_start()
}

// Where the data of the reply attempt asked for stands, in the buffers that the judge filled: C cannot
// take a part of a slice.
#[unsafe(no_mangle)]
pub extern "C" fn moor_reply_data(reply_1: &[u8], reply_2: &[u8], attempt: u8) -> MoorPart
    ensures { result ≡ part_for_c (part_of reply_1.now reply_2.now attempt) }
{
    if attempt == 1 {
        return part_in(1, reply_1);
    }
    if attempt == 2 {
        return part_in(2, reply_2);
    }
    empty_start()
}
