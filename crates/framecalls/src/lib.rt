// The scan frames of Fast Modbus for C.
#![tactic(auto)]

ghost use Rattle.std.specs.Prelude.{◌≡◌, length};
ghost use Rattle.refusal.specs.Output.{Wrote};
ghost use Rattle.requests.specs.Reading.{read_request};
ghost use Rattle.answers.specs.Reading.{read_answer};
ghost use Rattle.answers.specs.Writing.{write_found, write_end};
ghost use Rattle.boundary.specs.ForC.{written_for_c};
ghost use Rattle.scanboundary.specs.ForC.{request_for_c, answer_for_c};
ghost use Rattle.framecalls.specs.RequestNumber.{request_output};

use boundary::{MoorWritten, refused_for_c, written_for_c};
use refusal::{Refusal, SUBCOMMAND_WRONG};
use requests::Request;
use scanboundary::{CONTINUE, MoorAnswerRead, MoorRequestRead, START, answer_for_c, request_for_c};

// What a request frame asks. It must fill the whole input; nothing is passed over.
#[unsafe(no_mangle)]
pub extern "C" fn moor_read_request(input: &[u8]) -> MoorRequestRead
    ensures { result ≡ request_for_c (read_request input.now) }
{
    request_for_c(requests::read_request(input))
}

// What an answer says. Up to 32 leading FF are passed over and counted, and the frame must fill the
// rest.
#[unsafe(no_mangle)]
pub extern "C" fn moor_read_answer(input: &[u8]) -> MoorAnswerRead
    ensures { result ≡ answer_for_c (read_answer input.now) }
{
    answer_for_c(answers::read_answer(input))
}

// Writes a request frame. A request that is neither start nor continue is number 15, before the room
// is looked at.
#[unsafe(no_mangle)]
pub extern "C" fn moor_write_request(request: u8, out: &mut [u8]) -> MoorWritten
    ensures { Wrote written_for_c (request_output request (length out.old)) result out.old out.new }
{
    if request == START {
        return written_for_c(requests::write_request(Request::Start, out));
    }
    if request == CONTINUE {
        return written_for_c(requests::write_request(Request::Continue, out));
    }
    refused_for_c(Refusal {
        number: SUBCOMMAND_WRONG,
        place: 0,
    })
}

// Writes the answer of a device found: 17, then 1.
#[unsafe(no_mangle)]
pub extern "C" fn moor_write_found(serial: u32, address: u8, out: &mut [u8]) -> MoorWritten
    ensures { Wrote written_for_c (write_found serial address (length out.old)) result out.old out.new }
{
    written_for_c(answers::write_found(serial, address, out))
}

// Writes the answer that ends a scan: 1.
#[unsafe(no_mangle)]
pub extern "C" fn moor_write_end(out: &mut [u8]) -> MoorWritten
    ensures { Wrote written_for_c (write_end (length out.old)) result out.old out.new }
{
    written_for_c(answers::write_end(out))
}
