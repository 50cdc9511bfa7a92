// The devices' side of a Fast Modbus scan, as a model on a perfect bus.
//
// Rules D4 to D8. The table is three lent columns. Every call checks what it
// was lent before it changes anything: the room of its outputs first, then the table, then its input.
#![tactic(auto)]

mod bus;
mod trace;
mod wire;

ghost use mathlib.Mathlib.Logic.Function.Defs.{id, const};
ghost use Rattle.std.specs.Prelude.{ℕ};
ghost use Rattle.table.specs.Table.{columns};
ghost use Rattle.devices.specs.Calls.{Gives, ask_call, start_call, continue_call, offer_call};
ghost use Rattle.devices.specs.WholeScan.{GivesScan, scan_call};

use refusal::Refusal;
use requests::Request;

// An answer buffer holds at least this: one FF for each of 32 windows, and the longest frame.
pub const ANSWER_ROOM: usize = 42;

// What a whole scan gives, with the number of requests sent and how many FF stood before all its
// answers together: the end was heard, nobody is there, or the cap was reached.
#[derive(Clone, Copy, PartialEq, Eq)]
pub enum Scanned {
    Complete { requests: usize, skipped: usize },
    Nobody { requests: usize, skipped: usize },
    Unfinished { requests: usize, skipped: usize },
}

// A request as it was read, behind the guard: a refused one gives its reader's refusal and changes
// nothing. Answers how many bytes the devices' answer has; silence has none. The three calls below are
// uses of this one.
#[tactic(auto, unfolding(crate::specs::Calls::ask_call, crate::specs::Calls::answering))]
pub fn ask(
    read: Result<Request, Refusal>,
    serials: &[u32],
    addresses: &[u8],
    marks: &mut [u8],
    answer: &mut [u8],
) -> Result<Option<usize>, Refusal>
    ensures { Gives id (ask_call read answer.old (columns serials.now addresses.now marks.old)) result answer.new (columns serials.now addresses.now marks.new) }
{
    let ok = table::valid(serials, addresses, marks);
    guard::admit(ANSWER_ROOM, answer.len(), ok)?;
    let request = read?;
    let heard = bus::respond(request, serials, addresses, marks);
    Ok(wire::write(heard, answer))
}

// A start: all marks become 0, then all devices contend.
pub fn start(
    serials: &[u32],
    addresses: &[u8],
    marks: &mut [u8],
    answer: &mut [u8],
) -> Result<Option<usize>, Refusal>
    ensures { Gives id (start_call answer.old (columns serials.now addresses.now marks.old)) result answer.new (columns serials.now addresses.now marks.new) }
{
    ask(Ok(Request::Start), serials, addresses, marks, answer)
}

// A continue: all devices contend with the marks as they stand.
pub fn resume(
    serials: &[u32],
    addresses: &[u8],
    marks: &mut [u8],
    answer: &mut [u8],
) -> Result<Option<usize>, Refusal>
    ensures { Gives id (continue_call answer.old (columns serials.now addresses.now marks.old)) result answer.new (columns serials.now addresses.now marks.new) }
{
    ask(Ok(Request::Continue), serials, addresses, marks, answer)
}

// A raw frame offered to the devices: the start or the continue that it names.
pub fn offer(
    frame: &[u8],
    serials: &[u32],
    addresses: &[u8],
    marks: &mut [u8],
    answer: &mut [u8],
) -> Result<Option<usize>, Refusal>
    ensures { Gives id (offer_call frame.now answer.old (columns serials.now addresses.now marks.old)) result answer.new (columns serials.now addresses.now marks.new) }
{
    let read = requests::read_request(frame);
    ask(read, serials, addresses, marks, answer)
}

// A whole scan of at most so many requests. The serials and addresses heard stand at the start of
// the two lists.
#[tactic(auto, unfolding(crate::specs::WholeScan::scan_call))]
pub fn scan(
    serials: &[u32],
    addresses: &[u8],
    marks: &mut [u8],
    found_serials: &mut [u32],
    found_addresses: &mut [u8],
    cap: usize,
) -> Result<Scanned, Refusal>
    ensures { GivesScan (const ℕ) (scan_call cap found_serials.old found_addresses.old (columns serials.now addresses.now marks.old)) result found_serials.new found_addresses.new (columns serials.now addresses.now marks.new) }
{
    let room = lists::smaller(found_serials.len(), found_addresses.len());
    let ok = table::valid(serials, addresses, marks);
    guard::admit(serials.len(), room, ok)?;
    let scanned = trace::run(
        serials,
        addresses,
        marks,
        found_serials,
        found_addresses,
        cap,
    );
    Ok(scanned)
}
