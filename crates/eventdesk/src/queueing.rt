// What puts events into the tool's queues, and what sets a row of them as it stands.
ghost use Rattle.std.specs.Prelude.{◌≤◌};

use desk::fault::{Fault, Wrong};
use desk::number::{Four, four_digits, last_four, one_byte};
use desk::part::{lent, slots_length, start_of};
use desk::state::{Desk, Queues, Table};
use desk::{hex, say, word};
use queues::{MOST_QUEUED, SLOT_LENGTH, SLOTS_LENGTH};
use refusal::Refusal;

// ---- a new event

// What a line says of an event before its data: the id of its device, and what it is.
#[derive(Clone, Copy)]
struct Head {
    id: u8,
    urgent: bool,
    kind: u8,
    identifier: u16,
}

// Whether the next word from `at` on is urgent, or normal.
fn urgency(line: &[u8], at: usize) -> Result<(bool, usize), Fault> {
    let w = word::due(line, at)?;
    match word::part(line, w.from, w.to) {
        b"normal" => Ok((false, w.to)),
        b"urgent" => Ok((true, w.to)),
        _ => Err(Wrong::NotUrgency.at(w.from)),
    }
}

// What is said before the data, and where that begins.
fn head_at(line: &[u8], at: usize) -> Result<(Head, usize), Fault> {
    let (id, urgent_at) = one_byte(line, at)?;
    let (urgent, kind_at) = urgency(line, urgent_at)?;
    let (kind, identifier_at) = one_byte(line, kind_at)?;
    let (identifier, data_at) = four_digits(line, identifier_at)?;
    let head = Head {
        id,
        urgent,
        kind,
        identifier,
    };
    Ok((head, data_at))
}

// .. and how many bytes the data has, which is put at the start of the output.
fn event_at(line: &[u8], at: usize, out: &mut [u8]) -> Result<(Head, usize), Fault> {
    let (head, data_at) = head_at(line, at)?;
    let n = hex::bytes(line, data_at, out)?;
    Ok((head, n))
}

pub(crate) fn event(rt: &impl Print, line: &[u8], at: usize, d: Desk) -> Desk {
    let mut store = [0u8; hex::MOST];
    match event_at(line, at, &mut store) {
        Ok((head, n)) => add(rt, head, start_of(&store, n), d),
        Err(why) => d.wrong(rt, why),
    }
}

fn add(rt: &impl Print, head: Head, data: &[u8], d: Desk) -> Desk {
    let table = d.table;
    let queues = d.queues;
    let after = with_event(head, data, table, queues);
    let left = after.queues;
    let added = after.added;
    say_added(rt, added, d.with_queues(left, d.page))
}

// What a new event gave, and the queues that it left.
#[derive(Clone, Copy)]
struct After {
    queues: Queues,
    added: Result<(), Refusal>,
}

fn with_event(head: Head, data: &[u8], table: Table, queues: Queues) -> After {
    let rows = table.rows;
    let mut counts = queues.counts;
    let mut slots = queues.slots;
    let added = put(
        head,
        data,
        table,
        queues,
        lent(&mut counts, rows),
        lent(&mut slots, slots_length(rows)),
    );
    let mut left = queues;
    left.counts = counts;
    left.slots = slots;
    After {
        queues: left,
        added,
    }
}

fn put(
    head: Head,
    data: &[u8],
    table: Table,
    queues: Queues,
    counts: &mut [u8],
    slots: &mut [u8],
) -> Result<(), Refusal> {
    let rows = table.rows;
    let serials = table.serials;
    let addresses = table.addresses;
    let marks = table.marks;
    let flags = queues.flags;
    let lasts = queues.lasts;
    newevents::add_event(
        start_of(&serials, rows),
        start_of(&addresses, rows),
        start_of(&marks, rows),
        start_of(&flags, rows),
        start_of(&lasts, rows),
        counts,
        slots,
        head.id,
        head.urgent,
        head.kind,
        head.identifier,
        data,
    )
}

fn say_added(rt: &impl Print, added: Result<(), Refusal>, d: Desk) -> Desk {
    match added {
        Ok(()) => d.ok(rt),
        Err(why) => d.with_page(say::refused(rt, d.page, why)),
    }
}

// ---- a row as it stands

// The row, its flag, its last packet and how many events are queued.
pub(crate) fn stored(rt: &impl Print, line: &[u8], at: usize, d: Desk) -> Desk {
    match last_four(line, at, false) {
        Ok(four) => {
            if d.table.rows <= four.first as usize {
                let w = word::next(line, at);
                return d.wrong_at(rt, Wrong::NoRow, w.from);
            }
            d.with_queues(with_row(four, d.queues), d.page).ok(rt)
        }
        Err(why) => d.wrong(rt, why),
    }
}

// The slots behind those that were queued become normal events of type 0 and identifier 0, with no
// data.
fn with_row(four: Four, queues: Queues) -> Queues {
    let row = four.first as usize;
    let mut flags = queues.flags;
    let mut lasts = queues.lasts;
    let mut counts = queues.counts;
    let mut slots = queues.slots;
    let kept = queued_length(counts[row]);
    clear(&mut slots, SLOTS_LENGTH * row + kept, SLOTS_LENGTH - kept);
    flags[row] = four.second;
    lasts[row] = four.third;
    counts[row] = four.fourth;
    Queues {
        flags,
        lasts,
        counts,
        slots,
    }
}

// How many bytes the slots of so many events have, at most those of a device.
fn queued_length(count: u8) -> usize
    ensures { result ≤ 104 }
{
    SLOT_LENGTH * count.min(MOST_QUEUED) as usize
}

// Makes n bytes from a position on 0.
fn clear(slots: &mut [u8], from: usize, n: usize) {
    for byte in slots.iter_mut().skip(from).take(n) {
        *byte = 0;
    }
}
