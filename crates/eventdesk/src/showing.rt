// The queues of the devices, and events, shown.
use crate::reasons;
use crate::reasons::Rule;
use desk::part::{slots_at, slots_length, start_of};
use desk::say::{Page, one, three};
use desk::state::{Desk, MOST_ROWS, Queues, Table};
use desk::texts::Text;
use desk::{say, texts};
use lists::byte_at;
use queues::{MOST_QUEUED, SLOT_LENGTH};

pub(crate) fn show(rt: &impl Print, d: Desk) -> Desk {
    let table = d.table;
    let rows = table.rows;
    let queues = d.queues;
    let head = say_valid(rt, valid(table, queues), &reasons::OF_QUEUES, d);
    d.with_page(say_queues(rt, rows, table, queues, head))
}

// Whether the devices are valid, and if not, why: the first of these rules that fails.
pub fn say_valid(rt: &impl Print, valid: bool, rules: &[Rule], d: Desk) -> Page {
    let rows = d.table.rows;
    if valid {
        return texts::filled(rt, d.page, Text::Valid, one(rows as u64));
    }
    let head = texts::filled(rt, d.page, Text::NotValid, one(rows as u64));
    reasons::say(rt, rules, &d.table, &d.queues, head)
}

// Whether table and queues are valid.
fn valid(table: Table, queues: Queues) -> bool {
    let rows = table.rows;
    let serials = table.serials;
    let addresses = table.addresses;
    let marks = table.marks;
    let flags = queues.flags;
    let lasts = queues.lasts;
    let counts = queues.counts;
    let slots = queues.slots;
    queues::valid_queues(
        start_of(&serials, rows),
        start_of(&addresses, rows),
        start_of(&marks, rows),
        start_of(&flags, rows),
        start_of(&lasts, rows),
        start_of(&counts, rows),
        start_of(&slots, slots_length(rows)),
    )
}

// The queues of the first n rows.
fn say_queues(rt: &impl Print, n: usize, table: Table, queues: Queues, page: Page) -> Page {
    let mut p = page;
    for i in 0..n {
        p = say_queue(rt, i, table, queues, p);
    }
    p
}

fn say_queue(rt: &impl Print, i: usize, table: Table, queues: Queues, page: Page) -> Page {
    if MOST_ROWS <= i {
        return page;
    }
    let id = table.addresses[i];
    let count = queues.counts[i];
    let slots = queues.slots;
    let head = say_row(rt, id, queues.flags[i], queues.lasts[i], count, page);
    say_slots(rt, count, slots_at(&slots, i), head)
}

fn say_row(rt: &impl Print, id: u8, flag: u8, last: u8, count: u8, page: Page) -> Page {
    let a = texts::filled(rt, page, Text::QueueOf, one(id as u64));
    let numbers = three(flag as u64, last as u64, count as u64);
    texts::filled(rt, a, Text::Queue, numbers)
}

// The first n slots of a device; there are 8.
fn say_slots(rt: &impl Print, n: u8, slots: &[u8], page: Page) -> Page {
    let mut p = page;
    for i in 0..n {
        p = say_slot(rt, i, slots, p);
    }
    p
}

// A slot says first whether its event is urgent, and then has the event as it goes on the wire.
fn say_slot(rt: &impl Print, i: u8, slots: &[u8], page: Page) -> Page {
    if MOST_QUEUED <= i {
        return page;
    }
    let at = SLOT_LENGTH * i as usize;
    let line = if byte_at(slots, at) == 0 {
        Text::EventNormal
    } else {
        Text::EventUrgent
    };
    say_event(rt, line, slots, at + 1, page)
}

// A line with the event at a position. Where there is none, nothing is said.
pub(crate) fn say_event(rt: &impl Print, line: Text, input: &[u8], at: usize, page: Page) -> Page {
    let Some(event) = events::event_at(input, at) else {
        return page;
    };
    let id = event.identifier as u64;
    let numbers = three(event.kind as u64, id / 256, id);
    let said = texts::filled(rt, page, line, numbers);
    say::ended(rt, said, events::event_data(input, at))
}
