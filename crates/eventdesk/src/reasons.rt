// Why devices are not valid: the first rule that fails, in the order of D1 and D10, and the first row
// at which it does.
use desk::part::slots_at;
use desk::say::{Numbers, Page, one, three, two};
use desk::state::{Queues, Table};
use desk::texts;
use desk::texts::Text;
use events::is_id;
use framing::SERIAL_LIMIT;
use lists::byte_at;
use queues::{MOST_DATA, MOST_QUEUED, SLOT_LENGTH};
use table::MOST_DEVICES;

// The rules on rows.
#[derive(Clone, Copy)]
pub enum Rule {
    Serial,
    SerialOnce,
    Mark,
    Address,
    AddressOnce,
    Flag,
    Queue,
}

// Those that are asked of a table, and of queues, in their order.
pub const OF_TABLE: [Rule; 3] = [Rule::Serial, Rule::SerialOnce, Rule::Mark];

pub const OF_QUEUES: [Rule; 7] = [
    Rule::Serial,
    Rule::SerialOnce,
    Rule::Mark,
    Rule::Address,
    Rule::AddressOnce,
    Rule::Flag,
    Rule::Queue,
];

// A text, and the numbers that it is filled with.
#[derive(Clone, Copy)]
struct Reason {
    text: Text,
    numbers: Numbers,
}

fn because(text: Text, numbers: Numbers) -> Option<Reason> {
    Some(Reason { text, numbers })
}

// Says which of these rules fails, and closes the bracket.
pub fn say(rt: &impl Print, rules: &[Rule], table: &Table, queues: &Queues, page: Page) -> Page {
    let rows = table.rows;
    if MOST_DEVICES < rows {
        return texts::filled(rt, page, Text::RowsOver, one(rows as u64));
    }
    match first_reason(rules, table, queues) {
        Some(why) => texts::filled(rt, page, why.text, why.numbers),
        None => texts::plain(rt, page, Text::RefusedEnd),
    }
}

// What is wrong by the first of these rules that fails, at the first row where it does.
fn first_reason(rules: &[Rule], table: &Table, queues: &Queues) -> Option<Reason> {
    for rule in rules {
        for row in 0..table.rows {
            let reason = reason_at(*rule, row, table, queues);
            if reason.is_some() {
                return reason;
            }
        }
    }
    None
}

// What is wrong with this row by this rule, if anything is.
fn reason_at(rule: Rule, row: usize, table: &Table, queues: &Queues) -> Option<Reason> {
    let at = row as u64;
    let serial = *table.serials.get(row)?;
    let address = *table.addresses.get(row)?;
    let mark = *table.marks.get(row)?;
    let flag = *queues.flags.get(row)?;
    match rule {
        Rule::Serial if serial >= SERIAL_LIMIT => {
            because(Text::SerialOver, two(at, serial as u64))
        }
        Rule::SerialOnce => {
            let first = earlier(&table.serials, row)? as u64;
            because(Text::SerialTwice, three(at, serial as u64, first))
        }
        Rule::Mark if mark > 1 => because(Text::MarkWrong, two(at, mark as u64)),
        Rule::Address if !is_id(address) => because(Text::AddressWrong, two(at, address as u64)),
        Rule::AddressOnce => {
            let first = earlier(&table.addresses, row)? as u64;
            because(Text::AddressTwice, three(at, address as u64, first))
        }
        Rule::Flag if flag > 1 => because(Text::FlagWrong, two(at, flag as u64)),
        Rule::Queue => queue_reason(row, queues),
        _ => None,
    }
}

// The first row before this one that has the same in a column.
fn earlier<T: PartialEq>(column: &[T], row: usize) -> Option<usize> {
    let same = column.get(row)?;
    column.iter().take(row).position(|x| x == same)
}

fn queue_reason(row: usize, queues: &Queues) -> Option<Reason> {
    let at = row as u64;
    let count = *queues.counts.get(row)?;
    let last = *queues.lasts.get(row)?;
    if MOST_QUEUED < count {
        return because(Text::QueuedOver, two(at, count as u64));
    }
    if count < last {
        return because(Text::LastOver, three(at, last as u64, count as u64));
    }
    let wrong = first_wrong(slots_at(&queues.slots, row), count)? as u64;
    because(Text::SlotWrong, two(at, wrong))
}

// The first of so many slots that does not hold an event.
fn first_wrong(slots: &[u8], count: u8) -> Option<usize> {
    let mut queued = slots.chunks_exact(SLOT_LENGTH).take(count as usize);
    queued.position(|slot| byte_at(slot, 0) > 1 || byte_at(slot, 1) as usize > MOST_DATA)
}
