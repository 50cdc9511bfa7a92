// The tool's table, and the devices' side of a scan over it. Each call of the library is lent the
// rows that the table has.
use desk::expected::refused_frame;
use desk::fault::{Fault, Wrong};
use desk::number::{eight_digits, last_number, one_byte};
use desk::part::{lent, start_of};
use desk::say::{Page, one, three, two};
use desk::state::{Desk, FILL, FULL, MOST_ROOM, MOST_ROWS, Table};
use desk::texts::Text;
use desk::{hex, say, texts};
use devices::Scanned;
use eventdesk::reasons::OF_TABLE;
use eventdesk::showing::say_valid;
use refusal::Refusal;

// A mark of any byte can be tried.
const MOST_MARK: u64 = 255;

// ---- the table

// A row as a line has it.
#[derive(Clone, Copy)]
struct Row {
    serial: u32,
    address: u8,
    mark: u8,
}

fn row_at(line: &[u8], at: usize) -> Result<Row, Fault> {
    let (serial, address_at) = eight_digits(line, at)?;
    let (address, mark_at) = one_byte(line, address_at)?;
    let mark = last_number(line, mark_at, MOST_MARK)?;
    Ok(Row {
        serial,
        address,
        mark: (mark % 256) as u8,
    })
}

pub(crate) fn device(rt: &impl Print, line: &[u8], at: usize, d: Desk) -> Desk {
    match row_at(line, at) {
        Ok(row) => {
            let mut table = d.table;
            let n = table.rows;
            if MOST_ROWS <= n {
                return d.wrong_at(rt, Wrong::TableFull, at);
            }
            table.serials[n] = row.serial;
            table.addresses[n] = row.address;
            table.marks[n] = row.mark;
            table.rows = n + 1;
            d.with_table(table).ok(rt)
        }
        Err(why) => d.wrong(rt, why),
    }
}

pub(crate) fn show(rt: &impl Print, d: Desk) -> Desk {
    let table = d.table;
    let rows = table.rows;
    let serials = table.serials;
    let addresses = table.addresses;
    let marks = table.marks;
    let s = start_of(&serials, rows);
    let a = start_of(&addresses, rows);
    let m = start_of(&marks, rows);
    let head = say_valid(rt, table::valid(s, a, m), &OF_TABLE, d);
    d.with_page(say_rows(rt, rows, s, a, m, head))
}

// The first n rows. A row of the table has a mark. A device that a scan found has none.
fn say_rows<'a>(
    rt: &impl Print,
    n: usize,
    serials: &'a [u32],
    addresses: &'a [u8],
    marks: &'a [u8],
    page: Page,
) -> Page {
    let mut p = page;
    for (i, (serial, address)) in serials.iter().zip(addresses.iter()).take(n).enumerate() {
        p = match marks.get(i) {
            Some(mark) => say_marked(rt, *serial, *address, *mark, p),
            None => say_found(rt, *serial, *address, p),
        };
    }
    p
}

fn say_found(rt: &impl Print, serial: u32, address: u8, page: Page) -> Page {
    texts::filled(rt, page, Text::RowFound, two(serial as u64, address as u64))
}

fn say_marked(rt: &impl Print, serial: u32, address: u8, mark: u8, page: Page) -> Page {
    let row = three(serial as u64, address as u64, mark as u64);
    texts::filled(rt, page, Text::RowMarked, row)
}

// ---- requests

// What the devices are asked: a request, or a raw frame.
#[derive(Clone, Copy)]
pub(crate) enum Asked {
    Start,
    Continue,
    Frame,
}

pub(crate) fn request(rt: &impl Print, asked: Asked, d: Desk) -> Desk {
    ask(rt, asked, b"", d)
}

fn ask(rt: &impl Print, asked: Asked, frame: &[u8], d: Desk) -> Desk {
    let mut answer = [FILL; FULL];
    let table = d.table;
    let mut marks = table.marks;
    let a = response(
        asked,
        frame,
        table,
        lent(&mut marks, table.rows),
        lent(&mut answer, d.room),
    );
    let page = say_answer(rt, a, frame, &answer, d.page);
    d.with_table(table.with_marks(marks)).with_page(page)
}

pub(crate) fn offer(rt: &impl Print, line: &[u8], at: usize, d: Desk) -> Desk {
    let mut store = [0u8; hex::MOST];
    match hex::bytes(line, at, &mut store) {
        Ok(n) => ask(rt, Asked::Frame, start_of(&store, n), d),
        Err(why) => d.wrong(rt, why),
    }
}

fn response(
    asked: Asked,
    frame: &[u8],
    table: Table,
    marks: &mut [u8],
    answer: &mut [u8],
) -> Result<Option<usize>, Refusal> {
    let rows = table.rows;
    let serials = table.serials;
    let addresses = table.addresses;
    let s = start_of(&serials, rows);
    let a = start_of(&addresses, rows);
    match asked {
        Asked::Start => devices::start(s, a, marks, answer),
        Asked::Continue => devices::resume(s, a, marks, answer),
        Asked::Frame => devices::offer(frame, s, a, marks, answer),
    }
}

fn say_answer(
    rt: &impl Print,
    a: Result<Option<usize>, Refusal>,
    frame: &[u8],
    answer: &[u8],
    page: Page,
) -> Page {
    match a {
        Ok(Some(n)) => say::named(rt, page, Text::Answer, start_of(answer, n)),
        Ok(None) => texts::plain(rt, page, Text::Silence),
        Err(why) => refused_frame(rt, page, why, frame),
    }
}

// ---- a whole scan

pub(crate) fn scan(rt: &impl Print, line: &[u8], at: usize, d: Desk) -> Desk {
    match last_number(line, at, u64::MAX) {
        Ok(cap) => {
            let after = scanned(rt, cap as usize, d.table, d.room, d.page);
            d.with_table(after.table).with_page(after.page)
        }
        Err(why) => d.wrong(rt, why),
    }
}

// The table that a scan left, and the page with what it said.
#[derive(Clone, Copy)]
struct AfterScan {
    table: Table,
    page: Page,
}

fn scanned(rt: &impl Print, cap: usize, table: Table, room: usize, page: Page) -> AfterScan {
    let mut found_serials = [0x5A5A5A5Au32; MOST_ROOM];
    let mut found_addresses = [FILL; MOST_ROOM];
    let rows = table.rows;
    let serials = table.serials;
    let addresses = table.addresses;
    let mut marks = table.marks;
    let s = devices::scan(
        start_of(&serials, rows),
        start_of(&addresses, rows),
        lent(&mut marks, rows),
        lent(&mut found_serials, room),
        lent(&mut found_addresses, room),
        cap,
    );
    AfterScan {
        table: table.with_marks(marks),
        page: say_scan(rt, s, &found_serials, &found_addresses, page),
    }
}

// How a scan ended: the text for it, with how many requests were sent, how many FF stood before its
// answers and how many devices were heard.
#[derive(Clone, Copy)]
struct Ending {
    text: Text,
    requests: usize,
    skipped: usize,
    heard: usize,
}

fn ended(text: Text, requests: usize, skipped: usize, heard: usize) -> Ending {
    Ending {
        text,
        requests,
        skipped,
        heard,
    }
}

// A complete scan has heard one device fewer than it sent requests: the last was answered by the
// end. An unfinished one has heard a device at each request.
fn say_scan<'a>(
    rt: &impl Print,
    s: Result<Scanned, Refusal>,
    serials: &'a [u32],
    addresses: &'a [u8],
    page: Page,
) -> Page {
    match s {
        Ok(Scanned::Complete { requests, skipped }) => {
            let heard = if requests == 0 { 0 } else { requests - 1 };
            let e = ended(Text::Complete, requests, skipped, heard);
            say_ending(rt, e, serials, addresses, page)
        }
        Ok(Scanned::Nobody { requests, skipped }) => {
            let e = ended(Text::Nobody, requests, skipped, 0);
            say_ending(rt, e, serials, addresses, page)
        }
        Ok(Scanned::Unfinished { requests, skipped }) => {
            let e = ended(Text::Unfinished, requests, skipped, requests);
            say_ending(rt, e, serials, addresses, page)
        }
        Err(why) => say::refused(rt, page, why),
    }
}

fn say_ending<'a>(
    rt: &impl Print,
    e: Ending,
    serials: &'a [u32],
    addresses: &'a [u8],
    page: Page,
) -> Page {
    let sent = texts::filled(rt, page, e.text, one(e.requests as u64));
    let said = say::skipped(rt, sent, e.skipped);
    say_rows(rt, e.heard, serials, addresses, b"", said)
}
