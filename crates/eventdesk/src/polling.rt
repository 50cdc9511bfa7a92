// Polls of the tool's devices. Each call of the library is lent the rows that the table has.
use desk::expected::refused_frame;
use desk::fault::Fault;
use desk::number::last_four;
use desk::part::{lent, slots_length, start_of};
use desk::say::{Page, one};
use desk::state::{Desk, FILL, FULL, Queues, Table};
use desk::texts::Text;
use desk::{say, texts};
use eventrequests::EventRequest;
use polls::Polled;
use refusal::Refusal;

// The request that the rest of a line is.
pub(crate) fn request_at(line: &[u8], at: usize) -> Result<EventRequest, Fault> {
    let four = last_four(line, at, true)?;
    Ok(EventRequest {
        minimum: four.first,
        most: four.second,
        confirmed: four.third,
        flag: four.fourth,
    })
}

pub(crate) fn poll(rt: &impl Print, line: &[u8], at: usize, d: Desk) -> Desk {
    match request_at(line, at) {
        Ok(request) => ask(rt, Asked::Poll(request), b"", d),
        Err(why) => d.wrong(rt, why),
    }
}

// What the devices are asked: a request, or a raw frame.
#[derive(Clone, Copy)]
pub(crate) enum Asked {
    Poll(EventRequest),
    Frame,
}

pub(crate) fn ask(rt: &impl Print, asked: Asked, frame: &[u8], d: Desk) -> Desk {
    let mut answer = [FILL; FULL];
    let table = d.table;
    let queues = d.queues;
    let after = asking(asked, frame, table, queues, lent(&mut answer, d.room));
    let left = after.queues;
    let polled = after.polled;
    d.with_queues(left, say_polled(rt, polled, frame, &answer, d.page))
}

// What a poll gave, and the queues that it left.
#[derive(Clone, Copy)]
struct After {
    queues: Queues,
    polled: Result<Polled, Refusal>,
}

fn asking(asked: Asked, frame: &[u8], table: Table, queues: Queues, answer: &mut [u8]) -> After {
    let rows = table.rows;
    let mut flags = queues.flags;
    let mut lasts = queues.lasts;
    let mut counts = queues.counts;
    let mut slots = queues.slots;
    let polled = response(
        asked,
        frame,
        table,
        lent(&mut flags, rows),
        lent(&mut lasts, rows),
        lent(&mut counts, rows),
        lent(&mut slots, slots_length(rows)),
        answer,
    );
    let left = Queues {
        flags,
        lasts,
        counts,
        slots,
    };
    After {
        queues: left,
        polled,
    }
}

fn response(
    asked: Asked,
    frame: &[u8],
    table: Table,
    flags: &mut [u8],
    lasts: &mut [u8],
    counts: &mut [u8],
    slots: &mut [u8],
    answer: &mut [u8],
) -> Result<Polled, Refusal> {
    let rows = table.rows;
    let serials = table.serials;
    let addresses = table.addresses;
    let marks = table.marks;
    let s = start_of(&serials, rows);
    let a = start_of(&addresses, rows);
    let m = start_of(&marks, rows);
    match asked {
        Asked::Poll(request) => {
            polls::poll(request, s, a, m, flags, lasts, counts, slots, answer)
        }
        Asked::Frame => polls::offer(frame, s, a, m, flags, lasts, counts, slots, answer),
    }
}

fn say_polled(
    rt: &impl Print,
    polled: Result<Polled, Refusal>,
    frame: &[u8],
    answer: &[u8],
    page: Page,
) -> Page {
    match polled {
        Ok(
            Polled::Packet {
                skipped,
                length,
                ..
            },
        ) => say_answer(rt, skipped, start_of(answer, length), page),
        Ok(
            Polled::Nothing {
                skipped,
                length,
                ..
            },
        ) => say_answer(rt, skipped, start_of(answer, length), page),
        Ok(Polled::Silent) => texts::plain(rt, page, Text::Silence),
        Err(why) => refused_frame(rt, page, why, frame),
    }
}

// An answer, and below it how many FF it begins with.
fn say_answer(rt: &impl Print, skipped: usize, answer: &[u8], page: Page) -> Page {
    let said = say::named(rt, page, Text::Answer, answer);
    texts::filled(rt, said, Text::SkippedBelow, one(skipped as u64))
}
