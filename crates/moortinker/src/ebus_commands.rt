// The commands of eBUS. Each is one call of the library.
use addresses::ExchangeKind;
use desk::expected::refused_run;
use desk::fault::Fault;
use desk::number::{Four, four_bytes, last_byte};
use desk::part::{lent, start_of};
use desk::say::{Page, one, three};
use desk::state::{Desk, FILL, FULL};
use desk::texts::Text;
use desk::{hex, say, texts};
use exchange::judge::Accepted;
use refusal::Refusal;

pub(crate) fn check(rt: &impl Print, input: &[u8], page: Page) -> Page {
    let byte = checkbyte::ebus_check(input);
    texts::filled(rt, page, Text::EbusCheck, one(byte as u64))
}

pub(crate) fn expand(rt: &impl Print, input: &[u8], room: usize, page: Page) -> Page {
    let mut out = [FILL; FULL];
    let w = escapes::expand(input, lent(&mut out, room));
    say::written(rt, page, w, &out)
}

pub(crate) fn undo(rt: &impl Print, input: &[u8], room: usize, page: Page) -> Page {
    let mut out = [FILL; FULL];
    let w = escapes::undo(input, lent(&mut out, room));
    say::written(rt, page, w, &out)
}

pub(crate) fn write_reply(rt: &impl Print, input: &[u8], room: usize, page: Page) -> Page {
    let mut out = [FILL; FULL];
    let w = sending::write_reply(input, lent(&mut out, room));
    say::written(rt, page, w, &out)
}

pub(crate) fn kind(rt: &impl Print, line: &[u8], at: usize, d: Desk) -> Desk {
    match last_byte(line, at) {
        Ok(destination) => {
            let said = texts::plain(rt, d.page, kind_text(addresses::kind(destination)));
            d.with_page(say::byte(rt, said, b'\n'))
        }
        Err(why) => d.wrong(rt, why),
    }
}

fn kind_text(k: ExchangeKind) -> Text {
    match k {
        ExchangeKind::Broadcast => Text::Broadcast,
        ExchangeKind::InitiatorInitiator => Text::InitiatorInitiator,
        ExchangeKind::InitiatorTarget => Text::InitiatorTarget,
    }
}

// ---- the judge

pub(crate) fn judge(rt: &impl Print, run: &[u8], room: usize, page: Page) -> Page {
    let mut command = [FILL; FULL];
    let mut first = [FILL; FULL];
    let mut second = [FILL; FULL];
    let judged = exchange::judge::judge(
        run,
        lent(&mut command, room),
        lent(&mut first, room),
        lent(&mut second, room),
    );
    say_judged(
        rt,
        judged,
        run,
        0,
        start_of(&command, room),
        start_of(&first, room),
        start_of(&second, room),
        page,
    )
}

// `before` bytes were heard before those of the run.
pub(crate) fn say_judged<'a>(
    rt: &impl Print,
    judged: Result<Accepted, Refusal>,
    run: &'a [u8],
    before: usize,
    command: &'a [u8],
    first: &'a [u8],
    second: &'a [u8],
    page: Page,
) -> Page {
    match judged {
        Err(why) => refused_run(rt, page, why, run, before),
        Ok(exchange) => {
            let replies = exchange.reply_attempts;
            let a = texts::plain(rt, page, Text::Accepted);
            let b = texts::plain(rt, a, kind_text(exchange.kind));
            let commands = exchange.command_attempts as u64;
            let attempts = three(commands, replies as u64, exchange.read as u64);
            let c = texts::filled(rt, b, Text::Attempts, attempts);
            let d = telegram(rt, Text::Command, command, 4, c);
            say_replies(rt, first, second, replies, d)
        }
    }
}

// How long the telegram at the start of a buffer is, whose LEN stands at this place: LEN, its data
// and the check byte stand behind those before it.
fn telegram_length(buffer: &[u8], at: usize) -> usize {
    match buffer.get(at) {
        Some(len) => at + 2 + *len as usize,
        None => 0,
    }
}

// A line with the telegram at the start of a buffer.
fn telegram(rt: &impl Print, name: Text, buffer: &[u8], at: usize, page: Page) -> Page {
    let n = telegram_length(buffer, at);
    say::named(rt, page, name, start_of(buffer, n))
}

// The replies that happened, and the data of the one that was acknowledged.
fn say_replies<'a>(
    rt: &impl Print,
    first: &'a [u8],
    second: &'a [u8],
    replies: u8,
    page: Page,
) -> Page {
    let data = replies::reply_data(first, second, replies);
    if replies < 1 {
        return say::named(rt, page, Text::Data, data);
    }
    let a = telegram(rt, Text::Reply1, first, 0, page);
    if replies < 2 {
        return say::named(rt, a, Text::Data, data);
    }
    let b = telegram(rt, Text::Reply2, second, 0, a);
    say::named(rt, b, Text::Data, data)
}

// ---- writing a command: SRC, DST, PB and SB, then the data

// .. and how many bytes the data has, which is put at the start of the output.
fn command_at(line: &[u8], at: usize, out: &mut [u8]) -> Result<(Four, usize), Fault> {
    let (head, data_at) = four_bytes(line, at, true)?;
    let n = hex::bytes(line, data_at, out)?;
    Ok((head, n))
}

pub(crate) fn write_command(rt: &impl Print, line: &[u8], at: usize, d: Desk) -> Desk {
    let mut store = [0u8; hex::MOST];
    match command_at(line, at, &mut store) {
        Ok((head, n)) => {
            let data = start_of(&store, n);
            d.with_page(write_whole(rt, head, data, d.room, d.page))
        }
        Err(why) => d.wrong(rt, why),
    }
}

fn write_whole(rt: &impl Print, head: Four, data: &[u8], room: usize, page: Page) -> Page {
    let mut out = [FILL; FULL];
    let w = sending::write_command(
        head.first,
        head.second,
        head.third,
        head.fourth,
        data,
        lent(&mut out, room),
    );
    say::written(rt, page, w, &out)
}
