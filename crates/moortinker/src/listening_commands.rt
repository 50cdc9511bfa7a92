// Bytes as they arrive: the tool holds one listening state.
use crate::ebus_commands::say_judged;
use desk::heard::Heard;
use desk::part::{lent, start_of};
use desk::say::{Page, one};
use desk::state::{Desk, FILL, FULL};
use desk::texts::Text;
use desk::{heard, texts};
use exchange::judge::Accepted;
use refusal::Refusal;

pub(crate) fn listen(rt: &impl Print, d: Desk) -> Desk {
    d.with_listening(listening::listen(), d.page)
        .with_heard(heard::nothing())
        .ok(rt)
}

// How many bytes of this run were used, and whether the answer is known now.
pub(crate) fn feed(rt: &impl Print, run: &[u8], d: Desk) -> Desk {
    let fed = feeding::feed(d.listening, run);
    let state = fed.state;
    let heard = d.heard.and(start_of(run, fed.used));
    let said = if listening::has_answered(state) {
        Text::UsedAnswered
    } else {
        Text::UsedListening
    };
    let page = texts::filled(rt, d.page, said, one(fed.used as u64));
    d.with_listening(state, page).with_heard(heard)
}

// What the judge says of the bytes used so far.
pub(crate) fn close(rt: &impl Print, d: Desk) -> Desk {
    let mut command = [FILL; FULL];
    let mut first = [FILL; FULL];
    let mut second = [FILL; FULL];
    let closed = closing::close(
        d.listening,
        lent(&mut command, d.room),
        lent(&mut first, d.room),
        lent(&mut second, d.room),
    );
    let answer = closed.answer;
    let state = closed.state;
    let page = say_closed(
        rt,
        answer,
        d.heard,
        start_of(&command, d.room),
        start_of(&first, d.room),
        start_of(&second, d.room),
        d.page,
    );
    d.with_listening(state, page)
}

fn say_closed<'a>(
    rt: &impl Print,
    answer: Result<Accepted, Refusal>,
    heard: Heard,
    command: &'a [u8],
    first: &'a [u8],
    second: &'a [u8],
    page: Page,
) -> Page {
    let bytes = heard.bytes;
    let run = start_of(&bytes, heard.kept);
    say_judged(rt, answer, run, heard.before, command, first, second, page)
}
