// Whole scans of made tables: the answer, the number of requests, how many serials were named in
// rising order, how many devices are marked, and how many FF were passed over. Then the answers of such
// scans one by one, read back.
use answers::{AnswerRead, read_answer};
use devices::{ANSWER_ROOM, Scanned, resume, scan};
use refusal::{Refusal, refused};
use tally::part::{lent, start};
use tally::{Tally, none};

// What stays untouched in a lent list.
const FILL: u32 = 0x5A5A5A5A;

fn complete(requests: usize, skipped: usize) -> Result<Scanned, Refusal> {
    Ok(Scanned::Complete { requests, skipped })
}

fn nobody(requests: usize, skipped: usize) -> Result<Scanned, Refusal> {
    Ok(Scanned::Nobody { requests, skipped })
}

fn unfinished(requests: usize, skipped: usize) -> Result<Scanned, Refusal> {
    Ok(Scanned::Unfinished { requests, skipped })
}

// Serials in no order: all different for up to 251 devices.
fn lay_out(serials: &mut [u32], first: u32, step: u32) {
    let mut at: u32 = 0;
    for serial in serials.iter_mut() {
        *serial = at.wrapping_mul(step).wrapping_add(first);
        at = at.wrapping_add(97) % 251;
    }
}

// Whether the first n entries rise, and those behind them are as they were.
fn rising(list: &[u32], n: usize) -> bool {
    n <= list.len()
        && list[..n].iter().is_sorted_by(|a, b| a < b)
        && list[n..].iter().all(|serial| *serial == FILL)
}

// Whether as many marks are 1, and the others 0.
fn marked(marks: &[u8], n: usize) -> bool {
    marks.iter().all(|mark| *mark < 2) && marks.iter().filter(|mark| **mark == 1).count() == n
}

// Whether a scan of the first n devices, with lists of that length, under a cap answers what is due,
// names so many serials in rising order and marks as many devices.
fn scanned(
    n: usize,
    first: u32,
    step: u32,
    cap: usize,
    due: Result<Scanned, Refusal>,
    named: usize,
) -> bool {
    let mut serials = [0u32; 256];
    let addresses = [7u8; 256];
    let mut marks = [0u8; 256];
    let mut found = [FILL; 256];
    let mut at = [0x5Au8; 256];
    lay_out(&mut serials, first, step);
    let answer = scan(
        start(&serials, n),
        start(&addresses, n),
        lent(&mut marks, n),
        lent(&mut found, n),
        lent(&mut at, n),
        cap,
    );
    answer == due && rising(&found, named) && marked(&marks, named)
}

// 0, 1, 2, 9, 246, 247 and 248 devices.
pub(crate) fn sizes() -> Tally {
    none()
        .with(scanned(0, 5, 11, 1, nobody(1, 0), 0))
        .with(scanned(1, 5, 11, 2, complete(2, 56), 1))
        .with(scanned(2, 5, 11, 3, complete(3, 85), 2))
        .with(scanned(9, 5, 11, 10, complete(10, 271), 9))
        .with(scanned(246, 5, 11, 247, complete(247, 6540), 246))
        .with(scanned(247, 5, 11, 248, complete(248, 6570), 247))
        .with(scanned(248, 5, 11, 249, refused(2, 0), 0))
}

// Caps of 0, 1, n, n + 1 and n + 2.
pub(crate) fn caps() -> Tally {
    none()
        .with(scanned(9, 5, 11, 0, unfinished(0, 0), 0))
        .with(scanned(9, 5, 11, 1, unfinished(1, 30), 1))
        .with(scanned(9, 5, 11, 9, unfinished(9, 245), 9))
        .with(scanned(9, 5, 11, 10, complete(10, 271), 9))
        .with(scanned(9, 5, 11, 11, complete(10, 271), 9))
        .with(scanned(247, 5, 11, 247, unfinished(247, 6544), 247))
        .with(scanned(0, 5, 11, 0, unfinished(0, 0), 0))
}

// Serials that differ in the last bit only, in the highest only, from 0 and up to 0FFFFFFF; 10000000
// and serials that stand twice.
pub(crate) fn serials() -> Tally {
    none()
        .with(scanned(200, 0, 1, 201, complete(201, 5643), 200))
        .with(scanned(2, 0, 0x08000000, 3, complete(3, 91), 2))
        .with(scanned(200, 0x0FFFFF05, 1, 201, complete(201, 1598), 200))
        .with(scanned(1, 0x0FFFFFFF, 1, 2, complete(2, 4), 1))
        .with(scanned(1, 0x10000000, 1, 2, refused(2, 0), 0))
        .with(scanned(2, 0x0FFFFFFF, 1, 3, refused(2, 0), 0))
        .with(scanned(2, 5, 0, 3, refused(2, 0), 0))
}

// One FF is heard for each zero bit of 32 in a winner's key. Serial 0 has the most before it is scanned,
// and 0FFFFFFF none once it is. Of 00000005, 00000430 and 0000085B there are 30, 29 and 26, and 26 again
// before the end. Nobody has none, whatever the cap.
pub(crate) fn fill() -> Tally {
    none()
        .with(scanned(1, 0, 1, 1, unfinished(1, 32), 1))
        .with(scanned(1, 0, 1, 2, complete(2, 60), 1))
        .with(scanned(1, 0x0FFFFFFF, 1, 1, unfinished(1, 4), 1))
        .with(scanned(1, 0x0FFFFFFF, 1, 2, complete(2, 4), 1))
        .with(scanned(3, 5, 11, 0, unfinished(0, 0), 0))
        .with(scanned(3, 5, 11, 1, unfinished(1, 30), 1))
        .with(scanned(3, 5, 11, 3, unfinished(3, 85), 3))
        .with(scanned(3, 5, 11, 4, complete(4, 111), 3))
        .with(scanned(0, 5, 11, 9, nobody(1, 0), 0))
}

// ---- answers one by one

// As many devices as there can be.
const MOST: usize = 247;

// Whether an answer is read back with the count of its own FF: what its frame leaves of its length.
fn reads_back(answer: &[u8]) -> bool {
    let (skipped, frame) = match read_answer(answer) {
        Ok(AnswerRead::Found { skipped, .. }) => (skipped, 10),
        Ok(AnswerRead::End { skipped }) => (skipped, 5),
        Err(_) => return false,
    };
    answer.len().checked_sub(frame) == Some(skipped)
}

// Whether the next request is answered so.
fn answers_next(serials: &[u32; MOST], addresses: &[u8; MOST], marks: &mut [u8; MOST]) -> bool {
    let mut answer = [0u8; ANSWER_ROOM];
    match resume(serials, addresses, marks, &mut answer) {
        Ok(Some(n)) => reads_back(start(&answer, n)),
        _ => false,
    }
}

// The answers of so many devices, from serial 0 on, and the end.
pub(crate) fn read_back() -> Tally {
    let mut serials = [0u32; MOST];
    let addresses = [7u8; MOST];
    let mut marks = [0u8; MOST];
    lay_out(&mut serials, 0, 1);
    let mut t = none();
    for _ in 0..=MOST {
        t = t.with(answers_next(&serials, &addresses, &mut marks));
    }
    t
}
