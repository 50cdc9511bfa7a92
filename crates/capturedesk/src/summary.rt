// The summary of a capture.
use crate::counts::{Counts, NUMBERS};
use crate::page;
use crate::page::PAGE;
use spelling::LINE;

// Words before and behind a number.
fn counted(at: usize, line: &mut [u8; LINE], before: &[u8], number: u64, behind: &[u8]) -> usize {
    let a = spelling::text(at, line, before);
    let b = spelling::decimal(a, line, number);
    spelling::text(b, line, behind)
}

// How many exchanges there are, and how many of them of each kind were accepted.
fn accepted(line: &mut [u8; LINE], bytes: u64, counts: Counts) -> usize {
    let all = counts.accepted();
    let a = counted(
        0,
        line,
        b"",
        all.saturating_add(counts.refusals),
        b" exchanges in ",
    );
    let b = counted(a, line, b"", bytes, b" bytes\n");
    let c = counted(b, line, b"  accepted ", all, b": broadcast ");
    let d = counted(c, line, b"", counts.broadcast, b", initiator/initiator ");
    let e = counted(d, line, b"", counts.initiator, b", initiator/target ");
    counted(e, line, b"", counts.target, b"\n")
}

// How many attempts came again, and how many exchanges were refused.
fn again(line: &mut [u8; LINE], counts: Counts) -> usize {
    let all = counts.commands_again.saturating_add(counts.replies_again);
    let a = counted(0, line, b"  retries in accepted ", all, b": of commands ");
    let b = counted(a, line, b"", counts.commands_again, b", of replies ");
    let c = counted(b, line, b"", counts.replies_again, b"\n");
    counted(c, line, b"  refused ", counts.refusals, b"\n")
}

// How often a number was given.
fn given(waiting: usize, page: &mut [u8; PAGE], number: u8, times: u64) -> usize {
    let mut line = [0u8; LINE];
    let a = counted(0, &mut line, b"    ", number as u64, b" ");
    let b = spelling::name(a, &mut line, number);
    let n = counted(b, &mut line, b": ", times, b"\n");
    page::add(waiting, page, &line, n)
}

// .. of each number that was given.
fn numbers(waiting: usize, page: &mut [u8; PAGE], refused: [u64; NUMBERS]) -> usize {
    let mut k = waiting;
    for (i, times) in refused.iter().enumerate() {
        if *times > 0 {
            k = given(k, page, (i % 256) as u8, *times);
        }
    }
    k
}

// Of a capture of so many bytes, so many of them skipped: how many bytes wait then. A capture that
// could not be read to its end is not whole.
pub(crate) fn add(
    waiting: usize,
    page: &mut [u8; PAGE],
    bytes: u64,
    skipped: u64,
    counts: Counts,
    whole: bool,
) -> usize {
    let mut line = [0u8; LINE];
    let n = accepted(&mut line, bytes, counts);
    let a = page::add(waiting, page, &line, n);
    let m = again(&mut line, counts);
    let b = page::add(a, page, &line, m);
    let refused = counts.refused;
    let c = numbers(b, page, refused);
    let k = counted(0, &mut line, b"  skipped ", skipped, b" bytes\n");
    let d = page::add(c, page, &line, k);
    if whole {
        return d;
    }
    let e = spelling::text(0, &mut line, b"  not read to its end\n");
    page::add(d, page, &line, e)
}
