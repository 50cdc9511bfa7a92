// A walk over a capture, run after run: SYN parts it into stretches, and each is fed to a fresh state
// of listening.
//
// Where the next SYN is found does not depend on the cuts, and a stretch that SYN ends is idle time
// exactly where it is not answered: capturewalk/specs/Runs.antt. What stands behind the byte that
// decided is not used, since a state that has answered uses none.
use crate::arguments::Asked;
use crate::counts::Counts;
use crate::page::PAGE;
use crate::{counts, page, report};
use captures::through_syn;
use closing::close;
use desk::part::start_of;
use escapes::SYN;
use exchange::judge::Accepted;
use feeding::feed;
use listening::{Listening, has_answered};
use refusal::Refusal;
use spelling::{LINE, put_behind};
use telegram::{COMMAND_ROOM, REPLY_ROOM};

// Room for the raw bytes of a stretch: an exchange has no more than 157.
pub(crate) const STRETCH: usize = 160;

#[derive(Clone, Copy)]
pub(crate) struct Walk {
    pub(crate) counts: Counts,
    // How many bytes of the capture are behind, how many of them belong to no exchange, and where the
    // stretch in hand starts.
    pub(crate) at: u64,
    pub(crate) skipped: u64,
    start: u64,
    // What its bytes made of a fresh state, and how many of them were used.
    state: Listening,
    used: u64,
    // How many bytes wait to be written out, and whether the walk is over.
    pub(crate) waiting: usize,
    pub(crate) over: bool,
}

pub(crate) fn begin() -> Walk {
    Walk {
        counts: counts::none(),
        at: 0,
        skipped: 0,
        start: 0,
        state: listening::listen(),
        used: 0,
        waiting: 0,
        over: false,
    }
}

// Whether a SYN ends these bytes.
fn ends_in_syn(bytes: &[u8]) -> bool {
    bytes.last() == Some(&SYN)
}

// Keeps bytes of a stretch behind so many, as far as there is room.
fn keep(stretch: &mut [u8; STRETCH], n: u64, bytes: &[u8]) {
    if n < STRETCH as u64 {
        put_behind(stretch, n as usize, bytes);
    }
}

impl Walk {
    pub(crate) fn with_waiting(mut self, waiting: usize) -> Walk {
        self.waiting = waiting;
        self
    }

    pub(crate) fn over(mut self, over: bool) -> Walk {
        self.over = over;
        self
    }

    // The next stretch starts here: of the one in hand so many bytes belong to an exchange.
    fn afresh(&mut self, used: u64) {
        let left = self.in_hand().saturating_sub(used);
        self.skipped = self.skipped.saturating_add(left);
        self.start = self.at;
        self.state = listening::listen();
        self.used = 0;
    }

    // A SYN alone: idle time.
    fn idle(&mut self) {
        let at = self.at.saturating_add(1);
        self.at = at;
        self.start = at;
        self.skipped = self.skipped.saturating_add(1);
    }

    // So many bytes were fed, and so many of them used.
    fn fed(&mut self, n: usize, state: Listening, used: usize) {
        self.at = self.at.saturating_add(n as u64);
        self.state = state;
        self.used = self.used.saturating_add(used as u64);
    }

    // An exchange was counted, and its line waits.
    fn told(&mut self, counts: Counts, waiting: usize) {
        self.counts = counts;
        self.waiting = waiting;
    }

    // How many bytes of the stretch in hand are behind.
    fn in_hand(&self) -> u64 {
        self.at.saturating_sub(self.start)
    }

    // Whether the stretch in hand has no byte yet.
    fn is_at_start(&self) -> bool {
        self.at == self.start
    }

    // Bytes of the stretch in hand, with the SYN that ends it if it is there. SYN alone is idle time,
    // the most frequent case.
    fn part(
        &mut self,
        bytes: &[u8],
        asked: Asked,
        stretch: &mut [u8; STRETCH],
        page: &mut [u8; PAGE],
    ) {
        let n = bytes.len();
        if !ends_in_syn(bytes) {
            self.longer(bytes, stretch);
            return;
        }
        if n == 1 {
            if self.is_at_start() {
                self.idle();
                return;
            }
        }
        self.longer(bytes, stretch);
        if has_answered(self.state) {
            self.tell(asked, stretch, page);
            self.afresh(self.used);
            return;
        }
        self.afresh(0);
    }

    // The stretch in hand is longer by these bytes.
    fn longer(&mut self, bytes: &[u8], stretch: &mut [u8; STRETCH]) {
        keep(stretch, self.in_hand(), bytes);
        let fed = feed(self.state, bytes);
        let state = fed.state;
        self.fed(bytes.len(), state, fed.used);
    }

    // The capture has ended, and with it an exchange that was going on.
    pub(crate) fn ended(
        &mut self,
        asked: Asked,
        stretch: &mut [u8; STRETCH],
        page: &mut [u8; PAGE],
    ) {
        if self.is_at_start() {
            return;
        }
        self.tell(asked, stretch, page);
        self.afresh(self.used);
    }

    // Counts the exchange in hand, and says it where that is asked.
    fn tell(&mut self, asked: Asked, stretch: &[u8; STRETCH], page: &mut [u8; PAGE]) {
        let mut command = [0u8; COMMAND_ROOM];
        let mut first = [0u8; REPLY_ROOM];
        let mut second = [0u8; REPLY_ROOM];
        let closed = close(self.state, &mut command, &mut first, &mut second);
        match closed.answer {
            Err(why) => self.refused(why, asked.refused, stretch, page),
            Ok(exchange) => {
                let counts = self.counts.with_accepted(exchange);
                if !asked.accepted {
                    self.told(counts, self.waiting);
                    return;
                }
                let data = replies::reply_data(&first, &second, exchange.reply_attempts);
                let waiting = accepted(self.waiting, self.start, exchange, &command, data, page);
                self.told(counts, waiting);
            }
        }
    }

    fn refused(
        &mut self,
        why: Refusal,
        said: bool,
        stretch: &[u8; STRETCH],
        page: &mut [u8; PAGE],
    ) {
        let counts = self.counts.with_refused(why.number);
        if !said {
            self.told(counts, self.waiting);
            return;
        }
        let mut line = [0u8; LINE];
        let heard = heard_of(stretch, self.in_hand());
        let n = report::refused(&mut line, self.start, why, heard);
        self.told(counts, page::add(self.waiting, page, &line, n));
    }
}

// The bytes that are kept of a stretch of so many.
fn heard_of(stretch: &[u8; STRETCH], n: u64) -> &[u8] {
    start_of(stretch, n.min(STRETCH as u64) as usize)
}

// The line of an accepted exchange waits too.
fn accepted(
    waiting: usize,
    start: u64,
    exchange: Accepted,
    command: &[u8; COMMAND_ROOM],
    data: &[u8],
    page: &mut [u8; PAGE],
) -> usize {
    let mut line = [0u8; LINE];
    let a = report::accepted(&mut line, start, exchange);
    let n = report::telegrams(a, &mut line, command, data);
    page::add(waiting, page, &line, n)
}

// A run more, one stretch after the other.
pub(crate) fn over_run(
    walk: &mut Walk,
    run: &[u8],
    asked: Asked,
    stretch: &mut [u8; STRETCH],
    page: &mut [u8; PAGE],
) {
    let mut i = 0;
    // A step goes through the next SYN.
    while i < run.len() {
        let rest = &run[i..];
        let n = through_syn(rest);
        walk.part(start_of(rest, n), asked, stretch, page);
        i += n;
    }
}
