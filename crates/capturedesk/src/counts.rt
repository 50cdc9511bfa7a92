// What is counted over a capture.
use addresses::ExchangeKind;
use exchange::judge::Accepted;

// Numbers of refusals are below this.
pub(crate) const NUMBERS: usize = 32;

#[derive(Clone, Copy)]
pub(crate) struct Counts {
    pub(crate) broadcast: u64,
    pub(crate) initiator: u64,
    pub(crate) target: u64,
    // Attempts behind the first, of accepted exchanges.
    pub(crate) commands_again: u64,
    pub(crate) replies_again: u64,
    // Refused ones in all, and by number.
    pub(crate) refusals: u64,
    pub(crate) refused: [u64; NUMBERS],
}

pub(crate) fn none() -> Counts {
    Counts {
        broadcast: 0,
        initiator: 0,
        target: 0,
        commands_again: 0,
        replies_again: 0,
        refusals: 0,
        refused: [0u64; NUMBERS],
    }
}

impl Counts {
    // An exchange that was accepted.
    pub(crate) fn with_accepted(mut self, exchange: Accepted) -> Counts {
        let commands_again = exchange.command_attempts.saturating_sub(1) as u64;
        let replies_again = exchange.reply_attempts.saturating_sub(1) as u64;
        self.commands_again = self.commands_again.saturating_add(commands_again);
        self.replies_again = self.replies_again.saturating_add(replies_again);
        match exchange.kind {
            ExchangeKind::Broadcast => self.broadcast = self.broadcast.saturating_add(1),
            ExchangeKind::InitiatorInitiator => self.initiator = self.initiator.saturating_add(1),
            ExchangeKind::InitiatorTarget => self.target = self.target.saturating_add(1),
        }
        self
    }

    // .. or refused.
    pub(crate) fn with_refused(mut self, number: u8) -> Counts {
        self.refusals = self.refusals.saturating_add(1);
        let i = number as usize;
        if i < NUMBERS {
            self.refused[i] = self.refused[i].saturating_add(1);
        }
        self
    }

    pub(crate) fn accepted(self) -> u64 {
        self.broadcast
            .saturating_add(self.initiator)
            .saturating_add(self.target)
    }
}
