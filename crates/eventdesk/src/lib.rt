// The desk tool's commands of events. Each is one call of the library.
#![tactic(auto)]

mod frames;
mod polling;
mod queueing;
pub mod reasons;
pub mod showing;

use desk::part::start_of;
use desk::state::Desk;
use desk::{hex, word};
use polling::Asked;

// The commands: those with words of their own, those on the bytes that the rest of the line is, and
// those that take no word.
#[derive(Clone, Copy)]
pub enum Command {
    Event,
    Stored,
    Poll,
    WritePoll,
    OfferPoll,
    ReadPoll,
    ReadEvents,
    Queues,
    WriteNoEvents,
}

impl Command {
    pub fn named(name: &[u8]) -> Option<Command> {
        match name {
            b"event" => Some(Command::Event),
            b"stored" => Some(Command::Stored),
            b"poll" => Some(Command::Poll),
            b"write-poll" => Some(Command::WritePoll),
            b"offer-poll" => Some(Command::OfferPoll),
            b"read-poll" => Some(Command::ReadPoll),
            b"read-events" => Some(Command::ReadEvents),
            b"queues" => Some(Command::Queues),
            b"write-no-events" => Some(Command::WriteNoEvents),
            _ => None,
        }
    }

    // .. on the rest of the line, from `at` on.
    pub fn obey(self, rt: &impl Print, line: &[u8], at: usize, d: Desk) -> Desk {
        match self {
            Command::Event => queueing::event(rt, line, at, d),
            Command::Stored => queueing::stored(rt, line, at, d),
            Command::Poll => polling::poll(rt, line, at, d),
            Command::WritePoll => frames::write_poll(rt, line, at, d),
            Command::OfferPoll | Command::ReadPoll | Command::ReadEvents => {
                self.on_bytes(rt, line, at, d)
            }
            Command::Queues | Command::WriteNoEvents => self.alone(rt, line, at, d),
        }
    }

    fn on_bytes(self, rt: &impl Print, line: &[u8], at: usize, d: Desk) -> Desk {
        let mut store = [0u8; hex::MOST];
        match hex::bytes(line, at, &mut store) {
            Ok(n) => self.with_bytes(rt, start_of(&store, n), d),
            Err(why) => d.wrong(rt, why),
        }
    }

    fn with_bytes(self, rt: &impl Print, input: &[u8], d: Desk) -> Desk {
        match self {
            Command::OfferPoll => polling::ask(rt, Asked::Frame, input, d),
            Command::ReadPoll => d.with_page(frames::read_poll(rt, input, d.page)),
            _ => d.with_page(frames::read_events(rt, input, d.page)),
        }
    }

    fn alone(self, rt: &impl Print, line: &[u8], at: usize, d: Desk) -> Desk {
        if let Err(why) = word::nothing_more(line, at) {
            return d.wrong(rt, why);
        }
        match self {
            Command::Queues => showing::show(rt, d),
            _ => d.with_page(frames::write_no_events(rt, d.room, d.page)),
        }
    }
}
