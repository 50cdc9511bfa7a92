// What the tool keeps from line to line, and what a command leaves: the desk after it.
use crate::fault::{Fault, Wrong};
use crate::heard::Heard;
use crate::say::Page;
use crate::texts::Text;
use crate::{fault, heard, say, texts, word};
use listening::Listening;
use relay::{REGISTERS, Remembered};
use std::io::Error;

// Every output has room for what a line of 8,192 bytes expands to.
pub const FULL: usize = 16384;

// The most that `room` takes.
pub const MOST_ROOM: usize = 8192;

// What lent outputs are filled with before a call.
pub const FILL: u8 = 0x5A;

// The rows that the table has room for.
pub const MOST_ROWS: usize = 256;

// The bytes of one queue's slots, and of those of all rows.
pub const SLOTS: usize = 104;

pub const MOST_SLOTS: usize = 26624;

// The device table: its columns, and how many rows of them there are.
#[derive(Clone, Copy)]
pub struct Table {
    pub rows: usize,
    pub serials: [u32; MOST_ROWS],
    pub addresses: [u8; MOST_ROWS],
    pub marks: [u8; MOST_ROWS],
}

// The columns of the event queues. Behind the table's rows all is 0, so that a row that is added has
// an empty queue.
#[derive(Clone, Copy)]
pub struct Queues {
    pub flags: [u8; MOST_ROWS],
    pub lasts: [u8; MOST_ROWS],
    pub counts: [u8; MOST_ROWS],
    pub slots: [u8; MOST_SLOTS],
}

// The relay device on Railbus: its address, its registers with their access bytes, and the write that
// it remembers.
#[derive(Clone, Copy)]
pub struct Relay {
    pub address: u8,
    pub registers: [u32; REGISTERS],
    pub access: [u8; REGISTERS],
    pub write: Remembered,
}

#[derive(Clone, Copy)]
pub struct Desk {
    pub table: Table,
    pub queues: Queues,
    pub relay: Relay,
    pub listening: Listening,
    // What was fed to it last.
    pub heard: Heard,
    // What was answered and is not written out yet.
    pub page: Page,
    // How many bytes, or entries of a list, each lent output has.
    pub room: usize,
    // The number of the line that is obeyed, from 1 on.
    pub line: u64,
    // Whether each command is repeated before its block.
    pub echo: bool,
    // Whether a person at a terminal is prompted for each line.
    pub prompt: bool,
    // Whether a command has asked for the end.
    pub over: bool,
}

fn no_rows() -> Table {
    Table {
        rows: 0,
        serials: [0u32; MOST_ROWS],
        addresses: [0u8; MOST_ROWS],
        marks: [0u8; MOST_ROWS],
    }
}

fn no_events() -> Queues {
    Queues {
        flags: [0u8; MOST_ROWS],
        lasts: [0u8; MOST_ROWS],
        counts: [0u8; MOST_ROWS],
        slots: [0u8; MOST_SLOTS],
    }
}

// A relay device whose registers are all 0 and absent, and that remembers no write.
pub fn fresh_relay(address: u8) -> Relay {
    Relay {
        address,
        registers: [0u32; REGISTERS],
        access: [0u8; REGISTERS],
        write: Remembered::Idle,
    }
}

impl Table {
    pub fn with_marks(mut self, marks: [u8; MOST_ROWS]) -> Table {
        self.marks = marks;
        self
    }
}

pub fn new() -> Desk {
    Desk {
        table: no_rows(),
        queues: no_events(),
        relay: fresh_relay(0),
        listening: listening::listen(),
        heard: heard::nothing(),
        page: say::empty(None),
        room: FULL,
        line: 1,
        echo: false,
        prompt: false,
        over: false,
    }
}

impl Desk {
    pub fn with_page(mut self, page: Page) -> Desk {
        self.page = page;
        self
    }

    pub fn with_room(mut self, room: usize) -> Desk {
        self.room = room;
        self
    }

    pub fn with_table(mut self, table: Table) -> Desk {
        self.table = table;
        self
    }

    // The queues that a command on them left, and what it said.
    pub fn with_queues(mut self, queues: Queues, page: Page) -> Desk {
        self.queues = queues;
        self.page = page;
        self
    }

    // The relay device that a command on it left, and what it said.
    pub fn with_relay(mut self, relay: Relay, page: Page) -> Desk {
        self.relay = relay;
        self.page = page;
        self
    }

    // The state that a command on it left, and what it said.
    pub fn with_listening(mut self, listening: Listening, page: Page) -> Desk {
        self.listening = listening;
        self.page = page;
        self
    }

    // The bytes that a command on the listening state left.
    pub fn with_heard(mut self, heard: Heard) -> Desk {
        self.heard = heard;
        self
    }

    pub fn with_echo(mut self, echo: bool) -> Desk {
        self.echo = echo;
        self
    }

    // A person at a terminal is prompted from now on.
    pub fn prompting(mut self) -> Desk {
        self.prompt = true;
        self
    }

    // The program is to end.
    pub fn ended(mut self) -> Desk {
        self.over = true;
        self
    }

    // Why nothing more can be written out, where that is so.
    pub fn failure(self) -> Option<Error> {
        let page = self.page;
        page.failed
    }

    // Nothing more can be written out.
    pub fn failed(self) -> bool {
        self.failure().is_some()
    }

    // The line is repeated, where that is asked for.
    pub fn echoed(self, rt: &impl Print, line: &[u8]) -> Desk {
        if self.echo {
            return self.with_page(say::spelled(rt, self.page, Text::Echo, line));
        }
        self
    }

    // The table has no rows, and there is no queue.
    pub fn forgotten(self) -> Desk {
        self.with_table(no_rows())
            .with_queues(no_events(), self.page)
    }

    // What waits on the page is written out.
    pub fn written_out(self, rt: &impl Print) -> Desk {
        self.with_page(say::flush(rt, self.page))
    }

    // The line is done.
    pub fn past_line(mut self) -> Desk {
        self.line = self.line.saturating_add(1);
        self
    }

    // The command is obeyed, and has nothing else to say.
    pub fn ok(self, rt: &impl Print) -> Desk {
        self.with_page(texts::plain(rt, self.page, Text::Done))
    }

    // Says what was wrong with the line.
    pub fn wrong(self, rt: &impl Print, why: Fault) -> Desk {
        self.with_page(fault::say_fault(rt, self.page, why, self.line))
    }

    // Says what was wrong at this place of the line.
    pub fn wrong_at(self, rt: &impl Print, what: Wrong, at: usize) -> Desk {
        self.wrong(rt, what.at(at))
    }

    // The line's first word is no command.
    pub fn unknown(self, rt: &impl Print, line: &[u8]) -> Desk {
        let w = word::next(line, 0);
        self.wrong_at(rt, Wrong::UnknownCommand, w.from)
    }
}
