// What a device says to a packet: rules R6 to R8 and R10.
ghost use Rattle.std.specs.Prelude.{◌≡◌, ◌||◌, eqb};
ghost use Rattle.relay.specs.Answers.{received, special, responding, copy, behind_access, on_write, on_sync, on_message};

use crate::{Remembered, Response};
use railbus::{Long, Message, Short};

// What an access byte says of its register; 3 is both to be read and to be written.
const ABSENT: u8 = 0;

const READ: u8 = 1;

const WRITE: u8 = 2;

const BOTH: u8 = 3;

// The reasons that an n carries.
const RECEIVED: u32 = 0x01;

const RETRANSMISSION: u32 = 0x02;

const DONE_BEFORE: u32 = 0x03;

const FORBIDDEN: u32 = 0x07;

const BUSY: u32 = 0x08;

const SYNCED: u32 = 0x10;

// An n with this reason.
fn special(reason: u32) -> Option<Message>
    ensures { result ≡ special reason }
{
    Some(Message::With(Long::Special, reason))
}

// Whether a write is a copy of another: the same register and the same data.
fn copy(register: u8, value: u32, register1: u8, value1: u32) -> bool
    ensures { result ≡ copy register value register1 value1 }
{
    register == register1 && value == value1
}

// A write that is taken: from now on it runs.
fn taken(register: u8, value: u32) -> Response
    ensures { result ≡ responding (special received) (Remembered.Running register value) }
{
    Response {
        said: special(RECEIVED),
        write: Remembered::Running(register, value),
    }
}

// A write to a register that may be written, by the write that is remembered.
fn on_write(register: u8, value: u32, write: Remembered) -> Response
    ensures { result ≡ on_write register value write }
{
    match write {
        Remembered::Idle => taken(register, value),
        Remembered::Running(running, new) => {
            if copy(register, value, running, new) {
                return Response {
                    said: special(RETRANSMISSION),
                    write,
                };
            }
            Response {
                said: special(BUSY),
                write,
            }
        }
        Remembered::Finished(finished, done) => {
            if copy(register, value, finished, done) {
                return Response {
                    said: special(DONE_BEFORE),
                    write,
                };
            }
            taken(register, value)
        }
    }
}

// Before all else: an absent register is answered with N, and where its access byte does not allow what
// is asked, with n 07. What the packet itself gets stands behind both.
fn behind_access(access: u8, may: bool, write: Remembered, response: Response) -> Response
    ensures { result ≡ behind_access access may write response }
{
    if access == ABSENT {
        return Response {
            said: Some(Message::Bare(Short::NotAcknowledge)),
            write,
        };
    }
    if may {
        return response;
    }
    Response {
        said: special(FORBIDDEN),
        write,
    }
}

// Whether an access byte is one of these two.
fn either(access: u8, one: u8, other: u8) -> bool
    ensures { result ≡ (eqb access one || eqb access other) }
{
    access == one || access == other
}

// Sync: a finished write is forgotten, a running one is not.
fn on_sync(write: Remembered) -> Response
    ensures { result ≡ on_sync write }
{
    match write {
        Remembered::Running(_, _) => Response {
            said: special(BUSY),
            write,
        },
        _ => Response {
            said: special(SYNCED),
            write: Remembered::Idle,
        },
    }
}

// What is said to a message for the device's own address, by the register's access byte and what it
// holds.
pub(crate) fn on_message(
    access: u8,
    value: u32,
    register: u8,
    message: Message,
    write: Remembered,
) -> Response
    ensures { result ≡ on_message access value register message write }
{
    match message {
        Message::Bare(short) => match short {
            Short::ReadRequest => {
                let response = Response {
                    said: Some(Message::With(Long::ReadAcknowledge, value)),
                    write,
                };
                behind_access(access, either(access, READ, BOTH), write, response)
            }
            Short::Sync => on_sync(write),
            Short::NotAcknowledge => Response { said: None, write },
        },
        Message::With(long, new) => match long {
            Long::WriteRequest => {
                let response = on_write(register, new, write);
                behind_access(access, either(access, WRITE, BOTH), write, response)
            }
            _ => Response { said: None, write },
        },
    }
}
