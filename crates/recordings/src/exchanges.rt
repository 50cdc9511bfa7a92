// Recorded and made exchanges, each held to what it must give: the answer, the place, and what the
// three buffers hold.
//
// A case is a line: the raw bytes, `=` and what their acceptance is, or `!` and the number and place
// of their refusal. An acceptance is the kind (00 broadcast, 01 initiator/initiator, 02
// initiator/target) and the attempts at command and reply, then what the three buffers start with.
use crate::lines::{Base, cases, read_field};
use addresses::ExchangeKind;
use exchange::judge::{Accepted, judge};
use refusal::{Refusal, refused};
use tally::part::{FILL, holds, start};
use tally::{Tally, none};

fn kind_of(number: u8) -> ExchangeKind {
    match number {
        0 => ExchangeKind::Broadcast,
        1 => ExchangeKind::InitiatorInitiator,
        _ => ExchangeKind::InitiatorTarget,
    }
}

// Whether a run is answered what is due, and the buffers start with these bytes and no others
// changed.
fn judged(
    run: &[u8],
    due: Result<Accepted, Refusal>,
    command: &[u8],
    first: &[u8],
    second: &[u8],
) -> bool {
    let mut c = [FILL; 24];
    let mut f = [FILL; 20];
    let mut s = [FILL; 20];
    judge(run, &mut c, &mut f, &mut s) == due
        && holds(&c, command)
        && holds(&f, first)
        && holds(&s, second)
}

// Whether a run is refused as due, and no buffer changed.
fn judged_wrong(run: &[u8], due: Result<Accepted, Refusal>) -> bool {
    judged(run, due, b"", b"", b"")
}

fn case(line: &[u8]) -> bool {
    let run = read_field::<128>(line, Base::Hexadecimal);
    let due = read_field::<3>(run.rest, Base::Decimal);
    let [kind, command_attempts, reply_attempts] = due.numbers;
    if run.mark == b'!' {
        let [number, place, _] = due.numbers;
        return judged_wrong(run.all(), refused(number, usize::from(place)));
    }
    let command = read_field::<22>(due.rest, Base::Hexadecimal);
    let first = read_field::<18>(command.rest, Base::Hexadecimal);
    let second = read_field::<18>(first.rest, Base::Hexadecimal);
    let accepted = Accepted {
        kind: kind_of(kind),
        command_attempts,
        reply_attempts,
        read: run.n,
    };
    judged(
        run.all(),
        Ok(accepted),
        command.all(),
        first.all(),
        second.all(),
    )
}

// W7 and W8 of docs/RULES.md, the example and the frames of the eBUS overview, SYN in a wait, telegrams
// with A9 and AA, and the broadcast with both that ebusd is tested with.
pub(crate) fn published() -> Tally {
    cases(
        b"10 08 B5 11 01 01 89 00 01 2A B1 00 AA = 02 01 01 / 10 08 B5 11 01 01 89 / 01 2A B1 /
10 08 B5 11 01 01 89 55 01 2A B1 00 AA ! 12 07
10 08 B5 04 01 7F 42 00 01 2A B1 00 AA = 02 01 01 / 10 08 B5 04 01 7F 42 / 01 2A B1 /
10 FE 07 FE 00 F3 AA = 00 01 00 / 10 FE 07 FE 00 F3 / /
10 31 07 04 02 01 02 79 00 AA = 01 01 00 / 10 31 07 04 02 01 02 79 / /
10 08 07 04 00 17 00 0A B5 42 41 49 30 30 02 04 03 01 54 00 AA = 02 01 01 / 10 08 07 04 00 17 / 0A B5 42 41 49 30 30 02 04 03 01 54 /
10 08 07 04 00 17 AA ! 05 06
10 31 07 04 02 01 02 79 00 01 2A ! 12 09
10 08 B5 09 02 A9 00 A9 01 AD 00 03 A9 01 A9 00 00 CE 00 AA = 02 01 01 / 10 08 B5 09 02 A9 AA AD / 03 AA A9 00 CE /
10 FE B5 05 04 27 A9 00 15 A9 01 77 AA = 00 01 00 / 10 FE B5 05 04 27 A9 15 AA 77 / /
",
        case,
    )
}

// LEN 16 and 17, of a command and of a reply; LEN 17 in a run that is cut off there.
pub(crate) fn lengths() -> Tally {
    cases(
        b"10 FE 01 02 10 01 02 03 04 05 06 07 08 09 0A 0B 0C 0D 0E 0F 10 82 AA = 00 01 00 / 10 FE 01 02 10 01 02 03 04 05 06 07 08 09 0A 0B 0C 0D 0E 0F 10 82 / /
10 FE 01 02 11 00 00 00 00 00 00 00 00 00 00 00 00 00 00 00 00 00 00 AA ! 08 04
10 08 01 02 00 0F 00 10 00 01 02 03 04 05 06 07 08 09 0A 0B 0C 0D 0E 0F 6E 00 AA = 02 01 01 / 10 08 01 02 00 0F / 10 00 01 02 03 04 05 06 07 08 09 0A 0B 0C 0D 0E 0F 6E /
10 08 01 02 00 0F 00 11 00 00 00 00 00 00 00 00 00 00 00 00 00 00 00 00 00 00 00 AA ! 08 07
10 08 01 02 11 ! 08 04
",
        case,
    )
}

// A NACKed command, right or wrong, and every kind of second attempt; NACKed twice; a wrong second attempt.
pub(crate) fn command_nacked() -> Tally {
    cases(
        b"10 31 01 02 01 07 E4 FF 30 FE 03 04 02 08 09 F3 AA = 00 02 00 / 30 FE 03 04 02 08 09 F3 / /
10 31 01 02 01 07 1B FF 30 FE 03 04 02 08 09 F3 AA = 00 02 00 / 30 FE 03 04 02 08 09 F3 / /
10 31 01 02 01 07 E4 FF 30 31 03 04 02 08 09 1D 00 AA = 01 02 00 / 30 31 03 04 02 08 09 1D / /
10 31 01 02 01 07 1B FF 30 31 03 04 02 08 09 1D 00 AA = 01 02 00 / 30 31 03 04 02 08 09 1D / /
10 31 01 02 01 07 E4 FF 30 08 03 04 02 08 09 48 00 01 05 9E 00 AA = 02 02 01 / 30 08 03 04 02 08 09 48 / 01 05 9E /
10 31 01 02 01 07 1B FF 30 08 03 04 02 08 09 48 00 01 05 9E 00 AA = 02 02 01 / 30 08 03 04 02 08 09 48 / 01 05 9E /
10 08 01 02 01 07 72 FF 30 FE 03 04 02 08 09 F3 AA = 00 02 00 / 30 FE 03 04 02 08 09 F3 / /
10 08 01 02 01 07 8D FF 30 FE 03 04 02 08 09 F3 AA = 00 02 00 / 30 FE 03 04 02 08 09 F3 / /
10 08 01 02 01 07 72 FF 30 31 03 04 02 08 09 1D 00 AA = 01 02 00 / 30 31 03 04 02 08 09 1D / /
10 08 01 02 01 07 8D FF 30 31 03 04 02 08 09 1D 00 AA = 01 02 00 / 30 31 03 04 02 08 09 1D / /
10 08 01 02 01 07 72 FF 30 08 03 04 02 08 09 48 00 01 05 9E 00 AA = 02 02 01 / 30 08 03 04 02 08 09 48 / 01 05 9E /
10 08 01 02 01 07 8D FF 30 08 03 04 02 08 09 48 00 01 05 9E 00 AA = 02 02 01 / 30 08 03 04 02 08 09 48 / 01 05 9E /
10 08 01 02 01 07 72 FF 10 08 01 02 01 07 72 FF AA ! 10 15
10 08 01 02 01 07 72 FF 10 08 01 02 01 07 8D 00 ! 09 14
10 FE 01 02 01 07 14 AA ! 09 06
",
        case,
    )
}

// A NACKed reply, right or wrong, behind one attempt at the command and behind two; NACKed twice; wrong replies.
pub(crate) fn reply_nacked() -> Tally {
    cases(
        b"10 08 01 02 01 07 72 00 03 01 02 03 5A FF 02 04 05 E8 00 AA = 02 01 02 / 10 08 01 02 01 07 72 / 03 01 02 03 5A / 02 04 05 E8
10 08 01 02 01 07 72 00 03 01 02 03 4B FF 02 04 05 E8 00 AA = 02 01 02 / 10 08 01 02 01 07 72 / 03 01 02 03 4B / 02 04 05 E8
10 08 01 02 01 07 72 00 01 01 9A FF 01 02 99 FF AA ! 11 15
10 08 01 02 01 07 72 00 01 01 8B 00 AA ! 09 10
10 08 01 02 01 07 72 00 01 01 9A FF 01 02 88 00 AA ! 09 14
10 08 01 02 01 07 72 00 01 01 9A 00 00 ! 12 12
10 31 09 09 00 C6 FF 10 08 01 02 01 07 72 00 03 01 02 03 5A FF 02 04 05 E8 00 AA = 02 02 02 / 10 08 01 02 01 07 72 / 03 01 02 03 5A / 02 04 05 E8
10 31 09 09 00 C6 FF 10 08 01 02 01 07 72 00 03 01 02 03 4B FF 02 04 05 E8 00 AA = 02 02 02 / 10 08 01 02 01 07 72 / 03 01 02 03 4B / 02 04 05 E8
10 31 09 09 00 C6 FF 10 08 01 02 01 07 72 00 01 01 9A FF 01 02 99 FF AA ! 11 22
10 31 09 09 00 C6 FF 10 08 01 02 01 07 72 00 01 01 8B 00 AA ! 09 17
10 31 09 09 00 C6 FF 10 08 01 02 01 07 72 00 01 01 9A FF 01 02 88 00 AA ! 09 21
10 31 09 09 00 C6 FF 10 08 01 02 01 07 72 00 01 01 9A 00 00 ! 12 19
",
        case,
    )
}

// A command of 41 raw bytes and a reply of 35; escapes in SRC, DST and LEN, broken ones, one that SYN breaks at the beginning, and one
// where a byte is due.
pub(crate) fn escaped() -> Tally {
    cases(
        b"10 08 A9 00 A9 00 10 A9 01 A9 00 A9 00 A9 01 A9 01 A9 00 A9 00 A9 00 A9 00 A9 00 A9 00 A9 00 A9 00 A9 00 A9 00 A9 00 A9 00 00 10 A9 00 A9 00 A9 00 A9 01 A9 00 A9 01 A9 01 A9 00 A9 00 A9 00 A9 00 A9 00 A9 00 A9 00 A9 00 A9 00 A9 00 00 AA = 02 01 01 / 10 08 A9 A9 10 AA A9 A9 AA AA A9 A9 A9 A9 A9 A9 A9 A9 A9 A9 A9 A9 / 10 A9 A9 A9 AA A9 AA AA A9 A9 A9 A9 A9 A9 A9 A9 A9 A9 /
A9 00 08 B5 11 01 01 89 00 01 2A B1 00 AA ! 06 00
10 A9 01 B5 11 01 01 89 00 01 2A B1 00 AA ! 07 01
10 08 B5 11 A9 00 01 89 00 01 2A B1 00 AA ! 08 04
A9 55 ! 04 01
10 A9 55 ! 04 02
10 A9 AA ! 03 03
10 08 A9 ! 03 03
10 08 B5 11 01 01 89 A9 00 ! 12 07
",
        case,
    )
}

// SYN at the beginning throws away what was collected, until two logical bytes have come. A wrong source comes first, and neither
// a second attempt nor a reply begins anew.
pub(crate) fn idle() -> Tally {
    cases(
        b"AA AA AA 10 08 B5 11 01 01 89 00 01 2A B1 00 AA = 02 01 01 / 10 08 B5 11 01 01 89 / 01 2A B1 /
AA A9 AA 31 AA 10 A9 AA 10 FE 07 FE 00 F3 AA = 00 01 00 / 10 FE 07 FE 00 F3 / /
FF AA 00 A9 AA 10 31 01 02 01 07 E4 FF 30 31 03 04 02 08 09 1D 00 AA = 01 02 00 / 30 31 03 04 02 08 09 1D / /
AA ! 03 01
AA AA ! 03 02
A9 AA ! 03 02
10 AA ! 03 02
AA 10 ! 03 02
AA 10 A9 ! 03 03
02 AA ! 06 00
AA 02 AA ! 06 01
10 AA 08 AA ! 06 02
A9 10 ! 04 01
AA A9 A9 ! 04 02
10 A9 10 ! 04 02
10 A9 00 AA ! 07 01
10 08 AA ! 05 02
AA 10 08 AA ! 05 03
FF AA FF A9 AA 10 08 AA ! 05 07
10 31 01 02 01 07 E4 FF AA ! 05 08
10 31 01 02 01 07 E4 FF 30 AA ! 05 09
10 31 01 02 01 07 E4 FF A9 AA ! 05 09
AA 10 08 01 02 01 07 72 00 AA ! 05 09
AA 10 08 01 02 01 07 72 AA ! 05 08
AA 10 08 B5 11 01 01 89 55 ! 12 08
AA 10 08 B5 11 01 01 88 00 ! 09 07
",
        case,
    )
}

// Every prefix of a run is refused with 3, at its own length.
fn prefixes_of(run: &[u8]) -> Tally {
    let mut t = none();
    for n in 0..run.len() {
        t = t.with(judged_wrong(&run[..n], refused(3, n)));
    }
    t
}

// An exchange with every part repeated, as long as they get: 125 raw bytes.
pub(crate) fn prefixes() -> Tally {
    let run = read_field::<128>(
        b"10 08 A9 00 A9 00 10 A9 01 A9 00 A9 00 A9 01 A9 01 A9 00 A9 00 A9 00 A9 00 A9 00 A9 00 A9 00 A9 00 A9 00 A9 00 A9 00 A9 00 FF 10 08 A9 00 A9 00 10 A9 01 A9 00 A9 00 A9 01 A9 01 A9 00 A9 00 A9 00 A9 00 A9 00 A9 00 A9 00 A9 00 A9 00 A9 00 A9 00 A9 00 00 01 01 8B FF 10 A9 00 A9 00 A9 00 A9 01 A9 00 A9 01 A9 01 A9 00 A9 00 A9 00 A9 00 A9 00 A9 00 A9 00 A9 00 A9 00 A9 00 00 AA",
        Base::Hexadecimal,
    );
    prefixes_of(run.all())
}

// ---- W7 with one byte changed, and what is due for it

const W7: [u8; 13] = *b"\x10\x08\xB5\x11\x01\x01\x89\x00\x01\x2A\xB1\x00\xAA";

const ACCEPTED: Accepted = Accepted {
    kind: ExchangeKind::InitiatorTarget,
    command_attempts: 1,
    reply_attempts: 1,
    read: 13,
};

fn is_nibble(n: u8) -> bool {
    matches!(n, 0 | 1 | 3 | 7 | 15)
}

// At the beginning SYN is thrown away with what stood before it, and the next byte of W7 is no source.
fn source_due(b: u8) -> Result<Accepted, Refusal> {
    match b {
        0x10 => Ok(ACCEPTED),
        0xAA => refused(6, 1),
        0xA9 => refused(4, 1),
        _ if is_nibble(b / 16) && is_nibble(b % 16) => refused(9, 6),
        _ => refused(6, 0),
    }
}

fn destination_due(b: u8) -> Result<Accepted, Refusal> {
    match b {
        0x08 => Ok(ACCEPTED),
        0xAA => refused(6, 2),
        0xA9 => refused(4, 2),
        _ => refused(9, 6),
    }
}

fn length_due(b: u8) -> Result<Accepted, Refusal> {
    match b {
        0 => refused(12, 6),
        1 => Ok(ACCEPTED),
        2 => refused(12, 8),
        3 => refused(12, 9),
        4 => refused(12, 10),
        5 => refused(9, 10),
        6..=16 => refused(5, 12),
        0xAA => refused(5, 4),
        _ => refused(8, 4),
    }
}

// An acknowledge byte at the end of the run: 00 and FF ask for more.
fn answer_due(place: usize, b: u8) -> Result<Accepted, Refusal> {
    match b {
        0x00 | 0xFF => refused(3, place.saturating_add(1)),
        0xAA => refused(5, place),
        _ => refused(12, place),
    }
}

// Whether W7 with one byte changed, as far as a position, is judged as due.
fn changed(at: usize, b: u8, end: usize, due: Result<Accepted, Refusal>) -> bool {
    let mut run = W7;
    if let Some(byte) = run.get_mut(at) {
        *byte = b;
    }
    let run = start(&run, end);
    match due {
        Ok(_) => judged(run, due, &W7[..7], &W7[8..11], b""),
        Err(_) => judged_wrong(run, due),
    }
}

// Every one of the 256 values at a position.
fn each_value<F: Fn(u8) -> Result<Accepted, Refusal>>(at: usize, end: usize, due: F) -> Tally
    requires { F.IsAlwaysCallable due }
{
    let mut t = none();
    for b in 0..=255u8 {
        t = t.with(changed(at, b, end, due(b)));
    }
    t
}

pub(crate) fn each_source() -> Tally {
    each_value(0, 13, source_due)
}

pub(crate) fn each_destination() -> Tally {
    each_value(1, 13, destination_due)
}

pub(crate) fn each_length() -> Tally {
    each_value(4, 13, length_due)
}

pub(crate) fn each_command_answer() -> Tally {
    each_value(7, 8, |b| answer_due(7, b))
}

pub(crate) fn each_reply_answer() -> Tally {
    each_value(11, 12, |b| answer_due(11, b))
}
