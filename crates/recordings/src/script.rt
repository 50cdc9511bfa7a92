// Scripts of frames that are read and of devices that are polled: what is read, what is answered byte
// by byte, and what a refusal leaves.
//
// A case is a line: bytes, a letter that says what is done with them, and what that must give, with `=`
// and how many FF were passed over where there were any; or `!` with the number and place of the
// refusal. Bytes are hexadecimal, and these numbers decimal. Each line finds what those before it left.
use crate::lines::{Base, cases, read_field};
use answers::AnswerRead;
use eventrequests::{EventRequest, read_event_request};
use lists::{byte_at, put};
use packets::EventsRead;
use polls::Polled;
use refusal::{Refusal, refused};
use tally::Tally;
use tally::part::{FILL, holds, lent, rest, start};

// There are two devices.
const ROWS: usize = 2;

const SLOTS: usize = 208;

// Their serials and marks.
const SERIALS: [u32; ROWS] = [1, 2];

const MARKS: [u8; ROWS] = [0, 0];

// An answer buffer at its longest.
const LONGEST: usize = 128;

// The devices, how many bytes of an answer buffer are lent, and how many FF stand before what is read.
#[derive(Clone, Copy)]
struct Bus {
    room: usize,
    fill: usize,
    ids: [u8; ROWS],
    flags: [u8; ROWS],
    lasts: [u8; ROWS],
    counts: [u8; ROWS],
    slots: [u8; SLOTS],
}

// What a call gave: how many FF were passed over, and how many bytes of the output say the rest.
#[derive(Clone, Copy, PartialEq, Eq)]
struct Given {
    skipped: usize,
    n: usize,
}

const NOTHING: Given = Given { skipped: 0, n: 0 };

// Two devices with these ids and nothing queued.
fn fresh(ids: [u8; ROWS]) -> Bus {
    Bus {
        room: LONGEST,
        fill: 0,
        ids,
        flags: [0; ROWS],
        lasts: [0; ROWS],
        counts: [0; ROWS],
        slots: [0; SLOTS],
    }
}

// The bytes that say what was given are put into the output.
fn gave(skipped: usize, bytes: &[u8], out: &mut [u8]) -> Given {
    put(bytes, out);
    Given {
        skipped,
        n: bytes.len(),
    }
}

// ---- frames

fn request_of(bytes: &[u8]) -> EventRequest {
    EventRequest {
        minimum: byte_at(bytes, 0),
        most: byte_at(bytes, 1),
        confirmed: byte_at(bytes, 2),
        flag: byte_at(bytes, 3),
    }
}

// A request, as its four bytes.
fn request_read(input: &[u8], out: &mut [u8]) -> Result<Given, Refusal> {
    let request = read_event_request(input)?;
    let bytes = [
        request.minimum,
        request.most,
        request.confirmed,
        request.flag,
    ];
    Ok(gave(0, &bytes, out))
}

// A device found, as the four bytes of its serial and its address; the end of a scan, as nothing.
fn answer_read(input: &[u8], out: &mut [u8]) -> Result<Given, Refusal> {
    match answers::read_answer(input)? {
        AnswerRead::Found {
            skipped,
            serial,
            address,
        } => {
            let [a, b, c, d] = serial.to_be_bytes();
            Ok(gave(skipped, &[a, b, c, d, address], out))
        }
        AnswerRead::End { skipped } => Ok(Given { skipped, n: 0 }),
    }
}

// A packet, as its sender, its flag, how many events are queued and listed, where the first stands,
// and how many bytes they have; that nobody has events, as nothing.
fn events_read(input: &[u8], out: &mut [u8]) -> Result<Given, Refusal> {
    match packets::read_events(input)? {
        EventsRead::Packet {
            skipped,
            sender,
            flag,
            queued,
            listed,
            first,
            size,
        } => {
            let bytes = [
                sender,
                flag,
                queued,
                (listed % 256) as u8,
                (first % 256) as u8,
                size,
            ];
            Ok(gave(skipped, &bytes, out))
        }
        EventsRead::Nothing { skipped } => Ok(Given { skipped, n: 0 }),
    }
}

// What a reader finds behind so many FF. No line of a script needs more room than there is.
fn read_behind<F: FnOnce(&[u8], &mut [u8]) -> Result<Given, Refusal>>(
    fill: usize,
    bytes: &[u8],
    out: &mut [u8],
    read: F,
) -> Result<Given, Refusal>
    requires { F.IsAlwaysCallable read }
{
    let mut input = [answers::FILL; LONGEST];
    let fill = fill.min(LONGEST);
    put(bytes, &mut input[fill..]);
    read(start(&input, fill.saturating_add(bytes.len())), out)
}

// ---- devices

// A row's flag, last packet and number of events, as they stand in the line.
fn store(bus: &mut Bus, bytes: &[u8]) {
    let row = usize::from(byte_at(bytes, 0));
    if row < ROWS {
        bus.flags[row] = byte_at(bytes, 1);
        bus.lasts[row] = byte_at(bytes, 2);
        bus.counts[row] = byte_at(bytes, 3);
    }
}

// The same three numbers, given.
fn stored(bus: &Bus, row: usize, out: &mut [u8]) -> Given {
    if row < ROWS {
        gave(0, &[bus.flags[row], bus.lasts[row], bus.counts[row]], out)
    } else {
        NOTHING
    }
}

// The device's id, type and identifier stand before the data.
fn add(bus: &mut Bus, urgent: bool, bytes: &[u8]) -> Result<Given, Refusal> {
    newevents::add_event(
        &SERIALS,
        &bus.ids,
        &MARKS,
        &bus.flags,
        &bus.lasts,
        &mut bus.counts,
        &mut bus.slots,
        byte_at(bytes, 0),
        urgent,
        byte_at(bytes, 1),
        u16::from_be_bytes([byte_at(bytes, 2), byte_at(bytes, 3)]),
        rest(bytes, 4),
    )?;
    Ok(NOTHING)
}

// The answer's bytes and its FF; silence has none.
fn poll(
    bus: &mut Bus,
    read: Result<EventRequest, Refusal>,
    answer: &mut [u8],
) -> Result<Given, Refusal> {
    let polled = polls::ask(
        read,
        &SERIALS,
        &bus.ids,
        &MARKS,
        &mut bus.flags,
        &mut bus.lasts,
        &mut bus.counts,
        &mut bus.slots,
        lent(answer, bus.room),
    )?;
    match polled {
        Polled::Packet {
            skipped,
            length,
            ..
        }
        | Polled::Nothing {
            skipped,
            length,
            ..
        } => { read_back(skipped, start(answer, length)) }
        Polled::Silent => Ok(NOTHING),
    }
}

// An answer has to be read back with as many FF. One that is not is given as no bytes, which no line
// expects of an output that was written to.
fn read_back(skipped: usize, answer: &[u8]) -> Result<Given, Refusal> {
    let back = events_read(answer, &mut [0; 6])?;
    let n = if back.skipped == skipped {
        answer.len()
    } else {
        0
    };
    Ok(Given { skipped, n })
}

// ---- lines

// What is done with a line's bytes: read as a request (r), as an answer to a scan (a) or as what comes
// back for a poll (e), the number of FF before these two set (f); two devices with these ids put on the
// bus (d), a row's numbers set (s) and shown (q), the room of answers set (m); a normal (n) or an urgent
// (u) event added; the devices polled (p), or offered a raw frame (o).
fn done(bus: &mut Bus, what: u8, bytes: &[u8], out: &mut [u8]) -> Result<Given, Refusal> {
    let first = byte_at(bytes, 0);
    match what {
        b'r' => return request_read(bytes, out),
        b'a' => return read_behind(bus.fill, bytes, out, answer_read),
        b'e' => return read_behind(bus.fill, bytes, out, events_read),
        b'f' => bus.fill = usize::from(first),
        b'd' => *bus = fresh([first, byte_at(bytes, 1)]),
        b's' => store(bus, bytes),
        b'q' => return Ok(stored(bus, usize::from(first), out)),
        b'm' => bus.room = usize::from(first),
        b'n' => return add(bus, false, bytes),
        b'u' => return add(bus, true, bytes),
        b'p' => return poll(bus, Ok(request_of(bytes)), out),
        _ => return poll(bus, read_event_request(bytes), out),
    }
    Ok(NOTHING)
}

// Whether a line gives what is due, in number and bytes, and leaves those behind them. The numbers are
// those behind the mark, 0 where a line has none.
fn line(bus: &mut Bus, line: &[u8]) -> bool {
    let input = read_field::<LONGEST>(line, Base::Hexadecimal);
    let due = read_field::<LONGEST>(input.rest, Base::Hexadecimal);
    let [number, place] = read_field::<2>(due.rest, Base::Decimal).numbers;
    let answer = if due.mark == b'!' {
        refused(number, usize::from(place))
    } else {
        Ok(Given {
            skipped: usize::from(number),
            n: due.n,
        })
    };
    let mut out = [FILL; LONGEST];
    done(bus, input.mark, input.all(), &mut out) == answer && holds(&out, due.all())
}

// Every line of a script.
pub(crate) fn played(text: &[u8]) -> Tally {
    let mut bus = fresh([1, 2]);
    cases(text, |text| line(&mut bus, text))
}
