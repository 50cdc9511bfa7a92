// What the devices answer to a poll, and what that changes in their queues.
ghost use Rattle.std.specs.Prelude.{◌≡◌, true, ◌≤◌, length};
ghost use mathlib.Mathlib.Logic.Function.Defs.{id};
ghost use Rattle.lists.specs.Starting.{starting};
ghost use Rattle.table.specs.Table.{columns};
ghost use Rattle.queues.specs.Queues.{queue_columns, queued_from, valid_queues};
ghost use Rattle.polls.specs.Poll.{nothing, packet, poll_windows};
ghost use Rattle.polls.specs.Calls.{heard_bytes, poll_room, polling, GivesPoll};
ghost use Rattle.polls.specs.Inner.{RightSlots, GivesHeard};

use crate::{Polled, keys, packing};
use answers::put_fill;
use arbitration::Decided;
use confirmation::confirm;
use eventrequests::EventRequest;
use framing::{END_LENGTH, write_closed};
use queues::SLOTS_LENGTH;
use refusal::Refusal;

// The longest body of a packet: six bytes, and 8 events of 12.
const LONGEST_BODY: usize = 102;

// One FF for each dominant window, then a packet of so many of the oldest events. There is room for
// any packet, so that its writer does not refuse.
fn send(
    dominant: usize,
    sender: u8,
    flag: u8,
    count: u8,
    events: u8,
    slots: &[u8],
    answer: &mut [u8],
) -> usize
    requires { RightSlots events slots.now × (dominant ≤ poll_windows) × (poll_room ≤ length answer.old) }
    ensures { (result ≡ length (heard_bytes (packet dominant sender flag count (queued_from events slots.now)))) × (answer.new ≡ starting (heard_bytes (packet dominant sender flag count (queued_from events slots.now))) answer.old) }
{
    let mut body = [0u8; LONGEST_BODY];
    let end = packing::put_body(sender, flag, count, events, slots, &mut body);
    put_fill(dominant, answer);
    let _ = write_closed(&body[..end], &mut answer[dominant..]);
    dominant + end + 2
}

// One FF for each dominant window, then the frame that says that nobody has events.
fn send_nothing(dominant: usize, sender: u8, answer: &mut [u8]) -> usize
    requires { (dominant ≤ poll_windows) × (poll_room ≤ length answer.old) }
    ensures { (result ≡ length (heard_bytes (nothing dominant sender))) × (answer.new ≡ starting (heard_bytes (nothing dominant sender)) answer.old) }
{
    put_fill(dominant, answer);
    let _ = packets::write_no_events(&mut answer[dominant..]);
    dominant + END_LENGTH
}

// The devices contend, and the one that remains answers. Of a packet it remembers how many events it
// had.
fn contend(
    request: EventRequest,
    serials: &[u32],
    addresses: &[u8],
    marks: &[u8],
    flags: &[u8],
    lasts: &mut [u8],
    counts: &[u8],
    slots: &[u8],
    answer: &mut [u8],
) -> Polled
    requires { (valid_queues (columns serials.now addresses.now marks.now) (queue_columns flags.now lasts.old counts.now slots.now) ≡ true) × (poll_room ≤ length answer.old) }
    ensures { GivesHeard request (columns serials.now addresses.now marks.now) (queue_columns flags.now lasts.old counts.now slots.now) answer.old result answer.new lasts.new }
{
    let Decided {
        place,
        dominant,
        ..
    } = keys::decide(request, addresses, counts, slots);
    if place >= addresses.len() {
        return Polled::Silent;
    }
    let sender = addresses[place];
    let count = counts[place];
    let start = SLOTS_LENGTH * place;
    let own = &slots[start..start + SLOTS_LENGTH];
    let events = packing::how_many_fit(count, request.most, own);
    if count == 0 {
        let length = send_nothing(dominant, sender, answer);
        return Polled::Nothing {
            skipped: dominant,
            length,
            sender,
        };
    }
    let flag = flags[place];
    lasts[place] = events;
    Polled::Packet {
        skipped: dominant,
        length: send(dominant, sender, flag, count, events, own, answer),
        sender,
        flag,
        events,
    }
}

// One poll: first the packet that it names is confirmed, whoever answers.
pub(crate) fn respond(
    request: EventRequest,
    serials: &[u32],
    addresses: &[u8],
    marks: &[u8],
    flags: &mut [u8],
    lasts: &mut [u8],
    counts: &mut [u8],
    slots: &mut [u8],
    answer: &mut [u8],
) -> Result<Polled, Refusal>
    requires { (valid_queues (columns serials.now addresses.now marks.now) (queue_columns flags.old lasts.old counts.old slots.old) ≡ true) × (poll_room ≤ length answer.old) }
    ensures { GivesPoll id (polling request answer.old (columns serials.now addresses.now marks.now) (queue_columns flags.old lasts.old counts.old slots.old)) result answer.new flags.new lasts.new counts.new slots.new }
{
    let id = request.confirmed;
    let flag = request.flag;
    confirm(addresses, id, flag, flags, lasts, counts, slots);
    Ok(contend(
        request, serials, addresses, marks, flags, lasts, counts, slots, answer,
    ))
}
