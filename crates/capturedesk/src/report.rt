// The line of one exchange.
use addresses::ExchangeKind;
use desk::expected::check_of;
use desk::part::start_of;
use exchange::judge::Accepted;
use lists::byte_at;
use refusal::{CHECK_WRONG, Refusal};
use spelling::LINE;
use telegram::COMMAND_ROOM;

// The largest LEN.
const LONGEST: u8 = 16;

// How long the command at the start of its buffer is: LEN stands behind four bytes, and behind it the
// data and the check byte.
fn command_length(command: &[u8]) -> usize {
    6 + byte_at(command, 4).min(LONGEST) as usize
}

fn kind_name(at: usize, line: &mut [u8; LINE], kind: ExchangeKind) -> usize {
    match kind {
        ExchangeKind::Broadcast => spelling::text(at, line, b": accepted broadcast"),
        ExchangeKind::InitiatorInitiator => {
            spelling::text(at, line, b": accepted initiator/initiator")
        }
        ExchangeKind::InitiatorTarget => spelling::text(at, line, b": accepted initiator/target"),
    }
}

// The kind and the attempts of an exchange, behind where it starts.
pub(crate) fn accepted(line: &mut [u8; LINE], start: u64, exchange: Accepted) -> usize {
    let a = spelling::decimal(0, line, start);
    let b = kind_name(a, line, exchange.kind);
    let c = spelling::text(b, line, b", attempts ");
    let d = spelling::decimal(c, line, exchange.command_attempts as u64);
    let e = spelling::text(d, line, b" and ");
    spelling::decimal(e, line, exchange.reply_attempts as u64)
}

// The command, and the data of the reply.
pub(crate) fn telegrams(
    at: usize,
    line: &mut [u8; LINE],
    command: &[u8; COMMAND_ROOM],
    data: &[u8],
) -> usize {
    let a = spelling::text(at, line, b", command");
    let b = spelling::bytes(a, line, start_of(command, command_length(command)));
    let c = spelling::text(b, line, b", data");
    let d = spelling::bytes(c, line, data);
    spelling::byte(d, line, b'\n')
}

// A refusal, behind where its exchange starts: number, place in the capture and name; of a wrong
// check byte what was expected and found in the stretch.
pub(crate) fn refused(line: &mut [u8; LINE], start: u64, why: Refusal, stretch: &[u8]) -> usize {
    let number = why.number;
    let place = why.place;
    let a = spelling::decimal(0, line, start);
    let b = spelling::text(a, line, b": refused ");
    let c = spelling::decimal(b, line, number as u64);
    let d = spelling::text(c, line, b" at ");
    let e = spelling::decimal(d, line, start.saturating_add(place as u64));
    let f = named(e, line, number);
    let g = check(f, line, number, place, stretch);
    spelling::text(g, line, b")\n")
}

// A number's name, in brackets that are still open.
fn named(at: usize, line: &mut [u8; LINE], number: u8) -> usize {
    let a = spelling::text(at, line, b"  (");
    spelling::name(a, line, number)
}

fn check(at: usize, line: &mut [u8; LINE], number: u8, place: usize, stretch: &[u8]) -> usize {
    if number != CHECK_WRONG {
        return at;
    }
    let Some(checked) = check_of(stretch, place) else {
        return at;
    };
    let a = spelling::text(at, line, b": expected ");
    let b = spelling::hex(a, line, checked.expected);
    let c = spelling::text(b, line, b", found ");
    spelling::hex(c, line, checked.found)
}
