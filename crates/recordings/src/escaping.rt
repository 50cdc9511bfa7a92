// Expanding and undoing escapes: the bytes, the refusals, and the bytes that stay.
//
// A case is a line: the bytes, `=` and what they become, or `!` and the room that is lent with the
// number and place of the refusal.
use crate::lines::{Base, cases, read_field};
use refusal::{Refusal, refused};
use tally::Tally;
use tally::part::{FILL, holds, lent};

fn case<F: FnOnce(&[u8], &mut [u8]) -> Result<usize, Refusal>>(line: &[u8], change: F) -> bool
    requires { F.IsAlwaysCallable change }
{
    let input = read_field::<16>(line, Base::Hexadecimal);
    let mut out = [FILL; 64];
    if input.mark == b'!' {
        let due = read_field::<3>(input.rest, Base::Decimal);
        let [room, number, place] = due.numbers;
        let answer = change(input.all(), lent(&mut out, usize::from(room)));
        return answer == refused(number, usize::from(place)) && holds(&out, b"");
    }
    let due = read_field::<16>(input.rest, Base::Hexadecimal);
    change(input.all(), &mut out) == Ok(due.n) && holds(&out, due.all())
}

pub(crate) fn expanded() -> Tally {
    cases(
        b"A9 AA = A9 00 A9 01
=
10 08 B5 11 01 01 = 10 08 B5 11 01 01
AA = A9 01
A8 A9 AB = A8 A9 00 AB
A9 ! 01 01 00
01 ! 00 01 00
A9 AA ! 03 01 00
",
        |line| case(line, escapes::expand),
    )
}

pub(crate) fn undone() -> Tally {
    cases(
        b"A9 00 A9 01 = A9 AA
=
10 A9 ! 64 03 02
A9 02 ! 64 04 01
A9 A9 ! 64 04 01
A9 AA ! 64 05 01
01 AA 02 ! 64 05 01
01 02 03 ! 02 01 00
01 02 03 A9 55 ! 02 04 04
01 02 AA ! 00 05 02
01 A9 ! 00 03 02
",
        |line| case(line, escapes::undo),
    )
}
