// The frames of event polling, and devices that are polled for events. `script` says what a line is.
use crate::script::played;
use tally::Tally;

// The printed request, the largest, and what is refused: by its length, its mark, its subcommand,
// its check.
pub(crate) fn requests() -> Tally {
    played(
        b"FD 46 10 00 64 0A 01 7E 15 r 00 64 0A 01
FD 46 10 FF FF FF FF F9 3E r FF FF FF FF
FD 46 10 00 64 0A 01 7E r ! 13 00
FD 46 10 00 64 0A 01 7E 15 00 r ! 13 00
FD 46 10 D3 9C r ! 13 00
FD 46 10 00 r ! 13 00
r ! 13 00
FF FD 46 10 00 64 0A 01 7E 15 r ! 14 00
05 46 10 00 64 0A 01 07 DA r ! 14 00
FD 47 10 00 64 0A 01 00 00 r ! 14 01
FD 46 01 13 90 r ! 15 02
FD 46 11 00 64 0A 01 00 00 r ! 15 02
FD 46 10 00 64 0A 01 7E 14 r ! 16 07
",
    )
}

// The printed packet and that nobody has events, behind FF too; the first and the last id, and what
// is none; packets that list nothing and less than is queued; what disagrees inside, before a wrong
// check.
pub(crate) fn packets() -> Tally {
    played(
        b"05 46 11 01 01 06 02 04 01 D0 04 00 2B AC e 05 01 01 01 06 06
FD 46 12 52 5D e
FF FF FF 05 46 11 01 01 06 02 04 01 D0 04 00 2B AC e 05 01 01 01 09 06 = 03
FF FF FF FF FF FF FF FF FF FF FF FF FD 46 12 52 5D e = 12
01 46 11 01 01 06 02 04 01 D0 04 00 DA 63 e 01 01 01 01 06 06
F7 46 11 01 01 06 02 04 01 D0 04 00 91 6A e F7 01 01 01 06 06
00 46 11 01 01 06 02 04 01 D0 04 00 27 A0 e ! 14 00
F8 46 11 01 01 06 02 04 01 D0 04 00 85 7E e ! 14 00
FF FF 00 46 11 01 01 06 02 04 01 D0 04 00 27 A0 e ! 14 02
05 47 11 01 01 06 02 04 01 D0 04 00 2F 50 e ! 14 01
05 46 12 D3 AC e ! 15 02
FF FD 46 11 01 01 06 02 04 01 D0 04 00 89 72 e ! 15 03
05 46 11 00 00 00 8C BD e 05 00 00 00 06 00
05 46 11 02 03 00 2D 8D e 05 02 03 00 06 00
05 46 11 01 09 0A 00 01 00 02 02 04 01 D0 04 00 49 72 e 05 01 09 02 06 0A
05 46 11 01 00 06 02 04 01 D0 04 00 00 00 e ! 13 00
05 46 11 01 01 05 02 04 01 D0 04 00 00 00 e ! 13 00
05 46 11 01 01 07 02 04 01 D0 04 00 00 00 e ! 13 00
05 46 11 01 01 06 01 04 01 D0 04 00 00 00 e ! 13 00
05 46 11 01 01 06 03 04 01 D0 04 00 00 00 e ! 13 00
05 46 11 01 01 06 02 04 01 D0 04 00 00 00 e ! 16 12
FF 05 46 11 01 01 06 02 04 01 D0 04 00 00 00 e ! 16 13
FD 46 12 52 5E e ! 16 03
FD 46 12 52 5D 00 e ! 13 00
FD 46 12 52 e ! 13 00
FF FF FF FF FF e ! 13 00
e ! 13 00
",
    )
}

// New events: a queue of 8, and one more; 8 and 9 data bytes; ids that no device has; what makes
// table and queues not valid.
pub(crate) fn events() -> Tally {
    played(
        b"01 F7 d
01 00 00 00 n
01 01 01 01 00 u
01 02 02 02 00 01 n
01 03 03 03 00 01 02 u
01 04 04 04 00 01 02 03 n
01 05 05 05 00 01 02 03 04 u
01 06 06 06 00 01 02 03 04 05 n
01 07 FF FF 00 01 02 03 04 05 06 07 u
01 08 00 00 n ! 18 00
01 08 00 00 00 01 02 03 04 05 06 07 08 u ! 13 00
F7 08 00 00 00 01 02 03 04 05 06 07 08 n ! 13 00
02 04 01 D0 n ! 13 00
00 04 01 D0 n ! 13 00
F8 04 01 D0 n ! 13 00
F7 04 01 D0 00 01 02 03 04 05 06 07 n
00 q 00 00 08
01 q 00 00 01
01 00 d
01 04 01 D0 n ! 02 00
F8 01 d
01 04 01 D0 n ! 02 00
05 05 d
05 04 01 D0 n ! 02 00
01 F7 d
01 02 00 00 s
01 04 01 D0 n ! 02 00
00 64 00 00 p ! 02 00
01 F7 d
01 00 01 00 s
01 04 01 D0 n ! 02 00
00 64 00 00 p ! 02 00
01 F7 d
00 00 00 09 s
01 04 01 D0 n ! 02 00
00 64 00 00 p ! 02 00
",
    )
}

// Nothing queued, and nobody from the minimum on. The printed packet, which comes again until it is
// confirmed, also from below the minimum, and is dropped once. Urgent before normal, as many as fit,
// and silence where no oldest event does. Answer buffers of 115 and 116 bytes, raw frames, and the
// longest packet.
pub(crate) fn polls() -> Tally {
    played(
        b"05 F7 d
00 64 00 00 p FF FF FF FF FF FF FD 46 12 52 5D = 06
05 00 00 00 p FF FF FF FF FF FF FD 46 12 52 5D = 06
06 00 00 00 p FF FD 46 12 52 5D = 01
F7 00 00 00 p FF FD 46 12 52 5D = 01
F8 64 00 00 p
00 01 00 00 s
05 04 01 D0 04 00 n
00 64 00 00 p FF FF FF FF FF FF FF FF FF 05 46 11 01 01 06 02 04 01 D0 04 00 2B AC = 09
00 q 01 01 01
00 64 05 00 p FF FF FF FF FF FF FF FF FF 05 46 11 01 01 06 02 04 01 D0 04 00 2B AC = 09
00 64 F7 01 p FF FF FF FF FF FF FF FF FF 05 46 11 01 01 06 02 04 01 D0 04 00 2B AC = 09
05 01 00 02 n
06 64 05 01 p FF FD 46 12 52 5D = 01
00 q 00 00 01
00 64 05 01 p FF FF FF FF FF FF FF FF FF 05 46 11 00 01 04 00 01 00 02 9A A4 = 09
00 q 00 01 01
00 64 05 01 p FF FF FF FF FF FF FF FF FF 05 46 11 00 01 04 00 01 00 02 9A A4 = 09
00 q 00 01 01
00 64 05 00 p FF FF FF FF FF FF FD 46 12 52 5D = 06
00 q 01 00 00
00 64 05 00 p FF FF FF FF FF FF FD 46 12 52 5D = 06
00 q 01 00 00
01 F7 d
01 01 00 01 09 09 09 n
F7 02 00 02 n
F7 03 00 03 u
00 64 00 00 p FF FF FF FF FF F7 46 11 00 02 08 00 02 00 02 00 03 00 03 BA 07 = 05
00 04 F7 01 p FF FF FF FF FF F7 46 11 00 02 04 00 02 00 02 CE 9E = 05
00 03 F7 00 p
01 q 01 00 01
00 08 00 00 p FF FF FF FF FF F7 46 11 01 01 04 00 03 00 03 4E 6D = 05
FD 46 10 00 07 F7 01 CE 9B o FF FF FF FF FF FF FF FF FF FF 01 46 11 00 01 07 03 01 00 01 09 09 09 31 6E = 10
FD 46 10 00 07 01 00 48 FB o FF FF FF FF FF FF FF FD 46 12 52 5D = 07
FD 46 10 00 06 01 01 D8 FB o FF FF FF FF FF FF FF FD 46 12 52 5D = 07
00 06 01 00 p FF FF FF FF FF FF FF FD 46 12 52 5D = 07
73 m
00 FF 00 00 p ! 01 00
74 m
00 FF 00 00 p FF FF FF FF FF FF FF FD 46 12 52 5D = 07
FD 46 10 00 64 0A 01 7E o ! 13 00
FF FD 46 10 00 64 0A 01 7E 15 o ! 14 00
FD 46 01 13 90 o ! 15 02
FD 46 10 00 64 0A 01 7E 14 o ! 16 07
FD 46 10 00 64 0A 01 7E 15 o FF FF FF FF FF FF FF FD 46 12 52 5D = 07
01 02 d
01 00 00 00 00 01 02 03 04 05 06 07 n
01 01 00 01 00 01 02 03 04 05 06 07 n
01 02 00 02 00 01 02 03 04 05 06 07 n
01 03 00 03 00 01 02 03 04 05 06 07 n
01 04 00 04 00 01 02 03 04 05 06 07 n
01 05 00 05 00 01 02 03 04 05 06 07 n
01 06 00 06 00 01 02 03 04 05 06 07 n
01 07 00 07 00 01 02 03 04 05 06 07 u
00 FF 00 00 p FF FF FF FF FF FF FF FF FF FF FF 01 46 11 00 08 60 08 00 00 00 00 01 02 03 04 05 06 07 08 01 00 01 00 01 02 03 04 05 06 07 08 02 00 02 00 01 02 03 04 05 06 07 08 03 00 03 00 01 02 03 04 05 06 07 08 04 00 04 00 01 02 03 04 05 06 07 08 05 00 05 00 01 02 03 04 05 06 07 08 06 00 06 00 01 02 03 04 05 06 07 08 07 00 07 00 01 02 03 04 05 06 07 29 6C = 11
00 5F 00 00 p FF FF FF FF FF FF FF FF FF FF FF 01 46 11 00 08 54 08 00 00 00 00 01 02 03 04 05 06 07 08 01 00 01 00 01 02 03 04 05 06 07 08 02 00 02 00 01 02 03 04 05 06 07 08 03 00 03 00 01 02 03 04 05 06 07 08 04 00 04 00 01 02 03 04 05 06 07 08 05 00 05 00 01 02 03 04 05 06 07 08 06 00 06 00 01 02 03 04 05 06 07 B1 61 = 11
00 60 01 01 p FF FF FF FF FF FF FF FF FF FF FF 01 46 11 00 08 60 08 00 00 00 00 01 02 03 04 05 06 07 08 01 00 01 00 01 02 03 04 05 06 07 08 02 00 02 00 01 02 03 04 05 06 07 08 03 00 03 00 01 02 03 04 05 06 07 08 04 00 04 00 01 02 03 04 05 06 07 08 05 00 05 00 01 02 03 04 05 06 07 08 06 00 06 00 01 02 03 04 05 06 07 08 07 00 07 00 01 02 03 04 05 06 07 29 6C = 11
00 60 01 00 p FF FF FF FF FF FF FF FD 46 12 52 5D = 07
",
    )
}

// Urgent events keep a normal one waiting: device 1 has one, and is not heard in three polls of a
// client that asks from behind the last sender on.
pub(crate) fn waiting() -> Tally {
    played(
        b"01 02 d
01 01 00 01 n
02 02 00 02 00 01 02 03 04 05 06 07 u
02 02 00 03 00 01 02 03 04 05 06 07 u
00 0C 00 00 p FF FF FF FF FF FF FF FF FF FF FF 02 46 11 00 02 0C 08 02 00 02 00 01 02 03 04 05 06 07 29 0D = 11
03 0C 02 00 p
00 0C 00 00 p FF FF FF FF FF FF FF FF FF FF FF 02 46 11 01 01 0C 08 02 00 03 00 01 02 03 04 05 06 07 E6 9E = 11
00 q 00 00 01
",
    )
}

// The FF before an answer are the zero bits of the 12 of its key: of ids with one bit that is 1 and with
// seven, each with nothing, a normal and an urgent event queued. Silence and a refusal have none.
pub(crate) fn fill() -> Tally {
    played(
        b"7F 80 d
00 64 00 00 p FF FD 46 12 52 5D = 01
80 64 00 00 p FF FF FF FF FF FF FF FD 46 12 52 5D = 07
80 01 00 01 n
00 64 00 00 p FF FF FF FF FF FF FF FF FF FF 80 46 11 00 01 04 00 01 00 01 CD 5D = 10
7F 01 00 01 n
00 64 00 00 p FF FF FF FF 7F 46 11 00 01 04 00 01 00 01 F8 AE = 04
80 02 00 02 u
00 64 00 00 p FF FF FF FF FF FF FF FF FF FF FF 80 46 11 00 02 08 00 01 00 01 00 02 00 02 2A 70 = 11
7F 02 00 02 u
00 64 00 00 p FF FF FF FF FF 7F 46 11 00 02 08 00 01 00 01 00 02 00 02 D5 8F = 05
FD 46 10 00 64 7F 00 99 45 o FF FF FF FF FF FF FF FF FF FF FF 80 46 11 00 02 08 00 01 00 01 00 02 00 02 2A 70 = 11
FD 46 10 00 64 80 00 D8 B5 o FF FD 46 12 52 5D = 01
81 64 00 00 p
73 m
00 64 00 00 p ! 01 00
",
    )
}
