// Answers to a scan, and how many FF may stand before what comes back for a scan or for a poll. `script`
// says what a line is.
use crate::script::played;
use tally::Tally;

// The answers of the Fast Modbus extension as it prints them, each behind nine FF.
pub(crate) fn published() -> Tally {
    played(
        b"FF FF FF FF FF FF FF FF FF FD 46 03 00 01 EB 37 0C CE DC a 00 01 EB 37 0C = 09
FF FF FF FF FF FF FF FF FF FD 46 04 D3 93 a = 09
",
    )
}

// 0, 1, 31, 32, 33, 34 and 100 FF before each of the four frames, and alone: up to 32 are counted, and
// the 33rd is refused.
pub(crate) fn behind_fill() -> Tally {
    played(
        b"00 f
FD 46 03 00 01 EB 37 0C CE DC a 00 01 EB 37 0C
FD 46 04 D3 93 a
05 46 11 01 01 06 02 04 01 D0 04 00 2B AC e 05 01 01 01 06 06
FD 46 12 52 5D e
a ! 13 00
e ! 13 00
01 f
FD 46 03 00 01 EB 37 0C CE DC a 00 01 EB 37 0C = 01
FD 46 04 D3 93 a = 01
05 46 11 01 01 06 02 04 01 D0 04 00 2B AC e 05 01 01 01 07 06 = 01
FD 46 12 52 5D e = 01
a ! 13 00
e ! 13 00
1F f
FD 46 03 00 01 EB 37 0C CE DC a 00 01 EB 37 0C = 31
FD 46 04 D3 93 a = 31
05 46 11 01 01 06 02 04 01 D0 04 00 2B AC e 05 01 01 01 25 06 = 31
FD 46 12 52 5D e = 31
a ! 13 00
e ! 13 00
20 f
FD 46 03 00 01 EB 37 0C CE DC a 00 01 EB 37 0C = 32
FD 46 04 D3 93 a = 32
05 46 11 01 01 06 02 04 01 D0 04 00 2B AC e 05 01 01 01 26 06 = 32
FD 46 12 52 5D e = 32
a ! 13 00
e ! 13 00
21 f
FD 46 03 00 01 EB 37 0C CE DC a ! 19 32
FD 46 04 D3 93 a ! 19 32
05 46 11 01 01 06 02 04 01 D0 04 00 2B AC e ! 19 32
FD 46 12 52 5D e ! 19 32
a ! 19 32
e ! 19 32
22 f
FD 46 03 00 01 EB 37 0C CE DC a ! 19 32
FD 46 04 D3 93 a ! 19 32
05 46 11 01 01 06 02 04 01 D0 04 00 2B AC e ! 19 32
FD 46 12 52 5D e ! 19 32
a ! 19 32
e ! 19 32
64 f
FD 46 03 00 01 EB 37 0C CE DC a ! 19 32
FD 46 04 D3 93 a ! 19 32
05 46 11 01 01 06 02 04 01 D0 04 00 2B AC e ! 19 32
FD 46 12 52 5D e ! 19 32
a ! 19 32
e ! 19 32
",
    )
}

// Frames that are wrong in every other way: each is refused by its own number behind 32 FF, and behind
// 33 by theirs.
pub(crate) fn wrong_behind_fill() -> Tally {
    played(
        b"20 f
FD 46 04 D3 a ! 13 00
FC 46 04 D3 93 a ! 14 32
FD 47 04 D3 93 a ! 14 33
FD 46 01 13 90 a ! 15 34
FD 46 12 52 5D a ! 15 34
05 46 11 01 01 06 02 04 01 D0 04 00 2B AC a ! 14 32
FD 46 03 00 01 EB 37 0C CE a ! 13 00
FD 46 04 D3 93 00 a ! 13 00
FD 46 03 00 01 EB 37 0C CE DD a ! 16 40
FD 46 04 D3 94 a ! 16 35
FD 46 03 10 00 00 00 01 A9 22 a ! 17 35
FD 46 12 52 e ! 13 00
F8 46 11 01 01 06 02 04 01 D0 04 00 85 7E e ! 14 32
05 47 11 01 01 06 02 04 01 D0 04 00 2F 50 e ! 14 33
05 46 12 D3 AC e ! 15 34
FD 46 04 D3 93 e ! 15 34
05 46 11 01 00 06 02 04 01 D0 04 00 00 00 e ! 13 00
05 46 11 01 01 07 02 04 01 D0 04 00 00 00 e ! 13 00
05 46 11 01 01 06 03 04 01 D0 04 00 00 00 e ! 13 00
FD 46 12 52 5D 00 e ! 13 00
05 46 11 01 01 06 02 04 01 D0 04 00 00 00 e ! 16 44
FD 46 12 52 5E e ! 16 35
21 f
FD 46 04 D3 a ! 19 32
FC 46 04 D3 93 a ! 19 32
FD 47 04 D3 93 a ! 19 32
FD 46 01 13 90 a ! 19 32
FD 46 12 52 5D a ! 19 32
05 46 11 01 01 06 02 04 01 D0 04 00 2B AC a ! 19 32
FD 46 03 00 01 EB 37 0C CE a ! 19 32
FD 46 04 D3 93 00 a ! 19 32
FD 46 03 00 01 EB 37 0C CE DD a ! 19 32
FD 46 04 D3 94 a ! 19 32
FD 46 03 10 00 00 00 01 A9 22 a ! 19 32
FD 46 12 52 e ! 19 32
F8 46 11 01 01 06 02 04 01 D0 04 00 85 7E e ! 19 32
05 47 11 01 01 06 02 04 01 D0 04 00 2F 50 e ! 19 32
05 46 12 D3 AC e ! 19 32
FD 46 04 D3 93 e ! 19 32
05 46 11 01 00 06 02 04 01 D0 04 00 00 00 e ! 19 32
05 46 11 01 01 07 02 04 01 D0 04 00 00 00 e ! 19 32
05 46 11 01 01 06 03 04 01 D0 04 00 00 00 e ! 19 32
FD 46 12 52 5D 00 e ! 19 32
05 46 11 01 01 06 02 04 01 D0 04 00 00 00 e ! 19 32
FD 46 12 52 5E e ! 19 32
",
    )
}

// FF in serial, address, check, flag and data are not counted. One in place of a first byte is passed
// over as if it stood before the frame.
pub(crate) fn fill_within() -> Tally {
    played(
        b"FD 46 03 00 00 00 01 FF E8 F1 a 00 00 00 01 FF
FD 46 03 0F FF FF FF FF FC B4 a 0F FF FF FF FF
FD 46 03 00 00 CB 8A FF FF FF a 00 00 CB 8A FF
FD 46 03 FF FF FF FF FF BC A1 a ! 17 03
07 46 11 FF FF 06 02 FF C2 AF FF FF FF FF e 07 FF FF 01 06 06
20 f
FD 46 03 00 00 00 01 FF E8 F1 a 00 00 00 01 FF = 32
FD 46 03 0F FF FF FF FF FC B4 a 0F FF FF FF FF = 32
FD 46 03 00 00 CB 8A FF FF FF a 00 00 CB 8A FF = 32
FD 46 03 FF FF FF FF FF BC A1 a ! 17 35
07 46 11 FF FF 06 02 FF C2 AF FF FF FF FF e 07 FF FF 01 26 06 = 32
21 f
FD 46 03 00 00 00 01 FF E8 F1 a ! 19 32
FD 46 03 0F FF FF FF FF FC B4 a ! 19 32
FD 46 03 00 00 CB 8A FF FF FF a ! 19 32
FD 46 03 FF FF FF FF FF BC A1 a ! 19 32
07 46 11 FF FF 06 02 FF C2 AF FF FF FF FF e ! 19 32
00 f
FF 46 04 D3 93 a ! 13 00
FF 46 03 00 01 EB 37 0C CE DC a ! 14 01
FF 46 12 52 5D e ! 13 00
FF 46 11 01 01 06 02 04 01 D0 04 00 2B AC e ! 14 02
FD FF 04 D3 93 a ! 14 01
FD FF 12 52 5D e ! 14 01
00 FF FF FF FF a ! 14 00
00 FF FF FF FF e ! 14 00
FD 46 04 D3 93 FF a ! 13 00
FD 46 12 52 5D FF e ! 13 00
",
    )
}
