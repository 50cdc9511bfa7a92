// What waits to be written out.
use desk::part::start_of;
use spelling::{LINE, put_behind};

// How many bytes can wait.
pub(crate) const PAGE: usize = 65536;

// Behind so many bytes the page is written out before another run is looked at: the lines of a run of
// 64 bytes have room then.
pub(crate) const FULL: usize = 61440;

// The first n bytes of a line wait too: how many wait then.
pub(crate) fn add(waiting: usize, page: &mut [u8; PAGE], line: &[u8; LINE], n: usize) -> usize {
    if PAGE <= waiting {
        return waiting;
    }
    put_behind(page, waiting, start_of(line, n));
    waiting + n.min(LINE).min(PAGE - waiting)
}
