// The short names of the numbers of refusals.
use crate::part::start_of;
use crate::say;
use crate::say::Page;
use spelling::LINE;

pub(crate) fn name(rt: &impl Print, page: Page, number: u8) -> Page {
    let mut line = [0u8; LINE];
    let n = spelling::name(0, &mut line, number);
    say::put(rt, page, start_of(&line, n))
}
