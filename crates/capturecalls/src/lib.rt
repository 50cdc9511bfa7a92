// The exchanges of a capture, for C.
#![tactic(auto)]

ghost use Rattle.std.specs.Prelude.{◌≡◌};
ghost use Rattle.captures.specs.Capture.{next_exchange};

use captures::Stretch;

// The next exchange of a capture from a position on.
#[unsafe(no_mangle)]
pub extern "C" fn moor_next_exchange(capture: &[u8], at: usize) -> Stretch
    ensures { result ≡ next_exchange capture.now at }
{
    captures::next_exchange(capture, at)
}
