// The one guard before every call (rule N2): number 1, then number 2, then the input.
#![tactic(auto)]

ghost use Rattle.std.specs.Prelude.{◌≡◌};
ghost use Rattle.guard.specs.Guard.{guard};

use refusal::{OUTPUT_SHORT, Refusal, TABLE_NOT_VALID, refused};

// Number 1 where the lent outputs have less room than is needed, then number 2 where what the call
// takes for valid is not.
#[tactic(auto, unfolding(crate::specs::Guard::guard))]
pub fn admit(needed: usize, room: usize, ok: bool) -> Result<(), Refusal>
    ensures { result ≡ guard needed room ok }
{
    if room < needed {
        return refused(OUTPUT_SHORT, 0);
    }
    if !ok {
        return refused(TABLE_NOT_VALID, 0);
    }
    Ok(())
}
