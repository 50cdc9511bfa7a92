// The logical bytes that stand on the wire, once they are known to stand there.
ghost use Rattle.std.specs.Prelude.{◌≡◌, Bool, ◌≤◌, length};
ghost use Rattle.lists.specs.Starting.{starting};
ghost use Rattle.escapes.specs.Logical.{logicals_at};
ghost use Rattle.attempts.specs.View.{Ready};

use escapes::ESC;

// Puts n logical bytes that stand at a position at the start of an output that has room for them.
// Nothing is looked at but A9, since all else was judged before.
pub(crate) fn copy_logical(run: &[u8], at: usize, n: usize, out: &mut [u8])
    requires { ((command : Bool) × Ready command run.now at n) × (n ≤ length out.old) }
    ensures { out.new ≡ starting (logicals_at run.now n at) out.old }
{
    let mut next = at;
    for i in 0..n {
        let byte = run[next];
        if byte == ESC {
            out[i] = ESC + run[next + 1];
            next += 2;
        } else {
            out[i] = byte;
            next += 1;
        }
    }
}
