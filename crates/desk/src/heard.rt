// The last raw bytes that the listening state was fed. The state itself drops them, and who explains
// a refusal wants them again.
use crate::hex::MOST;
use crate::part::start_of;
use crate::word;
use spelling::put_behind;

// The longest exchange has 157 raw bytes. Any idle time before it may be lost from its front: what is
// left of it is idle time too.
const MOST_HEARD: usize = 256;

// Those that are kept, and those of one line behind them.
const BOTH: usize = 8448;

#[derive(Clone, Copy)]
pub struct Heard {
    pub bytes: [u8; MOST_HEARD],
    // How many of them there are, and how many were heard before them.
    pub kept: usize,
    pub before: usize,
}

pub fn nothing() -> Heard {
    Heard {
        bytes: [0u8; MOST_HEARD],
        kept: 0,
        before: 0,
    }
}

impl Heard {
    // With the bytes of another run behind them.
    pub fn and(self, run: &[u8]) -> Heard {
        if MOST < run.len() {
            return self;
        }
        let old = self.bytes;
        let kept = self.kept.min(MOST_HEARD);
        let mut both = [0u8; BOTH];
        put_behind(&mut both, 0, start_of(&old, kept));
        put_behind(&mut both, kept, run);
        let end = kept + run.len();
        let from = end.saturating_sub(MOST_HEARD);
        let mut bytes = [0u8; MOST_HEARD];
        put_behind(&mut bytes, 0, word::part(&both, from, end));
        Heard {
            bytes,
            kept: end.min(MOST_HEARD),
            before: self.before.wrapping_add(from),
        }
    }
}
