// What the programs of recordings share: how many cases of a group were run, and how many gave what
// they must; and parts of what is lent.
#![tactic(auto)]

pub mod part;

use std::io;

#[derive(Clone, Copy)]
pub struct Tally {
    run: u32,
    right: u32,
}

pub fn none() -> Tally {
    Tally { run: 0, right: 0 }
}

impl Tally {
    // One case more.
    pub fn with(self, right: bool) -> Tally {
        Tally {
            run: self.run.saturating_add(1),
            right: self.right.saturating_add(u32::from(right)),
        }
    }

    // The group's line.
    pub fn say(self, rt: &impl Print, group: &[u8]) -> io::Result<()> {
        let run = self.run;
        let right = self.right;
        rt.write_all(group)?;
        println!(rt; ": {run} run, {right} right")
    }
}
