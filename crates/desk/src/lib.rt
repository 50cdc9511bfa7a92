// What the desk tool's commands share: what a line holds, what the tool keeps from line to line, and
// the page that answers are put on.
#![tactic(auto)]

pub mod aside;
pub mod expected;
pub mod explain;
pub mod fault;
pub mod heard;
pub mod hex;
mod names;
pub mod number;
pub mod part;
pub mod say;
pub mod state;
pub mod texts;
pub mod word;
