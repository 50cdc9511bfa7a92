// The judging of a recorded eBUS exchange (rules E12 to E17).
#![tactic(auto)]

pub mod judge;
mod tries;
mod wire;
