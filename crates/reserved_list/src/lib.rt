// A list whose room is counted.
#![tactic(auto)]

pub mod reserved;
