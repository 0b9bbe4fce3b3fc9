// Files in memory as the log of all writes, and the steps of a script on them.
#![tactic(auto)]

pub mod edits;
pub mod files;
pub mod laws;
pub mod write;
