//! What a run did, how it ended, and what is printed of it.
#![tactic(auto)]

mod refused;
pub mod report;
mod shown;
pub mod texts;
