// What a target needs, and whether all of it is built today.
#![tactic(auto)]

mod later;
mod plain;
pub mod plan;
mod reach;
