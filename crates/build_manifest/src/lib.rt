// What a build has to do: the targets and the commands of a manifest, the rules over them, and the look-ups.
#![tactic(auto)]

pub mod command;
mod default;
mod deps;
pub mod draft;
pub mod fault;
mod hits;
mod makers;
pub mod manifest;
mod places;
#[cfg(test)]
mod tests;
