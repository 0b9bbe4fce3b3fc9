// The reader of manifests.
#![tactic(auto)]

mod attributes;
mod client;
mod commands;
mod entry_checks;
pub mod error;
mod inputs;
pub mod laws;
pub mod load;
mod outputs;
mod put;
mod sections;
mod targets;
#[cfg(test)]
mod tests;
mod tools;
