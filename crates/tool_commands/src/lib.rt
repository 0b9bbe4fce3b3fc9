// The commands of a manifest as the outside sees them: the key that an input asks, the text that a command, a target or a node has
// as its signature, and the order that a command gives.
#![tactic(auto)]

pub mod key;
pub mod laws;
pub mod order;
mod parts;
pub mod signature;
#[cfg(test)]
mod tests;
