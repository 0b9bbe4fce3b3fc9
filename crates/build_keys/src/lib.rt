// The keys of a build, and their one spelling in bytes.
#![tactic(auto)]

pub mod key;
pub mod laws;
pub mod order;
pub mod parts;
pub mod read;
mod tags;
#[cfg(test)]
mod tests;
pub mod unread;
pub mod write;
