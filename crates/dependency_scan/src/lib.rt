//! What is found out from recorded dependencies: the scan of a stored result, and the ring of keys that wait for each other.
#![tactic(auto)]

pub mod least;
pub mod ring;
pub mod rows;
pub mod scan;
#[cfg(test)]
mod tests;
pub mod waits;
pub mod walk;
