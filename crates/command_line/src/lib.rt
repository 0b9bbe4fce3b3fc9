// The words of the command line: what a user may type, and why words are refused.
#![tactic(auto)]

pub mod job;
mod number;
mod options;
#[cfg(test)]
mod tests;
mod value;
pub mod words;
