// What an engine asks of its rules, and what it knows: the words in which its promises are said.
#![tactic(auto)]

pub mod known;
pub mod needs;
pub mod row;
pub mod rules;
#[cfg(test)]
mod tests;
