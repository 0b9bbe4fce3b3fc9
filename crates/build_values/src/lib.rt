// The values of a build, and their one spelling in bytes.
#![tactic(auto)]

mod infos;
mod item;
pub mod laws;
pub mod length;
pub mod read;
mod tags;
#[cfg(test)]
mod tests;
pub mod value;
pub mod write;
