// The names in a directory: which texts can name an entry, and the list of them in byte order.
#![tactic(auto)]

pub mod entry;
pub mod fault;
pub mod names;
mod sorting;
#[cfg(test)]
mod tests;
pub mod text;
