// Tables of cases. A row has a group, a name and a code, and a table gives the code for a group and a name.
#![tactic(auto)]

pub mod cases;
pub mod laws;
mod macros;
#[cfg(test)]
mod tests;
