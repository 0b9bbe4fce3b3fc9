//! The run that words ask for.
#![tactic(auto)]

pub mod in_memory;
mod open;
mod put_all;
mod refusal;
pub mod run;
mod serial;
mod stop;
