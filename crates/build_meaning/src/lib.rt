// What a build means: definitions and laws, and no other code.
#![tactic(auto)]

pub mod laws;
