// The values in the tree of a manifest: their shapes, the texts that are names and paths, and what is known of nodes.
#![tactic(auto)]

mod entries;
pub mod known;
mod lenient;
pub mod nodes;
pub mod parts;
pub mod refusal;
pub mod shapes;
mod text_set;
pub mod texts;
pub mod values;
