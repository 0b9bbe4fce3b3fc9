// A profile of YAML 1.2: each text has one tree or one refusal, at one place.
#![tactic(auto)]

mod block;
mod error;
mod escape;
mod fault;
mod flow;
mod laws;
mod lines;
mod pairs;
mod printer;
mod reader;
mod scalar;
mod text;
mod yaml;

pub use error::{Feature, YamlError};
pub use laws::{spelled_tree_is_read, text_bounds_weight, text_spells_its_tree};
pub use printer::{print, printed_trees_are_read, spellings_differ};
pub use reader::read;
pub use yaml::{Pair, Yaml};
