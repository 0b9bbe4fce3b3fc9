//! The tree of a text.
use file_info::list::{Bytes, List};

/// A node. How a text was quoted is not kept.
#[derive(Drop)]
#[cycle(yaml)]
pub enum Yaml {
    /// A text.
    Scalar(Bytes),
    /// Nodes, in order.
    Seq(List<Yaml>),
    /// Names with their values, in order.
    Map(List<Pair>),
}

/// A name of a mapping and its value.
#[derive(Drop)]
#[cycle(yaml)]
pub struct Pair {
    pub name: Bytes,
    pub value: Yaml,
}
