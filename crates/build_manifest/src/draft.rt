//! Commands whose outputs are not yet looked at together.
use crate::command::Command;
use file_info::name::Name;

/// An output that is a directory.
#[derive(Drop)]
pub struct DirectoryOutput {
    /// Its place among the outputs of its command, counted from 0.
    pub place: usize,
    /// The text that the manifest has for it.
    pub written: Name,
}

/// A command as it is read alone, before the rules over the whole manifest.
#[derive(Drop)]
pub struct Draft {
    pub command: Command,
    /// The first of its outputs that is a directory. None where none is.
    pub directory: Option<DirectoryOutput>,
}
