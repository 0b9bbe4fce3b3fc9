//! What a manifest holds: targets and commands.
ghost use Rattle.std.specs.Prelude.{◌≡◌};
ghost use Rattle.build_manifest.specs.Command.{bare_command};

use file_info::list::{Bytes, List};
use file_info::name::Name;
use file_info::node::NodeName;
use file_info::path::PathName;
use std::alloc::Global;

/// The most targets of a manifest.
pub const TARGETS_MAX: usize = 65_536;

/// The most commands of a manifest.
pub const COMMANDS_MAX: usize = 262_144;

/// The most inputs and must-follow nodes of one command together, the most outputs of one, and the most nodes of one target.
pub const NODES_MAX: usize = 65_536;

/// The most patterns of a node.
pub const PATTERNS_MAX: usize = 64;

/// The most bytes of a pattern.
pub const PATTERN_MAX: usize = 255;

/// The most dependency files of a command.
pub const DEPS_MAX: usize = 16;

/// What a command does.
#[derive(Clone, Copy, Debug, PartialEq, Eq)]
pub enum Tool {
    /// Nothing. It stands for its inputs.
    Phony,
    /// It runs a program.
    Shell,
    /// It makes a directory.
    Mkdir,
    /// It makes a symbolic link.
    Symlink,
    /// It makes an archive of object files.
    Archive,
    /// It removes what earlier builds made and this one does not.
    StaleFileRemoval,
}

/// How an input is read.
#[derive(Drop)]
pub enum InputForm {
    /// As one file.
    File,
    /// Not at all: its node is virtual.
    Virtual,
    /// As a directory with all below it, without the names that match one of these patterns.
    Tree(List<Bytes>),
    /// As the names and kinds below a directory, without the names that match one of these patterns.
    Structure(List<Bytes>),
}

/// An input of a command, or a node of a target.
#[derive(Drop)]
pub struct Input {
    /// The text that the manifest has for it.
    pub written: Name,
    /// The node that it stands for, by its normal path.
    pub node: NodeName,
    pub form: InputForm,
}

/// The program of a shell command.
#[derive(Drop)]
pub enum Args {
    /// None: the tool runs no program of the manifest's.
    Absent,
    /// The program and its words. There is at least one, and none has a byte 0.
    Words(List<Bytes>),
    /// A line for the shell, without a byte 0.
    Line(Bytes),
}

/// A variable of a command's environment.
#[derive(Drop)]
pub struct EnvPair {
    pub name: Bytes,
    pub text: Bytes,
}

/// A command.
#[derive(Drop)]
pub struct Command {
    pub name: Name,
    pub tool: Tool,
    /// What it reads.
    pub inputs: List<Input>,
    /// What is done before it, though it does not read it.
    pub follow: List<Input>,
    /// What it makes.
    pub outputs: List<NodeName>,
    /// What is printed at its start. None stands for its name.
    pub description: Option<Bytes>,
    pub args: Args,
    pub env: List<EnvPair>,
    /// Whether it sees the environment of the build itself.
    pub inherit_env: bool,
    /// Files in which it says what else it read.
    pub deps: List<PathName>,
    /// The text that stands for its definition. None stands for the definition itself.
    pub signature: Option<Bytes>,
    /// The text of the link that it makes.
    pub contents: Bytes,
    /// Whether it is run though an input is missing.
    pub allow_missing: bool,
    /// Whether each build runs it.
    pub always: bool,
    /// What stays at a removal.
    pub expected: List<PathName>,
    /// Where a removal takes place.
    pub roots: List<PathName>,
}

impl Command {
    /// The command with this name and this tool of which nothing else is said.
    pub fn bare(alloc: Global, name: Name, tool: Tool) -> Command
        ensures { result ≡ bare_command name tool }
    {
        Command {
            name,
            tool,
            inputs: List::new(alloc),
            follow: List::new(alloc),
            outputs: List::new(alloc),
            description: None,
            args: Args::Absent,
            env: List::new(alloc),
            inherit_env: true,
            deps: List::new(alloc),
            signature: None,
            contents: List::new(alloc),
            allow_missing: false,
            always: false,
            expected: List::new(alloc),
            roots: List::new(alloc),
        }
    }
}

/// A target: a name for nodes that are built together.
#[derive(Drop)]
pub struct TargetEntry {
    pub name: Name,
    pub nodes: List<Input>,
}
