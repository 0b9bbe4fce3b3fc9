//! What a key needs next, and what it is given.
use crate::row::Dep;
use build_keys::key::Key;
use build_values::value::Value;
use file_info::copied::Copied;
use file_info::info::{Form, Info};
use file_info::list::List;
use file_info::memory::NoMemory;
use file_info::name::Name;
use file_info::path::PathName;
use name_list::names::NameList;
use outside::order::{Exit, Order};
use std::alloc::Global;

/// A path that a command found, with its file information after the end.
#[derive(Drop)]
pub struct FoundPath {
    pub path: PathName,
    pub info: Info,
}

/// How an order ended.
#[derive(Drop)]
pub enum Outcome {
    /// With another status than 0, or by a signal.
    Failed {
        exit: Exit,
    },
    /// With the status 0, but a path that it read has changed meanwhile.
    Changed {
        path: PathName,
        by_lane: Info,
        by_build: Info,
    },
    /// With the status 0: the paths that it found, and the file information of its outputs, in order.
    Done {
        found: List<FoundPath>,
        outputs: List<Info>,
    },
}

/// Why a key failed.
#[derive(Drop)]
pub enum Failure {
    /// The command ended so.
    CommandFailed {
        command: Name,
        exit: Exit,
    },
    /// A node that is asked for is missing.
    MissingInput {
        asker: Name,
        node: Name,
    },
    /// The command found a node that is made, and that need not be made before it.
    Unordered {
        command: Name,
        node: PathName,
        maker: Name,
    },
    /// A path that the command read changed while it ran.
    ChangedMeanwhile {
        command: Name,
        path: PathName,
        by_lane: Info,
        by_build: Info,
    },
    /// More keys are asked for than an engine serves.
    KeyLimit,
    /// The value of the key is too long.
    ValueLimit {
        key: Key,
    },
    /// A path that the build comes to is too long.
    PathLimit {
        path: PathName,
    },
    /// The command has too many dependencies.
    DepsLimit {
        command: Name,
    },
}

/// A key with its value.
#[derive(Drop)]
pub struct Answer {
    pub key: Key,
    pub value: Value,
}

/// What a key is given for what it needs.
#[derive(Drop)]
pub enum Given {
    /// The values of the keys that were asked for, in order.
    Answers(List<Answer>),
    /// The file information of the path.
    Info(Info),
    /// The names in the directory.
    Names(NameList),
    /// How the order ended.
    Outcome(Outcome),
}

/// What a key needs next.
#[derive(Drop)]
pub enum Need {
    /// The values of these keys.
    Ask(List<Dep>),
    /// The file information of a path.
    Stat { path: PathName, form: Form },
    /// The names in a directory.
    List(PathName),
    /// That this is performed.
    Run(Order),
    /// Nothing: this is its value.
    Done(Value),
    /// Nothing: it failed.
    Fail(Failure),
}

/// A path that must still have the file information that was stored of it.
#[derive(Drop)]
pub struct Check {
    pub path: PathName,
    pub form: Form,
    pub stored: Info,
}

impl Copied for FoundPath {
    fn copy(&self, alloc: Global) -> Result<FoundPath, NoMemory> {
        Ok(FoundPath {
            path: self.path.copy(alloc)?,
            info: self.info.copy(alloc)?,
        })
    }
}

impl Copied for Outcome {
    fn copy(&self, alloc: Global) -> Result<Outcome, NoMemory> {
        match self {
            Outcome::Failed { exit } => Ok(Outcome::Failed { exit: *exit }),
            Outcome::Changed {
                path,
                by_lane,
                by_build,
            } => Ok(Outcome::Changed {
                path: path.copy(alloc)?,
                by_lane: by_lane.copy(alloc)?,
                by_build: by_build.copy(alloc)?,
            }),
            Outcome::Done { found, outputs } => Ok(Outcome::Done {
                found: found.copy(alloc)?,
                outputs: outputs.copy(alloc)?,
            }),
        }
    }
}
