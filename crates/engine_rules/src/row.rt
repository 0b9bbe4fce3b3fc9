//! Results of keys, and why a key runs.
ghost use Rattle.std.specs.Prelude.{◌≡◌};
ghost use Rattle.engine_rules.specs.Needs.{is_failed};

use build_keys::key::Key;
use build_values::value::Value;
use file_info::copied::Copied;
use file_info::info::Info;
use file_info::list::{Bytes, List};
use file_info::memory::NoMemory;
use file_info::path::PathName;
use std::alloc::Global;

/// Why a dependency is recorded.
#[derive(Clone, Copy, Debug, PartialEq, Eq)]
pub enum DepKind {
    /// It was asked for before the run.
    Asked,
    /// It only has to be done before the run.
    Follow,
    /// It was found by the run.
    Found,
}

/// A recorded dependency.
#[derive(Drop)]
pub struct Dep {
    pub key: Key,
    pub kind: DepKind,
}

/// A result of a key.
#[derive(Drop)]
pub struct Row {
    pub value: Value,
    /// The text that says what was done.
    pub signature: Bytes,
    /// The iteration in which it was last seen to be up to date.
    pub built_at: u64,
    /// The iteration in which its value last changed.
    pub computed_at: u64,
    /// What it asked for, in order.
    pub deps: List<Dep>,
}

/// A stored result.
#[derive(Drop)]
pub struct Stored {
    pub key: Key,
    pub row: Row,
}

/// Why a key runs: the first of these that holds.
#[derive(Drop)]
pub enum Reason {
    /// There is no result.
    NeverBuilt,
    /// What is to be done is not what was done.
    SignatureChanged,
    /// It failed.
    LastFailed,
    /// It always runs.
    Always,
    /// A path has not the file information that was stored of it.
    Stale {
        path: PathName,
        stored: Info,
        present: Info,
    },
    /// This dependency changed after the result was built.
    Input(Key),
    /// This path was found, and may not be any more.
    Moved(PathName),
}

/// How a key came to its result.
#[derive(Drop)]
pub enum How {
    /// It ran.
    Ran(Reason),
    /// The stored result was kept.
    Kept,
}

/// A key that is done in this build.
#[derive(Drop)]
pub struct Settled {
    pub key: Key,
    pub row: Row,
    pub how: How,
}

impl Row {
    /// Whether this is the result of a failure. It takes no memory.
    pub fn is_failed(&self) -> bool
        ensures { result ≡ is_failed self.now.value }
    {
        matches!(self.value, Value::Failed)
    }
}

impl Copied for Dep {
    fn copy(&self, alloc: Global) -> Result<Dep, NoMemory> {
        Ok(Dep {
            key: self.key.copy(alloc)?,
            kind: self.kind,
        })
    }
}

impl Copied for Row {
    fn copy(&self, alloc: Global) -> Result<Row, NoMemory> {
        Ok(Row {
            value: self.value.copy(alloc)?,
            signature: self.signature.copy(alloc)?,
            built_at: self.built_at,
            computed_at: self.computed_at,
            deps: self.deps.copy(alloc)?,
        })
    }
}

impl Copied for Reason {
    fn copy(&self, alloc: Global) -> Result<Reason, NoMemory> {
        match self {
            Reason::NeverBuilt => Ok(Reason::NeverBuilt),
            Reason::SignatureChanged => Ok(Reason::SignatureChanged),
            Reason::LastFailed => Ok(Reason::LastFailed),
            Reason::Always => Ok(Reason::Always),
            Reason::Stale {
                path,
                stored,
                present,
            } => Ok(Reason::Stale {
                path: path.copy(alloc)?,
                stored: stored.copy(alloc)?,
                present: present.copy(alloc)?,
            }),
            Reason::Input(key) => Ok(Reason::Input(key.copy(alloc)?)),
            Reason::Moved(path) => Ok(Reason::Moved(path.copy(alloc)?)),
        }
    }
}
