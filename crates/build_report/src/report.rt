//! What a run did and how it ended.
use command_line::job::UsageFault;
use file_info::info::Info;
use file_info::list::{Bytes, List};
use file_info::name::Name;
use file_info::path::PathName;
use manifest_reader::error::LoadError;
use outside::order::{Exit, Order};

/// Why a command was started.
#[derive(Drop)]
pub enum Reason {
    /// No result of it is stored.
    NeverBuilt,
}

/// A command that was started.
#[derive(Drop)]
pub struct Start {
    pub command: Name,
    /// Its description, or its name where it has none.
    pub shown: Bytes,
    pub reason: Reason,
}

/// A source path that was asked for, and what stood there.
#[derive(Drop)]
pub struct StatSeen {
    pub path: PathName,
    pub info: Info,
}

/// A path that a command read without naming it, and what stood there when it had ended.
#[derive(Drop)]
pub struct FoundPath {
    pub path: PathName,
    pub info: Info,
}

/// What came of an order.
#[derive(Drop)]
pub enum Outcome {
    /// The program ended with another status than 0, or was killed.
    Failed {
        exit: Exit,
    },
    /// It succeeded. `outputs` is what stood at its outputs after its end, in order.
    Done {
        found: List<FoundPath>,
        outputs: List<Info>,
    },
}

/// An order that ended, and what came of it.
#[derive(Drop)]
pub struct Heard {
    pub order: Order,
    pub outcome: Outcome,
}

/// How a run ended. `F` is the fault of a host of programs.
#[derive(Drop)]
pub enum End<F> {
    /// The job is done and all was written.
    Ok,
    /// A started program did not end with status 0.
    CommandFailed { command: Name, exit: Exit },
    /// A command or target needs a node that is missing, named as the manifest writes it.
    MissingInput { asker: Name, node: Name },
    /// A command of the target reads what it or a later command makes, named as the manifest writes it.
    LaterMaker { command: Name, node: Name },
    /// The words ask for no job that is served.
    Usage(UsageFault),
    /// The manifest is missing or no file.
    NoFile { path: PathName },
    /// The manifest is refused.
    Manifest(LoadError),
    /// The manifest has no target of this name.
    UnknownTarget { name: Bytes },
    /// No target was named, and the manifest has no default.
    NoDefault,
    /// The target, or a command that it needs, uses what is not built yet.
    NotBuilt { asker: Name },
    /// The disk or the world failed.
    DiskFault,
    /// A program could not be run.
    HostFault { command: Name, fault: F },
    /// Standard output failed.
    SinkFault,
    /// No memory was left.
    NoMemory,
}

/// All that a run did, in order, also where it failed.
#[derive(Drop)]
pub struct Report<F> {
    pub end: End<F>,
    pub starts: List<Start>,
    /// Each source path that was asked for, once.
    pub stats: List<StatSeen>,
    pub heard: List<Heard>,
}

/// A run with the status that the process ends with.
#[derive(Drop)]
pub struct Finish<F> {
    pub status: u8,
    pub report: Report<F>,
}
