//! What words ask for, and why they are refused.
use file_info::list::Bytes;
use file_info::path::PathName;
use std::alloc::AllocError;

/// How a build is done.
#[derive(Clone, Copy, Debug, PartialEq, Eq)]
pub struct Settings {
    /// How many commands are run side by side, from 1 to 64.
    pub lanes: u32,
    /// Whether the reason of each start is printed.
    pub verbose: bool,
    /// The most commands that are started. None where any number may be.
    pub most: Option<u64>,
}

/// What words ask for.
#[derive(Drop)]
pub enum Job {
    /// `buildsystem build`: to build a target.
    Build {
        /// The manifest.
        file: PathName,
        /// The database. None where none is wanted.
        db: Option<PathName>,
        /// Whether no two commands run side by side.
        serial: bool,
        /// The target's name. None stands for the manifest's default.
        target: Option<Bytes>,
        settings: Settings,
    },
    /// `buildsystem parse`: to print the tree of a manifest.
    Parse {
        file: PathName,
    },
    /// `db dump`: to print what a database holds.
    Dump {
        db: PathName,
    },
    /// `rehearse`: to make the builds of a script in memory.
    Rehearse {
        script: PathName,
    },
    /// `rehearse --generate`: to print a script.
    Generate {
        number: u64,
        size: u32,
    },
}

/// Why words ask for no job, in the order in which the reasons are looked for.
#[derive(Drop)]
pub enum UsageFault {
    /// The first words are no command.
    NoCommand,
    /// The words after them are not its options and words.
    Words,
    /// An option's value is no number, or one that it may not have. A number is decimal digits without sign or leading zero.
    BadNumber { option: Bytes },
    /// An option's value is no path.
    BadPath { option: Bytes },
    /// Two options may not stand together.
    Exclusive { first: Bytes, second: Bytes },
    /// The words ask for what is not built yet.
    NotBuilt,
    /// No memory was left.
    NoMemory,
}

impl From<AllocError> for UsageFault {
    ghost use Rattle.std.specs.Prelude.{◌≡◌};
    ghost use Rattle.command_line.specs.declared.job.UsageFault.TheVariants as faults;

    ghost from_gives = { λ _ fault. fault ≡ faults.NoMemory };

    fn from(_error: AllocError) -> UsageFault {
        UsageFault::NoMemory
    }
}
