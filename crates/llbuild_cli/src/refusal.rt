//! Why nothing is built.
use build_report::report::End;
use command_line::job::UsageFault;
use file_info::list::Bytes;
use file_info::memory::NoMemory;
use file_info::name::Name;
use file_info::path::PathName;
use manifest_reader::error::LoadError;
use outside::disk::DiskError;
use outside::world::NoFault;

/// Why a job is declined.
#[derive(Drop)]
pub enum Refusal {
    /// The words ask for no job that is served.
    Usage(UsageFault),
    /// The manifest is missing or no file.
    NoFile { path: PathName },
    /// The manifest is refused.
    Manifest(LoadError),
    /// The manifest has no target of this name.
    UnknownTarget { name: Bytes },
    /// No target was named, and the manifest has no default.
    NoDefault,
    /// The target, or a command that it needs, uses what is not built yet.
    NotBuilt { asker: Name },
    /// A command of the target reads what it or a later command makes.
    LaterMaker { command: Name, node: Name },
    /// The disk failed.
    DiskFault,
    /// No memory was left.
    NoMemory,
}

impl From<NoMemory> for Refusal {
    ghost use Rattle.std.specs.Prelude.{◌≡◌};
    ghost use Rattle.llbuild_cli.specs.declared.refusal.Refusal.TheVariants as refusals;

    ghost from_gives = { λ _ refusal. refusal ≡ refusals.NoMemory };

    fn from(_error: NoMemory) -> Refusal {
        Refusal::NoMemory
    }
}

impl From<UsageFault> for Refusal {
    ghost use Rattle.std.specs.Prelude.{◌≡◌};
    ghost use Rattle.llbuild_cli.specs.Open.{usage_refusal};

    ghost from_gives = { λ fault refusal. refusal ≡ usage_refusal fault };

    fn from(fault: UsageFault) -> Refusal {
        match fault {
            UsageFault::NoMemory => Refusal::NoMemory,
            fault => Refusal::Usage(fault),
        }
    }
}

impl From<DiskError> for Refusal {
    ghost use Rattle.std.specs.Prelude.{◌≡◌};
    ghost use Rattle.llbuild_cli.specs.Open.{disk_refusal};

    ghost from_gives = { λ error refusal. refusal ≡ disk_refusal error };

    // The read of a file never answers `NotDirectory`.
    fn from(error: DiskError) -> Refusal {
        match error {
            DiskError::NoMemory => Refusal::NoMemory,
            DiskError::Fault | DiskError::NotDirectory => Refusal::DiskFault,
        }
    }
}

impl From<LoadError> for Refusal {
    ghost use Rattle.std.specs.Prelude.{◌≡◌};
    ghost use Rattle.llbuild_cli.specs.Open.{load_refusal};

    ghost from_gives = { λ error refusal. refusal ≡ load_refusal error };

    fn from(error: LoadError) -> Refusal {
        match error {
            LoadError::NoMemory => Refusal::NoMemory,
            error => Refusal::Manifest(error),
        }
    }
}

impl From<Refusal> for End<NoFault> {
    ghost use Rattle.std.specs.Prelude.{◌≡◌};
    ghost use Rattle.llbuild_cli.specs.Plan.{refused_end};

    ghost from_gives = { λ refusal end. end ≡ refused_end refusal };

    fn from(refusal: Refusal) -> End<NoFault> {
        match refusal {
            Refusal::Usage(fault) => End::Usage(fault),
            Refusal::NoFile { path } => End::NoFile { path },
            Refusal::Manifest(error) => End::Manifest(error),
            Refusal::UnknownTarget { name } => End::UnknownTarget { name },
            Refusal::NoDefault => End::NoDefault,
            Refusal::NotBuilt { asker } => End::NotBuilt { asker },
            Refusal::LaterMaker { command, node } => End::LaterMaker { command, node },
            Refusal::DiskFault => End::DiskFault,
            Refusal::NoMemory => End::NoMemory,
        }
    }
}
