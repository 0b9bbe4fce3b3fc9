//! Which rule over the whole manifest is broken.
use file_info::list::Bytes;
use file_info::memory::NoMemory;
use file_info::name::Name;
use file_info::node::NodeName;
use file_info::path::PathName;
use std::alloc::{AllocError, AllocFailed};

/// Why targets and commands are no manifest together. The first that holds is answered: the default, then the outputs of all
/// commands in order, then the dependency files of all commands in order.
#[derive(Drop)]
pub enum RuleFault {
    /// No target has the name that `default` gives.
    UnknownDefault {
        name: Name,
    },
    /// An output of the command is a directory. `node` is the text that the manifest has for it.
    DirectoryOutput {
        command: Name,
        node: Name,
    },
    /// The node is an output twice: of the command `first`, and then of `second`, which may be the same.
    TwoMakers {
        node: NodeName,
        first: Name,
        second: Name,
    },
    /// The dependency file of the command is the path of a node of the manifest too, or is named before.
    DepsClash {
        command: Name,
        path: PathName,
    },
    /// No memory was left.
    NoMemory,
}

impl From<NoMemory> for RuleFault {
    ghost use Rattle.std.specs.Prelude.{◌≡◌};
    ghost use Rattle.build_manifest.specs.declared.fault.RuleFault.TheVariants as faults;

    ghost from_gives = { λ _ error. error ≡ faults.NoMemory };

    fn from(_error: NoMemory) -> RuleFault {
        RuleFault::NoMemory
    }
}

impl From<AllocError> for RuleFault {
    ghost use Rattle.std.specs.Prelude.{◌≡◌};
    ghost use Rattle.build_manifest.specs.declared.fault.RuleFault.TheVariants as faults;

    ghost from_gives = { λ _ error. error ≡ faults.NoMemory };

    fn from(_error: AllocError) -> RuleFault {
        RuleFault::NoMemory
    }
}

impl<T: Drop> From<AllocFailed<T>> for RuleFault {
    ghost use Rattle.std.specs.Prelude.{◌≡◌};
    ghost use Rattle.build_manifest.specs.declared.fault.RuleFault.TheVariants as faults;

    ghost from_gives = { λ _ error. error ≡ faults.NoMemory };

    fn from(_error: AllocFailed<T>) -> RuleFault {
        RuleFault::NoMemory
    }
}
