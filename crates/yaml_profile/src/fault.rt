//! What stops a reader.
ghost use Rattle.std.specs.Prelude.{◌≡◌};
ghost use Rattle.yaml_profile.specs.declared.fault.Stop.TheVariants.{Memory};

use crate::error::Feature;
use file_info::memory::NoMemory;
use std::alloc::{AllocError, AllocFailed};

/// What is wrong at a place.
#[derive(Clone, Copy, Debug, PartialEq, Eq)]
pub enum Fault {
    LeftOut(Feature),
    Indent,
    TooDeep,
    RepeatedKey,
    Syntax,
}

/// What is wrong, and how many bytes there are from that place to the text's end.
#[derive(Clone, Copy, Debug, PartialEq, Eq)]
pub struct Refusal {
    pub fault: Fault,
    pub left: usize,
}

/// Why a reader stopped.
#[derive(Debug, Drop)]
pub enum Stop {
    Memory,
    Refused(Refusal),
}

impl From<AllocError> for Stop {
    ghost from_gives = { λ _ stop. stop ≡ Memory };

    fn from(_error: AllocError) -> Stop {
        Stop::Memory
    }
}

impl<T: Drop> From<AllocFailed<T>> for Stop {
    ghost from_gives = { λ _ stop. stop ≡ Memory };

    fn from(_error: AllocFailed<T>) -> Stop {
        Stop::Memory
    }
}

impl From<NoMemory> for Stop {
    ghost from_gives = { λ _ stop. stop ≡ Memory };

    fn from(_error: NoMemory) -> Stop {
        Stop::Memory
    }
}
