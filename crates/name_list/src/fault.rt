//! Why texts are not the names in a directory.
use file_info::memory::NoMemory;
use std::alloc::{AllocError, AllocFailed};

/// Why texts are not the names in a directory. The one at the least place is answered, and at one place `Bad`.
#[derive(Clone, Copy, Debug, PartialEq, Eq)]
pub enum ListError {
    /// The text at this place, counted from 0, cannot name an entry: it is empty, `.` or `..`, it is not UTF-8, it has more
    /// than 4,096 bytes, or it holds `/` or a byte 0.
    Bad { place: u32 },
    /// The text at this place, counted from 0, stands at an earlier place too.
    Repeated { place: u32 },
    /// No memory was left.
    NoMemory,
}

impl From<NoMemory> for ListError {
    ghost use Rattle.std.specs.Prelude.{◌≡◌};
    ghost use Rattle.name_list.specs.declared.fault.ListError.TheVariants as errors;

    ghost from_gives = { λ _ error. error ≡ errors.NoMemory };

    fn from(_error: NoMemory) -> ListError {
        ListError::NoMemory
    }
}

impl<T: Drop> From<AllocFailed<T>> for ListError {
    ghost use Rattle.std.specs.Prelude.{◌≡◌};
    ghost use Rattle.name_list.specs.declared.fault.ListError.TheVariants as errors;

    ghost from_gives = { λ _ error. error ≡ errors.NoMemory };

    fn from(_error: AllocFailed<T>) -> ListError {
        ListError::NoMemory
    }
}
