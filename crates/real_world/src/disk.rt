//! The real disk. It is the trusted edge: it tells nothing of what files hold.
ghost use Rattle.std.specs.Prelude.{◌≡◌, ◌≤◌, IsErrOf};
ghost use Rattle.real_world.specs.Count.{count_after};

use crate::files::{bytes_of, disk_error, info_of};
use file_info::info::{Form, Info};
use file_info::path::PathName;
use outside::disk::{Disk, DiskError, FileBytes};
use outside::law::Law;
use std::alloc::Global;
use std::io;
use std::rt::Files;

/// The files of this machine, seen from the folder of this process. That nothing stands at a path is an answer; any other failure
/// is a fault, or want of memory.
#[derive(Drop)]
pub struct RealDisk<R: Files + AllocGlobal + Drop> {
    pub(crate) rt: R,
    pub(crate) faults: u64,
}

// The answer of a call. A fault raises the count, and want of memory does not.
pub(crate) fn answer<T: Drop>(faults: &mut u64, outcome: io::Result<T>) -> Result<T, DiskError>
    ensures faults { faults.new ≡ count_after result faults.old }
    ensures later { faults.old ≤ faults.new }
    ensures here { IsErrOf result DiskError.NotDirectory → ⊥ }
{
    match outcome {
        Ok(value) => Ok(value),
        Err(error) => {
            let why = disk_error(&error);
            if why == DiskError::Fault {
                let before = *faults;
                *faults = before.saturating_add(1);
            }
            Err(why)
        }
    }
}

impl<R: Files + AllocGlobal + Drop> RealDisk<R> {
    ghost use Rattle.real_world.specs.View.{disk_faults};

    /// The disk, which has not failed yet.
    pub fn new(rt: R) -> RealDisk<R>
        ensures { disk_faults result ≡ 0 }
    {
        RealDisk { rt, faults: 0 }
    }
}

impl<L: Law, R: Files + AllocGlobal + Drop> Disk<L> for RealDisk<R> {
    ghost use Rattle.std.specs.Prelude.{⊤};
    ghost use Rattle.real_world.specs.View.{disk_faults, disk_view};
    ghost use Rattle.outside.specs.View.{Stayed, HasCause};

    ghost view = { disk_view };

    ghost gave = { λ p most b. ⊤ };

    ghost leads_to_no_link = { λ d p text t e. t };

    ghost tells_infos = { λ d m t. t };

    fn stat(&mut self, _alloc: Global, path: &PathName, form: Form) -> Result<Info, DiskError>
        ensures stayed { Stayed (disk_view self.old) (disk_view self.new) }
        ensures faults { disk_faults self.new ≡ count_after result (disk_faults self.old) }
        ensures here { IsErrOf result DiskError.NotDirectory → ⊥ }
        ensures cause { HasCause (disk_view self.old) (disk_view self.new) result }
    {
        let outcome = info_of(&self.rt, path, form);
        answer(&mut self.faults, outcome)
    }

    fn read(&mut self, _alloc: Global, path: &PathName, most: u64) -> Result<FileBytes, DiskError>
        ensures stayed { Stayed (disk_view self.old) (disk_view self.new) }
        ensures faults { disk_faults self.new ≡ count_after result (disk_faults self.old) }
        ensures here { IsErrOf result DiskError.NotDirectory → ⊥ }
        ensures cause { HasCause (disk_view self.old) (disk_view self.new) result }
    {
        let outcome = bytes_of(&self.rt, path, most);
        answer(&mut self.faults, outcome)
    }
}
