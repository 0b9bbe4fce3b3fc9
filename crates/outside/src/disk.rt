//! A disk.
ghost use Rattle.std.specs.Prelude.{◌≡◌, ℕ, ◌<◌, ◌≤◌, ◌+◌, List as Items, IfOk, IsErrOf};
ghost use Rattle.file_info.specs.Content.{FileVersion, content};
ghost use Rattle.file_info.specs.declared.info.Info.{Info};
ghost use Rattle.file_info.specs.declared.info.Info.TheVariants as infos;
ghost use Rattle.file_info.specs.declared.info.Form.{Form};
ghost use Rattle.file_info.specs.declared.info.Form.TheVariants.{Follow};
ghost use Rattle.outside.specs.declared.order.Order.{Order};
ghost use Rattle.outside.specs.declared.disk.DiskError.TheVariants.{NotDirectory};
ghost use Rattle.outside.specs.declared.disk.FileBytes.{FileBytes};
ghost use Rattle.outside.specs.View.{DiskView, Told, Tells, Stayed, HasCause};
ghost use Rattle.outside.specs.FileRead.{FitsInfo, bytes_of};

use crate::law::Law;
use file_info::info::{Form, Info};
use file_info::list::Bytes;
use file_info::memory::NoMemory;
use file_info::path::PathName;
use std::alloc::Global;
use thiserror::Error;

/// Why a disk or a world gave no answer.
#[derive(Clone, Copy, Debug, PartialEq, Eq, Error)]
pub enum DiskError {
    /// The disk failed, and its count of faults rose.
    #[error("Fault")]
    Fault,
    /// The path is no directory, where one was due.
    #[error("NotDirectory")]
    NotDirectory,
    /// No memory was left.
    #[error("NoMemory")]
    NoMemory,
}

impl From<NoMemory> for DiskError {
    ghost use Rattle.std.specs.Prelude.{◌≡◌};
    ghost use Rattle.outside.specs.declared.disk.DiskError.TheVariants as errors;

    ghost from_gives = { λ _ error. error ≡ errors.NoMemory };

    fn from(_error: NoMemory) -> DiskError {
        DiskError::NoMemory
    }
}

/// What a file holds.
#[derive(Drop)]
pub enum FileBytes {
    /// There is nothing at the path.
    Missing,
    /// There is something else than a file.
    NotFile,
    /// The file has more bytes than were asked for.
    TooLong,
    /// All of its bytes.
    Bytes(Bytes),
}

/// A disk. Its meaning is what stands at each path, told or not: a disk of which nothing is told meets every clause
/// below that begins with telling. Its orders and their count belong to a `World`; no call of a disk changes them.
pub trait Disk<L: Law> {
    /// What is seen of it between two calls.
    ghost view: { Self → DiskView };

    /// What was answered of the file at a path, where at most so many bytes were wanted. It is one relation for all disks of
    /// the type, and generic code can know it from `read` alone. So it ties what is said of a manifest to bytes that the disk
    /// answered, also where nothing is told.
    ghost gave: { Items ℕ → ℕ → FileBytes → Type 0 };

    /// What stands at a path.
    fn stat(&mut self, alloc: Global, path: &PathName, form: Form) -> Result<Info, DiskError>
        ensures stayed { Stayed (view self.old) (view self.new) }
        ensures info { Told (view self.new) → IfOk result (λ i. i ≡ (view self.old).at path.now form) }
        ensures here { IsErrOf result NotDirectory → ⊥ }
        ensures cause { HasCause (view self.old) (view self.new) result };

    /// The bytes of the file that the path leads to, where there are at most `most` of them.
    fn read(&mut self, alloc: Global, path: &PathName, most: u64) -> Result<FileBytes, DiskError>
        ensures stayed { Stayed (view self.old) (view self.new) }
        ensures info { Told (view self.new) → IfOk result (FitsInfo ((view self.old).at path.now Follow)) }
        ensures bytes { (m : Items FileVersion) → Tells (view self.new) m
            → IfOk result (λ b. b ≡ bytes_of most (content m path.now ((view self.old).at path.now Follow))) }
        ensures gave { IfOk result (gave path.now most) }
        ensures here { IsErrOf result NotDirectory → ⊥ }
        ensures cause { HasCause (view self.old) (view self.new) result };

    /// A link that is followed leads to something that is no link.
    ghost leads_to_no_link: { (d : Self) (p : Items ℕ) (text : Items ℕ) → Told (view d) → (view d).at p Follow ≡ infos.Link text → ⊥ };

    /// A disk that tells contents tells what stands.
    ghost tells_infos: { (d : Self) (m : Items FileVersion) → Tells (view d) m → Told (view d) };
}
