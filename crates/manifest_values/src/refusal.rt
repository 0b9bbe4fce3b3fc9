//! Why a part of a tree is refused.
ghost use Rattle.std.specs.Prelude.{◌≡◌, IfOk};
ghost use Rattle.manifest_values.specs.Refusal.{Stops};

use file_info::list::{Bytes, List};
use file_info::memory::NoMemory;
use std::alloc::{AllocError, AllocFailed, Global};

/// What a limit counts.
#[derive(Clone, Copy, Debug, PartialEq, Eq)]
pub enum Counted {
    /// The targets of a manifest.
    Targets,
    /// The commands of a manifest.
    Commands,
    /// The inputs and must-follow nodes of a command together, or the nodes of a target.
    Inputs,
    /// The outputs of a command.
    Outputs,
    /// The patterns of a node.
    Patterns,
    /// The dependency files of a command.
    DepsFiles,
}

/// Why a part of a tree is refused. The owner is the name, as it is written, of the command, the target or the entry of
/// `nodes` in which the fault stands, and otherwise the name of the section.
#[derive(Drop)]
pub enum Refusal {
    /// The tree is no mapping, or has no `client`.
    NoClient,
    /// The client is not `basic` in the version 0.
    WrongClient { name: Bytes, version: Bytes },
    /// No section has this name.
    UnknownSection { name: Bytes },
    /// The section stands after one that it precedes.
    SectionOrder { section: Bytes },
    /// No tool has this name.
    UnknownTool { owner: Bytes, tool: Bytes },
    /// The owner has no attribute of this name.
    UnknownAttribute { owner: Bytes, name: Bytes },
    /// The attribute is missing, or its value has another shape.
    BadAttribute { owner: Bytes, name: Bytes },
    /// The text is no name, or no path.
    BadPath { owner: Bytes, text: Bytes },
    /// There are more of these than the limit.
    Limit { what: Counted, limit: u64 },
}

/// Why reading stops.
#[derive(Drop)]
pub enum Stop {
    /// No memory was left.
    Memory,
    /// A part is refused.
    Refused(Refusal),
}

impl From<NoMemory> for Stop {
    ghost use Rattle.std.specs.Prelude.{◌≡◌};
    ghost use Rattle.manifest_values.specs.declared.refusal.Stop.TheVariants as stops;

    ghost from_gives = { λ _ stop. stop ≡ stops.Memory };

    fn from(_error: NoMemory) -> Stop {
        Stop::Memory
    }
}

impl From<AllocError> for Stop {
    ghost use Rattle.std.specs.Prelude.{◌≡◌};
    ghost use Rattle.manifest_values.specs.declared.refusal.Stop.TheVariants as stops;

    ghost from_gives = { λ _ stop. stop ≡ stops.Memory };

    fn from(_error: AllocError) -> Stop {
        Stop::Memory
    }
}

impl<T: Drop> From<AllocFailed<T>> for Stop {
    ghost use Rattle.std.specs.Prelude.{◌≡◌};
    ghost use Rattle.manifest_values.specs.declared.refusal.Stop.TheVariants as stops;

    ghost from_gives = { λ _ stop. stop ≡ stops.Memory };

    fn from(_error: AllocFailed<T>) -> Stop {
        Stop::Memory
    }
}

/// A copy of a text.
pub fn copy_of(alloc: Global, text: &[u8]) -> Result<Bytes, NoMemory>
    ensures { IfOk result (λ copy. copy ≡ text.now) }
{
    let copy = Vec::from_slice(alloc, text)?;
    Ok(List::from_vec(copy))
}

/// The refusal of an attribute that is missing, or whose value has another shape. The texts are copied.
pub fn bad_attribute(alloc: Global, owner: &[u8], name: &[u8]) -> Stop
    ensures { Stops result (Refusal.BadAttribute owner.now name.now) }
{
    match (copy_of(alloc, owner), copy_of(alloc, name)) {
        (Ok(owner), Ok(name)) => Stop::Refused(Refusal::BadAttribute { owner, name }),
        _ => Stop::Memory,
    }
}

/// The refusal of an attribute that the owner does not have. The texts are copied.
pub fn unknown_attribute(alloc: Global, owner: &[u8], name: &[u8]) -> Stop
    ensures { Stops result (Refusal.UnknownAttribute owner.now name.now) }
{
    match (copy_of(alloc, owner), copy_of(alloc, name)) {
        (Ok(owner), Ok(name)) => Stop::Refused(Refusal::UnknownAttribute { owner, name }),
        _ => Stop::Memory,
    }
}

/// The refusal of the name of a tool. The texts are copied.
pub fn unknown_tool(alloc: Global, owner: &[u8], tool: &[u8]) -> Stop
    ensures { Stops result (Refusal.UnknownTool owner.now tool.now) }
{
    match (copy_of(alloc, owner), copy_of(alloc, tool)) {
        (Ok(owner), Ok(tool)) => Stop::Refused(Refusal::UnknownTool { owner, tool }),
        _ => Stop::Memory,
    }
}

/// The refusal of a text that is no name, or no path. The texts are copied.
pub fn bad_path(alloc: Global, owner: &[u8], text: &[u8]) -> Stop
    ensures { Stops result (Refusal.BadPath owner.now text.now) }
{
    match (copy_of(alloc, owner), copy_of(alloc, text)) {
        (Ok(owner), Ok(text)) => Stop::Refused(Refusal::BadPath { owner, text }),
        _ => Stop::Memory,
    }
}
