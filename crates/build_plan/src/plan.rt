//! The commands that a target needs.
ghost use Rattle.std.specs.Prelude.{◌≡◌, ◌⊎◌, ◌<◌, ℕ, length, slice_get, Some, MatchOption, IfOk, IfErr, OnOk};
ghost use Rattle.build_manifest.specs.declared.command.Command.{Command as Made};
ghost use Rattle.build_manifest.specs.declared.command.Input.{Input as Asked};
ghost use Rattle.build_manifest.specs.Manifest.{IsManifest};
ghost use Rattle.build_meaning.specs.Need.{AreMarks};
ghost use Rattle.build_plan.specs.Built.{IsBuilt, IsPlain};
ghost use Rattle.build_plan.specs.Unbuilt.{AreBefore, AreNoneLate, IsFirstLate, IsFirstMark, IsUnbuilt};

use crate::later::later_input;
use crate::plain::{are_file_inputs, is_plain_at};
use crate::reach::reach;
use build_manifest::command::{Command, Input, TargetEntry};
use build_manifest::manifest::Manifest;
use file_info::copied::Copied;
use file_info::memory::NoMemory;
use file_info::name::Name;
use std::alloc::Global;

/// Why nothing is built.
#[derive(Drop)]
pub enum Unbuilt {
    /// The target, or a command that it needs, uses what is not built yet. The target comes first, then the commands in the order
    /// of the manifest.
    Asker(Name),
    /// All that the target needs is of a kind that is built, but a command of it reads what it or a later command makes. The
    /// first such command in the order of the manifest, and its first such input, as the manifest writes it.
    Later { command: Name, node: Name },
    /// No memory was left.
    NoMemory,
}

impl From<NoMemory> for Unbuilt {
    ghost use Rattle.std.specs.Prelude.{◌≡◌};
    ghost use Rattle.build_plan.specs.declared.plan.Unbuilt.TheVariants as refusals;

    ghost from_gives = { λ _ error. error ≡ refusals.NoMemory };

    fn from(_error: NoMemory) -> Unbuilt {
        Unbuilt::NoMemory
    }
}

// The first place of the marked commands that is not plain.
fn first_other(manifest: &Manifest, marks: &[bool]) -> Option<usize>
    requires { length marks.now ≡ length manifest.now.commands }
    ensures { MatchOption result (AreBefore (λ k. IsPlain) manifest.now.commands marks.now (length marks.now))
        (λ place. IsFirstMark (λ k. IsPlain) manifest.now.commands marks.now place) }
{
    for (place, is_needed) in marks.iter().enumerate() {
        if *is_needed && !is_plain_at(manifest, place) {
            return Some(place);
        }
    }
    None
}

// The first place of the marked commands, which are plain, at which an input is made there or later, and the first such input.
fn first_late(manifest: &Manifest, marks: &[bool]) -> Option<(usize, usize)>
    requires kept { IsManifest manifest.now }
    requires count { length marks.now ≡ length manifest.now.commands }
    requires plain { AreBefore (λ k. IsPlain) manifest.now.commands marks.now (length marks.now) }
    ensures { MatchOption result (AreNoneLate manifest.now.commands marks.now (length marks.now))
        (λ found. IsFirstLate manifest.now.commands marks.now found) }
{
    for (place, is_needed) in marks.iter().enumerate() {
        if !*is_needed {
            continue;
        }
        if let Some(at) = later_input(manifest, place) {
            return Some((place, at));
        }
    }
    None
}

// The refusal that names this asker.
fn asker(alloc: Global, name: &Name) -> Unbuilt
    ensures { (result ≡ Unbuilt.NoMemory) ⊎ (result ≡ Unbuilt.Asker name.now) }
{
    match name.copy(alloc) {
        Ok(name) => Unbuilt::Asker(name),
        Err(_) => Unbuilt::NoMemory,
    }
}

// The refusal that names the command at a place.
fn command_asker(alloc: Global, manifest: &Manifest, place: usize) -> Unbuilt
    requires { place < length manifest.now.commands }
    ensures { (c : Made) → slice_get manifest.now.commands place ≡ Some c → (result ≡ Unbuilt.NoMemory) ⊎ (result ≡ Unbuilt.Asker c.name) }
{
    asker(alloc, &manifest.command(place).unwrap().name)
}

// The refusal that names a command and this input of it.
fn later(alloc: Global, command: &Command, input: &Input) -> Unbuilt
    ensures { (result ≡ Unbuilt.NoMemory) ⊎ (result ≡ Unbuilt.Later command.now.name input.now.written) }
{
    match (command.name.copy(alloc), input.written.copy(alloc)) {
        (Ok(command), Ok(node)) => Unbuilt::Later { command, node },
        _ => Unbuilt::NoMemory,
    }
}

// The refusal that names the command at a place and its input at another.
fn input_later(alloc: Global, manifest: &Manifest, place: usize, at: usize) -> Unbuilt
    requires command { place < length manifest.now.commands }
    requires input { (c : Made) → slice_get manifest.now.commands place ≡ Some c → at < length c.inputs }
    ensures { (c : Made) (i : Asked) → slice_get manifest.now.commands place ≡ Some c → slice_get c.inputs at ≡ Some i
        → (result ≡ Unbuilt.NoMemory) ⊎ (result ≡ Unbuilt.Later c.name i.written) }
{
    let command = manifest.command(place).unwrap();
    later(alloc, command, &command.inputs.as_slice()[at])
}

/// The commands that the target needs, one mark for each place, where all that it needs is built. A command is needed that makes
/// one of the target's nodes, or an input or a must-follow node of a command that is needed. Else this is answered first: that the
/// target or a command that it needs is not plain; then that a command reads what it or a later one makes.
pub fn plan(alloc: Global, manifest: &Manifest, target: &TargetEntry) -> Result<Vec<bool>, Unbuilt>
    ensures marks { IfOk result (λ marks. AreMarks manifest.now.commands target.now.nodes marks.items) }
    ensures built { OnOk result (IsBuilt manifest.now target.now) }
    ensures refused { IfErr result (IsUnbuilt manifest.now target.now) }
{
    manifest.keeps();
    if !are_file_inputs(&target.nodes) {
        return Err(asker(alloc, &target.name));
    }
    let marks = reach(alloc, manifest, &target.nodes)?;
    if let Some(place) = first_other(manifest, &marks) {
        return Err(command_asker(alloc, manifest, place));
    }
    match first_late(manifest, &marks) {
        Some((place, at)) => Err(input_later(alloc, manifest, place, at)),
        None => Ok(marks),
    }
}
