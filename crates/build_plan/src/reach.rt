//! The commands that nodes need.
ghost use Rattle.std.specs.Prelude.{◌≡◌, ◌<◌, ◌∷◌, ◌++◌, [], Some, cond, length, replicate, set, slice_get, slice_index_or};
ghost use Rattle.std.specs.Prelude.{false, true, IfOk, OnOk};
ghost use Rattle.build_manifest.specs.declared.command.Command.{Command as Made};
ghost use Rattle.build_manifest.specs.Manifest.{IsManifest};
ghost use Rattle.build_meaning.specs.Need.{AreMarks};
ghost use Rattle.build_plan.specs.Reached.{AddsMakers, asked_by};

use build_manifest::command::Input;
use build_manifest::manifest::Manifest;
use file_info::list::List;
use file_info::memory::NoMemory;
use std::alloc::Global;

// Marks a place. It waits from now on, where it was not marked before.
fn mark(place: usize, marks: &mut [bool], waiting: &mut Vec<usize>) -> Result<(), NoMemory>
    requires { place < length marks.old }
    ensures marks { OnOk result (marks.new ≡ set marks.old place true) }
    ensures waiting { OnOk result (waiting.new.items
        ≡ cond (slice_index_or marks.old place true) waiting.old.items (waiting.old.items ++ place ∷ [])) }
{
    if marks[place] {
        return Ok(());
    }
    marks[place] = true;
    waiting.push(place)?;
    Ok(())
}

// Marks the makers of these inputs.
fn mark_makers(
    manifest: &Manifest,
    inputs: &List<Input>,
    marks: &mut [bool],
    waiting: &mut Vec<usize>,
) -> Result<(), NoMemory>
    requires { length marks.old ≡ length manifest.now.commands }
    ensures { OnOk result (AddsMakers manifest.now.commands inputs.now marks.old waiting.old.items marks.new waiting.new.items) }
{
    for input in inputs.as_slice() {
        if let Some(place) = manifest.maker(&input.node) {
            mark(place, marks, waiting)?;
        }
    }
    Ok(())
}

// Marks the makers of what the command at a place asks.
fn mark_asked(
    manifest: &Manifest,
    place: usize,
    marks: &mut [bool],
    waiting: &mut Vec<usize>,
) -> Result<(), NoMemory>
    requires within { place < length manifest.now.commands }
    requires count { length marks.old ≡ length manifest.now.commands }
    ensures { OnOk result ((c : Made) → slice_get manifest.now.commands place ≡ Some c
        → AddsMakers manifest.now.commands (asked_by c) marks.old waiting.old.items marks.new waiting.new.items) }
{
    let command = manifest.command(place).unwrap();
    mark_makers(manifest, &command.inputs, marks, waiting)?;
    mark_makers(manifest, &command.follow, marks, waiting)
}

// Marks the commands that these nodes need: their makers, and then the makers of what each marked command asks. Each command
// waits once at most.
fn walk(
    alloc: Global,
    manifest: &Manifest,
    nodes: &List<Input>,
    marks: &mut [bool],
) -> Result<(), NoMemory>
    requires kept { IsManifest manifest.now }
    requires none { marks.old ≡ replicate (length manifest.now.commands) false }
    ensures { OnOk result (AreMarks manifest.now.commands nodes.now marks.new) }
{
    let mut waiting = Vec::new(alloc);
    mark_makers(manifest, nodes, marks, &mut waiting)?;
    while let Some(place) = waiting.pop() {
        mark_asked(manifest, place, marks, &mut waiting)?;
    }
    Ok(())
}

/// For each command, by its place, whether these nodes need it.
pub fn reach(alloc: Global, manifest: &Manifest, nodes: &List<Input>) -> Result<Vec<bool>, NoMemory>
    requires { IsManifest manifest.now }
    ensures { IfOk result (λ marks. AreMarks manifest.now.commands nodes.now marks.items) }
{
    let mut marks = vec![in alloc; false; manifest.commands()]?;
    walk(alloc, manifest, nodes, &mut marks)?;
    Ok(marks)
}
