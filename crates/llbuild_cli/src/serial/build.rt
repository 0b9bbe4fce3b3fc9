//! A serial build: the commands of the target's reach, one after the other, in the order of the manifest.
ghost use Rattle.std.specs.Prelude.{◌≡◌, ◌⊎◌, ℕ, ◌<◌, ◌≤◌, ◌+◌, ◌-◌, ◌^◌, [], ◌++◌, List as Items, length, IfErr, OnOk};
ghost use Rattle.file_info.specs.Content.{FileVersion};
ghost use Rattle.file_info.specs.Lists.{In};
ghost use Rattle.outside.specs.View.{Grew, Stayed, Tells};
ghost use Rattle.build_manifest.specs.Command.{IsCommand};
ghost use Rattle.build_meaning.specs.Need.{AreMarks};
ghost use Rattle.build_plan.specs.Built.{IsBuilt};
ghost use Rattle.llbuild_cli.specs.MissingInput.{ReadFirst, AllReadFirst, StopsAtMissing};
ghost use Rattle.llbuild_cli.specs.BuildStop.{Announced, CameTo, DoneOne, IsRunStop, IsBuildStop, IsWrittenBy, IsWritten, IsFinishStop};
ghost use Rattle.llbuild_cli.specs.Outcome.{HeardWell, AreOrders, AllDone, AllEnded, AreInStep};
ghost use Rattle.llbuild_cli.specs.Journal.{Knows, IsUnknown, IsOnce, unused};
ghost use Rattle.llbuild_cli.specs.Look.{Looked, CameFrom};
ghost use Rattle.llbuild_cli.specs.Move.{Moved};
ghost use Rattle.llbuild_cli.specs.Plan.{Plan};
ghost use Rattle.llbuild_cli.specs.Output.{WroteStopped};
ghost use Rattle.llbuild_cli.specs.CommandRun.{IsInput, IsSound, IsOutput, SeenStands, DidCommand};
ghost use Rattle.llbuild_cli.specs.Input.{AreFileInputs, WereRead};
ghost use Rattle.llbuild_cli.specs.Source.{AreSources};
ghost use Rattle.llbuild_cli.specs.Run.{Did, Run, run_of, report_of, answers_of};
ghost use Rattle.llbuild_cli.specs.Stands.{Stands};
ghost use Rattle.llbuild_cli.specs.Start.{AreStarts, AllStarted, IsNextStart, start_of, starts_of};
ghost use Rattle.llbuild_cli.specs.Stop.{AskedBefore, end_after};
ghost use Rattle.build_report.specs.Text.{lines_of, summary_text};

use crate::put_all::put_all;
use crate::serial::announce::announce;
use crate::serial::execute::execute;
use crate::serial::look::gather;
use crate::serial::seen::Seen;
use crate::serial::settle::settle;
use crate::stop::Stop;
use build_manifest::command::{Command, TargetEntry};
use build_manifest::manifest::Manifest;
use build_report::texts::summary;
use outside::law::Law;
use outside::sink::Sink;
use outside::world::World;
use std::alloc::Global;

// Runs one command, whose inputs are all settled.
fn run_one<L: Law, W: World<L>, O: Sink>(
    alloc: Global,
    command: &Command,
    world: &mut W,
    out: &mut O,
    seen: &mut Seen,
) -> Result<(), Stop>
    requires none { (W.view world.old).orders ≡ [] }
    requires room { length seen.old.starts < 2 ^ 64 - 1 }
    requires keeps { IsCommand command.now }
    requires sound { IsSound command.now }
    requires unseen { (p : Items ℕ) → IsOutput command.now p → IsUnknown seen.old p }
    requires stands { SeenStands (W.view world.old) seen.old }
    requires once { IsOnce seen.old }
    requires even { length seen.old.heard ≡ length seen.old.starts }
    requires heard { HeardWell W.ended L.does (W.view world.old) seen.old.heard }
    ensures none { (W.view world.new).orders ≡ [] }
    ensures moved { Moved (IsWrittenBy command.now seen.new.starts) (W.view world.old) (W.view world.new) }
    ensures later { (O.view out.old).faults ≤ (O.view out.new).faults }
    ensures begins { (W.view world.new).begins + length seen.old.starts ≤ (W.view world.old).begins + length seen.new.starts }
    ensures ran { OnOk result (DidCommand L.does command.now (W.view world.new) seen.old seen.new) }
    ensures announced { OnOk result (Announced command.now (O.view out.old) (O.view out.new) seen.old.starts seen.new.starts) }
    ensures done { OnOk result (DoneOne command.now seen.old.heard seen.new.heard) }
    ensures stood { SeenStands (W.view world.new) seen.new }
    ensures once { IsOnce seen.new }
    ensures sources { CameFrom (IsInput command.now.inputs) seen.old seen.new }
    ensures came { IfErr result (CameTo command.now (O.view out.old) (O.view out.new) seen.old.starts seen.new.starts) }
    ensures stop { IfErr result (IsRunStop (W.view world.old).faults (W.view world.new).faults (O.view out.old).faults (O.view out.new).faults
        (Knows seen.new) command.now seen.old.heard seen.new.heard) }
    ensures heard { HeardWell W.ended L.does (W.view world.new) seen.new.heard }
    ensures read { ReadFirst command.now (Knows seen.old) (Knows seen.new) seen.old.starts seen.new.starts seen.old.heard seen.new.heard }
    ensures asked { IfErr result (AskedBefore (Knows seen.new) command.now.inputs (In (start_of command.now) seen.new.starts)) }
{
    let reads = gather(alloc, &command.name, &command.inputs, world, seen)?;
    let ticket = announce(alloc, command, out, seen)?;
    let ended = execute(alloc, command, ticket, reads, world)?;
    settle(alloc, ended, world, seen)?;
    Ok(())
}

// Runs the commands that are marked, in the order of the manifest.
fn run_all<L: Law, W: World<L>, O: Sink>(
    alloc: Global,
    manifest: &Manifest,
    target: &TargetEntry,
    marks: &[bool],
    world: &mut W,
    out: &mut O,
    seen: &mut Seen,
) -> Result<(), Stop>
    requires none { (W.view world.old).orders ≡ [] }
    requires built { IsBuilt manifest.now target.now }
    requires marks { AreMarks manifest.now.commands target.now.nodes marks.now }
    requires unused { seen.old ≡ unused }
    ensures none { (W.view world.new).orders ≡ [] }
    ensures moved { Moved (IsWritten manifest.now.commands seen.new.starts) (W.view world.old) (W.view world.new) }
    ensures later { (O.view out.old).faults ≤ (O.view out.new).faults }
    ensures begins { (W.view world.new).begins ≤ (W.view world.old).begins + length seen.new.starts }
    ensures stands { OnOk result (Stands L.does manifest.now.commands marks.now (length manifest.now.commands) (W.view world.new) seen.new) }
    ensures started { OnOk result (seen.new.starts ≡ starts_of manifest.now.commands marks.now) }
    ensures wrote { OnOk result (Grew (O.view out.old) (O.view out.new) (lines_of seen.new.starts)) }
    ensures done { OnOk result (AllDone seen.new.heard) }
    ensures ended { OnOk result (AllEnded seen.new.starts seen.new.heard) }
    ensures stood { SeenStands (W.view world.new) seen.new }
    ensures once { IsOnce seen.new }
    ensures sources { AreSources (record { manifest = manifest.now; target = target.now }) seen.new.stats }
    ensures starts { AreStarts manifest.now.commands target.now.nodes seen.new.starts }
    ensures step { AreInStep seen.new.starts seen.new.heard }
    ensures orders { AreOrders manifest.now.commands seen.new.heard }
    ensures heard { HeardWell W.ended L.does (W.view world.new) seen.new.heard }
    ensures part { IfErr result (WroteStopped (IsNextStart manifest.now.commands target.now.nodes seen.new.starts)
        (AllStarted manifest.now.commands target.now.nodes seen.new.starts) (O.view out.old) (O.view out.new) seen.new.starts) }
    ensures stop { IfErr result (IsBuildStop (W.view world.old).faults (W.view world.new).faults (O.view out.old).faults (O.view out.new).faults
        (Knows seen.new) manifest.now.commands target.now seen.new.starts seen.new.heard) }
    ensures read { AllReadFirst manifest.now.commands (Knows seen.new) seen.new.starts seen.new.heard }
    ensures missing { IfErr result (StopsAtMissing manifest.now.commands target.now (Knows seen.new) seen.new.starts seen.new.heard) }
{
    // Its clause says what every manifest keeps.
    manifest.keeps();
    'commands: for (place, is_marked) in marks.iter().enumerate() {
        if !*is_marked {
            continue;
        }
        // There is one mark for each command.
        let Some(command) = manifest.command(place) else {
            continue;
        };
        run_one(alloc, command, world, out, seen)?;
    }
    Ok(())
}

// Looks at the nodes of the target, which all have to be there, and writes the summary.
fn finish<L: Law, W: World<L>, O: Sink>(
    alloc: Global,
    target: &TargetEntry,
    world: &mut W,
    out: &mut O,
    seen: &mut Seen,
) -> Result<(), Stop>
    requires nodes { AreFileInputs target.now.nodes }
    requires once { IsOnce seen.old }
    ensures looked { Looked (W.view world.new) (IsInput target.now.nodes) seen.old seen.new }
    ensures once { IsOnce seen.new }
    ensures reads { OnOk result (WereRead (Knows seen.new) target.now.nodes) }
    ensures wrote { OnOk result (Grew (O.view out.old) (O.view out.new) (summary_text (length seen.old.starts))) }
    ensures stop { IfErr result (IsFinishStop (W.view world.old).faults (W.view world.new).faults (O.view out.old).faults (O.view out.new).faults
        (O.view out.old) (O.view out.new) (Knows seen.new) target.now (summary_text (length seen.old.starts))) }
    ensures stayed { Stayed (W.view world.old) (W.view world.new) }
    ensures later { (O.view out.old).faults ≤ (O.view out.new).faults }
    ensures asked { IfErr result (AskedBefore (Knows seen.new) target.now.nodes ⊥) }
{
    let _reads = gather(alloc, &target.name, &target.nodes, world, seen)?;
    let text = summary(alloc, seen.starts() as u64)?;
    put_all(out, text.as_slice())?;
    Ok(())
}

/// Builds the nodes of a target, all of which is built today: starts each command that it needs, and that is marked, once, and
/// writes a line for each start and a last one with their number. At the first failing event nothing more is started.
pub fn build<L: Law, W: World<L>, O: Sink>(
    alloc: Global,
    manifest: &Manifest,
    target: &TargetEntry,
    marks: &[bool],
    world: &mut W,
    out: &mut O,
    seen: &mut Seen,
) -> Result<(), Stop>
    requires none { (W.view world.old).orders ≡ [] }
    requires built { IsBuilt manifest.now target.now }
    requires marks { AreMarks manifest.now.commands target.now.nodes marks.now }
    requires unused { seen.old ≡ unused }
    ensures none { (W.view world.new).orders ≡ [] }
    ensures begins { (W.view world.new).begins ≤ (W.view world.old).begins + length seen.new.starts }
    ensures did { Did (answers_of L.does W.ended W.gave)
        (run_of (W.view world.old) (W.view world.new) (O.view out.old) (O.view out.new) (report_of (end_after result) seen.new))
        (record { manifest = manifest.now; target = target.now }) result }
{
    run_all(alloc, manifest, target, marks, world, out, seen)?;
    finish(alloc, target, world, out, seen)?;
    Ok(())
}
