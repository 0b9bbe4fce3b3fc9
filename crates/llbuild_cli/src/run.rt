//! The program's own call.
ghost use Rattle.std.specs.Prelude.{◌≡◌, ◌⊎◌, [], map, string_bytes};
ghost use Rattle.outside.specs.View.{Stayed};
ghost use Rattle.build_report.specs.Status.{status_of};
ghost use Rattle.build_report.specs.Text.{failure_text};
ghost use Rattle.command_line.specs.Job.{IsText};
ghost use Rattle.llbuild_cli.specs.Course.{BuildCourse, ParseCourse};
ghost use Rattle.llbuild_cli.specs.Finish.{end_in, without_memory};
ghost use Rattle.llbuild_cli.specs.Growth.{WroteUnlessFault};
ghost use Rattle.llbuild_cli.specs.Journal.{unused};
ghost use Rattle.llbuild_cli.specs.Plan.{build_job};
ghost use Rattle.llbuild_cli.specs.Run.{answers_of, run_of, report_of};
ghost use Rattle.llbuild_cli.specs.Served.{LeavesNothing, Served};

use crate::open::{job_of, marks_of, no_target, open, target_in, tree_text};
use crate::put_all::put_all;
use crate::serial::build::build;
use crate::serial::seen::Seen;
use build_report::report::{End, Finish, Report};
use build_report::texts::{failure_text, status};
use command_line::job::{Job, UsageFault};
use file_info::list::Bytes;
use file_info::path::PathName;
use outside::law::Law;
use outside::sink::Sink;
use outside::world::{NoFault, World};
use std::alloc::Global;

// Builds a target of the manifest at a path, or its default where none is named.
fn build_target<L: Law, W: World<L>, O: Sink>(
    alloc: Global,
    file: &PathName,
    target: Option<Bytes>,
    world: &mut W,
    out: &mut O,
    seen: &mut Seen,
) -> Result<(), End<NoFault>>
    requires none { (W.view world.old).orders ≡ [] }
    requires unused { seen.old ≡ unused }
    requires text { IsText target }
    ensures course { BuildCourse (answers_of L.does W.ended W.gave)
        (run_of (W.view world.old) (W.view world.new) (O.view out.old) (O.view out.new) (report_of (end_in result) seen.new))
        (build_job file.now target) }
    ensures left { LeavesNothing
        (run_of (W.view world.old) (W.view world.new) (O.view out.old) (O.view out.new) (report_of (end_in result) seen.new)) }
{
    let manifest = open(alloc, file, world)?;
    match target_in(&manifest, &target) {
        Some(entry) => {
            let marks = marks_of(alloc, &manifest, entry)?;
            build(alloc, &manifest, entry, marks.as_slice(), world, out, seen)?;
            Ok(())
        }
        None => Err(End::from(no_target(target))),
    }
}

// Prints the tree of the manifest at a path.
fn print_tree<L: Law, W: World<L>, O: Sink>(
    alloc: Global,
    file: &PathName,
    world: &mut W,
    out: &mut O,
) -> Result<(), End<NoFault>>
    ensures course { ParseCourse W.gave
        (run_of (W.view world.old) (W.view world.new) (O.view out.old) (O.view out.new) (report_of (end_in result) unused)) file.now }
    ensures stayed { Stayed (W.view world.old) (W.view world.new) }
{
    let text = tree_text(alloc, file, world)?;
    match put_all(out, text.as_slice()) {
        Ok(()) => Ok(()),
        Err(_) => Err(End::SinkFault),
    }
}

// Does the job that the words ask for.
fn serve<L: Law, W: World<L>, O: Sink>(
    alloc: Global,
    words: &[String],
    world: &mut W,
    out: &mut O,
    seen: &mut Seen,
) -> Result<(), End<NoFault>>
    requires none { (W.view world.old).orders ≡ [] }
    requires unused { seen.old ≡ unused }
    ensures { Served (answers_of L.does W.ended W.gave)
        (run_of (W.view world.old) (W.view world.new) (O.view out.old) (O.view out.new) (report_of (end_in result) seen.new))
        (map string_bytes words.now) }
{
    match job_of(alloc, words)? {
        Job::Build { file, target, .. } => build_target(alloc, &file, target, world, out, seen),
        Job::Parse { file } => print_tree(alloc, &file, world, out),
        // Words that ask for these are refused before.
        Job::Dump { .. } => Err(End::Usage(UsageFault::NotBuilt)),
        Job::Rehearse { .. } => Err(End::Usage(UsageFault::NotBuilt)),
        Job::Generate { .. } => Err(End::Usage(UsageFault::NotBuilt)),
    }
}

// The end of a run with this result.
fn end_of(served: Result<(), End<NoFault>>) -> End<NoFault>
    ensures { result ≡ end_in served }
{
    match served {
        Ok(()) => End::Ok,
        Err(end) => end,
    }
}

// Does the job that the words ask for, and reports it.
fn attempt<L: Law, W: World<L>, O: Sink>(
    alloc: Global,
    words: &[String],
    world: &mut W,
    out: &mut O,
) -> Report<NoFault>
    requires { (W.view world.old).orders ≡ [] }
    ensures { Served (answers_of L.does W.ended W.gave)
        (run_of (W.view world.old) (W.view world.new) (O.view out.old) (O.view out.new) result) (map string_bytes words.now) }
{
    let mut seen = Seen::new(alloc);
    let served = serve(alloc, words, world, out, &mut seen);
    seen.into_report(end_of(served))
}

// Writes why a run failed. A fault there changes nothing.
fn tell<E: Sink>(alloc: Global, report: Report<NoFault>, err: &mut E) -> Report<NoFault>
    ensures report { (result ≡ report) ⊎ (result ≡ without_memory report) }
    ensures wrote { WroteUnlessFault (E.view err.old) (E.view err.new) (failure_text result.end) }
{
    match failure_text(alloc, &report.end) {
        Ok(text) => {
            let _ = put_all(err, text.as_slice());
            report
        }
        Err(_) => {
            let _ = put_all(err, b"error: out of memory\n");
            Report {
                end: End::NoMemory,
                ..report
            }
        }
    }
}

// Ends a run with this report: writes why it failed, and gives its status.
fn finish<E: Sink>(alloc: Global, report: Report<NoFault>, err: &mut E) -> Finish<NoFault>
    ensures report { (result.report ≡ report) ⊎ (result.report ≡ without_memory report) }
    ensures status { result.status ≡ status_of result.report.end }
    ensures failure { WroteUnlessFault (E.view err.old) (E.view err.new) (failure_text result.report.end) }
{
    let report = tell(alloc, report, err);
    Finish {
        status: status(&report.end),
        report,
    }
}

/// Ends a run of which a word is no text: it is refused as a faulty command line. Nothing is done, and why goes to `err`.
pub fn refuse_words<E: Sink>(alloc: Global, err: &mut E) -> Finish<NoFault>
    ensures end { (result.report.end ≡ End.Usage UsageFault.Words) ⊎ (result.report.end ≡ End.NoMemory) }
    ensures status { result.status ≡ status_of result.report.end }
    ensures failure { WroteUnlessFault (E.view err.old) (E.view err.new) (failure_text result.report.end) }
{
    let report = Seen::new(alloc).into_report(End::Usage(UsageFault::Words));
    finish(alloc, report, err)
}

/// Does the job that the words ask for, over this world. `buildsystem build` with `--serial` and `--no-db` builds a target, and
/// writes a line for each start and a summary to `out`. `buildsystem parse` writes the spelling of the manifest's tree there. Why
/// a run failed goes to `err`. It waits for nobody and always returns.
///
/// `Served` lists what holds of the run. A job was declined, and why; or there is one plan, by what was read of its manifest, of
/// which all holds; or the tree was printed. At `Ok` each node of the target has the content that manifest and sources give it by
/// plain recursion, where the world tells. Each command is started once at most, and only where the target needs it. Where nothing
/// stands against the job and nothing failed, the end is `Ok` or `NoMemory`.
pub fn run_alone<L: Law, W: World<L>, O: Sink, E: Sink>(
    alloc: Global,
    words: &[String],
    world: &mut W,
    out: &mut O,
    err: &mut E,
) -> Finish<NoFault>
    requires { (W.view world.old).orders ≡ [] }
    ensures served { Served (answers_of L.does W.ended W.gave)
        (run_of (W.view world.old) (W.view world.new) (O.view out.old) (O.view out.new) result.report) (map string_bytes words.now) }
    ensures status { result.status ≡ status_of result.report.end }
    ensures failure { WroteUnlessFault (E.view err.old) (E.view err.new) (failure_text result.report.end) }
{
    let report = attempt(alloc, words, world, out);
    finish(alloc, report, err)
}
