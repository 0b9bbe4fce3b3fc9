//! Runs over files in memory.
ghost use Rattle.std.specs.Prelude.{◌≡◌, [], map, string_bytes, ⊤};
ghost use Rattle.memory_files.specs.Log.{map_of, Tells};
ghost use Rattle.memory_world.specs.Memory.{view_of};
ghost use Rattle.memory_world.specs.Exit.{IsToyExit};
ghost use Rattle.memory_world.specs.Toy.{ToyDoes};
ghost use Rattle.command_line.specs.Job.{served_job};
ghost use Rattle.llbuild_cli.specs.InMemory.{MadeInMemory, WroteInMemory, seen_in};
ghost use Rattle.llbuild_cli.specs.Run.{answers_of, run_of};
ghost use Rattle.llbuild_cli.specs.Served.{Served};
ghost use Rattle.build_report.specs.Status.{status_of};
ghost use Rattle.build_report.specs.Text.{failure_text};
ghost use Rattle.llbuild_cli.specs.Growth.{WroteUnlessFault};

use crate::run::run_alone;
use build_report::report::{End, Finish};
use memory_world::memory::MemoryWorld;
use memory_world::sinks::VecSink;
use memory_world::toy::ToyLaw;
use outside::world::NoFault;
use std::alloc::Global;

/// Does the job that the words ask for over files in memory. At `Ok` each node of the target of a build stands with exactly the
/// content that the manifest and the files that stood at entry give it by plain recursion, and all lines were written; or the
/// spelling of the tree of the manifest that stood at entry was. `Served` lists what holds at every end. Nothing of this rests on a
/// premise about the outside: such files tell all their contents.
pub fn run_in_memory(
    alloc: Global,
    words: &[String],
    world: &mut MemoryWorld,
    out: &mut VecSink,
    err: &mut VecSink,
) -> Finish<NoFault>
    requires { world.old.begun ≡ [] }
    ensures fresh { result.report.end ≡ End.Ok → MadeInMemory world.old.writes world.new.writes (served_job (map string_bytes words.now)) }
    ensures wrote { result.report.end ≡ End.Ok
        → WroteInMemory world.old.writes result.report.starts out.old.items out.new.items (served_job (map string_bytes words.now)) }
    ensures served { Served (answers_of ToyDoes IsToyExit (λ path most bytes. ⊤))
        (run_of (view_of world.old) (view_of world.new) (seen_in out.old) (seen_in out.new) result.report) (map string_bytes words.now) }
    ensures told { Tells world.new.writes (map_of world.new.writes) }
    ensures status { result.status ≡ status_of result.report.end }
    ensures failure { WroteUnlessFault (seen_in err.old) (seen_in err.new) (failure_text result.report.end) }
{
    // Its clauses say that all contents that stood at entry are told.
    let _before = world.writes();
    let finish = run_alone::<ToyLaw, _, _, _>(alloc, words, world, out, err);
    // And all that stand now.
    let _after = world.writes();
    finish
}
