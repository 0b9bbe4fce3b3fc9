//! What stands at the inputs of a command.
ghost use Rattle.std.specs.Prelude.{◌≡◌, ◌∷◌, [], IfOk, IfErr};
ghost use Rattle.outside.specs.View.{Stayed};
ghost use Rattle.build_plan.specs.Built.{IsFileInput};
ghost use Rattle.llbuild_cli.specs.Journal.{Knows, IsUnknown, IsOnce};
ghost use Rattle.llbuild_cli.specs.Look.{Looked};
ghost use Rattle.llbuild_cli.specs.Input.{AreFileInputs, IsRead, AreRead};
ghost use Rattle.llbuild_cli.specs.CommandRun.{IsInput};
ghost use Rattle.llbuild_cli.specs.Stop.{IsDiskStop, IsReadStop, IsInputStop};

use crate::serial::seen::Seen;
use crate::stop::Stop;
use build_manifest::command::Input;
use file_info::copied::Copied;
use file_info::info::{Form, Info};
use file_info::list::List;
use file_info::name::Name;
use file_info::node::{NodeName, Read, Reading};
use file_info::path::PathName;
use outside::law::Law;
use outside::world::World;
use std::alloc::Global;

// What stands at a path: what was seen there, or else what the world says of this source.
#[tactic(auto, using(crate::proofs::ProgressLemmas::looked_none, crate::proofs::ProgressLemmas::stayed_none))]
fn look<L: Law, W: World<L>>(
    alloc: Global,
    path: &PathName,
    world: &mut W,
    seen: &mut Seen,
) -> Result<Info, Stop>
    requires { IsOnce seen.old }
    ensures looked { Looked (W.view world.new) (λ p. p ≡ path.now) seen.old seen.new }
    ensures once { IsOnce seen.new }
    ensures info { IfOk result (λ info. Knows seen.new path.now info) }
    ensures stop { IfErr result (IsDiskStop (W.view world.old).faults (W.view world.new).faults) }
    ensures unseen { IfErr result (λ stop. stop ≡ Stop.DiskFault → IsUnknown seen.new path.now) }
    ensures stayed { Stayed (W.view world.old) (W.view world.new) }
{
    if let Some(info) = seen.info(path) {
        return Ok(info.copy(alloc)?);
    }
    let info = world.stat(alloc, path, Form::Follow)?;
    seen.note_source(alloc, path, &info)?;
    Ok(info)
}

// What is read of an input that has to be there.
fn read_input<L: Law, W: World<L>>(
    alloc: Global,
    asker: &Name,
    input: &Input,
    world: &mut W,
    seen: &mut Seen,
) -> Result<Read, Stop>
    requires file { IsFileInput input.now }
    requires once { IsOnce seen.old }
    ensures looked { Looked (W.view world.new) (λ p. IsInput (input.now ∷ []) p) seen.old seen.new }
    ensures once { IsOnce seen.new }
    ensures read { IfOk result (λ read. IsRead (Knows seen.new) input.now read) }
    ensures stop { IfErr result (IsReadStop (W.view world.old).faults (W.view world.new).faults asker.now (Knows seen.new) input.now) }
    ensures stayed { Stayed (W.view world.old) (W.view world.new) }
{
    let node = input.node.copy(alloc)?;
    let NodeName::Path(path) = &input.node else {
        return Ok(Read {
            node,
            reading: Reading::Nothing,
        });
    };
    let info = look(alloc, path, world, seen)?;
    if matches!(&info, Info::Missing) {
        return Err(Stop::MissingInput {
            asker: asker.copy(alloc)?,
            node: input.written.copy(alloc)?,
        });
    }
    Ok(Read {
        node,
        reading: Reading::File(info),
    })
}

/// What is read of each input, in order. It stops at the first that is missing, on behalf of its asker.
pub fn gather<L: Law, W: World<L>>(
    alloc: Global,
    asker: &Name,
    inputs: &List<Input>,
    world: &mut W,
    seen: &mut Seen,
) -> Result<List<Read>, Stop>
    requires files { AreFileInputs inputs.now }
    requires once { IsOnce seen.old }
    ensures looked { Looked (W.view world.new) (IsInput inputs.now) seen.old seen.new }
    ensures once { IsOnce seen.new }
    ensures reads { IfOk result (λ reads. AreRead (Knows seen.new) inputs.now reads) }
    ensures stop { IfErr result (IsInputStop (W.view world.old).faults (W.view world.new).faults asker.now (Knows seen.new) inputs.now) }
    ensures stayed { Stayed (W.view world.old) (W.view world.new) }
{
    let mut reads = List::new(alloc);
    for input in inputs.as_slice() {
        let read = read_input(alloc, asker, input, world, seen)?;
        reads.push(read)?;
    }
    Ok(reads)
}
