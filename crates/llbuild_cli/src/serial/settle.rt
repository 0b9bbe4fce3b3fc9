//! What comes of an order that ended.
ghost use Rattle.std.specs.Prelude.{◌≡◌, ℕ, List as Items, map, length, IfOk, IfErr, OnOk};
ghost use Rattle.file_info.specs.Lists.{In, IsDistinct};
ghost use Rattle.outside.specs.View.{Stayed, Told};
ghost use Rattle.llbuild_cli.specs.Journal.{IsUnknown, IsOnce};
ghost use Rattle.llbuild_cli.specs.OrderEnd.{SettledDone, IsSettleStop};
ghost use Rattle.llbuild_cli.specs.Stop.{IsDiskStop};

use crate::serial::seen::Seen;
use crate::stop::Stop;
use file_info::copied::Copied;
use file_info::info::{Form, Info};
use file_info::list::List;
use file_info::path::PathName;
use outside::law::Law;
use outside::order::{Ended, Exit, Order};
use outside::world::World;
use std::alloc::Global;

// What stands at these paths, in order.
fn stat_all<L: Law, W: World<L>>(
    alloc: Global,
    paths: &List<PathName>,
    world: &mut W,
) -> Result<List<Info>, Stop>
    ensures count { IfOk result (λ infos. length infos ≡ length paths.now) }
    ensures infos { Told (W.view world.new) → IfOk result (λ infos. infos ≡ map (λ (p : Items ℕ). (W.view world.new).at p Form.Follow) paths.now) }
    ensures stop { IfErr result (IsDiskStop (W.view world.old).faults (W.view world.new).faults) }
    ensures stayed { Stayed (W.view world.old) (W.view world.new) }
{
    let mut infos = List::new(alloc);
    for path in paths.as_slice() {
        let info = world.stat(alloc, path, Form::Follow)?;
        infos.push(info)?;
    }
    Ok(infos)
}

// Notes that an order failed.
fn fail(alloc: Global, order: Order, exit: Exit, seen: &mut Seen) -> Stop
    requires failed { exit ≡ Exit.Code 0 → ⊥ }
    requires once { IsOnce seen.old }
    ensures stop { IsSettleStop 0 0 (record { order = order; exit = exit }) seen.old.heard seen.new.heard result }
    ensures starts { seen.new.starts ≡ seen.old.starts }
    ensures stats { seen.new.stats ≡ seen.old.stats }
    ensures once { IsOnce seen.new }
{
    match order.command.copy(alloc) {
        Ok(command) => match seen.note_failed(order, exit) {
            Ok(()) => Stop::CommandFailed { command, exit },
            Err(_) => Stop::NoMemory,
        },
        Err(_) => Stop::NoMemory,
    }
}

/// Notes how an order ended. A program that failed stops the build.
pub fn settle<L: Law, W: World<L>>(
    alloc: Global,
    ended: Ended,
    world: &mut W,
    seen: &mut Seen,
) -> Result<(), Stop>
    requires distinct { IsDistinct ended.order.outputs }
    requires unknown { (p : Items ℕ) → In p ended.order.outputs → IsUnknown seen.old p }
    requires once { IsOnce seen.old }
    ensures exit { OnOk result (ended.exit ≡ Exit.Code 0) }
    ensures done { OnOk result (SettledDone (W.view world.new) ended.order seen.old seen.new) }
    ensures stop { IfErr result (IsSettleStop (W.view world.old).faults (W.view world.new).faults ended seen.old.heard seen.new.heard) }
    ensures starts { seen.new.starts ≡ seen.old.starts }
    ensures stats { seen.new.stats ≡ seen.old.stats }
    ensures once { IsOnce seen.new }
    ensures stayed { Stayed (W.view world.old) (W.view world.new) }
{
    let Ended { order, exit } = ended;
    if exit != Exit::Code(0) {
        return Err(fail(alloc, order, exit, seen));
    }
    let outputs = stat_all(alloc, &order.outputs, world)?;
    seen.note_done(alloc, order, outputs)?;
    Ok(())
}
