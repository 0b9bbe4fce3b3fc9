//! One run of a command.
ghost use Rattle.std.specs.Prelude.{◌≡◌, ◌≤◌, ◌+◌, [], List as Items, IfOk, IfErr};
ghost use Rattle.file_info.specs.Content.{FileVersion};
ghost use Rattle.outside.specs.OrderForm.{AreReadsOf};
ghost use Rattle.outside.specs.View.{Tells};
ghost use Rattle.build_manifest.specs.Command.{IsCommand};
ghost use Rattle.build_meaning.specs.Commands.{meaning_of};
ghost use Rattle.llbuild_cli.specs.Move.{Moved};
ghost use Rattle.llbuild_cli.specs.CommandRun.{IsSound, IsOutput, IsOrderFor, IsEnded, ReadsStand, DidLaw};
ghost use Rattle.llbuild_cli.specs.Stop.{IsDiskStop};

use crate::stop::Stop;
use build_manifest::command::Command;
use file_info::list::List;
use file_info::memory::NoMemory;
use file_info::node::Read;
use outside::law::Law;
use outside::order::{Ended, Exit, Order};
use outside::world::World;
use std::alloc::Global;
use tool_commands::order::order_of;
use tool_commands::signature::signature;

// The order of a command on what was read of its inputs, with this ticket.
fn order_for(
    alloc: Global,
    command: &Command,
    ticket: u64,
    reads: List<Read>,
) -> Result<Order, NoMemory>
    requires keeps { IsCommand command.now }
    requires sound { IsSound command.now }
    requires reads { AreReadsOf (meaning_of command.now).inputs reads }
    ensures { IfOk result (IsOrderFor command.now ticket reads) }
{
    let signature = signature(alloc, command)?;
    let mut order = order_of(alloc, command, signature, reads)?;
    order.ticket = ticket;
    Ok(order)
}

/// Begins the order of a command on what was read of its inputs, and awaits its end.
pub fn execute<L: Law, W: World<L>>(
    alloc: Global,
    command: &Command,
    ticket: u64,
    reads: List<Read>,
    world: &mut W,
) -> Result<Ended, Stop>
    requires none { (W.view world.old).orders ≡ [] }
    requires keeps { IsCommand command.now }
    requires sound { IsSound command.now }
    requires reads { AreReadsOf (meaning_of command.now).inputs reads }
    ensures order { IfOk result (λ e. IsOrderFor command.now ticket reads e.order) }
    ensures ended { IfOk result (IsEnded W.ended (W.view world.old) (W.view world.new)) }
    ensures does { (m : Items FileVersion) → Tells (W.view world.new) m → IfOk result (λ e. e.exit ≡ Exit.Code 0
        → ReadsStand (W.view world.old).at reads → DidLaw L.does m (W.view world.new).at command.now reads) }
    ensures stop { IfErr result (IsDiskStop (W.view world.old).faults (W.view world.new).faults) }
    ensures moved { Moved (IsOutput command.now) (W.view world.old) (W.view world.new) }
    ensures none { (W.view world.new).orders ≡ [] }
    ensures begins { (W.view world.new).begins ≤ (W.view world.old).begins + 1 }
{
    let order = order_for(alloc, command, ticket, reads)?;
    world.begin(alloc, order)?;
    let ended = world.end(alloc)?;
    Ok(ended)
}
