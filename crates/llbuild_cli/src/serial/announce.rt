//! The line of a start.
ghost use Rattle.std.specs.Prelude.{◌≡◌, ◌<◌, ◌≤◌, ◌+◌, ◌-◌, ◌^◌, ◌∷◌, [], ◌++◌, length, IfOk, IfErr, OnOk, OnErr};
ghost use Rattle.outside.specs.View.{Grew};
ghost use Rattle.llbuild_cli.specs.Start.{shown_of, start_of};
ghost use Rattle.llbuild_cli.specs.Stop.{IsSinkStop};
ghost use Rattle.build_report.specs.Text.{line_of};
ghost use Rattle.llbuild_cli.specs.Growth.{GrewByPart};

use crate::put_all::put_all;
use crate::serial::seen::Seen;
use crate::stop::Stop;
use build_manifest::command::Command;
use build_report::report::{Reason, Start};
use build_report::texts::line_of;
use file_info::copied::Copied;
use file_info::list::{Bytes, List};
use file_info::memory::NoMemory;
use outside::sink::Sink;
use std::alloc::Global;

// What is shown of a command: its description, or its name.
fn shown(alloc: Global, command: &Command) -> Result<Bytes, NoMemory>
    ensures { IfOk result (λ text. text ≡ shown_of command.now.description command.now.name) }
{
    match &command.description {
        Some(text) => text.copy(alloc),
        None => Ok(List::from_vec(Vec::from_slice(alloc, command.name.text().as_bytes())?)),
    }
}

// The start of a command of which no result is stored.
fn start_of(alloc: Global, command: &Command) -> Result<Start, NoMemory>
    ensures { IfOk result (λ start. start ≡ start_of command.now) }
{
    Ok(Start {
        command: command.name.copy(alloc)?,
        shown: shown(alloc, command)?,
        reason: Reason::NeverBuilt,
    })
}

/// Writes the line of a start, which is the next one, and notes it. The answer is its number.
pub fn announce<O: Sink>(
    alloc: Global,
    command: &Command,
    out: &mut O,
    seen: &mut Seen,
) -> Result<u64, Stop>
    requires room { length seen.old.starts < 2 ^ 64 - 1 }
    ensures ticket { IfOk result (λ ticket. ticket ≡ length seen.old.starts + 1) }
    ensures noted { OnOk result (seen.new ≡ record seen.old { starts = seen.old.starts ++ start_of command.now ∷ [] }) }
    ensures wrote { OnOk result (Grew (O.view out.old) (O.view out.new) (line_of (length seen.old.starts + 1) (start_of command.now))) }
    ensures same { OnErr result (seen.new ≡ seen.old) }
    ensures part { OnErr result (GrewByPart (O.view out.old) (O.view out.new) (line_of (length seen.old.starts + 1) (start_of command.now))) }
    ensures stop { IfErr result (IsSinkStop (O.view out.old).faults (O.view out.new).faults) }
    ensures later { (O.view out.old).faults ≤ (O.view out.new).faults }
{
    let start = start_of(alloc, command)?;
    let ticket = seen.starts() as u64 + 1;
    let line = line_of(alloc, ticket, &start)?;
    put_all(out, line.as_slice())?;
    seen.note_start(start)?;
    Ok(ticket)
}
