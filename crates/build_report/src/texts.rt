//! The texts that are printed.
ghost use Rattle.std.specs.Prelude.{◌≡◌, ◌++◌, IfOk, OnOk, codes, decimal};
ghost use Rattle.build_report.specs.Escape.{show};
ghost use Rattle.build_report.specs.Text.{end_text, ending_text, exclusive_text, failure_text, fault_text, is_silent, later_text};
ghost use Rattle.build_report.specs.Text.{line_of, summary_text, usage_text};
ghost use Rattle.build_report.specs.Status.{status_of};

use crate::refused::push_load_error;
use crate::report::{End, Start};
use crate::shown::{push_named, push_shown};
use command_line::job::UsageFault;
use file_info::list::Bytes;
use file_info::memory::NoMemory;
use file_info::name::Name;
use outside::order::Exit;
use std::alloc::{AllocError, Global};

/// The line of a start: its number from 1 in brackets, and what is shown of the command.
pub fn line_of(alloc: Global, place: u64, start: &Start) -> Result<Vec<u8>, NoMemory>
    ensures { IfOk result (λ line. line.items ≡ line_of place start.now) }
{
    let mut line = format!(in alloc; "[{place}] ")?.into_bytes();
    push_shown(&mut line, start.shown.as_slice())?;
    line.push(b'\n')?;
    Ok(line)
}

/// The line after a build that succeeded.
pub fn summary(alloc: Global, starts: u64) -> Result<Vec<u8>, NoMemory>
    ensures { IfOk result (λ text. text.items ≡ summary_text starts) }
{
    Ok(format!(in alloc; "ok: {starts} started\n")?.into_bytes())
}

// How a program ended that failed.
fn push_ending(alloc: Global, out: &mut Vec<u8>, exit: Exit) -> Result<(), AllocError>
    ensures { OnOk result (out.new.items ≡ out.old.items ++ ending_text exit) }
{
    match exit {
        Exit::Code(status) => {
            let text = format!(in alloc; " ended with status {status}")?;
            out.extend_from_slice(text.as_bytes())
        }
        Exit::Killed => out.extend_from_slice(b" was killed"),
    }
}

// How a command failed.
fn push_exit(alloc: Global, out: &mut Vec<u8>, command: &Name, exit: Exit) -> Result<(), AllocError>
    ensures { OnOk result (out.new.items ≡ out.old.items ++ (codes "command " ++ show command.now ++ ending_text exit)) }
{
    out.extend_from_slice(b"command ")?;
    push_shown(out, command.text().as_bytes())?;
    push_ending(alloc, out, exit)
}

// What was needed and is missing.
fn push_missing(out: &mut Vec<u8>, asker: &Name, node: &Name) -> Result<(), AllocError>
    ensures { OnOk result (out.new.items ≡ out.old.items ++ (show asker.now ++ codes " needs " ++ show node.now ++ codes ", which is missing")) }
{
    push_shown(out, asker.text().as_bytes())?;
    out.extend_from_slice(b" needs ")?;
    push_shown(out, node.text().as_bytes())?;
    out.extend_from_slice(b", which is missing")
}

// What a command reads though it or a later one makes it.
fn push_later(out: &mut Vec<u8>, command: &Name, node: &Name) -> Result<(), AllocError>
    ensures { OnOk result (out.new.items ≡ out.old.items ++ later_text command.now node.now) }
{
    out.extend_from_slice(b"command ")?;
    push_shown(out, command.text().as_bytes())?;
    out.extend_from_slice(b" needs ")?;
    push_shown(out, node.text().as_bytes())?;
    out.extend_from_slice(b", which a later command makes")
}

// Two options that may not stand together.
fn push_exclusive(out: &mut Vec<u8>, first: &Bytes, second: &Bytes) -> Result<(), AllocError>
    ensures { OnOk result (out.new.items ≡ out.old.items ++ exclusive_text first.now second.now) }
{
    push_named(out, b"", first.as_slice(), b" excludes ")?;
    push_shown(out, second.as_slice())
}

// Why words are refused.
fn push_fault(out: &mut Vec<u8>, fault: &UsageFault) -> Result<(), AllocError>
    ensures { OnOk result (out.new.items ≡ out.old.items ++ fault_text fault.now) }
{
    match fault {
        UsageFault::NoCommand => out.extend_from_slice(b"no such command"),
        UsageFault::Words => out.extend_from_slice(b"the words are refused"),
        UsageFault::BadNumber { option } => push_named(
            out,
            b"bad number for ",
            option.as_slice(),
            b"",
        ),
        UsageFault::BadPath { option } => push_named(out, b"bad path for ", option.as_slice(), b""),
        UsageFault::Exclusive { first, second } => push_exclusive(out, first, second),
        UsageFault::NotBuilt => out.extend_from_slice(b"not built yet"),
        UsageFault::NoMemory => out.extend_from_slice(b"out of memory"),
    }
}

// The same, after a word that says what it is about.
fn push_usage(out: &mut Vec<u8>, fault: &UsageFault) -> Result<(), AllocError>
    ensures { OnOk result (out.new.items ≡ out.old.items ++ usage_text fault.now) }
{
    out.extend_from_slice(b"usage: ")?;
    push_fault(out, fault)
}

// Whether nothing is said of an end.
fn is_silent<F>(end: &End<F>) -> bool
    ensures { result ≡ is_silent end.now }
{
    matches!(end, End::Ok | End::SinkFault)
}

fn push_end<F>(alloc: Global, out: &mut Vec<u8>, end: &End<F>) -> Result<(), AllocError>
    ensures { OnOk result (out.new.items ≡ out.old.items ++ end_text end.now) }
{
    match end {
        End::Ok | End::SinkFault => Ok(()),
        End::CommandFailed { command, exit } => push_exit(alloc, out, command, *exit),
        End::MissingInput { asker, node } => push_missing(out, asker, node),
        End::LaterMaker { command, node } => push_later(out, command, node),
        End::Usage(fault) => push_usage(out, fault),
        End::NoFile { path } => push_named(out, b"no file ", path.text().as_bytes(), b""),
        End::Manifest(error) => {
            out.extend_from_slice(b"manifest: ")?;
            push_load_error(alloc, out, error)
        }
        End::UnknownTarget { name } => push_named(out, b"unknown target ", name.as_slice(), b""),
        End::NoDefault => out.extend_from_slice(b"no default target"),
        End::NotBuilt { asker } => {
            push_named(
                out,
                b"",
                asker.text().as_bytes(),
                b" uses what is not built yet",
            )
        }
        End::DiskFault => out.extend_from_slice(b"the disk failed"),
        End::HostFault { command, fault: _ } => {
            let name = command.text().as_bytes();
            push_named(out, b"command ", name, b" could not be run")
        }
        End::NoMemory => out.extend_from_slice(b"out of memory"),
    }
}

/// What is printed on standard error at the end: a line that begins with `error: `, or nothing at `Ok` and where standard
/// output failed.
pub fn failure_text<F>(alloc: Global, end: &End<F>) -> Result<Vec<u8>, NoMemory>
    ensures { IfOk result (λ text. text.items ≡ failure_text end.now) }
{
    let mut text = Vec::new(alloc);
    if is_silent(end) {
        return Ok(text);
    }
    text.extend_from_slice(b"error: ")?;
    push_end(alloc, &mut text, end)?;
    text.push(b'\n')?;
    Ok(text)
}

/// The status that the process ends with: 0 for success, 1 for a build that failed, 2 for words or a manifest that are
/// refused, 3 for the outside, 5 for want of memory.
pub fn status<F>(end: &End<F>) -> u8
    ensures { result ≡ status_of end.now }
{
    match end {
        End::Ok => 0,
        End::CommandFailed { .. } | End::MissingInput { .. } | End::LaterMaker { .. } => 1,
        End::Usage(_)
        | End::NoFile { .. }
        | End::Manifest(_)
        | End::UnknownTarget { .. }
        | End::NoDefault
        | End::NotBuilt { .. } => 2,
        End::DiskFault | End::HostFault { .. } | End::SinkFault => 3,
        End::NoMemory => 5,
    }
}

#[cfg(test)]
mod tests;
