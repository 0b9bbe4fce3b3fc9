//! The values of options.
ghost use Rattle.std.specs.Prelude.{◌≡◌, ◌≤◌, Ok, IfOk, IsTrue};
ghost use Rattle.std.specs.Str.{is_utf8};
ghost use Rattle.command_line.specs.Job as spec;
ghost use Rattle.command_line.specs.Fault.{Answers, IsFault};
ghost use Rattle.command_line.specs.declared.job.UsageFault.TheVariants as faults;

use crate::job::UsageFault;
use crate::number::number_in;
use file_info::list::{Bytes, List};
use file_info::path::{PathError, PathName};
use std::alloc::Global;

/// A text as bytes of its own.
pub fn bytes_of(alloc: Global, text: &str) -> Result<Bytes, UsageFault>
    ensures bytes { Answers result (Ok text.now) }
    ensures text { IfOk result (λ bytes. IsTrue (is_utf8 bytes)) }
{
    match Vec::from_slice(alloc, text.as_bytes()) {
        Ok(bytes) => Ok(List::from_vec(bytes)),
        Err(_) => Err(UsageFault::NoMemory),
    }
}

// That an option's value is no path.
fn bad_path(alloc: Global, option: &str) -> UsageFault
    ensures { IsFault result (faults.BadPath option.now) }
{
    match bytes_of(alloc, option) {
        Ok(option) => UsageFault::BadPath { option },
        Err(fault) => fault,
    }
}

// That an option's value is no number that it may have.
fn bad_number(alloc: Global, option: &str) -> UsageFault
    ensures { IsFault result (faults.BadNumber option.now) }
{
    match bytes_of(alloc, option) {
        Ok(option) => UsageFault::BadNumber { option },
        Err(fault) => fault,
    }
}

/// The path of a text that an option gives.
#[tactic(auto, unfolding(crate::specs::Job::path_for))]
pub fn path_for(alloc: Global, option: &str, text: &str) -> Result<PathName, UsageFault>
    ensures { Answers result (spec.path_for option.now text.now) }
{
    match PathName::read(alloc, text) {
        Ok(path) => Ok(path),
        Err(PathError::NoMemory) => Err(UsageFault::NoMemory),
        Err(_) => Err(bad_path(alloc, option)),
    }
}

/// The number of a text that an option gives, which lies between these.
#[tactic(auto, unfolding(crate::specs::Job::number_for))]
pub fn number_for(
    alloc: Global,
    option: &str,
    least: u64,
    most: u64,
    text: &str,
) -> Result<u64, UsageFault>
    ensures number { Answers result (spec.number_for option.now least most text.now) }
    ensures few { IfOk result (λ number. number ≤ most) }
{
    match number_in(text.as_bytes(), least, most) {
        Some(number) => Ok(number),
        None => Err(bad_number(alloc, option)),
    }
}

/// Two options that may not stand together, and whether each is there.
#[tactic(auto, unfolding(crate::specs::Job::apart))]
pub fn apart(
    alloc: Global,
    first: &str,
    second: &str,
    has_first: bool,
    has_second: bool,
) -> Result<(), UsageFault>
    ensures { Answers result (spec.apart first.now second.now has_first has_second) }
{
    if !has_first || !has_second {
        return Ok(());
    }
    Err(UsageFault::Exclusive {
        first: bytes_of(alloc, first)?,
        second: bytes_of(alloc, second)?,
    })
}
