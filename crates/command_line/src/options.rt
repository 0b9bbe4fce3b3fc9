//! The options and words of each command, read as `clap` reads those of a simple command.
ghost use Rattle.std.specs.Prelude.{◌≡◌, map, string_bytes, true, false, IfOk, IfErr};
ghost use Rattle.clap.specs.Words.{app_of, is_simple_and_free, rule_of};
ghost use Rattle.command_line.specs.CommandLine as spec;
ghost use Rattle.command_line.specs.CommandLine.{build_app, dump_app, generate_app, parse_app, rehearse_app};
ghost use Rattle.command_line.specs.Fault.{is_memory, refused_kind};
ghost use Rattle.command_line.specs.Matches.{AnswersMatches};

use crate::job::UsageFault;
use clap::error::ErrorKind;
use clap::{Arg, ArgAction, ArgMatches, Command};
use std::alloc::{AllocError, Global};

fn command_named<'a>(alloc: Global, name: &'a str) -> Command<'a>
    ensures { app_of result ≡ spec.command_named name.entry.now }
{
    Command::new(alloc, name)
        .no_binary_name(true)
        .disable_help_flag(true)
}

fn letter_option<'a>(alloc: Global, id: &'a str, letter: char) -> Arg<'a>
    ensures rule { rule_of result ≡ spec.letter_option id.entry.now letter }
    ensures local { result.global ≡ false }
{
    Arg::new(alloc, id).short(letter).action(ArgAction::Set)
}

fn letter_flag<'a>(alloc: Global, id: &'a str, letter: char) -> Arg<'a>
    ensures rule { rule_of result ≡ spec.letter_flag id.entry.now letter }
    ensures local { result.global ≡ false }
{
    Arg::new(alloc, id).short(letter).action(ArgAction::SetTrue)
}

fn named_option<'a>(alloc: Global, id: &'a str, name: &'a str) -> Arg<'a>
    ensures rule { rule_of result ≡ spec.named_option id.entry.now name.entry.now }
    ensures local { result.global ≡ false }
{
    Arg::new(alloc, id).long(name).action(ArgAction::Set)
}

fn named_flag<'a>(alloc: Global, id: &'a str, name: &'a str) -> Arg<'a>
    ensures rule { rule_of result ≡ spec.named_flag id.entry.now name.entry.now }
    ensures local { result.global ≡ false }
{
    Arg::new(alloc, id).long(name).action(ArgAction::SetTrue)
}

fn word<'a>(alloc: Global, id: &'a str) -> Arg<'a>
    ensures rule { rule_of result ≡ spec.word id.entry.now }
    ensures local { result.global ≡ false }
{
    Arg::new(alloc, id).action(ArgAction::Set)
}

fn due_word<'a>(alloc: Global, id: &'a str) -> Arg<'a>
    ensures rule { rule_of result ≡ spec.due_word id.entry.now }
    ensures local { result.global ≡ false }
{
    Arg::new(alloc, id).required(true).action(ArgAction::Set)
}

fn build_command<'a>(alloc: Global) -> Result<Command<'a>, AllocError>
    ensures { IfOk result (λ command. app_of command ≡ spec.build_app) }
{
    command_named(alloc, "build")
        .arg(letter_option(alloc, "-f", 'f'))?
        .arg(named_option(alloc, "--db", "db"))?
        .arg(named_flag(alloc, "--no-db", "no-db"))?
        .arg(named_flag(alloc, "--serial", "serial"))?
        .arg(letter_option(alloc, "-j", 'j'))?
        .arg(letter_flag(alloc, "-v", 'v'))?
        .arg(named_option(alloc, "--max-commands", "max-commands"))?
        .arg(word(alloc, "TARGET"))
}

fn parse_command<'a>(alloc: Global) -> Result<Command<'a>, AllocError>
    ensures { IfOk result (λ command. app_of command ≡ spec.parse_app) }
{
    command_named(alloc, "parse").arg(letter_option(alloc, "-f", 'f'))
}

fn dump_command<'a>(alloc: Global) -> Result<Command<'a>, AllocError>
    ensures { IfOk result (λ command. app_of command ≡ spec.dump_app) }
{
    command_named(alloc, "dump").arg(named_option(alloc, "--db", "db"))
}

fn rehearse_command<'a>(alloc: Global) -> Result<Command<'a>, AllocError>
    ensures { IfOk result (λ command. app_of command ≡ spec.rehearse_app) }
{
    command_named(alloc, "rehearse").arg(due_word(alloc, "SCRIPT"))
}

fn generate_command<'a>(alloc: Global) -> Result<Command<'a>, AllocError>
    ensures { IfOk result (λ command. app_of command ≡ spec.generate_app) }
{
    command_named(alloc, "generate")
        .arg(due_word(alloc, "--generate"))?
        .arg(due_word(alloc, "SIZE"))
}

// Whether it is the kind of an error for want of memory.
fn is_memory(kind: ErrorKind) -> bool
    ensures { result ≡ is_memory kind }
{
    matches!(kind, ErrorKind::OutOfMemory)
}

// The fault of an error of this kind.
fn refused_kind(kind: ErrorKind) -> UsageFault
    ensures { result ≡ refused_kind kind }
{
    if is_memory(kind) {
        UsageFault::NoMemory
    } else {
        UsageFault::Words
    }
}

// What these words give to the options of a command, where they are accepted.
fn matched<'a>(command: Command<'a>, words: &'a [String]) -> Result<ArgMatches<'a>, UsageFault>
    requires { is_simple_and_free (app_of command) ≡ true }
    ensures { AnswersMatches (app_of command.entry) (map string_bytes words.entry.now) result }
{
    match command.try_get_matches_from(words) {
        Ok(matches) => Ok(matches),
        Err(error) => Err(refused_kind(error.kind())),
    }
}

/// What these words give to the options and words of `buildsystem build`, where they are accepted.
pub fn build_matches<'a>(alloc: Global, words: &'a [String]) -> Result<ArgMatches<'a>, UsageFault>
    ensures { AnswersMatches build_app (map string_bytes words.entry.now) result }
{
    matched(build_command(alloc)?, words)
}

/// What these words give to the options and words of `buildsystem parse`, where they are accepted.
pub fn parse_matches<'a>(alloc: Global, words: &'a [String]) -> Result<ArgMatches<'a>, UsageFault>
    ensures { AnswersMatches parse_app (map string_bytes words.entry.now) result }
{
    matched(parse_command(alloc)?, words)
}

/// What these words give to the options and words of `db dump`, where they are accepted.
pub fn dump_matches<'a>(alloc: Global, words: &'a [String]) -> Result<ArgMatches<'a>, UsageFault>
    ensures { AnswersMatches dump_app (map string_bytes words.entry.now) result }
{
    matched(dump_command(alloc)?, words)
}

/// What these words give to the options and words of `rehearse` with a script, where they are accepted.
pub fn rehearse_matches<'a>(
    alloc: Global,
    words: &'a [String],
) -> Result<ArgMatches<'a>, UsageFault>
    ensures { AnswersMatches rehearse_app (map string_bytes words.entry.now) result }
{
    matched(rehearse_command(alloc)?, words)
}

/// What these words give to the options and words of `rehearse --generate`, where they are accepted.
pub fn generate_matches<'a>(
    alloc: Global,
    words: &'a [String],
) -> Result<ArgMatches<'a>, UsageFault>
    ensures { AnswersMatches generate_app (map string_bytes words.entry.now) result }
{
    matched(generate_command(alloc)?, words)
}
