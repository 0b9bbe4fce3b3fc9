//! The words of the command line.
ghost use Rattle.std.specs.Prelude.{◌≡◌, ◌≤◌, map, string_bytes, true, Ok, IfOk, IfErr, IfSome};
ghost use Rattle.command_line.specs.CommandLine.{accepts, build_app, is_true_text};
ghost use Rattle.command_line.specs.Fault.{Answers, Fails};
ghost use Rattle.command_line.specs.Job as spec;

use crate::job::{Job, Settings, UsageFault};
use crate::options::{
    build_matches, dump_matches, generate_matches, parse_matches, rehearse_matches,
};
use crate::value::{apart, bytes_of, number_for, path_for};
use file_info::list::Bytes;
use file_info::path::PathName;
use std::alloc::Global;

/// What the words of a build say: the values and flags of its options, and its target.
#[derive(Drop)]
struct BuildWords<'a> {
    file: Option<&'a str>,
    db: Option<&'a str>,
    no_db: bool,
    serial: bool,
    lanes: Option<&'a str>,
    verbose: bool,
    most: Option<&'a str>,
    target: Option<&'a str>,
}

// Whether a text is `true`, as the value of a flag that is there.
fn is_true(text: Option<&str>) -> bool
    ensures { result ≡ is_true_text (spec.text_in text.entry) }
{
    match text {
        Some(text) => text == "true",
        None => false,
    }
}

// What these words of a build say, where they are accepted.
fn build_words<'a>(alloc: Global, words: &'a [String]) -> Result<BuildWords<'a>, UsageFault>
    ensures accepted { IfOk result (λ w. accepts build_app (map string_bytes words.entry.now) ≡ true) }
    ensures said { IfOk result (λ w. spec.said_in w ≡ spec.build_said (map string_bytes words.entry.now)) }
    ensures refused { IfErr result (λ fault. Fails fault (spec.when_accepted build_app (map string_bytes words.entry.now))) }
{
    let matches = build_matches(alloc, words)?;
    Ok(BuildWords {
        file: matches.get_str("-f"),
        db: matches.get_str("--db"),
        no_db: is_true(matches.get_str("--no-db")),
        serial: is_true(matches.get_str("--serial")),
        lanes: matches.get_str("-j"),
        verbose: is_true(matches.get_str("-v")),
        most: matches.get_str("--max-commands"),
        target: matches.get_str("TARGET"),
    })
}

// The path of the manifest: `build.llbuild` where none is given.
#[tactic(auto, unfolding(crate::specs::Job::file_for))]
fn file_for(alloc: Global, given: Option<&str>) -> Result<PathName, UsageFault>
    ensures { Answers result (spec.file_for (spec.text_in given.entry)) }
{
    path_for(alloc, "-f", given.unwrap_or("build.llbuild"))
}

// The path of the database: `build.db` where none is given.
#[tactic(auto, unfolding(crate::specs::Job::db_for))]
fn db_for(alloc: Global, given: Option<&str>) -> Result<PathName, UsageFault>
    ensures { Answers result (spec.db_for (spec.text_in given.entry)) }
{
    path_for(alloc, "--db", given.unwrap_or("build.db"))
}

// The number that an option gives, which lies between these. None where the option is absent.
#[tactic(auto, unfolding(crate::specs::Job::number_if))]
fn number_if(
    alloc: Global,
    option: &str,
    least: u64,
    most: u64,
    given: Option<&str>,
) -> Result<Option<u64>, UsageFault>
    ensures number { Answers result (spec.number_if option.now least most (spec.text_in given.entry)) }
    ensures few { IfOk result (λ found. IfSome found (λ number. number ≤ most)) }
{
    match given {
        Some(text) => Ok(Some(number_for(alloc, option, least, most, text)?)),
        None => Ok(None),
    }
}

// How a build is done.
#[tactic(auto, unfolding(crate::specs::Job::settings_for))]
fn settings_for(alloc: Global, words: &BuildWords<'_>) -> Result<Settings, UsageFault>
    ensures { Answers result (spec.settings_for (spec.said_in words.now)) }
{
    let lanes = number_if(alloc, "-j", 1, 64, words.lanes)?;
    let most = number_if(alloc, "--max-commands", 0, 4_294_967_295, words.most)?;
    Ok(Settings {
        lanes: lanes.unwrap_or(4) as u32,
        verbose: words.verbose,
        most,
    })
}

// The options that may not stand together.
#[tactic(auto, unfolding(crate::specs::Job::clash_of))]
fn clash_of(alloc: Global, words: &BuildWords<'_>) -> Result<(), UsageFault>
    ensures { Answers result (spec.clash_of (spec.said_in words.now)) }
{
    apart(alloc, "--db", "--no-db", words.db.is_some(), words.no_db)?;
    apart(alloc, "--serial", "-j", words.serial, words.lanes.is_some())
}

// A target's name.
fn target_for(alloc: Global, given: Option<&str>) -> Result<Option<Bytes>, UsageFault>
    ensures name { Answers result (Ok (spec.text_in given.entry)) }
    ensures text { IfOk result spec.IsText }
{
    match given {
        Some(text) => Ok(Some(bytes_of(alloc, text)?)),
        None => Ok(None),
    }
}

// The database, unless none is wanted.
fn unless(no_db: bool, db: PathName) -> Option<PathName>
    ensures { result ≡ spec.unless no_db db }
{
    if no_db { None } else { Some(db) }
}

// The build that these words ask for.
#[tactic(auto, unfolding(crate::specs::Job::build_for))]
fn build_for(alloc: Global, words: &BuildWords<'_>) -> Result<Job, UsageFault>
    ensures job { Answers result (spec.build_for (spec.said_in words.now)) }
    ensures text { IfOk result spec.NamesText }
{
    let file = file_for(alloc, words.file)?;
    let db = db_for(alloc, words.db)?;
    let settings = settings_for(alloc, words)?;
    clash_of(alloc, words)?;
    Ok(Job::Build {
        file,
        db: unless(words.no_db, db),
        serial: words.serial,
        target: target_for(alloc, words.target)?,
        settings,
    })
}

// The build that these words after the command's own ask for.
#[tactic(auto, unfolding(crate::specs::Job::build_of))]
fn build_of(alloc: Global, words: &[String]) -> Result<Job, UsageFault>
    ensures job { Answers result (spec.build_of (map string_bytes words.now)) }
    ensures text { IfOk result spec.NamesText }
{
    let words = build_words(alloc, words)?;
    build_for(alloc, &words)
}

// The printing of a manifest that these words ask for.
#[tactic(auto, unfolding(crate::specs::Job::parse_of), using(crate::proofs::MatchLemmas::unaccepted))]
fn parse_of(alloc: Global, words: &[String]) -> Result<Job, UsageFault>
    ensures job { Answers result (spec.parse_of (map string_bytes words.now)) }
    ensures text { IfOk result spec.NamesText }
{
    let matches = parse_matches(alloc, words)?;
    let file = file_for(alloc, matches.get_str("-f"))?;
    Ok(Job::Parse { file })
}

// The printing of a database that these words ask for.
#[tactic(auto, unfolding(crate::specs::Job::dump_of))]
fn dump_of(alloc: Global, words: &[String]) -> Result<Job, UsageFault>
    ensures job { Answers result (spec.dump_of (map string_bytes words.now)) }
    ensures text { IfOk result spec.NamesText }
{
    let matches = dump_matches(alloc, words)?;
    let db = db_for(alloc, matches.get_str("--db"))?;
    Ok(Job::Dump { db })
}

// The rehearsal of a script that these words ask for.
#[tactic(auto, unfolding(crate::specs::Job::script_of))]
fn script_of(alloc: Global, words: &[String]) -> Result<Job, UsageFault>
    ensures job { Answers result (spec.script_of (map string_bytes words.now)) }
    ensures text { IfOk result spec.NamesText }
{
    let matches = rehearse_matches(alloc, words)?;
    let script = path_for(alloc, "SCRIPT", matches.get_str("SCRIPT").unwrap_or(""))?;
    Ok(Job::Rehearse { script })
}

// The script that these words ask for.
#[tactic(auto, unfolding(crate::specs::Job::generate_of))]
fn generate_of(alloc: Global, words: &[String]) -> Result<Job, UsageFault>
    ensures job { Answers result (spec.generate_of (map string_bytes words.now)) }
    ensures text { IfOk result spec.NamesText }
{
    let matches = generate_matches(alloc, words)?;
    let number = matches.get_str("--generate").unwrap_or("");
    let number = number_for(alloc, "--generate", 0, u64::MAX, number)?;
    let size = matches.get_str("SIZE").unwrap_or("");
    let size = number_for(alloc, "SIZE", 1, 65_536, size)?;
    Ok(Job::Generate {
        number,
        size: size as u32,
    })
}

// The rehearsal that these words ask for.
#[tactic(auto, unfolding(crate::specs::Job::rehearse_of))]
fn rehearse_of(alloc: Global, words: &[String]) -> Result<Job, UsageFault>
    ensures job { Answers result (spec.rehearse_of (map string_bytes words.now)) }
    ensures text { IfOk result spec.NamesText }
{
    match words {
        [first, rest @ ..] if first.as_str() == "--generate" => generate_of(alloc, rest),
        _ => script_of(alloc, words),
    }
}

// The job of a command of two words, and of the words after it.
#[tactic(auto, unfolding(crate::specs::Job::two_words))]
fn two_words(alloc: Global, first: &str, second: &str, words: &[String]) -> Result<Job, UsageFault>
    ensures job { Answers result (spec.two_words first.now second.now (map string_bytes words.now)) }
    ensures text { IfOk result spec.NamesText }
{
    match (first, second) {
        ("buildsystem", "build") => build_of(alloc, words),
        ("buildsystem", "parse") => parse_of(alloc, words),
        ("db", "dump") => dump_of(alloc, words),
        _ => Err(UsageFault::NoCommand),
    }
}

/// The job that the words after the program's name ask for, or the first reason why they ask for none: `NoCommand`, `Words`, then
/// `BadNumber` and `BadPath` in the order of the options, and `Exclusive`. It answers a job that is not built yet too.
#[tactic(auto, unfolding(crate::specs::Job::job_of))]
pub fn job_of(alloc: Global, words: &[String]) -> Result<Job, UsageFault>
    ensures job { Answers result (spec.job_of (map string_bytes words.now)) }
    ensures text { IfOk result spec.NamesText }
{
    match words {
        [first, rest @ ..] if first.as_str() == "rehearse" => rehearse_of(alloc, rest),
        [first, second, rest @ ..] => two_words(alloc, first.as_str(), second.as_str(), rest),
        _ => Err(UsageFault::NoCommand),
    }
}

// Whether a job is built today.
fn is_served(job: &Job) -> bool
    ensures { result ≡ spec.is_served job.now }
{
    match job {
        Job::Build {
            db,
            serial,
            settings,
            ..
        } => *serial && db.is_none() && !settings.verbose && settings.most.is_none(),
        Job::Parse { .. } => true,
        Job::Dump { .. } | Job::Rehearse { .. } | Job::Generate { .. } => false,
    }
}

/// Reads the words after the program's name: the job of `job_of`, and `NotBuilt` last, where it is not built yet. Built today are
/// `buildsystem build` with `--serial` and `--no-db`, without `-v` and `--max-commands`, and `buildsystem parse`.
#[tactic(auto, unfolding(crate::specs::Job::served_job))]
pub fn read_words(alloc: Global, words: &[String]) -> Result<Job, UsageFault>
    ensures job { Answers result (spec.served_job (map string_bytes words.now)) }
    ensures text { IfOk result spec.NamesText }
{
    let job = job_of(alloc, words)?;
    if !is_served(&job) {
        return Err(UsageFault::NotBuilt);
    }
    Ok(job)
}
