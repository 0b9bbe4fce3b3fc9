//! What words ask for, and why they are refused.
use crate::job::{Job, UsageFault};
use crate::words::{job_of, read_words};
use file_info::list::Bytes;
use file_info::path::PathName;
use std::alloc::Global;
use std::process::Abort;
use std::test::Fail;

// The words of a command, and the job that they ask for.
const JOBS: &str = "\
buildsystem build|build build.llbuild build.db at once default 4 any
buildsystem build all|build build.llbuild build.db at once all 4 any
buildsystem build -- -f|build build.llbuild build.db at once -f 4 any
buildsystem build -f m --db d -v t -j 1 --max-commands 0|build m d told at once t 1 0
buildsystem build -fm --db=d -j64 --max-commands=4294967295|build m d at once default 64 4294967295
buildsystem build --serial --no-db -f ./a//b|build a/b - serial default 4 any
buildsystem build -vj 7|build build.llbuild build.db told at once default 7 any
buildsystem parse|parse build.llbuild
buildsystem parse -f m|parse m
db dump|dump build.db
db dump --db d|dump d
rehearse s|rehearse s
rehearse --generate 0 1|generate 0 1
rehearse --generate 18446744073709551615 65536|generate 18446744073709551615 65536";

// The words of a command, and why they are refused.
const REFUSED: &str = "\
|no command
buildsystem|no command
buildsystem run|no command
build|no command
db parse|no command
help|no command
buildsystem build a b|words
buildsystem build -f|words
buildsystem build -f a -f b|words
buildsystem build --serial --serial|words
buildsystem build --serial=true|words
buildsystem build --help|words
buildsystem build -h|words
buildsystem build -x|words
buildsystem build --jobs 4|words
buildsystem parse t|words
buildsystem parse --db d|words
db dump t|words
db dump -f m|words
rehearse|words
rehearse a b|words
rehearse --generate|words
rehearse --generate 1|words
rehearse --generate 1 2 3|words
rehearse 1 --generate|words
buildsystem build -j 0|number -j
buildsystem build -j 65|number -j
buildsystem build -j 01|number -j
buildsystem build -j +1|number -j
buildsystem build -j |number -j
buildsystem build -j 18446744073709551617|number -j
buildsystem build --max-commands 4294967296|number --max-commands
buildsystem build --max-commands 00|number --max-commands
buildsystem build --max-commands x -j x|number -j
rehearse --generate 18446744073709551616 1|number --generate
rehearse --generate x 0|number --generate
rehearse --generate 1 0|number SIZE
rehearse --generate 1 65537|number SIZE
buildsystem build -f |path -f
buildsystem build -f /..|path -f
buildsystem build -j 0 --db /.. -f m|path --db
buildsystem build --db /.. -f /..|path -f
buildsystem parse -f /..|path -f
db dump --db /..|path --db
rehearse /..|path SCRIPT
buildsystem build --no-db --db d|--db excludes --no-db
buildsystem build --serial -j 4|--serial excludes -j
buildsystem build --serial -j 4 --no-db --db d|--db excludes --no-db
buildsystem build --serial -j 0|number -j
buildsystem build --no-db --db /..|path --db
buildsystem build --serial -j 4 a b|words";

// The words of a command, and what is served of them.
const SERVED: &str = "\
buildsystem build --serial --no-db|build build.llbuild - serial default 4 any
buildsystem build --no-db --serial all|build build.llbuild - serial all 4 any
buildsystem parse|parse build.llbuild
buildsystem build|not built
buildsystem build --serial|not built
buildsystem build --no-db|not built
buildsystem build --serial --no-db -v|not built
buildsystem build --serial --no-db --max-commands 3|not built
db dump|not built
rehearse s|not built
rehearse --generate 1 1|not built
buildsystem build --serial --no-db -j 4|--serial excludes -j
buildsystem build --no-db -j 0|number -j
buildsystem|no command";

fn joined(alloc: Global, parts: &[&[u8]]) -> Result<Vec<u8>, Fail> {
    let mut out = Vec::new(alloc);
    for part in parts {
        out.extend_from_slice(part)?;
    }
    Ok(out)
}

fn path_or(path: &Option<PathName>) -> &[u8] {
    match path {
        Some(path) => path.text().as_bytes(),
        None => b"-",
    }
}

fn target_or(target: &Option<Bytes>) -> &[u8] {
    match target {
        Some(target) => target.as_slice(),
        None => b"default",
    }
}

fn number_or(alloc: Global, number: Option<u64>) -> Result<String, Fail> {
    match number {
        Some(number) => Ok(format!(in alloc; "{number}")?),
        None => Ok(String::from_str(alloc, "any")?),
    }
}

fn job_said(alloc: Global, job: &Job) -> Result<Vec<u8>, Fail> {
    match job {
        Job::Build {
            file,
            db,
            serial,
            target,
            settings,
        } => {
            let lanes = format!(in alloc; " {} ", settings.lanes)?;
            let most = number_or(alloc, settings.most)?;
            let told: &[u8] = if settings.verbose { b" told" } else { b"" };
            let how: &[u8] = if *serial { b" serial " } else { b" at once " };
            joined(
                alloc,
                &[
                    b"build ",
                    file.text().as_bytes(),
                    b" ",
                    path_or(db),
                    told,
                    how,
                    target_or(target),
                    lanes.as_bytes(),
                    most.as_bytes(),
                ],
            )
        }
        Job::Parse { file } => joined(alloc, &[b"parse ", file.text().as_bytes()]),
        Job::Dump { db } => joined(alloc, &[b"dump ", db.text().as_bytes()]),
        Job::Rehearse { script } => joined(alloc, &[b"rehearse ", script.text().as_bytes()]),
        Job::Generate { number, size } => {
            Ok(format!(in alloc; "generate {number} {size}")?.into_bytes())
        }
    }
}

fn fault_said(alloc: Global, fault: &UsageFault) -> Result<Vec<u8>, Fail> {
    match fault {
        UsageFault::NoCommand => joined(alloc, &[b"no command"]),
        UsageFault::Words => joined(alloc, &[b"words"]),
        UsageFault::BadNumber { option } => joined(alloc, &[b"number ", option.as_slice()]),
        UsageFault::BadPath { option } => joined(alloc, &[b"path ", option.as_slice()]),
        UsageFault::Exclusive { first, second } => {
            joined(alloc, &[first.as_slice(), b" excludes ", second.as_slice()])
        }
        UsageFault::NotBuilt => joined(alloc, &[b"not built"]),
        UsageFault::NoMemory => joined(alloc, &[b"no memory"]),
    }
}

// The words of a line; none where it is empty.
fn words_of(alloc: Global, line: &str) -> Result<Vec<String>, Fail> {
    let mut words = Vec::new(alloc);
    if line.is_empty() {
        return Ok(words);
    }
    for word in line.split(' ') {
        words.push(String::from_str(alloc, word)?)?;
    }
    Ok(words)
}

fn said(alloc: Global, answer: &Result<Job, UsageFault>) -> Result<Vec<u8>, Fail> {
    match answer {
        Ok(job) => job_said(alloc, job),
        Err(fault) => fault_said(alloc, fault),
    }
}

// What is answered of the words of a line: as `read_words` serves them, or as `job_of` alone.
fn asked(alloc: Global, line: &str, served: bool) -> Result<Vec<u8>, Fail> {
    let words = words_of(alloc, line)?;
    let answer = if served {
        read_words(alloc, words.as_slice())
    } else {
        job_of(alloc, words.as_slice())
    };
    said(alloc, &answer)
}

// Each row of the table has words and, after a bar, what is answered of them.
fn all_asked(rt: &impl Abort, alloc: Global, table: &str, served: bool) -> Result<(), Fail> {
    for row in table.lines() {
        let (line, expected) = row.split_once('|').ok_or("no bar")?;
        let answer = asked(alloc, line, served)?;
        assert_eq!(rt; answer.as_slice(), expected.as_bytes(), "{line:?}");
    }
    Ok(())
}

#[test]
fn words_ask_for_jobs(rt: HostRuntime) -> Result<(), Fail> {
    all_asked(&rt, rt.alloc(), JOBS, false)
}

#[test]
fn words_are_refused_in_order(rt: HostRuntime) -> Result<(), Fail> {
    all_asked(&rt, rt.alloc(), REFUSED, false)
}

#[test]
fn jobs_are_served_or_not_built(rt: HostRuntime) -> Result<(), Fail> {
    all_asked(&rt, rt.alloc(), SERVED, true)
}
