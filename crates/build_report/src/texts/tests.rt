//! Ends with the line and the status that the format gives them, and the lines of starts.
use super::*;
use crate::report::Reason;
use file_info::list::{Bytes, List};
use file_info::node::NodeName;
use file_info::path::PathName;
use manifest_reader::error::LoadError;
use manifest_values::refusal::Counted;
use std::process::Abort;
use std::test::Fail;
use yaml_profile::{Feature, YamlError};

fn name(alloc: Global, text: &str) -> Result<Name, Fail> {
    Ok(Name::read(alloc, text)?)
}

fn bytes(alloc: Global, text: &str) -> Result<Bytes, Fail> {
    Ok(List::from_vec(Vec::from_slice(alloc, text.as_bytes())?))
}

// The end is told by this line, with this status.
fn told(rt: &impl Abort, alloc: Global, end: End<u8>, code: u8, line: &str) -> Result<(), Fail> {
    let text = failure_text(alloc, &end)?;
    assert_eq!(rt; text.as_slice(), line.as_bytes(), "of {line:?}");
    assert_eq!(rt; status(&end), code, "of {line:?}");
    Ok(())
}

fn refused(rt: &impl Abort, alloc: Global, error: YamlError, line: &str) -> Result<(), Fail> {
    told(rt, alloc, End::Manifest(LoadError::Yaml(error)), 2, line)
}

#[test]
fn ends_have_their_lines(rt: HostRuntime) -> Result<(), Fail> {
    let alloc = rt.alloc();
    told(&rt, alloc, End::Ok, 0, "")?;
    told(&rt, alloc, End::SinkFault, 3, "")?;
    let command = name(alloc, "größe")?;
    let exit = Exit::Code(200);
    told(
        &rt,
        alloc,
        End::CommandFailed { command, exit },
        1,
        "error: command größe ended with status 200\n",
    )?;
    let command = name(alloc, "c")?;
    let exit = Exit::Killed;
    told(
        &rt,
        alloc,
        End::CommandFailed { command, exit },
        1,
        "error: command c was killed\n",
    )?;
    let asker = name(alloc, "all")?;
    let node = name(alloc, "./a//b")?;
    told(
        &rt,
        alloc,
        End::MissingInput { asker, node },
        1,
        "error: all needs ./a//b, which is missing\n",
    )?;
    let path = PathName::read(alloc, "a\n\x1f\x7f\\b")?;
    told(
        &rt,
        alloc,
        End::NoFile { path },
        2,
        "error: no file a\\x0a\\x1f\\x7f\\b\n",
    )?;
    let name = bytes(alloc, "\0 ~\u{80}")?;
    told(
        &rt,
        alloc,
        End::UnknownTarget { name },
        2,
        "error: unknown target \\x00 ~\u{80}\n",
    )?;
    let line = "error: no default target\n";
    told(&rt, alloc, End::NoDefault, 2, line)?;
    let (command, node) = (self::name(alloc, "p")?, self::name(alloc, "u")?);
    let line = "error: command p needs u, which a later command makes\n";
    told(&rt, alloc, End::LaterMaker { command, node }, 1, line)?;
    told(&rt, alloc, End::DiskFault, 3, "error: the disk failed\n")?;
    let command = self::name(alloc, "c")?;
    told(
        &rt,
        alloc,
        End::HostFault { command, fault: 7 },
        3,
        "error: command c could not be run\n",
    )?;
    told(&rt, alloc, End::NoMemory, 5, "error: out of memory\n")
}

#[test]
fn refused_manifests_have_their_lines(rt: HostRuntime) -> Result<(), Fail> {
    let alloc = rt.alloc();
    refused(
        &rt,
        alloc,
        YamlError::TooLong,
        "error: manifest: too long\n",
    )?;
    refused(
        &rt,
        alloc,
        YamlError::NotUtf8 { at: 0 },
        "error: manifest: not UTF-8 at byte 0\n",
    )?;
    refused(
        &rt,
        alloc,
        YamlError::Indent { at: 10 },
        "error: manifest: indentation at byte 10\n",
    )?;
    refused(
        &rt,
        alloc,
        YamlError::TooDeep { at: 67_108_863 },
        "error: manifest: too deep at byte 67108863\n",
    )?;
    refused(
        &rt,
        alloc,
        YamlError::RepeatedKey { at: 3 },
        "error: manifest: repeated key at byte 3\n",
    )?;
    refused(
        &rt,
        alloc,
        YamlError::Syntax { at: 4 },
        "error: manifest: syntax at byte 4\n",
    )?;
    for (feature, line) in [
        (
            Feature::Anchor,
            "error: manifest: left out at byte 5: anchor\n",
        ),
        (
            Feature::Alias,
            "error: manifest: left out at byte 5: alias\n",
        ),
        (Feature::Tag, "error: manifest: left out at byte 5: tag\n"),
        (
            Feature::Directive,
            "error: manifest: left out at byte 5: directive\n",
        ),
        (
            Feature::Documents,
            "error: manifest: left out at byte 5: documents\n",
        ),
        (
            Feature::BlockScalar,
            "error: manifest: left out at byte 5: block scalar\n",
        ),
        (
            Feature::ManyLines,
            "error: manifest: left out at byte 5: many lines\n",
        ),
        (
            Feature::ExplicitKey,
            "error: manifest: left out at byte 5: explicit key\n",
        ),
        (
            Feature::Compact,
            "error: manifest: left out at byte 5: compact\n",
        ),
    ] {
        refused(&rt, alloc, YamlError::LeftOut { feature, at: 5 }, line)?;
    }
    Ok(())
}

// Words are refused with this line.
fn misused(rt: &impl Abort, alloc: Global, fault: UsageFault, line: &str) -> Result<(), Fail> {
    told(rt, alloc, End::Usage(fault), 2, line)
}

#[test]
fn refused_words_have_their_lines(rt: HostRuntime) -> Result<(), Fail> {
    let alloc = rt.alloc();
    let line = "error: usage: no such command\n";
    misused(&rt, alloc, UsageFault::NoCommand, line)?;
    let line = "error: usage: the words are refused\n";
    misused(&rt, alloc, UsageFault::Words, line)?;
    let option = bytes(alloc, "--max-commands")?;
    let line = "error: usage: bad number for --max-commands\n";
    misused(&rt, alloc, UsageFault::BadNumber { option }, line)?;
    let option = bytes(alloc, "-f")?;
    let line = "error: usage: bad path for -f\n";
    misused(&rt, alloc, UsageFault::BadPath { option }, line)?;
    let (first, second) = (bytes(alloc, "--db")?, bytes(alloc, "--no-db")?);
    let line = "error: usage: --db excludes --no-db\n";
    misused(&rt, alloc, UsageFault::Exclusive { first, second }, line)?;
    let line = "error: usage: not built yet\n";
    misused(&rt, alloc, UsageFault::NotBuilt, line)
}

// A manifest is refused with this line.
fn unloaded(rt: &impl Abort, alloc: Global, error: LoadError, line: &str) -> Result<(), Fail> {
    told(rt, alloc, End::Manifest(error), 2, line)
}

#[test]
fn refused_parts_have_their_lines(rt: HostRuntime) -> Result<(), Fail> {
    let alloc = rt.alloc();
    let line = "error: manifest: no client\n";
    unloaded(&rt, alloc, LoadError::NoClient, line)?;
    let (name, version) = (bytes(alloc, "b\tc")?, bytes(alloc, "0")?);
    let line = "error: manifest: wrong client b\\x09c version 0\n";
    unloaded(&rt, alloc, LoadError::WrongClient { name, version }, line)?;
    let name = bytes(alloc, "targts")?;
    let line = "error: manifest: unknown section targts\n";
    unloaded(&rt, alloc, LoadError::UnknownSection { name }, line)?;
    let section = bytes(alloc, "targets")?;
    let line = "error: manifest: section targets is out of order\n";
    unloaded(&rt, alloc, LoadError::SectionOrder { section }, line)
}

#[test]
fn refused_attributes_have_their_lines(rt: HostRuntime) -> Result<(), Fail> {
    let alloc = rt.alloc();
    let (owner, tool) = (bytes(alloc, "p")?, bytes(alloc, "clang")?);
    let line = "error: manifest: unknown tool clang in p\n";
    unloaded(&rt, alloc, LoadError::UnknownTool { owner, tool }, line)?;
    let (owner, name) = (bytes(alloc, "p")?, bytes(alloc, "colour")?);
    let line = "error: manifest: unknown attribute colour in p\n";
    unloaded(
        &rt,
        alloc,
        LoadError::UnknownAttribute { owner, name },
        line,
    )?;
    let (owner, name) = (bytes(alloc, "p")?, bytes(alloc, "args")?);
    let line = "error: manifest: bad attribute args in p\n";
    unloaded(&rt, alloc, LoadError::BadAttribute { owner, name }, line)?;
    let (owner, text) = (bytes(alloc, "all")?, bytes(alloc, "/..")?);
    let line = "error: manifest: bad path /.. in all\n";
    unloaded(&rt, alloc, LoadError::BadPath { owner, text }, line)
}

#[test]
fn passed_limits_have_their_lines(rt: HostRuntime) -> Result<(), Fail> {
    let alloc = rt.alloc();
    for (what, limit, line) in [
        (
            Counted::Targets,
            65_536,
            "error: manifest: more than 65536 targets\n",
        ),
        (
            Counted::Commands,
            262_144,
            "error: manifest: more than 262144 commands\n",
        ),
        (
            Counted::Inputs,
            65_536,
            "error: manifest: more than 65536 inputs\n",
        ),
        (
            Counted::Outputs,
            65_536,
            "error: manifest: more than 65536 outputs\n",
        ),
        (
            Counted::Patterns,
            64,
            "error: manifest: more than 64 patterns\n",
        ),
        (
            Counted::DepsFiles,
            16,
            "error: manifest: more than 16 dependency files\n",
        ),
    ] {
        unloaded(&rt, alloc, LoadError::Limit { what, limit }, line)?;
    }
    Ok(())
}

#[test]
fn broken_rules_have_their_lines(rt: HostRuntime) -> Result<(), Fail> {
    let alloc = rt.alloc();
    let error = LoadError::UnknownDefault {
        name: name(alloc, "al")?,
    };
    unloaded(&rt, alloc, error, "error: manifest: unknown default al\n")?;
    let error = LoadError::TwoMakers {
        node: NodeName::Virtual(name(alloc, "<t>")?),
        first: name(alloc, "p")?,
        second: name(alloc, "q")?,
    };
    unloaded(
        &rt,
        alloc,
        error,
        "error: manifest: <t> is made by p and q\n",
    )?;
    let (command, node) = (name(alloc, "p")?, name(alloc, "out/")?);
    let line = "error: manifest: directory output out/ in p\n";
    unloaded(
        &rt,
        alloc,
        LoadError::DirectoryOutput { command, node },
        line,
    )
}

#[test]
fn other_refusals_have_their_lines(rt: HostRuntime) -> Result<(), Fail> {
    let alloc = rt.alloc();
    let (command, path) = (name(alloc, "p")?, PathName::read(alloc, "a.d")?);
    let line = "error: manifest: dependency file a.d of p is also something else\n";
    unloaded(&rt, alloc, LoadError::DepsClash { command, path }, line)?;
    let asker = name(alloc, "all")?;
    let line = "error: all uses what is not built yet\n";
    told(&rt, alloc, End::NotBuilt { asker }, 2, line)
}

#[test]
fn starts_have_their_lines(rt: HostRuntime) -> Result<(), Fail> {
    let alloc = rt.alloc();
    let start = Start {
        command: name(alloc, "c")?,
        shown: bytes(alloc, "cc\t-o a\u{1b}[0m\x7f")?,
        reason: Reason::NeverBuilt,
    };
    let line = line_of(alloc, 12, &start)?;
    assert_eq!(rt;
        line.as_slice(),
        b"[12] cc\\x09-o a\\x1b[0m\\x7f\n".as_slice()
    );
    let text = summary(alloc, 0)?;
    assert_eq!(rt; text.as_slice(), b"ok: 0 started\n".as_slice());
    let text = summary(alloc, 18_446_744_073_709_551_615)?;
    assert_eq!(rt;
        text.as_slice(),
        b"ok: 18446744073709551615 started\n".as_slice()
    );
    Ok(())
}
