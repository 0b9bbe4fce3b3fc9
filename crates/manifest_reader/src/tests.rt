//! Manifests that load, and those that are refused.
mod attributes;
mod limits;
mod loaded;
mod refusals;

use crate::error::LoadError;
use crate::load::load;
use build_manifest::manifest::Manifest;
use manifest_values::refusal::Counted;
use std::alloc::Global;
use std::process::Abort;
use std::test::Fail;
use yaml_profile::{Feature, YamlError};

// The texts, one after the other.
fn joined(alloc: Global, parts: &[&[u8]]) -> Result<Vec<u8>, Fail> {
    let mut out = Vec::new(alloc);
    for part in parts {
        out.extend_from_slice(part)?;
    }
    Ok(out)
}

// A number in decimal, after a text.
fn at(alloc: Global, text: &str, place: u64) -> Result<Vec<u8>, Fail> {
    Ok(format!(in alloc; "{text} {place}")?.into_bytes())
}

// The refusal of a text of the profile; of the features only the anchor is told apart.
fn yaml_said(alloc: Global, error: &YamlError) -> Result<Vec<u8>, Fail> {
    match error {
        YamlError::TooLong => joined(alloc, &[b"too long"]),
        YamlError::NotUtf8 { at: place } => at(alloc, "not UTF-8", *place),
        YamlError::LeftOut {
            feature: Feature::Anchor,
            at: place,
        } => at(alloc, "anchor", *place),
        YamlError::LeftOut {
            feature: _,
            at: place,
        } => at(alloc, "left out", *place),
        YamlError::Indent { at: place } => at(alloc, "indent", *place),
        YamlError::TooDeep { at: place } => at(alloc, "too deep", *place),
        YamlError::RepeatedKey { at: place } => at(alloc, "repeated", *place),
        YamlError::Syntax { at: place } => at(alloc, "syntax", *place),
        YamlError::NoMemory => joined(alloc, &[b"no memory"]),
    }
}

fn counted_said(what: Counted) -> &'static str {
    match what {
        Counted::Targets => "targets",
        Counted::Commands => "commands",
        Counted::Inputs => "inputs",
        Counted::Outputs => "outputs",
        Counted::Patterns => "patterns",
        Counted::DepsFiles => "deps",
    }
}

// A rule over the whole that is broken.
fn rule_said(alloc: Global, error: &LoadError) -> Result<Vec<u8>, Fail> {
    match error {
        LoadError::UnknownDefault { name } => joined(alloc, &[b"default ", name.text().as_bytes()]),
        LoadError::TwoMakers {
            node,
            first,
            second,
        } => {
            let (first, second) = (first.text().as_bytes(), second.text().as_bytes());
            joined(
                alloc,
                &[
                    b"makers ",
                    node.text().as_bytes(),
                    b" ",
                    first,
                    b" ",
                    second,
                ],
            )
        }
        LoadError::DirectoryOutput { command, node } => {
            joined(
                alloc,
                &[
                    b"directory ",
                    command.text().as_bytes(),
                    b" ",
                    node.text().as_bytes(),
                ],
            )
        }
        LoadError::DepsClash { command, path } => {
            joined(
                alloc,
                &[
                    b"clash ",
                    command.text().as_bytes(),
                    b" ",
                    path.text().as_bytes(),
                ],
            )
        }
        _ => joined(alloc, &[b"no memory"]),
    }
}

// An error in a few words, with all that it names.
fn said(alloc: Global, error: &LoadError) -> Result<Vec<u8>, Fail> {
    match error {
        LoadError::Yaml(error) => yaml_said(alloc, error),
        LoadError::NoClient => joined(alloc, &[b"no client"]),
        LoadError::WrongClient { name, version } => {
            joined(
                alloc,
                &[b"client ", name.as_slice(), b" ", version.as_slice()],
            )
        }
        LoadError::UnknownSection { name } => joined(alloc, &[b"section ", name.as_slice()]),
        LoadError::SectionOrder { section } => joined(alloc, &[b"order ", section.as_slice()]),
        LoadError::UnknownTool { owner, tool } => {
            joined(alloc, &[b"tool ", owner.as_slice(), b" ", tool.as_slice()])
        }
        LoadError::UnknownAttribute { owner, name } => {
            joined(
                alloc,
                &[b"unknown ", owner.as_slice(), b" ", name.as_slice()],
            )
        }
        LoadError::BadAttribute { owner, name } => {
            joined(alloc, &[b"bad ", owner.as_slice(), b" ", name.as_slice()])
        }
        LoadError::BadPath { owner, text } => {
            joined(alloc, &[b"path ", owner.as_slice(), b" ", text.as_slice()])
        }
        LoadError::Limit { what, limit } => at(alloc, counted_said(*what), *limit),
        rule => rule_said(alloc, rule),
    }
}

// What loading the text answers, in a few words.
fn answer(alloc: Global, text: &[u8]) -> Result<Vec<u8>, Fail> {
    match load(alloc, text) {
        Ok(_) => joined(alloc, &[b"ok"]),
        Err(error) => said(alloc, &error),
    }
}

// Loading the text answers this.
fn answers(rt: &impl Abort, alloc: Global, text: &[u8], expected: &str) -> Result<(), Fail> {
    let found = answer(alloc, text)?;
    assert_eq!(rt; found.as_slice(), expected.as_bytes());
    Ok(())
}

// Loading these sections after the client answers this.
fn with_client(rt: &impl Abort, alloc: Global, sections: &str, expected: &str) -> Result<(), Fail> {
    let text = joined(alloc, &[b"client: {name: basic}\n", sections.as_bytes()])?;
    answers(rt, alloc, text.as_slice(), expected)
}
