//! What is said of a manifest that is refused.
ghost use Rattle.std.specs.Prelude.{◌≡◌, ◌++◌, OnOk};
ghost use Rattle.build_report.specs.Escape.{show};
ghost use Rattle.build_report.specs.ErrorText.{client_text, counted_text, deps_text, directory_text, feature_text, left_out_text, limit_text, load_text, makers_text, pair_text, text_in, yaml_text};

use crate::shown::{push_at, push_named, push_shown};
use file_info::list::Bytes;
use file_info::name::Name;
use file_info::node::NodeName;
use file_info::path::PathName;
use manifest_reader::error::LoadError;
use manifest_values::refusal::Counted;
use std::alloc::{AllocError, Global};
use yaml_profile::{Feature, YamlError};

// The name of what the profile leaves out.
fn feature_text(feature: Feature) -> &'static [u8]
    ensures { result.now ≡ feature_text feature }
{
    match feature {
        Feature::Anchor => b"anchor",
        Feature::Alias => b"alias",
        Feature::Tag => b"tag",
        Feature::Directive => b"directive",
        Feature::Documents => b"documents",
        Feature::BlockScalar => b"block scalar",
        Feature::ManyLines => b"many lines",
        Feature::ExplicitKey => b"explicit key",
        Feature::Compact => b"compact",
    }
}

// What the profile leaves out, and where.
fn push_left_out(
    alloc: Global,
    out: &mut Vec<u8>,
    feature: Feature,
    at: u64,
) -> Result<(), AllocError>
    ensures { OnOk result (out.new.items ≡ out.old.items ++ left_out_text feature at) }
{
    push_at(alloc, out, b"left out", at)?;
    out.extend_from_slice(b": ")?;
    out.extend_from_slice(feature_text(feature))
}

// Why a text has no tree.
fn push_yaml_error(alloc: Global, out: &mut Vec<u8>, error: &YamlError) -> Result<(), AllocError>
    ensures { OnOk result (out.new.items ≡ out.old.items ++ yaml_text error.now) }
{
    match error {
        YamlError::TooLong => out.extend_from_slice(b"too long"),
        YamlError::NotUtf8 { at } => push_at(alloc, out, b"not UTF-8", *at),
        YamlError::LeftOut { feature, at } => push_left_out(alloc, out, *feature, *at),
        YamlError::Indent { at } => push_at(alloc, out, b"indentation", *at),
        YamlError::TooDeep { at } => push_at(alloc, out, b"too deep", *at),
        YamlError::RepeatedKey { at } => push_at(alloc, out, b"repeated key", *at),
        YamlError::Syntax { at } => push_at(alloc, out, b"syntax", *at),
        YamlError::NoMemory => out.extend_from_slice(b"out of memory"),
    }
}

// Adds what is wrong in an owner.
fn push_in(out: &mut Vec<u8>, what: &[u8], name: &Bytes, owner: &Bytes) -> Result<(), AllocError>
    ensures { OnOk result (out.new.items ≡ out.old.items ++ text_in what.now name.now owner.now) }
{
    push_named(out, what, name.as_slice(), b" in ")?;
    push_shown(out, owner.as_slice())
}

// Adds the name of what a limit counts.
fn counted_text(what: Counted) -> &'static [u8]
    ensures { result.now ≡ counted_text what }
{
    match what {
        Counted::Targets => b"targets",
        Counted::Commands => b"commands",
        Counted::Inputs => b"inputs",
        Counted::Outputs => b"outputs",
        Counted::Patterns => b"patterns",
        Counted::DepsFiles => b"dependency files",
    }
}

// Adds which limit is passed.
fn push_limit(alloc: Global, out: &mut Vec<u8>, what: Counted, limit: u64) -> Result<(), AllocError>
    ensures { OnOk result (out.new.items ≡ out.old.items ++ limit_text what limit) }
{
    out.extend_from_slice(b"more than ")?;
    out.extend_from_slice(format!(in alloc; "{limit} ")?.as_bytes())?;
    out.extend_from_slice(counted_text(what))
}

// Adds which client a manifest names.
fn push_client(out: &mut Vec<u8>, name: &Bytes, version: &Bytes) -> Result<(), AllocError>
    ensures { OnOk result (out.new.items ≡ out.old.items ++ client_text name.now version.now) }
{
    push_named(out, b"wrong client ", name.as_slice(), b" version ")?;
    push_shown(out, version.as_slice())
}

// Adds two commands.
#[tactic(auto, unfolding(crate::specs::ErrorText::pair_text))]
fn push_pair(out: &mut Vec<u8>, first: &Name, second: &Name) -> Result<(), AllocError>
    ensures { OnOk result (out.new.items ≡ out.old.items ++ pair_text first.now second.now) }
{
    push_shown(out, first.text().as_bytes())?;
    out.extend_from_slice(b" and ")?;
    push_shown(out, second.text().as_bytes())
}

// Adds which commands make a node.
fn push_makers(
    out: &mut Vec<u8>,
    node: &NodeName,
    first: &Name,
    second: &Name,
) -> Result<(), AllocError>
    ensures { OnOk result (out.new.items ≡ out.old.items ++ makers_text node.now first.now second.now) }
{
    push_shown(out, node.text().as_bytes())?;
    out.extend_from_slice(b" is made by ")?;
    push_pair(out, first, second)
}

// Adds which output is a directory.
fn push_directory(out: &mut Vec<u8>, command: &Name, node: &Name) -> Result<(), AllocError>
    ensures { OnOk result (out.new.items ≡ out.old.items ++ directory_text command.now node.now) }
{
    push_named(out, b"directory output ", node.text().as_bytes(), b" in ")?;
    push_shown(out, command.text().as_bytes())
}

// Adds a text, two texts that are shown, and what stands after each.
fn push_both(
    out: &mut Vec<u8>,
    before: &[u8],
    first: &[u8],
    between: &[u8],
    second: &[u8],
    after: &[u8],
) -> Result<(), AllocError>
    ensures { OnOk result (out.new.items ≡ out.old.items ++ (before.now ++ show first.now ++ between.now ++ show second.now ++ after.now)) }
{
    push_named(out, before, first, between)?;
    push_shown(out, second)?;
    out.extend_from_slice(after)
}

// Adds which dependency file is something else too.
fn push_deps(out: &mut Vec<u8>, command: &Name, path: &PathName) -> Result<(), AllocError>
    ensures { OnOk result (out.new.items ≡ out.old.items ++ deps_text command.now path.now) }
{
    let (path, name) = (path.text().as_bytes(), command.text().as_bytes());
    push_both(
        out,
        b"dependency file ",
        path,
        b" of ",
        name,
        b" is also something else",
    )
}

/// Adds why a manifest is not loaded.
pub fn push_load_error(
    alloc: Global,
    out: &mut Vec<u8>,
    error: &LoadError,
) -> Result<(), AllocError>
    ensures { OnOk result (out.new.items ≡ out.old.items ++ load_text error.now) }
{
    match error {
        LoadError::Yaml(error) => push_yaml_error(alloc, out, error),
        LoadError::NoClient => out.extend_from_slice(b"no client"),
        LoadError::WrongClient { name, version } => push_client(out, name, version),
        LoadError::UnknownSection { name } => push_named(
            out,
            b"unknown section ",
            name.as_slice(),
            b"",
        ),
        LoadError::SectionOrder { section } => {
            push_named(out, b"section ", section.as_slice(), b" is out of order")
        }
        LoadError::UnknownTool { owner, tool } => push_in(out, b"unknown tool ", tool, owner),
        LoadError::UnknownAttribute { owner, name } => push_in(
            out,
            b"unknown attribute ",
            name,
            owner,
        ),
        LoadError::BadAttribute { owner, name } => push_in(out, b"bad attribute ", name, owner),
        LoadError::BadPath { owner, text } => push_in(out, b"bad path ", text, owner),
        LoadError::Limit { what, limit } => push_limit(alloc, out, *what, *limit),
        LoadError::UnknownDefault { name } => {
            push_named(out, b"unknown default ", name.text().as_bytes(), b"")
        }
        LoadError::TwoMakers {
            node,
            first,
            second,
        } => push_makers(out, node, first, second),
        LoadError::DirectoryOutput { command, node } => push_directory(out, command, node),
        LoadError::DepsClash { command, path } => push_deps(out, command, path),
        LoadError::NoMemory => out.extend_from_slice(b"out of memory"),
    }
}
