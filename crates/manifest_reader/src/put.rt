//! The attributes of a command, put one by one.
ghost use Rattle.manifest_values.specs.Refusal.{Makes};
ghost use Rattle.manifest_reader.specs.Commands as spec;

use crate::attributes::Attribute;
use crate::inputs::{deps_of, follow_of, inputs_of, outputs_of, paths_of};
use crate::outputs::set_outputs;
use build_manifest::draft::Draft;
use manifest_values::known::Known;
use manifest_values::parts::shaped;
use manifest_values::refusal::Stop;
use manifest_values::shapes::{flag_of, text_of};
use manifest_values::values::{exactly, link_of, program_of, variables_of};
use std::alloc::Global;
use yaml_profile::Yaml;

// Puts the inputs.
fn put_inputs(alloc: Global, known: &Known, draft: &mut Draft, tree: Yaml) -> Result<(), Stop>
    ensures { Makes draft.new result (spec.put_inputs known.now draft.old tree) }
{
    let inputs = inputs_of(alloc, known, &draft.command, tree)?;
    draft.command.inputs = inputs;
    Ok(())
}

// Puts the must-follow nodes.
fn put_follow(alloc: Global, known: &Known, draft: &mut Draft, tree: Yaml) -> Result<(), Stop>
    ensures { Makes draft.new result (spec.put_follow known.now draft.old tree) }
{
    let follow = follow_of(alloc, known, &draft.command, tree)?;
    draft.command.follow = follow;
    Ok(())
}

// Puts the outputs.
fn put_outputs(alloc: Global, known: &Known, draft: &mut Draft, tree: Yaml) -> Result<(), Stop>
    ensures { Makes draft.new result (spec.put_outputs known.now draft.old tree) }
{
    let outputs = outputs_of(alloc, known, &draft.command, tree)?;
    set_outputs(alloc, draft, outputs)
}

// Puts the description.
fn put_description(alloc: Global, draft: &mut Draft, tree: Yaml) -> Result<(), Stop>
    ensures { Makes draft.new result (spec.put_description draft.old tree) }
{
    let owner = draft.command.name.text().as_bytes();
    let text = shaped(alloc, owner, b"description", text_of(tree))?;
    draft.command.description = Some(text);
    Ok(())
}

// Puts the signature.
fn put_signature(alloc: Global, draft: &mut Draft, tree: Yaml) -> Result<(), Stop>
    ensures { Makes draft.new result (spec.put_signature draft.old tree) }
{
    let owner = draft.command.name.text().as_bytes();
    let text = shaped(alloc, owner, b"signature", text_of(tree))?;
    draft.command.signature = Some(text);
    Ok(())
}

// Puts whether inputs may be missing.
fn put_allow_missing(alloc: Global, draft: &mut Draft, tree: Yaml) -> Result<(), Stop>
    ensures { Makes draft.new result (spec.put_allow_missing draft.old tree) }
{
    let owner = draft.command.name.text().as_bytes();
    let flag = shaped(alloc, owner, b"allow-missing-inputs", flag_of(tree))?;
    draft.command.allow_missing = flag;
    Ok(())
}

// Puts whether each build runs the command.
fn put_always(alloc: Global, draft: &mut Draft, tree: Yaml) -> Result<(), Stop>
    ensures { Makes draft.new result (spec.put_always draft.old tree) }
{
    let owner = draft.command.name.text().as_bytes();
    let flag = shaped(alloc, owner, b"always-out-of-date", flag_of(tree))?;
    draft.command.always = flag;
    Ok(())
}

// Puts whether the command sees the environment of the build.
fn put_inherit_env(alloc: Global, draft: &mut Draft, tree: Yaml) -> Result<(), Stop>
    ensures { Makes draft.new result (spec.put_inherit_env draft.old tree) }
{
    let owner = draft.command.name.text().as_bytes();
    let flag = shaped(alloc, owner, b"inherit-env", flag_of(tree))?;
    draft.command.inherit_env = flag;
    Ok(())
}

// Puts the program.
fn put_args(alloc: Global, draft: &mut Draft, tree: Yaml) -> Result<(), Stop>
    ensures { Makes draft.new result (spec.put_args draft.old tree) }
{
    let owner = draft.command.name.text().as_bytes();
    let args = shaped(alloc, owner, b"args", program_of(alloc, tree)?)?;
    draft.command.args = args;
    Ok(())
}

// Puts the variables.
fn put_env(alloc: Global, draft: &mut Draft, tree: Yaml) -> Result<(), Stop>
    ensures { Makes draft.new result (spec.put_env draft.old tree) }
{
    let owner = draft.command.name.text().as_bytes();
    let variables = shaped(alloc, owner, b"env", variables_of(alloc, tree)?)?;
    draft.command.env = variables;
    Ok(())
}

// Puts the text of the link.
fn put_contents(alloc: Global, draft: &mut Draft, tree: Yaml) -> Result<(), Stop>
    ensures { Makes draft.new result (spec.put_contents draft.old tree) }
{
    let owner = draft.command.name.text().as_bytes();
    let text = shaped(alloc, owner, b"contents", link_of(tree))?;
    draft.command.contents = text;
    Ok(())
}

// Puts the dependency files.
fn put_deps(alloc: Global, draft: &mut Draft, tree: Yaml) -> Result<(), Stop>
    ensures { Makes draft.new result (spec.put_deps draft.old tree) }
{
    let deps = deps_of(alloc, &draft.command, tree)?;
    draft.command.deps = deps;
    Ok(())
}

// Sees that the style of the dependency files is the only one that there is.
fn put_deps_style(alloc: Global, draft: &mut Draft, tree: Yaml) -> Result<(), Stop>
    ensures { Makes draft.new result (spec.put_deps_style draft.old tree) }
{
    let owner = draft.command.name.text().as_bytes();
    shaped(alloc, owner, b"deps-style", exactly(b"makefile", tree))?;
    Ok(())
}

// Puts the paths that stay.
fn put_expected(alloc: Global, draft: &mut Draft, tree: Yaml) -> Result<(), Stop>
    ensures { Makes draft.new result (spec.put_expected draft.old tree) }
{
    let paths = paths_of(alloc, b"expectedOutputs", &draft.command, tree)?;
    draft.command.expected = paths;
    Ok(())
}

// Puts the places of a removal.
fn put_roots(alloc: Global, draft: &mut Draft, tree: Yaml) -> Result<(), Stop>
    ensures { Makes draft.new result (spec.put_roots draft.old tree) }
{
    let paths = paths_of(alloc, b"roots", &draft.command, tree)?;
    draft.command.roots = paths;
    Ok(())
}

/// Puts an attribute. Its texts are moved.
pub fn put(
    alloc: Global,
    known: &Known,
    draft: &mut Draft,
    attribute: Attribute,
    tree: Yaml,
) -> Result<(), Stop>
    ensures { Makes draft.new result (spec.put known.now draft.old attribute tree) }
{
    match attribute {
        Attribute::Tool => Ok(()),
        Attribute::Inputs => put_inputs(alloc, known, draft, tree),
        Attribute::Outputs => put_outputs(alloc, known, draft, tree),
        Attribute::Description => put_description(alloc, draft, tree),
        Attribute::MustFollow => put_follow(alloc, known, draft, tree),
        Attribute::AllowMissingInputs => put_allow_missing(alloc, draft, tree),
        Attribute::AlwaysOutOfDate => put_always(alloc, draft, tree),
        Attribute::Args => put_args(alloc, draft, tree),
        Attribute::Env => put_env(alloc, draft, tree),
        Attribute::Deps => put_deps(alloc, draft, tree),
        Attribute::DepsStyle => put_deps_style(alloc, draft, tree),
        Attribute::InheritEnv => put_inherit_env(alloc, draft, tree),
        Attribute::Signature => put_signature(alloc, draft, tree),
        Attribute::Contents => put_contents(alloc, draft, tree),
        Attribute::ExpectedOutputs => put_expected(alloc, draft, tree),
        Attribute::Roots => put_roots(alloc, draft, tree),
    }
}
