//! The dependency files that are nodes.
ghost use Rattle.std.specs.Prelude.{◌≡◌, ℕ, List as Items, ◌||◌, ◌&&◌, bytes_eq, OnOk, IfOk};
ghost use Rattle.std.specs.List.{list_any};
ghost use Rattle.build_manifest.specs.Has.{has};
ghost use Rattle.build_manifest.specs.Places.{all_deps, command_uses, is_path, is_used, reads_path};
ghost use Rattle.build_manifest.specs.Rules.{commands_of};

use crate::command::{Command, Input, TargetEntry};
use crate::draft::Draft;
use crate::places::{Places, note};
use file_info::list::List;
use file_info::memory::NoMemory;
use file_info::node::NodeName;
use file_info::path::PathName;
use indexmap::IndexMap;
use std::alloc::Global;

// Notes these paths.
fn want(
    alloc: Global,
    wanted: &mut Places,
    paths: &List<PathName>,
    place: usize,
) -> Result<(), NoMemory>
    ensures { OnOk result ((q : Items ℕ) → has wanted.new q ≡ (has wanted.old q || list_any (bytes_eq q) paths.now)) }
{
    for path in paths.as_slice() {
        note(alloc, wanted, path.text(), place)?;
    }
    Ok(())
}

/// The dependency files of all commands.
pub fn wanted_of(alloc: Global, drafts: &List<Draft>) -> Result<Places, NoMemory>
    ensures { IfOk result (λ wanted. (q : Items ℕ) → has wanted q ≡ list_any (bytes_eq q) (all_deps (commands_of drafts.now))) }
{
    let mut wanted = IndexMap::new(alloc);
    for (place, draft) in drafts.as_slice().iter().enumerate() {
        want(alloc, &mut wanted, &draft.command.deps, place)?;
    }
    Ok(wanted)
}

// Notes the path where it is wanted.
fn hit_path(
    alloc: Global,
    wanted: &Places,
    hits: &mut Places,
    path: &PathName,
) -> Result<(), NoMemory>
    ensures { OnOk result ((q : Items ℕ) → has hits.new q ≡ (has hits.old q || (has wanted.now q && bytes_eq q path.now))) }
{
    if let Some(place) = wanted.get(path.text()) {
        note(alloc, hits, path.text(), *place)?;
    }
    Ok(())
}

// Notes the path of the node where it is wanted.
fn hit_node(
    alloc: Global,
    wanted: &Places,
    hits: &mut Places,
    node: &NodeName,
) -> Result<(), NoMemory>
    ensures { OnOk result ((q : Items ℕ) → has hits.new q ≡ (has hits.old q || (has wanted.now q && is_path q node.now))) }
{
    match node {
        NodeName::Path(path) => hit_path(alloc, wanted, hits, path),
        NodeName::Virtual(_) => Ok(()),
    }
}

// Notes those paths of the inputs that are wanted.
fn hit_inputs(
    alloc: Global,
    wanted: &Places,
    hits: &mut Places,
    inputs: &List<Input>,
) -> Result<(), NoMemory>
    ensures { OnOk result ((q : Items ℕ) → has hits.new q ≡ (has hits.old q || (has wanted.now q && reads_path q inputs.now))) }
{
    for input in inputs.as_slice() {
        hit_node(alloc, wanted, hits, &input.node)?;
    }
    Ok(())
}

// Notes those paths of the nodes that are wanted.
fn hit_nodes(
    alloc: Global,
    wanted: &Places,
    hits: &mut Places,
    nodes: &List<NodeName>,
) -> Result<(), NoMemory>
    ensures { OnOk result ((q : Items ℕ) → has hits.new q ≡ (has hits.old q || (has wanted.now q && list_any (is_path q) nodes.now))) }
{
    for node in nodes.as_slice() {
        hit_node(alloc, wanted, hits, node)?;
    }
    Ok(())
}

// Notes those paths of a command's nodes that are wanted.
fn hit_command(
    alloc: Global,
    wanted: &Places,
    hits: &mut Places,
    command: &Command,
) -> Result<(), NoMemory>
    ensures { OnOk result ((q : Items ℕ) → has hits.new q ≡ (has hits.old q || (has wanted.now q && command_uses q command.now))) }
{
    hit_inputs(alloc, wanted, hits, &command.inputs)?;
    hit_inputs(alloc, wanted, hits, &command.follow)?;
    hit_nodes(alloc, wanted, hits, &command.outputs)
}

// Notes those paths of the commands' nodes that are wanted.
fn hit_commands(
    alloc: Global,
    wanted: &Places,
    hits: &mut Places,
    drafts: &List<Draft>,
) -> Result<(), NoMemory>
    ensures { OnOk result ((q : Items ℕ) → has hits.new q ≡ (has hits.old q || (has wanted.now q && list_any (command_uses q) (commands_of drafts.now)))) }
{
    for draft in drafts.as_slice() {
        hit_command(alloc, wanted, hits, &draft.command)?;
    }
    Ok(())
}

// Notes those paths of the targets' nodes that are wanted.
fn hit_targets(
    alloc: Global,
    wanted: &Places,
    hits: &mut Places,
    targets: &List<TargetEntry>,
) -> Result<(), NoMemory>
    ensures { OnOk result ((q : Items ℕ) → has hits.new q
        ≡ (has hits.old q || (has wanted.now q && list_any (λ (t : TargetEntry). reads_path q t.nodes) targets.now))) }
{
    for target in targets.as_slice() {
        hit_inputs(alloc, wanted, hits, &target.nodes)?;
    }
    Ok(())
}

/// Those of the wanted paths that are nodes of these targets and commands. Where none is wanted, no node is looked at.
pub fn hits_of(
    alloc: Global,
    wanted: &Places,
    targets: &List<TargetEntry>,
    drafts: &List<Draft>,
) -> Result<Places, NoMemory>
    ensures { IfOk result (λ hits. (q : Items ℕ) → has hits q ≡ (has wanted.now q && is_used targets.now (commands_of drafts.now) q)) }
{
    let mut hits = IndexMap::new(alloc);
    if wanted.is_empty() {
        return Ok(hits);
    }
    hit_targets(alloc, wanted, &mut hits, targets)?;
    hit_commands(alloc, wanted, &mut hits, drafts)?;
    Ok(hits)
}
