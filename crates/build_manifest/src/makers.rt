//! The makers of nodes, and the rules over outputs.
ghost use Rattle.std.specs.Prelude.{◌≡◌, ℕ, None, Some, cond, [], take, slice_get, OnOk, IfOk};
ghost use Rattle.std.specs.List.{list_any};
ghost use Rattle.std.specs.Option.{option_or};
ghost use Rattle.file_info.specs.declared.node.NodeName.{NodeName as Node};
ghost use Rattle.build_manifest.specs.declared.fault.RuleFault.TheVariants as faults;
ghost use Rattle.build_manifest.specs.Judged.{Judges};
ghost use Rattle.build_manifest.specs.Makers.{noted_maker};
ghost use Rattle.build_manifest.specs.Places.{is_node, makes, maker_of};
ghost use Rattle.build_manifest.specs.Rules.{commands_of, draft_fault, makers_fault, outputs_fault};

use crate::draft::{DirectoryOutput, Draft};
use crate::fault::RuleFault;
use crate::places::{Places, note};
use file_info::copied::Copied;
use file_info::list::List;
use file_info::memory::NoMemory;
use file_info::name::Name;
use file_info::node::NodeName;
use indexmap::IndexMap;
use std::alloc::Global;

/// The place of the command that makes a node, by the text of its path or of its virtual name.
#[derive(Drop)]
pub struct Makers {
    pub paths: Places,
    pub virtuals: Places,
}

// The fault of a node that one command makes and then another one.
fn two_makers(
    alloc: Global,
    node: &NodeName,
    first: &Name,
    second: &Name,
) -> Result<RuleFault, NoMemory>
    ensures { IfOk result (λ fault. fault ≡ faults.TwoMakers node.now first.now second.now) }
{
    Ok(RuleFault::TwoMakers {
        node: node.copy(alloc)?,
        first: first.copy(alloc)?,
        second: second.copy(alloc)?,
    })
}

// The fault of an output that is a directory.
fn directory_output(
    alloc: Global,
    name: &Name,
    directory: &DirectoryOutput,
) -> Result<RuleFault, NoMemory>
    ensures { IfOk result (λ fault. fault ≡ faults.DirectoryOutput name.now directory.now.written) }
{
    Ok(RuleFault::DirectoryOutput {
        command: name.copy(alloc)?,
        node: directory.written.copy(alloc)?,
    })
}

// The first nodes, as many as these, or all where there are fewer.
fn first_nodes(nodes: &[NodeName], count: usize) -> &[NodeName]
    ensures { result.now ≡ take count nodes.now }
{
    if count < nodes.len() {
        &nodes[..count]
    } else {
        nodes
    }
}

impl Makers {
    /// The place of the command that makes the node.
    pub fn place_of(&self, node: &NodeName) -> Option<usize>
        ensures { result ≡ noted_maker self.now node.now }
    {
        match node {
            NodeName::Path(path) => self.paths.get(path.text()).copied(),
            NodeName::Virtual(name) => self.virtuals.get(name.text()).copied(),
        }
    }

    // Notes the maker of a node instead of the one that it had, and answers that.
    fn add(
        &mut self,
        alloc: Global,
        node: &NodeName,
        place: usize,
    ) -> Result<Option<usize>, NoMemory>
        ensures found { IfOk result (λ found. found ≡ noted_maker self.old node.now) }
        ensures noted { OnOk result ((n : Node) → noted_maker self.new n ≡ cond (is_node n node.now) (Some place) (noted_maker self.old n)) }
    {
        match node {
            NodeName::Path(path) => note(alloc, &mut self.paths, path.text(), place),
            NodeName::Virtual(name) => note(alloc, &mut self.virtuals, name.text(), place),
        }
    }

    // Notes the maker of each of these nodes, which are outputs of the command at a place, where those before it are noted.
    // The first node that has a maker is a fault.
    fn add_outputs(
        &mut self,
        alloc: Global,
        drafts: &[Draft],
        place: usize,
        draft: &Draft,
        nodes: &[NodeName],
    ) -> Result<(), RuleFault>
        requires at { slice_get drafts.now place ≡ Some draft.now }
        requires before { (n : Node) → noted_maker self.old n ≡ maker_of (commands_of (take place drafts.now)) n }
        ensures judged { Judges result (makers_fault (commands_of (take place drafts.now)) draft.now.command.name [] nodes.now) }
        ensures noted { OnOk result ((n : Node) → noted_maker self.new n
            ≡ option_or (noted_maker self.old n) (cond (list_any (is_node n) nodes.now) (Some place) None)) }
    {
        for node in nodes {
            if let Some(maker) = self.add(alloc, node, place)? {
                let first = &drafts[maker].command.name;
                return Err(two_makers(alloc, node, first, &draft.command.name)?);
            }
        }
        Ok(())
    }

    // Notes the maker of each output of the command at a place, where those before it are noted. The first output that is a
    // directory or has a maker is a fault.
    fn add_draft(
        &mut self,
        alloc: Global,
        drafts: &[Draft],
        place: usize,
        draft: &Draft,
    ) -> Result<(), RuleFault>
        requires at { slice_get drafts.now place ≡ Some draft.now }
        requires before { (n : Node) → noted_maker self.old n ≡ maker_of (commands_of (take place drafts.now)) n }
        ensures judged { Judges result (draft_fault (commands_of (take place drafts.now)) draft.now) }
        ensures noted { OnOk result ((n : Node) → noted_maker self.new n
            ≡ option_or (noted_maker self.old n) (cond (makes n draft.now.command) (Some place) None)) }
    {
        let outputs = draft.command.outputs.as_slice();
        match &draft.directory {
            None => self.add_outputs(alloc, drafts, place, draft, outputs),
            Some(directory) => {
                let before = first_nodes(outputs, directory.place);
                self.add_outputs(alloc, drafts, place, draft, before)?;
                Err(directory_output(alloc, &draft.command.name, directory)?)
            }
        }
    }
}

/// The makers of all outputs, or the first output that is a directory or is made before.
pub fn makers_of(alloc: Global, drafts: &List<Draft>) -> Result<Makers, RuleFault>
    ensures judged { Judges result (outputs_fault [] drafts.now) }
    ensures noted { IfOk result (λ makers. (n : Node) → noted_maker makers n ≡ maker_of (commands_of drafts.now) n) }
{
    let mut makers = Makers {
        paths: IndexMap::new(alloc),
        virtuals: IndexMap::new(alloc),
    };
    let drafts = drafts.as_slice();
    for (place, draft) in drafts.iter().enumerate() {
        makers.add_draft(alloc, drafts, place, draft)?;
    }
    Ok(makers)
}
