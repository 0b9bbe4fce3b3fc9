//! The commands of a manifest, each read alone.
ghost use Rattle.std.specs.Prelude.{◌≡◌, ℕ, codes};
ghost use Rattle.std.specs.Option.{option_copied};
ghost use Rattle.manifest_values.specs.Refusal.{Gives, Makes};
ghost use Rattle.manifest_values.specs.Shapes.{value_named, text_of as text_among, ◌then◌};
ghost use Rattle.manifest_reader.specs.Commands as spec;

use crate::attributes::{attribute_of, tool_named};
use crate::put::put;
use build_manifest::command::{Args, Command, Tool};
use build_manifest::draft::Draft;
use file_info::list::List;
use file_info::name::Name;
use file_info::node::NodeName;
use manifest_values::known::Known;
use manifest_values::parts::{Step, fold, shaped};
use manifest_values::refusal::{Stop, bad_attribute, unknown_attribute, unknown_tool};
use manifest_values::shapes::{pairs_of, scalar_text, value_named};
use manifest_values::texts::name_of;
use std::alloc::Global;
use yaml_profile::Pair;

// Changes the draft by the attribute of a pair.
#[tactic(auto, unfolding(crate::specs::Commands::taken))]
fn take(alloc: Global, known: &Known, draft: &mut Draft, pair: Pair) -> Result<(), Stop>
    ensures { Makes draft.new result (spec.taken known.now draft.old pair) }
{
    let Pair { name, value } = pair;
    match attribute_of(draft.command.tool, name.as_slice()) {
        Some(attribute) => put(alloc, known, draft, attribute, value),
        None => {
            let owner = draft.command.name.text().as_bytes();
            Err(unknown_attribute(alloc, owner, name.as_slice()))
        }
    }
}

// Takes the attributes of a command.
#[derive(Clone, Copy)]
struct TakeAttribute<'a> {
    known: &'a Known,
}

impl Step for TakeAttribute<'_> {
    ghost use Rattle.manifest_reader.specs.Commands.{taken};

    type Item = Pair;

    type State = Draft;

    ghost makes = { λ s draft pair. taken s.known.now draft pair };

    fn take(&self, alloc: Global, draft: &mut Draft, pair: Pair) -> Result<(), Stop> {
        take(alloc, self.known, draft, pair)
    }
}

// The draft of a command of which nothing but the name and the tool is said.
fn bare_draft(alloc: Global, name: Name, tool: Tool) -> Draft
    ensures { result ≡ spec.bare_draft name tool }
{
    Draft {
        command: Command::bare(alloc, name, tool),
        directory: None,
    }
}

// The attribute that the command lacks though its tool requires it.
fn missing(command: &Command) -> Option<&'static [u8]>
    ensures { option_copied result ≡ spec.missing command.now command.now.tool }
{
    match command.tool {
        Tool::Shell => match command.args {
            Args::Absent => Some(b"args"),
            Args::Words(_) | Args::Line(_) => None,
        },
        Tool::Symlink if command.contents.is_empty() => Some(b"contents"),
        _ => None,
    }
}

// Whether the tool makes exactly one file.
fn makes_one_file(tool: Tool) -> bool
    ensures { result ≡ spec.makes_one_file tool }
{
    match tool {
        Tool::Mkdir | Tool::Symlink | Tool::Archive => true,
        Tool::Phony | Tool::Shell | Tool::StaleFileRemoval => false,
    }
}

// Whether exactly one of the nodes is a file.
fn has_one_file(nodes: &[NodeName]) -> bool
    ensures { result ≡ spec.has_one_file nodes.now }
{
    let mut found = false;
    for node in nodes {
        if let NodeName::Path(_) = node {
            if found {
                return false;
            }
            found = true;
        }
    }
    found
}

// The draft, where nothing that its tool requires is missing.
#[tactic(auto, unfolding(crate::specs::Commands::finished))]
fn finished(alloc: Global, draft: Draft) -> Result<Draft, Stop>
    ensures { Gives (λ x. x) result (spec.finished draft) }
{
    let owner = draft.command.name.text().as_bytes();
    if let Some(name) = missing(&draft.command) {
        return Err(bad_attribute(alloc, owner, name));
    }
    if makes_one_file(draft.command.tool) && !has_one_file(draft.command.outputs.as_slice()) {
        return Err(bad_attribute(alloc, owner, b"outputs"));
    }
    Ok(draft)
}

// The text of `tool`.
fn tool_text(pairs: &List<Pair>) -> Option<&[u8]>
    ensures { option_copied result ≡ value_named (codes "tool") pairs.now then text_among }
{
    match value_named(pairs, b"tool") {
        Some(tree) => scalar_text(tree),
        None => None,
    }
}

// The tool of the command of this name with these attributes.
#[tactic(auto, unfolding(crate::specs::Commands::tool_of))]
fn tool_of(alloc: Global, name: &[u8], pairs: &List<Pair>) -> Result<Tool, Stop>
    ensures { Gives (λ x. x) result (spec.tool_of name.now pairs.now) }
{
    let Some(text) = tool_text(pairs) else {
        return Err(bad_attribute(alloc, name, b"tool"));
    };
    match tool_named(text) {
        Some(tool) => Ok(tool),
        None => Err(unknown_tool(alloc, name, text)),
    }
}

// The draft of the command of this name and this tool with these attributes.
fn draft_with(
    alloc: Global,
    known: &Known,
    name: Name,
    tool: Tool,
    pairs: List<Pair>,
) -> Result<Draft, Stop>
    ensures { Gives (λ x. x) result (spec.draft_with known.now name tool pairs) }
{
    let bare = bare_draft(alloc, name, tool);
    let draft = fold(alloc, &TakeAttribute { known }, bare, pairs)?;
    finished(alloc, draft)
}

/// The command of a pair: its name and the mapping of its attributes.
#[tactic(auto, unfolding(crate::specs::Commands::draft_of))]
pub fn draft_of(alloc: Global, known: &Known, pair: Pair) -> Result<Draft, Stop>
    ensures { Gives (λ x. x) result (spec.draft_of known.now pair) }
{
    let Pair { name, value } = pair;
    let name = name_of(alloc, b"commands", name)?;
    let pairs = shaped(alloc, b"commands", name.text().as_bytes(), pairs_of(value))?;
    let tool = tool_of(alloc, name.text().as_bytes(), &pairs)?;
    draft_with(alloc, known, name, tool, pairs)
}
