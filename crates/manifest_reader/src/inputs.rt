//! Lists of nodes and of paths of a command.
ghost use Rattle.std.specs.Prelude.{◌≡◌};
ghost use Rattle.manifest_values.specs.declared.refusal.Refusal.TheVariants.{Limit};
ghost use Rattle.manifest_values.specs.Refusal.{Gives};
ghost use Rattle.manifest_reader.specs.Commands as spec;

use build_manifest::command::{Command, DEPS_MAX, Input, NODES_MAX, Tool};
use file_info::list::{Bytes, List};
use file_info::path::PathName;
use manifest_values::known::Known;
use manifest_values::nodes::{input_of, path_of};
use manifest_values::parts::{ReadPart, each, each_within, shaped};
use manifest_values::refusal::{Counted, Stop, bad_attribute};
use manifest_values::shapes::texts_of;
use std::alloc::Global;
use yaml_profile::Yaml;

// Reads the nodes that stand with an owner.
#[derive(Clone, Copy)]
struct ReadInput<'a> {
    known: &'a Known,
    owner: &'a [u8],
}

impl ReadPart for ReadInput<'_> {
    ghost use Rattle.manifest_values.specs.Nodes.{input_of};

    type Item = Bytes;

    type Part = Input;

    ghost gives = { λ s text. input_of s.known.now s.owner.now text };

    fn read(&self, alloc: Global, text: Bytes) -> Result<Input, Stop> {
        input_of(alloc, self.known, self.owner, text)
    }
}

// Reads the paths that stand with an owner.
#[derive(Clone, Copy)]
struct ReadPath<'a> {
    owner: &'a [u8],
}

impl ReadPart for ReadPath<'_> {
    ghost use Rattle.manifest_values.specs.Nodes.{path_of};

    type Item = Bytes;

    type Part = PathName;

    ghost gives = { λ s text. path_of s.owner.now text };

    fn read(&self, alloc: Global, text: Bytes) -> Result<PathName, Stop> {
        path_of(alloc, self.owner, text)
    }
}

/// The nodes of a list of texts, of which there may be so many.
pub fn nodes_of(
    alloc: Global,
    known: &Known,
    owner: &[u8],
    texts: List<Bytes>,
    most: usize,
    what: Counted,
) -> Result<List<Input>, Stop>
    ensures { Gives (λ x. x) result (spec.nodes_of most (Limit what 65536) known.now owner.now texts) }
{
    let reader = ReadInput { known, owner };
    each_within(alloc, &reader, texts, most, what, NODES_MAX as u64)
}

// Whether the tool has no input.
fn asks_nothing(tool: Tool) -> bool
    ensures { result ≡ spec.asks_nothing tool }
{
    match tool {
        Tool::Phony | Tool::Shell | Tool::Mkdir | Tool::Symlink | Tool::Archive => false,
        Tool::StaleFileRemoval => true,
    }
}

/// The nodes of `inputs`.
#[tactic(auto, unfolding(crate::specs::Commands::inputs_of))]
pub fn inputs_of(
    alloc: Global,
    known: &Known,
    command: &Command,
    tree: Yaml,
) -> Result<List<Input>, Stop>
    ensures { Gives (λ x. x) result (spec.inputs_of known.now command.now tree) }
{
    let owner = command.name.text().as_bytes();
    let texts = shaped(alloc, owner, b"inputs", texts_of(alloc, tree)?)?;
    if asks_nothing(command.tool) && !texts.is_empty() {
        return Err(bad_attribute(alloc, owner, b"inputs"));
    }
    let most = NODES_MAX.saturating_sub(command.follow.len());
    nodes_of(alloc, known, owner, texts, most, Counted::Inputs)
}

/// The nodes of `must-follow`.
#[tactic(auto, unfolding(crate::specs::Commands::follow_of))]
pub fn follow_of(
    alloc: Global,
    known: &Known,
    command: &Command,
    tree: Yaml,
) -> Result<List<Input>, Stop>
    ensures { Gives (λ x. x) result (spec.follow_of known.now command.now tree) }
{
    let owner = command.name.text().as_bytes();
    let texts = shaped(alloc, owner, b"must-follow", texts_of(alloc, tree)?)?;
    let most = NODES_MAX.saturating_sub(command.inputs.len());
    nodes_of(alloc, known, owner, texts, most, Counted::Inputs)
}

/// The nodes of `outputs`.
#[tactic(auto, unfolding(crate::specs::Commands::outputs_of))]
pub fn outputs_of(
    alloc: Global,
    known: &Known,
    command: &Command,
    tree: Yaml,
) -> Result<List<Input>, Stop>
    ensures { Gives (λ x. x) result (spec.outputs_of known.now command.now tree) }
{
    let owner = command.name.text().as_bytes();
    let texts = shaped(alloc, owner, b"outputs", texts_of(alloc, tree)?)?;
    nodes_of(alloc, known, owner, texts, NODES_MAX, Counted::Outputs)
}

/// The paths of `deps`.
#[tactic(auto, unfolding(crate::specs::Commands::deps_of))]
pub fn deps_of(alloc: Global, command: &Command, tree: Yaml) -> Result<List<PathName>, Stop>
    ensures { Gives (λ x. x) result (spec.deps_of command.now tree) }
{
    let owner = command.name.text().as_bytes();
    let texts = shaped(alloc, owner, b"deps", texts_of(alloc, tree)?)?;
    let reader = ReadPath { owner };
    each_within(
        alloc,
        &reader,
        texts,
        DEPS_MAX,
        Counted::DepsFiles,
        DEPS_MAX as u64,
    )
}

/// The paths of the attribute of this name.
#[tactic(auto, unfolding(crate::specs::Commands::paths_of))]
pub fn paths_of(
    alloc: Global,
    name: &[u8],
    command: &Command,
    tree: Yaml,
) -> Result<List<PathName>, Stop>
    ensures { Gives (λ x. x) result (spec.paths_of name.now command.now tree) }
{
    let owner = command.name.text().as_bytes();
    let texts = shaped(alloc, owner, name, texts_of(alloc, tree)?)?;
    let reader = ReadPath { owner };
    each(alloc, &reader, texts)
}
