//! The sections `targets` and `default`.
ghost use Rattle.manifest_values.specs.Refusal.{Gives};
ghost use Rattle.manifest_reader.specs.Sections as spec;

use crate::inputs::nodes_of;
use build_manifest::command::{Input, NODES_MAX, TARGETS_MAX, TargetEntry};
use file_info::list::List;
use file_info::name::Name;
use manifest_values::known::Known;
use manifest_values::parts::{ReadPart, each_within, shaped};
use manifest_values::refusal::{Counted, Stop};
use manifest_values::shapes::{pairs_of, text_of, texts_of};
use manifest_values::texts::name_of;
use std::alloc::Global;
use yaml_profile::{Pair, Yaml};

// The nodes of the target of this name.
fn target_nodes(alloc: Global, known: &Known, name: &[u8], tree: Yaml) -> Result<List<Input>, Stop>
    ensures { Gives (λ x. x) result (spec.target_nodes known.now name.now tree) }
{
    let texts = shaped(alloc, b"targets", name, texts_of(alloc, tree)?)?;
    nodes_of(alloc, known, name, texts, NODES_MAX, Counted::Inputs)
}

// The target of a pair: its name and its nodes.
#[tactic(auto, unfolding(crate::specs::Sections::target_of))]
fn target_of(alloc: Global, known: &Known, pair: Pair) -> Result<TargetEntry, Stop>
    ensures { Gives (λ x. x) result (spec.target_of known.now pair) }
{
    let Pair { name, value } = pair;
    let name = name_of(alloc, b"targets", name)?;
    let nodes = target_nodes(alloc, known, name.text().as_bytes(), value)?;
    Ok(TargetEntry { name, nodes })
}

// Reads the targets.
#[derive(Clone, Copy)]
struct ReadTarget<'a> {
    known: &'a Known,
}

impl ReadPart for ReadTarget<'_> {
    ghost use Rattle.manifest_reader.specs.Sections.{target_of};

    type Item = Pair;

    type Part = TargetEntry;

    ghost gives = { λ s pair. target_of s.known.now pair };

    fn read(&self, alloc: Global, pair: Pair) -> Result<TargetEntry, Stop> {
        target_of(alloc, self.known, pair)
    }
}

/// The targets.
#[tactic(auto, unfolding(crate::specs::Sections::targets_of))]
pub fn targets_of(alloc: Global, known: &Known, tree: Yaml) -> Result<List<TargetEntry>, Stop>
    ensures { Gives (λ x. x) result (spec.targets_of known.now tree) }
{
    let pairs = shaped(alloc, b"targets", b"targets", pairs_of(tree))?;
    let reader = ReadTarget { known };
    each_within(
        alloc,
        &reader,
        pairs,
        TARGETS_MAX,
        Counted::Targets,
        TARGETS_MAX as u64,
    )
}

/// The name of the default target.
#[tactic(auto, unfolding(crate::specs::Sections::default_of))]
pub fn default_of(alloc: Global, tree: Yaml) -> Result<Name, Stop>
    ensures { Gives (λ x. x) result (spec.default_of tree) }
{
    let text = shaped(alloc, b"default", b"default", text_of(tree))?;
    name_of(alloc, b"default", text)
}
