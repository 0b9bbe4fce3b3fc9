//! The sections of a manifest.
ghost use Rattle.std.specs.Prelude.{◌≡◌};
ghost use Rattle.manifest_values.specs.Refusal.{Gives, Makes};
ghost use Rattle.manifest_reader.specs.Sections as spec;

use crate::client::client_checked;
use crate::commands::draft_of;
use crate::entry_checks::nodes_checked;
use crate::targets::{default_of, targets_of};
use crate::tools::tools_checked;
use build_manifest::command::{COMMANDS_MAX, TargetEntry};
use build_manifest::draft::Draft;
use file_info::list::List;
use file_info::name::Name;
use manifest_values::known::Known;
use manifest_values::parts::{ReadPart, Step, each_within, fold, shaped};
use manifest_values::refusal::{Counted, Refusal, Stop};
use manifest_values::shapes::{pairs_of, value_named};
use std::alloc::Global;
use yaml_profile::{Pair, Yaml};

/// A section, in the order in which they stand.
#[derive(Clone, Copy, Debug, PartialEq, Eq)]
pub enum Section {
    Client,
    Tools,
    Targets,
    Default,
    Nodes,
    Commands,
}

/// What was read of a manifest so far.
#[derive(Drop)]
pub struct Parts {
    /// The place of the last section in their order.
    pub rank: u8,
    pub targets: List<TargetEntry>,
    pub default_name: Option<Name>,
    pub drafts: List<Draft>,
}

// Reads the commands.
#[derive(Clone, Copy)]
struct ReadCommand<'a> {
    known: &'a Known,
}

impl ReadPart for ReadCommand<'_> {
    ghost use Rattle.manifest_reader.specs.Commands.{draft_of};

    type Item = Pair;

    type Part = Draft;

    ghost gives = { λ s pair. draft_of s.known.now pair };

    fn read(&self, alloc: Global, pair: Pair) -> Result<Draft, Stop> {
        draft_of(alloc, self.known, pair)
    }
}

// The commands.
#[tactic(auto, unfolding(crate::specs::Sections::commands_of))]
fn commands_of(alloc: Global, known: &Known, tree: Yaml) -> Result<List<Draft>, Stop>
    ensures { Gives (λ x. x) result (spec.commands_of known.now tree) }
{
    let pairs = shaped(alloc, b"commands", b"commands", pairs_of(tree))?;
    let reader = ReadCommand { known };
    each_within(
        alloc,
        &reader,
        pairs,
        COMMANDS_MAX,
        Counted::Commands,
        COMMANDS_MAX as u64,
    )
}

// The section of this name.
#[tactic(auto, unfolding(crate::specs::Sections::section_named))]
fn section_named(name: &[u8]) -> Option<Section>
    ensures { result ≡ spec.section_named name.now }
{
    if name == b"client".as_slice() {
        return Some(Section::Client);
    }
    if name == b"tools".as_slice() {
        return Some(Section::Tools);
    }
    if name == b"targets".as_slice() {
        return Some(Section::Targets);
    }
    if name == b"default".as_slice() {
        return Some(Section::Default);
    }
    if name == b"nodes".as_slice() {
        return Some(Section::Nodes);
    }
    if name == b"commands".as_slice() {
        return Some(Section::Commands);
    }
    None
}

// The place of a section in their order.
fn rank(section: Section) -> u8
    ensures { result ≡ spec.rank section }
{
    match section {
        Section::Client => 0,
        Section::Tools => 1,
        Section::Targets => 2,
        Section::Default => 3,
        Section::Nodes => 4,
        Section::Commands => 5,
    }
}

// Puts the targets.
fn put_targets(alloc: Global, known: &Known, parts: &mut Parts, tree: Yaml) -> Result<(), Stop>
    ensures { Makes parts.new result (spec.put_targets known.now parts.old tree) }
{
    let targets = targets_of(alloc, known, tree)?;
    parts.targets = targets;
    Ok(())
}

// Puts the name of the default target.
fn put_default(alloc: Global, parts: &mut Parts, tree: Yaml) -> Result<(), Stop>
    ensures { Makes parts.new result (spec.put_default parts.old tree) }
{
    let name = default_of(alloc, tree)?;
    parts.default_name = Some(name);
    Ok(())
}

// Puts the commands.
fn put_commands(alloc: Global, known: &Known, parts: &mut Parts, tree: Yaml) -> Result<(), Stop>
    ensures { Makes parts.new result (spec.put_commands known.now parts.old tree) }
{
    let drafts = commands_of(alloc, known, tree)?;
    parts.drafts = drafts;
    Ok(())
}

// Puts a section of this value.
fn put_section(
    alloc: Global,
    known: &Known,
    parts: &mut Parts,
    section: Section,
    tree: Yaml,
) -> Result<(), Stop>
    ensures { Makes parts.new result (spec.with_section known.now parts.old section tree) }
{
    match section {
        Section::Client => client_checked(alloc, tree),
        Section::Tools => tools_checked(alloc, tree),
        Section::Targets => put_targets(alloc, known, parts, tree),
        Section::Default => put_default(alloc, parts, tree),
        Section::Nodes => nodes_checked(alloc, known, tree),
        Section::Commands => put_commands(alloc, known, parts, tree),
    }
}

// Takes the sections in turn.
#[derive(Clone, Copy)]
struct TakeSection<'a> {
    known: &'a Known,
}

impl Step for TakeSection<'_> {
    ghost use Rattle.manifest_reader.specs.Sections.{section_read};

    type Item = Pair;

    type State = Parts;

    ghost makes = { λ s parts pair. section_read s.known.now parts pair };

    #[tactic(auto, unfolding(crate::specs::Sections::section_read))]
    fn take(&self, alloc: Global, parts: &mut Parts, pair: Pair) -> Result<(), Stop> {
        let Pair { name, value } = pair;
        let Some(section) = section_named(name.as_slice()) else {
            return Err(Stop::Refused(Refusal::UnknownSection { name }));
        };
        if rank(section) < parts.rank {
            return Err(Stop::Refused(Refusal::SectionOrder { section: name }));
        }
        parts.rank = rank(section);
        put_section(alloc, self.known, parts, section, value)
    }
}

// Nothing was read yet.
fn no_parts(alloc: Global) -> Parts
    ensures { result ≡ spec.no_parts }
{
    Parts {
        rank: 0,
        targets: List::new(alloc),
        default_name: None,
        drafts: List::new(alloc),
    }
}

// The parts of the manifest with these sections, which have a `client`.
#[tactic(auto, unfolding(crate::specs::Sections::parts_in))]
fn parts_in(alloc: Global, pairs: List<Pair>) -> Result<Parts, Stop>
    ensures { Gives (λ x. x) result (spec.parts_in pairs) }
{
    if value_named(&pairs, b"client").is_none() {
        return Err(Stop::Refused(Refusal::NoClient));
    }
    let known = Known::of(alloc, &pairs)?;
    fold(
        alloc,
        &TakeSection { known: &known },
        no_parts(alloc),
        pairs,
    )
}

/// The parts of the manifest of a tree.
#[tactic(auto, unfolding(crate::specs::Sections::parts_of))]
pub fn parts_of(alloc: Global, tree: Yaml) -> Result<Parts, Stop>
    ensures { Gives (λ x. x) result (spec.parts_of tree) }
{
    match pairs_of(tree) {
        Some(pairs) => parts_in(alloc, pairs),
        None => Err(Stop::Refused(Refusal::NoClient)),
    }
}
