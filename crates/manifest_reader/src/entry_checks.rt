//! The section `nodes`, of which the entries are checked here. What they say is kept with what is known.
ghost use Rattle.std.specs.Prelude.{◌≡◌, ◌||◌, Ok};
ghost use Rattle.manifest_values.specs.Known.{is_virtual_text};
ghost use Rattle.manifest_values.specs.Refusal.{Gives};
ghost use Rattle.manifest_values.specs.Texts.{is_path_text as is_path};
ghost use Rattle.manifest_reader.specs.Sections as spec;

use build_manifest::command::{PATTERN_MAX, PATTERNS_MAX};
use file_info::list::{Bytes, List};
use manifest_values::known::Known;
use manifest_values::parts::{ReadPart, Step, each_within, fold, shaped};
use manifest_values::refusal::{Counted, Stop, bad_attribute, bad_path, unknown_attribute};
use manifest_values::shapes::{flag_of, pairs_of, texts_of};
use manifest_values::texts::{is_path_text, name_of};
use std::alloc::Global;
use yaml_profile::{Pair, Yaml};

// Sees that patterns are not too long.
#[derive(Clone, Copy)]
struct CheckPattern<'a> {
    owner: &'a [u8],
    name: &'a [u8],
}

impl ReadPart for CheckPattern<'_> {
    ghost use Rattle.manifest_values.specs.declared.refusal.Refusal.TheVariants.{BadAttribute};
    ghost use Rattle.manifest_reader.specs.Sections.{pattern_checked};

    type Item = Bytes;

    type Part = ();

    ghost gives = { λ s pattern. pattern_checked (BadAttribute s.owner.now s.name.now) pattern };

    fn read(&self, alloc: Global, pattern: Bytes) -> Result<(), Stop> {
        if pattern.len() > PATTERN_MAX {
            return Err(bad_attribute(alloc, self.owner, self.name));
        }
        Ok(())
    }
}

// Sees that these are patterns.
#[tactic(auto, unfolding(crate::specs::Sections::patterns_checked))]
fn patterns_checked(alloc: Global, owner: &[u8], name: &[u8], tree: Yaml) -> Result<(), Stop>
    ensures { Gives (λ x. x) result (spec.patterns_checked owner.now name.now tree) }
{
    let texts = shaped(alloc, owner, name, texts_of(alloc, tree)?)?;
    let reader = CheckPattern { owner, name };
    each_within(
        alloc,
        &reader,
        texts,
        PATTERNS_MAX,
        Counted::Patterns,
        PATTERNS_MAX as u64,
    )?;
    Ok(())
}

// Whether the name is that of a flag of a node.
fn is_node_flag(name: &[u8]) -> bool
    ensures { result ≡ spec.is_node_flag name.now }
{
    name == b"is-virtual".as_slice()
        || name == b"is-directory".as_slice()
        || name == b"is-directory-structure".as_slice()
}

// Sees that the attributes of an entry have their shapes.
#[derive(Clone, Copy)]
struct CheckAttribute<'a> {
    owner: &'a [u8],
}

impl Step for CheckAttribute<'_> {
    ghost use Rattle.manifest_reader.specs.Sections.{node_attribute_checked};

    type Item = Pair;

    type State = ();

    ghost makes = { λ s u pair. node_attribute_checked s.owner.now u pair };

    #[tactic(auto, unfolding(crate::specs::Sections::node_attribute_checked))]
    fn take(&self, alloc: Global, _state: &mut (), pair: Pair) -> Result<(), Stop> {
        let Pair { name, value } = pair;
        if is_node_flag(name.as_slice()) {
            shaped(alloc, self.owner, name.as_slice(), flag_of(value))?;
            return Ok(());
        }
        if name.as_slice() == b"content-exclusion-patterns".as_slice() {
            return patterns_checked(alloc, self.owner, name.as_slice(), value);
        }
        Err(unknown_attribute(alloc, self.owner, name.as_slice()))
    }
}

// Whether the text names a node.
fn names_node(alloc: Global, known: &Known, text: &[u8]) -> Result<bool, Stop>
    ensures { Gives (λ x. x) result (Ok (is_virtual_text known.now text.now || is_path text.now)) }
{
    if known.is_virtual(text) {
        return Ok(true);
    }
    let is_path = is_path_text(alloc, text)?;
    Ok(is_path)
}

// Sees that the name is that of a node, and that the attributes have their shapes.
fn attributes_checked(
    alloc: Global,
    known: &Known,
    name: &[u8],
    pairs: List<Pair>,
) -> Result<(), Stop>
    ensures { Gives (λ x. x) result (spec.attributes_checked known.now name.now pairs) }
{
    if !names_node(alloc, known, name)? {
        return Err(bad_path(alloc, b"nodes", name));
    }
    fold(alloc, &CheckAttribute { owner: name }, (), pairs)
}

// Checks the entries of `nodes`.
#[derive(Clone, Copy)]
struct CheckEntry<'a> {
    known: &'a Known,
}

impl Step for CheckEntry<'_> {
    ghost use Rattle.manifest_reader.specs.Sections.{entry_checked};

    type Item = Pair;

    type State = ();

    ghost makes = { λ s u pair. entry_checked s.known.now u pair };

    #[tactic(auto, unfolding(crate::specs::Sections::entry_checked))]
    fn take(&self, alloc: Global, _state: &mut (), pair: Pair) -> Result<(), Stop> {
        let Pair { name, value } = pair;
        let name = name_of(alloc, b"nodes", name)?;
        let owner = name.text().as_bytes();
        let pairs = shaped(alloc, b"nodes", owner, pairs_of(value))?;
        attributes_checked(alloc, self.known, owner, pairs)
    }
}

/// Sees that the entries of `nodes` are well formed.
#[tactic(auto, unfolding(crate::specs::Sections::nodes_checked))]
pub fn nodes_checked(alloc: Global, known: &Known, tree: Yaml) -> Result<(), Stop>
    ensures { Gives (λ x. x) result (spec.nodes_checked known.now tree) }
{
    let pairs = shaped(alloc, b"nodes", b"nodes", pairs_of(tree))?;
    fold(alloc, &CheckEntry { known }, (), pairs)
}
