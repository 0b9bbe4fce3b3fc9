//! Parts of a tree that are looked at before they are read. What has another shape says nothing.
ghost use Rattle.std.specs.Prelude.{◌≡◌, Some, IfOk};
ghost use Rattle.manifest_values.specs.Known as spec;
ghost use Rattle.manifest_values.specs.Shapes.{value_named};

use crate::shapes::{copied_texts, value_in};
use file_info::list::{Bytes, List};
use file_info::memory::NoMemory;
use std::alloc::Global;
use yaml_profile::{Pair, Yaml};

/// The pairs of a mapping. None for another node.
#[tactic(auto, unfolding(crate::specs::Shapes::pairs_of))]
pub fn pairs_in(tree: &Yaml) -> &[Pair]
    ensures { result.now ≡ spec.pairs_or_none (Some tree.now) }
{
    match tree {
        Yaml::Map(pairs) => pairs.as_slice(),
        _ => &[],
    }
}

/// The pairs of this section. None where it is absent or no mapping.
pub fn section_pairs<'a>(name: &[u8], pairs: &'a [Pair]) -> &'a [Pair]
    ensures { result.now ≡ spec.section_pairs name.now pairs.now }
{
    match value_in(pairs, name) {
        Some(tree) => pairs_in(tree),
        None => &[],
    }
}

/// Whether the tree is this text.
#[tactic(auto, unfolding(crate::specs::Shapes::text_of))]
pub fn is_text(text: &[u8], tree: &Yaml) -> bool
    ensures { result ≡ spec.is_scalar text.now tree.now }
{
    match tree {
        Yaml::Scalar(found) => found.as_slice() == text,
        _ => false,
    }
}

/// Whether the pairs have this name with this text.
pub fn says(name: &[u8], text: &[u8], pairs: &[Pair]) -> bool
    ensures { result ≡ spec.says name.now text.now pairs.now }
{
    match value_in(pairs, name) {
        Some(tree) => is_text(text, tree),
        None => false,
    }
}

// The texts of a list, copied. None for another node.
fn texts_in(alloc: Global, tree: &Yaml) -> Result<List<Bytes>, NoMemory>
    ensures { IfOk result (λ texts. texts ≡ spec.texts_or_none (Some tree.now)) }
{
    match copied_texts(alloc, tree)? {
        Some(texts) => Ok(texts),
        None => Ok(List::new(alloc)),
    }
}

/// The texts of the list of this name, copied. None where it is absent or no list of texts.
pub fn texts_named(alloc: Global, name: &[u8], pairs: &[Pair]) -> Result<List<Bytes>, NoMemory>
    ensures { IfOk result (λ texts. texts ≡ spec.texts_or_none (value_named name.now pairs.now)) }
{
    match value_in(pairs, name) {
        Some(tree) => texts_in(alloc, tree),
        None => Ok(List::new(alloc)),
    }
}
