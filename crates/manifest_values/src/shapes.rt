//! The shapes of the values of a tree.
ghost use Rattle.std.specs.Prelude.{◌≡◌, [], ◌∷◌, IfOk, IfErr};
ghost use Rattle.std.specs.Option.{option_copied};
ghost use Rattle.manifest_values.specs.Shapes as spec;
ghost use Rattle.manifest_values.specs.declared.refusal.Stop.TheVariants as stops;

use crate::refusal::{Stop, copy_of};
use file_info::list::{Bytes, List};
use file_info::memory::NoMemory;
use std::alloc::Global;
use yaml_profile::{Pair, Yaml};

/// The text of a scalar. None for another node.
#[tactic(auto, unfolding(crate::specs::Shapes::text_of))]
pub fn text_of(tree: Yaml) -> Option<Bytes>
    ensures { result ≡ spec.text_of tree }
{
    match tree {
        Yaml::Scalar(text) => Some(text),
        _ => None,
    }
}

/// The text of a scalar that is looked at alone. None for another node.
#[tactic(auto, unfolding(crate::specs::Shapes::text_of))]
pub fn scalar_text(tree: &Yaml) -> Option<&[u8]>
    ensures { option_copied result ≡ spec.text_of tree.now }
{
    match tree {
        Yaml::Scalar(text) => Some(text.as_slice()),
        _ => None,
    }
}

/// The pairs of a mapping. None for another node.
#[tactic(auto, unfolding(crate::specs::Shapes::pairs_of))]
pub fn pairs_of(tree: Yaml) -> Option<List<Pair>>
    ensures { result ≡ spec.pairs_of tree }
{
    match tree {
        Yaml::Map(pairs) => Some(pairs),
        _ => None,
    }
}

/// The texts of nodes that are all scalars. None where one is not.
pub fn all_texts(alloc: Global, items: List<Yaml>) -> Result<Option<List<Bytes>>, NoMemory>
    ensures { IfOk result (λ texts. texts ≡ spec.all_texts items) }
{
    let mut texts = List::new(alloc);
    texts.reserve(items.len())?;
    for item in items.into_vec() {
        let Some(text) = text_of(item) else {
            return Ok(None);
        };
        texts.push(text)?;
    }
    Ok(Some(texts))
}

// The list of one text.
fn one_text(alloc: Global, text: Bytes) -> Result<List<Bytes>, NoMemory>
    ensures { IfOk result (λ texts. texts ≡ text ∷ []) }
{
    let mut texts = List::new(alloc);
    texts.push(text)?;
    Ok(texts)
}

/// A list of texts: a sequence of scalars, or a scalar, which stands for a list of one. None for another node.
#[tactic(auto, unfolding(crate::specs::Shapes::texts_of))]
pub fn texts_of(alloc: Global, tree: Yaml) -> Result<Option<List<Bytes>>, Stop>
    ensures read { IfOk result (λ texts. texts ≡ spec.texts_of tree) }
    ensures stop { IfErr result (λ stop. stop ≡ stops.Memory) }
{
    match tree {
        Yaml::Scalar(text) => {
            let texts = one_text(alloc, text)?;
            Ok(Some(texts))
        }
        Yaml::Seq(items) => {
            let texts = all_texts(alloc, items)?;
            Ok(texts)
        }
        Yaml::Map(_) => Ok(None),
    }
}

// The flag that a text is: `true` or `false`.
fn flag_named(text: &[u8]) -> Option<bool>
    ensures { result ≡ spec.flag_named text.now }
{
    match text {
        b"true" => Some(true),
        b"false" => Some(false),
        _ => None,
    }
}

/// The flag of a scalar, which is `true` or `false`. None for another node.
#[tactic(auto, unfolding(crate::specs::Shapes::flag_of))]
pub fn flag_of(tree: Yaml) -> Option<bool>
    ensures { result ≡ spec.flag_of tree }
{
    let text = text_of(tree)?;
    flag_named(text.as_slice())
}

/// The value of the first pair of this name.
pub fn value_in<'a>(pairs: &'a [Pair], name: &[u8]) -> Option<&'a Yaml>
    ensures { option_copied result ≡ spec.value_named name.now pairs.now }
{
    let mut rest = pairs;
    'turns: while let [pair, tail @ ..] = rest {
        if name == pair.name.as_slice() {
            return Some(&pair.value);
        }
        rest = tail;
    }
    None
}

/// The value of the first pair of this name.
pub fn value_named<'a>(pairs: &'a List<Pair>, name: &[u8]) -> Option<&'a Yaml>
    ensures { option_copied result ≡ spec.value_named name.now pairs.now }
{
    value_in(pairs.as_slice(), name)
}

// A copy of the text of a scalar. None for another node.
#[tactic(auto, unfolding(crate::specs::Shapes::text_of))]
fn copied_text(alloc: Global, tree: &Yaml) -> Result<Option<Bytes>, NoMemory>
    ensures { IfOk result (λ text. text ≡ spec.text_of tree.now) }
{
    match tree {
        Yaml::Scalar(text) => {
            let text = copy_of(alloc, text.as_slice())?;
            Ok(Some(text))
        }
        _ => Ok(None),
    }
}

// Copies of the texts of nodes that are all scalars.
fn all_copied(alloc: Global, items: &[Yaml]) -> Result<Option<List<Bytes>>, NoMemory>
    ensures { IfOk result (λ texts. texts ≡ spec.all_texts items.now) }
{
    let mut texts = List::new(alloc);
    let mut rest = items;
    'turns: while let [item, tail @ ..] = rest {
        let Some(text) = copied_text(alloc, item)? else {
            return Ok(None);
        };
        texts.push(text)?;
        rest = tail;
    }
    Ok(Some(texts))
}

/// Copies of the texts of a list, as `texts_of` reads it.
#[tactic(auto, unfolding(crate::specs::Shapes::texts_of))]
pub fn copied_texts(alloc: Global, tree: &Yaml) -> Result<Option<List<Bytes>>, NoMemory>
    ensures { IfOk result (λ texts. texts ≡ spec.texts_of tree.now) }
{
    match tree {
        Yaml::Scalar(text) => {
            let text = copy_of(alloc, text.as_slice())?;
            let texts = one_text(alloc, text)?;
            Ok(Some(texts))
        }
        Yaml::Seq(items) => all_copied(alloc, items.as_slice()),
        Yaml::Map(_) => Ok(None),
    }
}
