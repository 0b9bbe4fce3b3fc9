//! The values of attributes, by their shapes.
ghost use Rattle.std.specs.Prelude.{◌≡◌, IfOk, IfErr};
ghost use Rattle.build_manifest.specs.Command.{has_nul};
ghost use Rattle.manifest_values.specs.Values as spec;
ghost use Rattle.manifest_values.specs.declared.refusal.Stop.TheVariants as stops;

use crate::refusal::Stop;
use crate::shapes::{all_texts, pairs_of, text_of};
use build_manifest::command::{Args, EnvPair};
use file_info::list::{Bytes, List};
use file_info::memory::NoMemory;
use std::alloc::Global;
use yaml_profile::{Pair, Yaml};

// Whether a byte of the text is 0.
fn has_nul(text: &[u8]) -> bool
    ensures { result ≡ has_nul text.now }
{
    text.iter().any(|byte| *byte == 0)
}

// Whether a byte of one of the words is 0.
fn any_has_nul(words: &[Bytes]) -> bool
    ensures { result ≡ spec.any_has_nul words.now }
{
    words.iter().any(|word| has_nul(word.as_slice()))
}

// A line for the shell, without a byte 0.
fn line_in(text: Bytes) -> Option<Args>
    ensures { result ≡ spec.line_in text }
{
    if has_nul(text.as_slice()) {
        return None;
    }
    Some(Args::Line(text))
}

// Words: at least one, and none with a byte 0.
fn words_in(words: List<Bytes>) -> Option<Args>
    ensures { result ≡ spec.words_in words }
{
    if words.is_empty() {
        return None;
    }
    if any_has_nul(words.as_slice()) {
        return None;
    }
    Some(Args::Words(words))
}

// The words of nodes that are all scalars.
fn words_of(alloc: Global, items: List<Yaml>) -> Result<Option<Args>, NoMemory>
    ensures { IfOk result (λ args. args ≡ spec.words_of items) }
{
    match all_texts(alloc, items)? {
        Some(words) => Ok(words_in(words)),
        None => Ok(None),
    }
}

/// The program of `args`: a line for the shell, or a list of words. None where it has another shape, no word, or a byte 0.
#[tactic(auto, unfolding(crate::specs::Values::program_of))]
pub fn program_of(alloc: Global, tree: Yaml) -> Result<Option<Args>, Stop>
    ensures read { IfOk result (λ program. program ≡ spec.program_of tree) }
    ensures stop { IfErr result (λ stop. stop ≡ stops.Memory) }
{
    match tree {
        Yaml::Scalar(text) => Ok(line_in(text)),
        Yaml::Seq(items) => {
            let words = words_of(alloc, items)?;
            Ok(words)
        }
        Yaml::Map(_) => Ok(None),
    }
}

// Whether the name has `=` or a byte 0.
fn has_barred(name: &[u8]) -> bool
    ensures { result ≡ spec.has_barred name.now }
{
    name.iter().any(|byte| *byte == 0 || *byte == b'=')
}

// Whether a variable may have this name: it is not empty, and has neither `=` nor a byte 0.
fn is_variable_name(name: &[u8]) -> bool
    ensures { result ≡ spec.is_variable_name name.now }
{
    !name.is_empty() && !has_barred(name)
}

// The variable of a pair.
#[tactic(auto, unfolding(crate::specs::Values::variable_of))]
fn variable_of(pair: Pair) -> Option<EnvPair>
    ensures { result ≡ spec.variable_of pair }
{
    let Pair { name, value } = pair;
    let text = text_of(value)?;
    if !is_variable_name(name.as_slice()) || has_nul(text.as_slice()) {
        return None;
    }
    Some(EnvPair { name, text })
}

// The variables of pairs.
fn all_variables(alloc: Global, pairs: List<Pair>) -> Result<Option<List<EnvPair>>, NoMemory>
    ensures { IfOk result (λ variables. variables ≡ spec.all_variables pairs) }
{
    let mut variables = List::new(alloc);
    variables.reserve(pairs.len())?;
    for pair in pairs.into_vec() {
        let Some(variable) = variable_of(pair) else {
            return Ok(None);
        };
        variables.push(variable)?;
    }
    Ok(Some(variables))
}

/// The variables of `env`. None where it is no mapping of texts, or where one of them has a name or a text that none may have.
#[tactic(auto, unfolding(crate::specs::Values::variables_of))]
pub fn variables_of(alloc: Global, tree: Yaml) -> Result<Option<List<EnvPair>>, Stop>
    ensures read { IfOk result (λ variables. variables ≡ spec.variables_of tree) }
    ensures stop { IfErr result (λ stop. stop ≡ stops.Memory) }
{
    let Some(pairs) = pairs_of(tree) else {
        return Ok(None);
    };
    let variables = all_variables(alloc, pairs)?;
    Ok(variables)
}

/// The text of a link. None where it has another shape, is empty, or has a byte 0.
#[tactic(auto, unfolding(crate::specs::Values::link_of))]
pub fn link_of(tree: Yaml) -> Option<Bytes>
    ensures { result ≡ spec.link_of tree }
{
    let text = text_of(tree)?;
    if text.is_empty() || has_nul(text.as_slice()) {
        return None;
    }
    Some(text)
}

/// The text of a scalar where it is the one that is wanted. None for another.
#[tactic(auto, unfolding(crate::specs::Values::exactly))]
pub fn exactly(wanted: &[u8], tree: Yaml) -> Option<Bytes>
    ensures { result ≡ spec.exactly wanted.now tree }
{
    let text = text_of(tree)?;
    if text.as_slice() != wanted {
        return None;
    }
    Some(text)
}
