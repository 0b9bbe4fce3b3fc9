//! What a manifest says of the names of its nodes, wherever they stand.
ghost use Rattle.std.specs.Prelude.{◌≡◌, ◌++◌, IfOk, IfErr};
ghost use Rattle.std.specs.List.{flat_map};
ghost use Rattle.std.specs.Option.{option_copied};
ghost use Rattle.manifest_values.specs.Known as spec;
ghost use Rattle.manifest_values.specs.declared.refusal.Stop.TheVariants as stops;

use crate::entries::Entries;
use crate::lenient::{is_text, pairs_in, says, section_pairs, texts_named};
use crate::refusal::{Stop, copy_of};
use crate::shapes::value_in;
use crate::text_set::TextSet;
use crate::texts::{has_slash, is_angled, path_in};
use file_info::list::{Bytes, List};
use file_info::memory::NoMemory;
use file_info::path::PathName;
use std::alloc::Global;
use std::marker::Model;
use yaml_profile::Pair;

/// What an entry of `nodes` says of a path.
#[derive(Drop)]
pub struct Entry {
    pub path: PathName,
    /// Whether its name ends with `/`.
    pub slash: bool,
    /// Whether the path is read as names and kinds alone.
    pub structure: bool,
    /// Whether the path is read as a directory.
    pub directory: bool,
    /// The patterns of the names that are not read.
    pub patterns: List<Bytes>,
}

/// What a manifest says of names: the texts that name virtual nodes besides `<...>`, and the entries of `nodes` for paths.
#[derive(Drop)]
pub struct Known {
    virtuals: TextSet,
    entries: Entries,
}

impl Model for Known {
    ghost use Rattle.manifest_values.specs.Known.{Facts};

    ghost Value = { Facts };

    ghost view = { λ k. record { virtuals = k.virtuals; entries = k.entries } };
}

// Whether each output of a command with these attributes is a virtual node.
fn makes_virtual(attributes: &[Pair]) -> bool
    ensures { result ≡ spec.makes_virtual attributes.now }
{
    match value_in(attributes, b"tool") {
        Some(tool) => is_text(b"phony", tool) || is_text(b"stale-file-removal", tool),
        None => false,
    }
}

// The texts, and then the outputs of a command, where each is a virtual node.
fn with_outputs(alloc: Global, texts: TextSet, command: &Pair) -> Result<TextSet, NoMemory>
    ensures { IfOk result (λ new. new ≡ texts ++ spec.virtual_outputs command.now) }
{
    let attributes = pairs_in(&command.value);
    if !makes_virtual(attributes) {
        return Ok(texts);
    }
    let outputs = texts_named(alloc, b"outputs", attributes)?;
    texts.with_all(alloc, outputs)
}

// The texts, and then the outputs of these commands that are virtual nodes.
fn with_all_outputs(alloc: Global, texts: TextSet, commands: &[Pair]) -> Result<TextSet, NoMemory>
    ensures { IfOk result (λ new. new ≡ texts ++ flat_map spec.virtual_outputs commands.now) }
{
    let mut found = texts;
    let mut rest = commands;
    'turns: while let [command, tail @ ..] = rest {
        found = with_outputs(alloc, found, command)?;
        rest = tail;
    }
    Ok(found)
}

// The texts, and then the name of an entry of `nodes` that says that it is a virtual node.
fn with_name(alloc: Global, texts: TextSet, node: &Pair) -> Result<TextSet, NoMemory>
    ensures { IfOk result (λ new. new ≡ texts ++ spec.virtual_entry node.now) }
{
    if !says(b"is-virtual", b"true", pairs_in(&node.value)) {
        return Ok(texts);
    }
    let name = copy_of(alloc, node.name.as_slice())?;
    texts.with(alloc, name)
}

// The texts, and then the names of these entries of `nodes` that are virtual nodes.
fn with_names(alloc: Global, texts: TextSet, nodes: &[Pair]) -> Result<TextSet, NoMemory>
    ensures { IfOk result (λ new. new ≡ texts ++ flat_map spec.virtual_entry nodes.now) }
{
    let mut found = texts;
    let mut rest = nodes;
    'turns: while let [node, tail @ ..] = rest {
        found = with_name(alloc, found, node)?;
        rest = tail;
    }
    Ok(found)
}

// The texts that name virtual nodes: outputs of commands that make no file, and entries of `nodes`.
fn virtuals_of(alloc: Global, pairs: &[Pair]) -> Result<TextSet, NoMemory>
    ensures { IfOk result (λ texts. texts ≡ spec.virtuals_of pairs.now) }
{
    let none = TextSet::new(alloc);
    let outputs = with_all_outputs(alloc, none, section_pairs(b"commands", pairs))?;
    with_names(alloc, outputs, section_pairs(b"nodes", pairs))
}

// Whether the text names a virtual node, where these do besides `<...>`.
fn is_virtual_in(virtuals: &TextSet, text: &[u8]) -> bool
    ensures { result ≡ spec.is_virtual_in virtuals.now text.now }
{
    is_angled(text) || virtuals.has(text)
}

// What an entry of `nodes` of this name, which is this path, says of it.
fn entry_at(
    alloc: Global,
    path: PathName,
    name: &[u8],
    attributes: &[Pair],
) -> Result<Entry, NoMemory>
    ensures { IfOk result (λ entry. entry ≡ spec.entry_at path name.now attributes.now) }
{
    let patterns = texts_named(alloc, b"content-exclusion-patterns", attributes)?;
    Ok(Entry {
        path,
        slash: has_slash(name),
        structure: says(b"is-directory-structure", b"true", attributes),
        directory: says(b"is-directory", b"true", attributes),
        patterns,
    })
}

// The entries, and then what an entry of `nodes` says of its path, where it names one.
fn with_entry(
    alloc: Global,
    virtuals: &TextSet,
    entries: Entries,
    node: &Pair,
) -> Result<Entries, NoMemory>
    ensures { IfOk result (λ new. new ≡ entries ++ spec.path_entry virtuals.now node.now) }
{
    let name = node.name.as_slice();
    if is_virtual_in(virtuals, name) {
        return Ok(entries);
    }
    match path_in(alloc, name)? {
        Some(path) => {
            let entry = entry_at(alloc, path, name, pairs_in(&node.value))?;
            entries.with(alloc, entry)
        }
        None => Ok(entries),
    }
}

// The entries of `nodes` for paths.
fn entries_of(alloc: Global, virtuals: &TextSet, nodes: &[Pair]) -> Result<Entries, NoMemory>
    ensures { IfOk result (λ entries. entries ≡ flat_map (spec.path_entry virtuals.now) nodes.now) }
{
    let mut found = Entries::new(alloc);
    let mut rest = nodes;
    'turns: while let [node, tail @ ..] = rest {
        found = with_entry(alloc, virtuals, found, node)?;
        rest = tail;
    }
    Ok(found)
}

impl Known {
    /// What is known of names from the sections of a manifest.
    #[tactic(auto, unfolding(crate::specs::Known::facts_of))]
    pub fn of(alloc: Global, pairs: &List<Pair>) -> Result<Known, Stop>
        ensures read { IfOk result (λ known. known ≡ spec.facts_of pairs.now) }
        ensures stop { IfErr result (λ stop. stop ≡ stops.Memory) }
    {
        let virtuals = virtuals_of(alloc, pairs.as_slice())?;
        let nodes = section_pairs(b"nodes", pairs.as_slice());
        let entries = entries_of(alloc, &virtuals, nodes)?;
        Ok(Known { virtuals, entries })
    }

    /// Whether the text names a virtual node.
    pub fn is_virtual(&self, text: &[u8]) -> bool
        ensures { result ≡ spec.is_virtual_text self.now text.now }
    {
        is_virtual_in(&self.virtuals, text)
    }

    /// The first entry of the path with this final `/` or without it, which alone counts.
    pub fn entry(&self, path: &PathName, slash: bool) -> Option<&Entry>
        ensures { option_copied result ≡ spec.entry_of self.now path.now slash }
    {
        self.entries.entry(path, slash)
    }
}
