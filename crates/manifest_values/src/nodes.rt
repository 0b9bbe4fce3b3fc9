//! The nodes of lists.
ghost use Rattle.std.specs.Prelude.{◌≡◌, Ok, IfOk};
ghost use Rattle.std.specs.Option.{option_copied};
ghost use Rattle.manifest_values.specs.Nodes as spec;
ghost use Rattle.manifest_values.specs.Refusal.{Gives};

use crate::known::{Entry, Known};
use crate::refusal::{Stop, bad_path};
use crate::texts::{has_slash, name_of, path_in, text_path};
use build_manifest::command::{Input, InputForm};
use file_info::copied::Copied;
use file_info::list::{Bytes, List};
use file_info::memory::NoMemory;
use file_info::name::Name;
use file_info::node::NodeName;
use file_info::path::PathName;
use std::alloc::Global;

// How a directory is read: a directory, a tree, or a file.
fn plain_form(alloc: Global, slash: bool) -> InputForm
    ensures { result ≡ spec.plain_form slash }
{
    if slash {
        InputForm::Tree(List::new(alloc))
    } else {
        InputForm::File
    }
}

// How a path with this entry is read. The patterns are copied.
fn entry_form(alloc: Global, entry: &Entry, slash: bool) -> Result<InputForm, NoMemory>
    ensures { IfOk result (λ form. form ≡ spec.entry_form entry.now slash) }
{
    if entry.structure {
        let patterns = entry.patterns.copy(alloc)?;
        return Ok(InputForm::Structure(patterns));
    }
    if entry.directory || slash {
        let patterns = entry.patterns.copy(alloc)?;
        return Ok(InputForm::Tree(patterns));
    }
    Ok(InputForm::File)
}

// How the path is read.
fn form_of(
    alloc: Global,
    known: &Known,
    path: &PathName,
    slash: bool,
) -> Result<InputForm, NoMemory>
    ensures { IfOk result (λ form. form ≡ spec.form_in known.now path.now slash) }
{
    match known.entry(path, slash) {
        Some(entry) => entry_form(alloc, entry, slash),
        None => Ok(plain_form(alloc, slash)),
    }
}

// The path of a name that stands with this owner.
#[tactic(auto, unfolding(crate::specs::Nodes::path_of))]
fn name_path(alloc: Global, owner: &[u8], name: &Name) -> Result<PathName, Stop>
    ensures { Gives (λ x. x) result (spec.path_of owner.now name.now) }
{
    match text_path(alloc, name.text())? {
        Some(path) => Ok(path),
        None => Err(bad_path(alloc, owner, name.text().as_bytes())),
    }
}

// The node of a virtual node's text.
fn virtual_input(alloc: Global, written: Name) -> Result<Input, NoMemory>
    ensures { IfOk result (λ input. input ≡ spec.virtual_input written) }
{
    let node = NodeName::Virtual(written.copy(alloc)?);
    Ok(Input {
        written,
        node,
        form: InputForm::Virtual,
    })
}

// The node of a path's text.
fn path_input(alloc: Global, known: &Known, owner: &[u8], written: Name) -> Result<Input, Stop>
    ensures { Gives (λ x. x) result (spec.path_node known.now owner.now written) }
{
    let path = name_path(alloc, owner, &written)?;
    let form = form_of(alloc, known, &path, has_slash(written.text().as_bytes()))?;
    Ok(Input {
        written,
        node: NodeName::Path(path),
        form,
    })
}

/// The node of a text that stands with this owner: the text is a name, and a path where it names no virtual node.
pub fn input_of(alloc: Global, known: &Known, owner: &[u8], text: Bytes) -> Result<Input, Stop>
    ensures { Gives (λ x. x) result (spec.input_of known.now owner.now text) }
{
    let is_virtual = known.is_virtual(text.as_slice());
    let written = name_of(alloc, owner, text)?;
    if !is_virtual {
        return path_input(alloc, known, owner, written);
    }
    let input = virtual_input(alloc, written)?;
    Ok(input)
}

/// The path of a text that stands with this owner.
pub fn path_of(alloc: Global, owner: &[u8], text: Bytes) -> Result<PathName, Stop>
    ensures { Gives (λ x. x) result (spec.path_of owner.now text) }
{
    match path_in(alloc, text.as_slice())? {
        Some(path) => Ok(path),
        None => Err(bad_path(alloc, owner, text.as_slice())),
    }
}

#[cfg(test)]
mod tests {
    use super::*;
    use crate::refusal::copy_of;
    use yaml_profile::{Yaml, read};

    const TEXT: &str = "\
commands:
  clean: {tool: phony, outputs: [all, \"<x>\"]}
  stale: {tool: stale-file-removal, outputs: old}
  odd: {tool: phony, outputs: {main.o: main.o}}
  cc: {tool: shell, outputs: main.o}
nodes:
  gen: {is-virtual: true}
  no: {is-virtual: false}
  src/: {content-exclusion-patterns: [\"*.o\", \"*.d\"]}
  lib: {is-directory: true, content-exclusion-patterns: \"*.a\"}
  inc: {is-directory: true, is-directory-structure: true}
  ./inc: {is-directory: true}
";

    // A text, and of its node the form, the text and how many patterns it has.
    type Row = (&'static str, &'static str, &'static str, usize);

    const ROWS: [Row; 19] = [
        ("", "refused", "", 0),
        ("a\0", "refused", "", 0),
        ("a\n", "refused", "", 0),
        ("/../a", "refused", "", 0),
        ("all", "virtual", "all", 0),
        ("old", "virtual", "old", 0),
        ("gen", "virtual", "gen", 0),
        ("<y>", "virtual", "<y>", 0),
        ("<>", "virtual", "<>", 0),
        ("<", "file", "<", 0),
        ("no", "file", "no", 0),
        ("main.o", "file", "main.o", 0),
        ("./gen", "file", "gen", 0),
        ("src", "file", "src", 0),
        ("./src//", "tree", "src", 2),
        ("a/../lib", "tree", "lib", 1),
        ("lib/", "tree", "lib", 0),
        ("x/inc/..", "file", "x", 0),
        ("x/../inc", "structure", "inc", 0),
    ];

    // How the form is called, and how many patterns it has.
    fn form_name(form: &InputForm) -> (&'static str, usize) {
        match form {
            InputForm::File => ("file", 0),
            InputForm::Virtual => ("virtual", 0),
            InputForm::Tree(patterns) => ("tree", patterns.len()),
            InputForm::Structure(patterns) => ("structure", patterns.len()),
        }
    }

    // What is known from the text.
    fn known(alloc: Global) -> Option<Known> {
        match read(alloc, TEXT.as_bytes()) {
            Ok(Yaml::Map(pairs)) => Known::of(alloc, &pairs).ok(),
            _ => None,
        }
    }

    // Whether the text's node is so.
    fn is_row(alloc: Global, known: &Known, row: &Row) -> bool {
        let Ok(text) = copy_of(alloc, row.0.as_bytes()) else {
            return false;
        };
        match input_of(alloc, known, b"owner", text) {
            Ok(input) => { form_name(&input.form) == (row.1, row.3) && input.node.text() == row.2 }
            Err(stop) => matches!(stop, Stop::Refused(_)) && row.1 == "refused",
        }
    }

    #[test]
    fn nodes_are_read_as_is_known(rt: HostRuntime) {
        let known = known(rt.alloc());
        assert!(rt; known.is_some());
        if let Some(known) = known {
            for row in &ROWS {
                assert!(rt; is_row(rt.alloc(), &known, row), "at {:?}", row.0);
            }
        }
    }
}
