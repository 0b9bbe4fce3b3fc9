//! The parts of a signature, each added to a buffer. They fail only for want of memory, and may have added a part of it then.
ghost use Rattle.std.specs.Prelude.{◌≡◌, ◌∷◌, ◌++◌, map, OnOk};
ghost use Rattle.file_info.specs.Content.{node_text};
ghost use Rattle.spelling.specs.Spelling.{text_bytes, list_bytes, node_bytes};
ghost use Rattle.outside.specs.Meaning.{key_bytes, env_bytes};
ghost use Rattle.build_meaning.specs.Commands.{key_of, variable_of};
ghost use Rattle.tool_commands.specs.Program.{program_bytes, definition_bytes};

use build_keys::write::push_texts;
use build_manifest::command::{Args, Command, EnvPair, Input, InputForm};
use file_info::list::{Bytes, List};
use file_info::memory::NoMemory;
use file_info::node::NodeName;
use file_info::path::PathName;
use spelling::{push_count, push_flag, push_node, push_text};

// The first bytes of the keys of nodes, trees and structures.
const NODE: u8 = 3;

const TREE: u8 = 5;

const STRUCTURE: u8 = 6;

// Adds a tag, the text of a node, and patterns.
fn push_listed(
    out: &mut Vec<u8>,
    tag: u8,
    node: &NodeName,
    patterns: &List<Bytes>,
) -> Result<(), NoMemory>
    ensures { OnOk result (out.new.items ≡ out.old.items ++ tag ∷ text_bytes (node_text node.now) ++ list_bytes text_bytes patterns.now) }
{
    out.push(tag)?;
    push_text(out, node.text().as_bytes())?;
    push_texts(out, patterns)
}

// Adds what an input asks.
fn push_key(out: &mut Vec<u8>, input: &Input) -> Result<(), NoMemory>
    ensures { OnOk result (out.new.items ≡ out.old.items ++ key_bytes (key_of input.now)) }
{
    match &input.form {
        InputForm::File | InputForm::Virtual => {
            out.push(NODE)?;
            push_node(out, &input.node)
        }
        InputForm::Tree(patterns) => push_listed(out, TREE, &input.node, patterns),
        InputForm::Structure(patterns) => push_listed(out, STRUCTURE, &input.node, patterns),
    }
}

/// Adds what each input asks, after their count.
pub fn push_keys(out: &mut Vec<u8>, inputs: &List<Input>) -> Result<(), NoMemory>
    ensures { OnOk result (out.new.items ≡ out.old.items ++ list_bytes key_bytes (map key_of inputs.now)) }
{
    push_count(out, inputs.len())?;
    for input in inputs.as_slice() {
        push_key(out, input)?;
    }
    Ok(())
}

/// Adds nodes after their count.
pub fn push_nodes(out: &mut Vec<u8>, nodes: &List<NodeName>) -> Result<(), NoMemory>
    ensures { OnOk result (out.new.items ≡ out.old.items ++ list_bytes node_bytes nodes.now) }
{
    push_count(out, nodes.len())?;
    for node in nodes.as_slice() {
        push_node(out, node)?;
    }
    Ok(())
}

// Adds variables after their count.
fn push_env(out: &mut Vec<u8>, env: &List<EnvPair>) -> Result<(), NoMemory>
    ensures { OnOk result (out.new.items ≡ out.old.items ++ list_bytes env_bytes (map variable_of env.now)) }
{
    push_count(out, env.len())?;
    for pair in env.as_slice() {
        push_text(out, pair.name.as_slice())?;
        push_text(out, pair.text.as_slice())?;
    }
    Ok(())
}

/// Adds paths after their count.
pub fn push_paths(out: &mut Vec<u8>, paths: &List<PathName>) -> Result<(), NoMemory>
    ensures { OnOk result (out.new.items ≡ out.old.items ++ list_bytes text_bytes paths.now) }
{
    push_count(out, paths.len())?;
    for path in paths.as_slice() {
        push_text(out, path.text().as_bytes())?;
    }
    Ok(())
}

// Adds the words or the line that is run.
fn push_args(out: &mut Vec<u8>, args: &Args) -> Result<(), NoMemory>
    ensures { OnOk result (out.new.items ≡ out.old.items ++ program_bytes args.now) }
{
    match args {
        Args::Absent => {
            out.push(0)?;
            push_count(out, 0)
        }
        Args::Words(words) => {
            out.push(0)?;
            push_texts(out, words)
        }
        Args::Line(line) => {
            out.push(1)?;
            push_count(out, 1)?;
            push_text(out, line.as_slice())
        }
    }
}

/// Adds what is run: a signature of the command's own, or else its words and its variables.
pub fn push_program(out: &mut Vec<u8>, command: &Command) -> Result<(), NoMemory>
    ensures { OnOk result (out.new.items ≡ out.old.items ++ definition_bytes command.now.signature command.now.args command.now.env) }
{
    match &command.signature {
        Some(signature) => {
            push_flag(out, true)?;
            push_text(out, signature.as_slice())
        }
        None => {
            push_flag(out, false)?;
            push_args(out, &command.args)?;
            push_env(out, &command.env)
        }
    }
}
