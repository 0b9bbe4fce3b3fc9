//! The signatures of commands, targets and nodes.
ghost use Rattle.std.specs.Prelude.{◌≡◌, ◌++◌, map, IfOk, OnOk};
ghost use Rattle.std.specs.Option.{option_copied};
ghost use Rattle.outside.specs.Meaning.{group_of, tool_bytes, signature_of};
ghost use Rattle.build_meaning.specs.Commands.{tool_in, meaning_of};
ghost use Rattle.tool_commands.specs.Signatures.{shell_meaning, target_signature, are_alike, is_same, place_among, node_signature};

use crate::parts::{push_keys, push_nodes, push_paths, push_program};
use build_manifest::command::{Command, TargetEntry, Tool};
use file_info::list::{Bytes, List};
use file_info::memory::NoMemory;
use file_info::node::NodeName;
use spelling::{push_count, push_flag, push_text};
use std::alloc::Global;

// The byte that begins the signature of a command, by its tool.
fn group_byte(command: &Command) -> u8
    ensures { result ≡ group_of (tool_in command.now.tool command.now) }
{
    match command.tool {
        Tool::Phony => 0,
        Tool::Shell => 1,
        Tool::Mkdir => 2,
        Tool::Symlink => 3,
        Tool::Archive => 4,
        Tool::StaleFileRemoval => 5,
    }
}

// Adds what a shell command hands its tool.
fn push_shell(out: &mut Vec<u8>, command: &Command) -> Result<(), NoMemory>
    ensures { OnOk result (out.new.items ≡ out.old.items ++ tool_bytes (shell_meaning command.now)) }
{
    push_program(out, command)?;
    push_flag(out, command.inherit_env)?;
    push_paths(out, &command.deps)
}

// Adds what a command hands its tool.
fn push_tool(out: &mut Vec<u8>, command: &Command) -> Result<(), NoMemory>
    ensures { OnOk result (out.new.items ≡ out.old.items ++ tool_bytes (tool_in command.now.tool command.now)) }
{
    match command.tool {
        Tool::Phony => Ok(()),
        Tool::Shell => push_shell(out, command),
        Tool::Mkdir => Ok(()),
        Tool::Symlink => push_text(out, command.contents.as_slice()),
        Tool::Archive => Ok(()),
        Tool::StaleFileRemoval => {
            push_paths(out, &command.expected)?;
            push_paths(out, &command.roots)
        }
    }
}

/// Adds the signature of a command to a buffer, which may be used again for the next one. It fails only for want of memory,
/// and may have added a part of the signature then.
pub fn push_signature(out: &mut Vec<u8>, command: &Command) -> Result<(), NoMemory>
    ensures { OnOk result (out.new.items ≡ out.old.items ++ signature_of (meaning_of command.now)) }
{
    out.push(group_byte(command))?;
    push_keys(out, &command.inputs)?;
    push_keys(out, &command.follow)?;
    push_nodes(out, &command.outputs)?;
    push_flag(out, command.allow_missing)?;
    push_flag(out, command.always)?;
    push_tool(out, command)
}

/// The signature of a command: the canonical text of what it means. Two commands of a manifest have the same one exactly
/// where they mean the same, as the law `same_text_is_same_meaning` says. It fails for want of memory alone.
pub fn signature(alloc: Global, command: &Command) -> Result<Bytes, NoMemory>
    ensures { IfOk result (λ text. text ≡ signature_of (meaning_of command.now)) }
{
    let mut out = Vec::new(alloc);
    push_signature(&mut out, command)?;
    Ok(List::from_vec(out))
}

/// Adds the signature of a target to a buffer: what its nodes ask. It fails only for want of memory, and may have added a
/// part of the signature then.
pub fn push_target_signature(out: &mut Vec<u8>, target: &TargetEntry) -> Result<(), NoMemory>
    ensures { OnOk result (out.new.items ≡ out.old.items ++ target_signature target.now) }
{
    push_keys(out, &target.nodes)
}

// Whether both are paths, or both are virtual.
fn alike(node: &NodeName, other: &NodeName) -> bool
    ensures { result ≡ are_alike node.now other.now }
{
    match (node, other) {
        (NodeName::Path(_), NodeName::Path(_)) => true,
        (NodeName::Path(_), NodeName::Virtual(_)) => false,
        (NodeName::Virtual(_), NodeName::Path(_)) => false,
        (NodeName::Virtual(_), NodeName::Virtual(_)) => true,
    }
}

// Whether they are one node.
fn one_node(node: &NodeName, other: &NodeName) -> bool
    ensures { result ≡ is_same node.now other.now }
{
    match (node, other) {
        (NodeName::Path(path), NodeName::Path(other)) => path.text() == other.text(),
        (NodeName::Path(_), NodeName::Virtual(_)) => false,
        (NodeName::Virtual(_), NodeName::Path(_)) => false,
        (NodeName::Virtual(name), NodeName::Virtual(other)) => name.text() == other.text(),
    }
}

// The place of a node among the nodes of its sort.
fn place_of(node: &NodeName, nodes: &[NodeName]) -> usize
    ensures { result ≡ place_among node.now nodes.now }
{
    let mut place = 0;
    for other in nodes {
        if one_node(node, other) {
            return place;
        }
        if alike(node, other) {
            place += 1;
        }
    }
    place
}

/// Adds the signature of a node to a buffer: whether a command makes it, and if so the command's name, and the node's place
/// among the command's outputs of its sort, paths or virtual nodes, counted from 0. It fails only for want of memory, and may
/// have added a part of the signature then.
pub fn push_node_signature(
    out: &mut Vec<u8>,
    maker: Option<&Command>,
    node: &NodeName,
) -> Result<(), NoMemory>
    ensures { OnOk result (out.new.items ≡ out.old.items ++ node_signature (option_copied maker.entry) node.now) }
{
    match maker {
        None => push_flag(out, false),
        Some(maker) => {
            push_flag(out, true)?;
            push_text(out, maker.name.text().as_bytes())?;
            push_count(out, place_of(node, maker.outputs.as_slice()))
        }
    }
}
