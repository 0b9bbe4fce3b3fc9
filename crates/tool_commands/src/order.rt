//! The order that a command gives.
ghost use Rattle.std.specs.Prelude.{◌≡◌, ◌++◌, ◌∷◌, [], map, IfOk, OnOk, option_to_list};
ghost use Rattle.std.specs.Option.{option_copied};
ghost use Rattle.file_info.specs.Lists.{IsDistinct};
ghost use Rattle.outside.specs.Meaning.{signature_of};
ghost use Rattle.outside.specs.OrderForm.{AreReadsOf, IsOrderOf, archive_words, files_of, paths_of};
ghost use Rattle.build_manifest.specs.Command.{IsCommand};
ghost use Rattle.build_meaning.specs.Commands.{key_of, variable_of, meaning_of};
ghost use Rattle.tool_commands.specs.Acts.{HasOrder, IsActFor};
ghost use Rattle.tool_commands.specs.Program.{words_of};

use build_manifest::command::{Args, Command, EnvPair, Input, InputForm, Tool};
use file_info::copied::Copied;
use file_info::list::{Bytes, List};
use file_info::memory::NoMemory;
use file_info::node::{NodeName, Read};
use file_info::path::PathName;
use outside::order::{Act, EnvText, Order};
use std::alloc::Global;

// The variables that are set for a command.
fn variables(alloc: Global, env: &List<EnvPair>) -> Result<List<EnvText>, NoMemory>
    ensures { IfOk result (λ variables. variables ≡ map variable_of env.now) }
{
    let mut variables = List::new(alloc);
    for pair in env.as_slice() {
        variables.push(EnvText {
            name: pair.name.copy(alloc)?,
            text: pair.text.copy(alloc)?,
        })?;
    }
    Ok(variables)
}

fn word(alloc: Global, text: &[u8]) -> Result<Bytes, NoMemory>
    ensures { IfOk result (λ word. word ≡ text.now) }
{
    Ok(List::from_vec(Vec::from_slice(alloc, text)?))
}

// The words of a command, or those that hand its line to the shell.
fn words(alloc: Global, args: &Args) -> Result<List<Bytes>, NoMemory>
    ensures { IfOk result (λ words. words ≡ words_of args.now) }
{
    match args {
        Args::Absent => Ok(List::new(alloc)),
        Args::Words(words) => words.copy(alloc),
        Args::Line(line) => {
            let mut words = List::new(alloc);
            words.push(word(alloc, b"/bin/sh")?)?;
            words.push(word(alloc, b"-c")?)?;
            words.push(line.copy(alloc)?)?;
            Ok(words)
        }
    }
}

// The paths among the nodes, in order.
fn paths(alloc: Global, nodes: &List<NodeName>) -> Result<List<PathName>, NoMemory>
    ensures { IfOk result (λ paths. paths ≡ paths_of nodes.now) }
{
    let mut paths = List::new(alloc);
    for node in nodes.as_slice() {
        match node {
            NodeName::Path(path) => paths.push(path.copy(alloc)?)?,
            NodeName::Virtual(_) => {}
        }
    }
    Ok(paths)
}

// Adds a path to words.
fn add_path(alloc: Global, words: &mut List<Bytes>, path: &PathName) -> Result<(), NoMemory>
    ensures { OnOk result (words.new ≡ words.old ++ path.now ∷ []) }
{
    words.push(word(alloc, path.text().as_bytes())?)
}

// Adds the paths among the nodes to words, in order.
fn add_paths(alloc: Global, words: &mut List<Bytes>, nodes: &List<NodeName>) -> Result<(), NoMemory>
    ensures { OnOk result (words.new ≡ words.old ++ paths_of nodes.now) }
{
    for node in nodes.as_slice() {
        match node {
            NodeName::Path(path) => add_path(alloc, words, path)?,
            NodeName::Virtual(_) => {}
        }
    }
    Ok(())
}

// The path of an input that is a file node.
fn file_of(input: &Input) -> Option<&PathName>
    ensures { option_to_list (option_copied result) ≡ files_of (key_of input.now ∷ []) }
{
    match (&input.form, &input.node) {
        (InputForm::File, NodeName::Path(path)) => Some(path),
        (InputForm::Virtual, NodeName::Path(path)) => Some(path),
        _ => None,
    }
}

// Adds the paths of the file nodes among the inputs to words, in order.
fn add_files(alloc: Global, words: &mut List<Bytes>, inputs: &List<Input>) -> Result<(), NoMemory>
    ensures { OnOk result (words.new ≡ words.old ++ files_of (map key_of inputs.now)) }
{
    for input in inputs.as_slice() {
        if let Some(path) = file_of(input) {
            add_path(alloc, words, path)?;
        }
    }
    Ok(())
}

// The words that make an archive.
fn archive(alloc: Global, command: &Command) -> Result<List<Bytes>, NoMemory>
    ensures { IfOk result (λ words. words ≡ archive_words (meaning_of command.now)) }
{
    let mut words = List::new(alloc);
    words.push(word(alloc, b"ar")?)?;
    words.push(word(alloc, b"cr")?)?;
    add_paths(alloc, &mut words, &command.outputs)?;
    add_files(alloc, &mut words, &command.inputs)?;
    Ok(words)
}

// What is done for a command.
fn act_of(alloc: Global, command: &Command) -> Result<Act, NoMemory>
    requires { HasOrder command.now.tool }
    ensures { IfOk result (λ act. IsActFor command.now command.now.tool act) }
{
    match command.tool {
        Tool::Phony => unreachable!(),
        Tool::Shell => Ok(Act::Spawn {
            words: words(alloc, &command.args)?,
            env: variables(alloc, &command.env)?,
            inherit_env: command.inherit_env,
            clear: false,
        }),
        Tool::Mkdir => Ok(Act::MakeDir),
        Tool::Symlink => Ok(Act::MakeLink {
            text: command.contents.copy(alloc)?,
        }),
        Tool::Archive => Ok(Act::Spawn {
            words: archive(alloc, command)?,
            env: List::new(alloc),
            inherit_env: true,
            clear: true,
        }),
        Tool::StaleFileRemoval => unreachable!(),
    }
}

/// The order of a command of a manifest on what was read of its inputs, where something is done for its tool. The signature is
/// the one that was written of it. The ticket is 0, and there are no links: who starts the order sets both. It fails for want of
/// memory alone.
pub fn order_of(
    alloc: Global,
    command: &Command,
    signature: Bytes,
    reads: List<Read>,
) -> Result<Order, NoMemory>
    requires command { IsCommand command.now }
    requires served { HasOrder command.now.tool }
    requires signature { signature ≡ signature_of (meaning_of command.now) }
    ensures names { IfOk result (λ order. (order.ticket ≡ 0) × (order.command ≡ command.now.name) × (order.signature ≡ signature)) }
    ensures act { IfOk result (λ order. IsActFor command.now command.now.tool order.act) }
    ensures reads { IfOk result (λ order. order.reads ≡ reads) }
    ensures outputs { IfOk result (λ order. order.outputs ≡ paths_of command.now.outputs) }
    ensures deps { IfOk result (λ order. (order.deps ≡ command.now.deps) × (order.links ≡ [])) }
    ensures formed { AreReadsOf (meaning_of command.now).inputs reads → IsDistinct (paths_of command.now.outputs)
        → IfOk result (IsOrderOf (meaning_of command.now)) }
{
    let act = act_of(alloc, command)?;
    Ok(Order {
        ticket: 0,
        command: command.name.copy(alloc)?,
        signature,
        act,
        reads,
        outputs: paths(alloc, &command.outputs)?,
        deps: command.deps.copy(alloc)?,
        links: List::new(alloc),
    })
}

#[cfg(test)]
mod tests;
