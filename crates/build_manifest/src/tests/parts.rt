//! The parts of small manifests.
ghost use Rattle.std.specs.Prelude.{◌≡◌, ◌≤◌, ◌+◌, ◌∷◌, ℕ, List as Items, [], length, IfOk};
ghost use Rattle.file_info.specs.Lists.{In};
ghost use Rattle.file_info.specs.Normal.{IsPath};
ghost use Rattle.build_manifest.specs.Command.{AreInputs, IsCommand, IsNode, IsRead, IsTarget};
ghost use Rattle.build_manifest.specs.Places.{command_names, target_names};
ghost use Rattle.build_manifest.specs.Rules.{commands_of};
ghost use Rattle.file_info.specs.declared.node.NodeName.{NodeName as Node};
ghost use Rattle.build_manifest.specs.declared.command.Command.{Command as Made};
ghost use Rattle.build_manifest.specs.declared.command.TargetEntry.{TargetEntry as Aim};

use crate::command::{Args, Command, Input, InputForm, TargetEntry, Tool};
use crate::draft::{DirectoryOutput, Draft};
use crate::fault::RuleFault;
use crate::manifest::Manifest;
use file_info::list::List;
use file_info::name::Name;
use file_info::node::NodeName;
use file_info::path::PathName;
use std::alloc::Global;
use std::test::Fail;

/// The input, the node that it follows, the outputs and the dependency files of a command. An empty text stands for none.
pub type Row = (
    &'static str,
    &'static str,
    (&'static str, &'static str),
    (&'static str, &'static str),
);

fn name(alloc: Global, text: &str) -> Result<Name, Fail>
    ensures { IfOk result (λ name. name ≡ text.now) }
{
    Ok(Name::read(alloc, text)?)
}

/// A path.
pub fn path(alloc: Global, text: &str) -> Result<PathName, Fail>
    ensures { IfOk result (λ path. IsPath path) }
{
    let path = PathName::read(alloc, text)?;
    let _text = path.text();
    Ok(path)
}

fn virtual_node(alloc: Global, text: &str) -> Result<NodeName, Fail>
    ensures { IfOk result (λ node. IsNode node) }
{
    let name = Name::read(alloc, text)?;
    let _text = name.text();
    Ok(NodeName::Virtual(name))
}

/// A virtual node where the text begins with `<`, and else a path.
pub fn node(alloc: Global, text: &str) -> Result<NodeName, Fail>
    ensures { IfOk result (λ node. IsNode node) }
{
    if text.starts_with('<') {
        return virtual_node(alloc, text);
    }
    Ok(NodeName::Path(path(alloc, text)?))
}

fn input(alloc: Global, text: &str) -> Result<Input, Fail>
    ensures { IfOk result (λ input. IsRead input.node input.form) }
{
    let written = name(alloc, text)?;
    let node = node(alloc, text)?;
    let form = match &node {
        NodeName::Path(_) => InputForm::File,
        NodeName::Virtual(_) => InputForm::Virtual,
    };
    Ok(Input {
        written,
        node,
        form,
    })
}

fn inputs(alloc: Global, first: &str, second: &str) -> Result<List<Input>, Fail>
    ensures are { IfOk result (λ inputs. AreInputs inputs) }
    ensures few { IfOk result (λ inputs. length inputs ≤ 2) }
{
    let mut inputs = List::new(alloc);
    if first != "" {
        inputs.push(input(alloc, first)?)?;
    }
    if second != "" {
        inputs.push(input(alloc, second)?)?;
    }
    Ok(inputs)
}

fn nodes(alloc: Global, first: &str, second: &str) -> Result<List<NodeName>, Fail>
    ensures are { IfOk result (λ nodes. (n : Node) → In n nodes → IsNode n) }
    ensures few { IfOk result (λ nodes. length nodes ≤ 2) }
{
    let mut nodes = List::new(alloc);
    if first != "" {
        nodes.push(node(alloc, first)?)?;
    }
    if second != "" {
        nodes.push(node(alloc, second)?)?;
    }
    Ok(nodes)
}

fn paths(alloc: Global, first: &str, second: &str) -> Result<List<PathName>, Fail>
    ensures are { IfOk result (λ paths. (p : Items ℕ) → In p paths → IsPath p) }
    ensures few { IfOk result (λ paths. length paths ≤ 2) }
{
    let mut paths = List::new(alloc);
    if first != "" {
        paths.push(path(alloc, first)?)?;
    }
    if second != "" {
        paths.push(path(alloc, second)?)?;
    }
    Ok(paths)
}

// The first output that ends with `/`.
fn directory(alloc: Global, first: &str, second: &str) -> Result<Option<DirectoryOutput>, Fail> {
    for (place, text) in [first, second].iter().enumerate() {
        if text.ends_with('/') {
            let written = name(alloc, text)?;
            return Ok(Some(DirectoryOutput { place, written }));
        }
    }
    Ok(None)
}

// A command of these parts that runs an empty line.
fn shell(
    alloc: Global,
    name: Name,
    inputs: List<Input>,
    follow: List<Input>,
    outputs: List<NodeName>,
    deps: List<PathName>,
) -> Command
    requires few_nodes { length inputs + length follow ≤ 4 }
    requires few_outputs { length outputs ≤ 2 }
    requires few_deps { length deps ≤ 2 }
    requires inputs { AreInputs inputs }
    requires follow { AreInputs follow }
    requires outputs { (n : Node) → In n outputs → IsNode n }
    requires deps { (p : Items ℕ) → In p deps → IsPath p }
    ensures is { IsCommand result }
    ensures named { result.name ≡ name }
{
    let mut command = Command::bare(alloc, name, Tool::Shell);
    command.inputs = inputs;
    command.follow = follow;
    command.outputs = outputs;
    command.args = Args::Line(List::new(alloc));
    command.deps = deps;
    command
}

fn command(alloc: Global, text: &str, row: &Row) -> Result<Command, Fail>
    ensures is { IfOk result (λ command. IsCommand command) }
    ensures named { IfOk result (λ command. command.name ≡ text.now) }
{
    let (input, follow, outputs, deps) = *row;
    let name = name(alloc, text)?;
    let read = inputs(alloc, input, "")?;
    let follow = inputs(alloc, follow, "")?;
    let outputs = nodes(alloc, outputs.0, outputs.1)?;
    let deps = paths(alloc, deps.0, deps.1)?;
    Ok(shell(alloc, name, read, follow, outputs, deps))
}

fn draft(alloc: Global, text: &str, row: &Row) -> Result<Draft, Fail>
    ensures is { IfOk result (λ draft. IsCommand draft.command) }
    ensures named { IfOk result (λ draft. draft.command.name ≡ text.now) }
{
    let command = command(alloc, text, row)?;
    let directory = directory(alloc, row.2.0, row.2.1)?;
    Ok(Draft { command, directory })
}

fn target(alloc: Global, text: &str, first: &str, second: &str) -> Result<TargetEntry, Fail>
    ensures is { IfOk result (λ target. IsTarget target) }
    ensures named { IfOk result (λ target. target.name ≡ text.now) }
{
    let name = name(alloc, text)?;
    let nodes = inputs(alloc, first, second)?;
    Ok(TargetEntry { name, nodes })
}

// The targets `a` and `b`.
fn targets(alloc: Global) -> Result<List<TargetEntry>, Fail>
    ensures are { IfOk result (λ targets. (t : Aim) → In t targets → IsTarget t) }
    ensures named { IfOk result (λ targets. target_names targets ≡ (97 ∷ []) ∷ (98 ∷ []) ∷ []) }
{
    let mut targets = List::new(alloc);
    targets.push(target(alloc, "a", "u", "<all>")?)?;
    targets.push(target(alloc, "b", "n", "")?)?;
    Ok(targets)
}

// The commands `p`, `q`, which is this one, and `r`.
fn drafts(alloc: Global, row: &Row) -> Result<List<Draft>, Fail>
    ensures are { IfOk result (λ drafts. (c : Made) → In c (commands_of drafts) → IsCommand c) }
    ensures named { IfOk result (λ drafts. command_names (commands_of drafts) ≡ (112 ∷ []) ∷ (113 ∷ []) ∷ (114 ∷ []) ∷ []) }
{
    let mut drafts = List::new(alloc);
    drafts.push(draft(alloc, "p", &("s", "f", ("t", ""), ("p.d", "")))?)?;
    drafts.push(draft(alloc, "q", row)?)?;
    drafts.push(draft(alloc, "r", &("", "", ("<all>", ""), ("", "")))?)?;
    Ok(drafts)
}

fn default_of(alloc: Global, text: &str) -> Result<Option<Name>, Fail> {
    if text == "" {
        return Ok(None);
    }
    Ok(Some(name(alloc, text)?))
}

/// The manifest with this default and this command `q`.
pub fn manifest(
    alloc: Global,
    default: &str,
    row: &Row,
) -> Result<Result<Manifest, RuleFault>, Fail> {
    let targets = targets(alloc)?;
    let default = default_of(alloc, default)?;
    let drafts = drafts(alloc, row)?;
    Ok(Manifest::of(alloc, targets, default, drafts))
}
