//! Whether a command is plain.
ghost use Rattle.std.specs.Prelude.{◌≡◌, ◌<◌, ◌↔◌, IsTrue, Some, length, slice_get};
ghost use Rattle.std.specs.List.{list_all};
ghost use Rattle.build_manifest.specs.declared.command.Command.{Command as Made};
ghost use Rattle.build_plan.specs.Built.{IsPlain};
ghost use Rattle.build_plan.specs.Plain.{has_plain_flags, has_plain_nodes, has_plain_program, is_plain, is_shell};
ghost use Rattle.build_plan.specs.Plain.{is_file_form, is_file_input, is_file_node};

use build_manifest::command::{Command, Input, InputForm, Tool};
use build_manifest::manifest::Manifest;
use file_info::list::List;
use file_info::node::NodeName;

fn is_shell(tool: Tool) -> bool
    ensures { result ≡ is_shell tool }
{
    match tool {
        Tool::Shell => true,
        Tool::Phony | Tool::Mkdir | Tool::Symlink | Tool::Archive | Tool::StaleFileRemoval => false,
    }
}

fn is_file_node(node: &NodeName) -> bool
    ensures { result ≡ is_file_node node.now }
{
    match node {
        NodeName::Path(_) => true,
        NodeName::Virtual(_) => false,
    }
}

fn is_file_form(form: &InputForm) -> bool
    ensures { result ≡ is_file_form form.now }
{
    match form {
        InputForm::File => true,
        InputForm::Virtual | InputForm::Tree(_) | InputForm::Structure(_) => false,
    }
}

fn is_file_input(input: &Input) -> bool
    ensures { result ≡ is_file_input input.now }
{
    is_file_node(&input.node) && is_file_form(&input.form)
}

/// Whether each of these is a file, read as one.
pub fn are_file_inputs(inputs: &List<Input>) -> bool
    ensures { result ≡ list_all is_file_input inputs.now }
{
    for input in inputs.as_slice() {
        if !is_file_input(input) {
            return false;
        }
    }
    true
}

fn are_file_nodes(nodes: &List<NodeName>) -> bool
    ensures { result ≡ list_all is_file_node nodes.now }
{
    for node in nodes.as_slice() {
        if !is_file_node(node) {
            return false;
        }
    }
    true
}

fn has_plain_nodes(command: &Command) -> bool
    ensures { result ≡ has_plain_nodes command.now }
{
    is_shell(command.tool)
        && are_file_inputs(&command.inputs)
        && command.follow.is_empty()
        && are_file_nodes(&command.outputs)
}

fn has_plain_program(command: &Command) -> bool
    ensures { result ≡ has_plain_program command.now }
{
    command.env.is_empty()
        && command.inherit_env
        && command.deps.is_empty()
        && command.signature.is_none()
}

fn has_plain_flags(command: &Command) -> bool
    ensures { result ≡ has_plain_flags command.now }
{
    !command.allow_missing && !command.always
}

fn is_plain(command: &Command) -> bool
    ensures { result ≡ is_plain command.now }
{
    has_plain_nodes(command) && has_plain_program(command) && has_plain_flags(command)
}

/// Whether the command at a place is plain.
pub fn is_plain_at(manifest: &Manifest, place: usize) -> bool
    requires { place < length manifest.now.commands }
    ensures { (c : Made) → slice_get manifest.now.commands place ≡ Some c → IsTrue result ↔ IsPlain c }
{
    is_plain(manifest.command(place).unwrap())
}
