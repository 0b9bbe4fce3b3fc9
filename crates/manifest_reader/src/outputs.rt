//! The outputs of a command.
ghost use Rattle.std.specs.Prelude.{◌≡◌, Some};
ghost use Rattle.std.specs.Option.{option_or};
ghost use Rattle.manifest_values.specs.declared.refusal.Stop.TheVariants as stops;
ghost use Rattle.std.specs.Prelude.{OnOk, IfErr};
ghost use Rattle.manifest_reader.specs.Commands as spec;

use build_manifest::command::{Input, InputForm};
use build_manifest::draft::{DirectoryOutput, Draft};
use file_info::list::List;
use file_info::name::Name;
use file_info::node::NodeName;
use manifest_values::refusal::Stop;
use std::alloc::Global;

// Whether the node is read as a directory.
fn is_directory(form: &InputForm) -> bool
    ensures { result ≡ spec.is_directory form.now }
{
    match form {
        InputForm::File | InputForm::Virtual => false,
        InputForm::Tree(_) | InputForm::Structure(_) => true,
    }
}

// The directory that was found, or else this output, where it is one.
fn first_directory(
    found: Option<DirectoryOutput>,
    place: usize,
    written: Name,
    form: &InputForm,
) -> Option<DirectoryOutput>
    ensures { result ≡ option_or found (spec.directory_at place written form.now) }
{
    match found {
        Some(first) => Some(first),
        None => {
            if is_directory(form) {
                return Some(DirectoryOutput { place, written });
            }
            None
        }
    }
}

/// Sets the outputs of a draft.
pub fn set_outputs(alloc: Global, draft: &mut Draft, outputs: List<Input>) -> Result<(), Stop>
    ensures ok { OnOk result (draft.new ≡ spec.with_outputs draft.old outputs) }
    ensures err { IfErr result (λ stop. stop ≡ stops.Memory) }
{
    let mut nodes: List<NodeName> = List::new(alloc);
    nodes.reserve(outputs.len())?;
    let mut directory = None;
    for output in outputs.into_vec() {
        let Input {
            written,
            node,
            form,
        } = output;
        directory = first_directory(directory, nodes.len(), written, &form);
        nodes.push(node)?;
    }
    draft.command.outputs = nodes;
    draft.directory = directory;
    Ok(())
}
