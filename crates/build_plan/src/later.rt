//! Inputs that are made later than they are read.
ghost use Rattle.std.specs.Prelude.{◌≡◌, ◌<◌, ◌↔◌, IsTrue, MatchOption, Some, length, slice_get};
ghost use Rattle.build_manifest.specs.declared.command.Command.{Command as Made};
ghost use Rattle.build_manifest.specs.Manifest.{IsManifest};
ghost use Rattle.build_plan.specs.Built.{AreEarlier, AreFiles, IsFileInput, IsMadeLater, IsPlain};
ghost use Rattle.build_plan.specs.Plain.{is_from};
ghost use Rattle.build_plan.specs.Unbuilt.{IsFirstLaterAt};

use build_manifest::command::Input;
use build_manifest::manifest::Manifest;
use file_info::list::List;

// Whether a maker stands at this place or after it.
fn is_from(place: usize, maker: Option<usize>) -> bool
    ensures { result ≡ is_from place maker }
{
    match maker {
        Some(maker) => place <= maker,
        None => false,
    }
}

// Whether the input is made by the command at this place or a later one.
fn is_later(manifest: &Manifest, input: &Input, place: usize) -> bool
    requires kept { IsManifest manifest.now }
    requires file { IsFileInput input.now }
    ensures { IsTrue result ↔ IsMadeLater manifest.now.commands place input.now }
{
    is_from(place, manifest.maker(&input.node))
}

// The place of the first of these inputs that is made by the command at a place or a later one.
fn first_later(manifest: &Manifest, inputs: &List<Input>, place: usize) -> Option<usize>
    requires kept { IsManifest manifest.now }
    requires files { AreFiles inputs.now }
    ensures { MatchOption result (AreEarlier manifest.now.commands place inputs.now)
        (λ at. IsFirstLaterAt manifest.now.commands place inputs.now at) }
{
    for (at, input) in inputs.as_slice().iter().enumerate() {
        if is_later(manifest, input, place) {
            return Some(at);
        }
    }
    None
}

/// The place of the first input of the command at a place that it or a later command makes.
pub fn later_input(manifest: &Manifest, place: usize) -> Option<usize>
    requires kept { IsManifest manifest.now }
    requires within { place < length manifest.now.commands }
    requires plain { (c : Made) → slice_get manifest.now.commands place ≡ Some c → IsPlain c }
    ensures { (c : Made) → slice_get manifest.now.commands place ≡ Some c
        → MatchOption result (AreEarlier manifest.now.commands place c.inputs)
        (λ at. IsFirstLaterAt manifest.now.commands place c.inputs at) }
{
    first_later(manifest, &manifest.command(place).unwrap().inputs, place)
}
