//! The reader of a manifest.
ghost use Rattle.std.specs.Prelude.{◌≡◌, ◌⊎◌, Ok, Err, IfOk, IfErr};
ghost use Rattle.manifest_reader.specs.Load as spec;

use crate::error::LoadError;
use crate::sections::parts_of;
use build_manifest::manifest::Manifest;
use std::alloc::Global;
use yaml_profile::read;

/// Reads a manifest: a text of the YAML profile with the sections `client`, `tools`, `targets`, `default`, `nodes` and
/// `commands`, as `docs/MANIFEST.md` says. The first refusal is answered: that of the text, then that of the first part in
/// file order, then the first rule over the whole that is broken. Besides those, want of memory may come at any text.
#[tactic(auto, unfolding(crate::specs::Load::loaded))]
pub fn load(alloc: Global, bytes: &[u8]) -> Result<Manifest, LoadError>
    ensures ok { IfOk result (λ manifest. spec.loaded bytes.now ≡ Ok manifest) }
    ensures refused { IfErr result (λ error. (error ≡ LoadError.NoMemory) ⊎ (spec.loaded bytes.now ≡ Err error)) }
{
    let tree = read(alloc, bytes)?;
    let parts = parts_of(alloc, tree)?;
    let manifest = Manifest::of(alloc, parts.targets, parts.default_name, parts.drafts)?;
    Ok(manifest)
}
