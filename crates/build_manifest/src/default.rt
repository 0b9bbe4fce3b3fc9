//! The rule over the default.
ghost use Rattle.std.specs.Prelude.{◌≡◌, ℕ, List as Items, IfOk};
ghost use Rattle.indexmap.specs.IndexMap.{get_by_text};
ghost use Rattle.build_manifest.specs.Judged.{Judges};
ghost use Rattle.build_manifest.specs.Places.{target_place};
ghost use Rattle.build_manifest.specs.Rules as spec;

use crate::command::TargetEntry;
use crate::fault::RuleFault;
use crate::places::Places;
use file_info::list::List;
use file_info::name::Name;

/// The place of the target that the default names, where these are the places of the targets. A name that no target has is a
/// fault.
pub fn default_place(
    targets: &List<TargetEntry>,
    places: &Places,
    default: Option<Name>,
) -> Result<Option<usize>, RuleFault>
    requires { (q : Items ℕ) → get_by_text places.now q ≡ target_place targets.now q }
    ensures judged { Judges result (spec.default_fault targets.now default) }
    ensures place { IfOk result (λ place. place ≡ spec.default_place_of targets.now default) }
{
    let Some(name) = default else {
        return Ok(None);
    };
    match places.get(name.text()).copied() {
        Some(place) => Ok(Some(place)),
        None => Err(RuleFault::UnknownDefault { name }),
    }
}
