//! Places in a list, by texts.
ghost use Rattle.std.specs.Prelude.{◌≡◌, ℕ, List as Items, Some, cond, bytes_eq, IsTrue, OnOk, IfOk};
ghost use Rattle.indexmap.specs.IndexMap.{get_by_text};
ghost use Rattle.build_manifest.specs.Distinct.{differ};
ghost use Rattle.build_manifest.specs.Places.{command_place, command_names, target_place, target_names};
ghost use Rattle.build_manifest.specs.Rules.{commands_of};

use crate::command::TargetEntry;
use crate::draft::Draft;
use file_info::list::List;
use file_info::memory::NoMemory;
use indexmap::IndexMap;
use std::alloc::Global;

/// Places in a list, by texts.
pub type Places = IndexMap<String, usize>;

/// Notes the place of a text instead of the one that it had, and answers that.
pub fn note(
    alloc: Global,
    places: &mut Places,
    text: &str,
    place: usize,
) -> Result<Option<usize>, NoMemory>
    ensures found { IfOk result (λ found. found ≡ get_by_text places.old text.now) }
    ensures noted { OnOk result ((q : Items ℕ) → get_by_text places.new q ≡ cond (bytes_eq q text.now) (Some place) (get_by_text places.old q)) }
{
    let text = String::from_str(alloc, text)?;
    Ok(places.insert(text, place)?)
}

/// The places of the targets by their names, of which no two are the same.
pub fn target_places(alloc: Global, targets: &List<TargetEntry>) -> Result<Places, NoMemory>
    requires { IsTrue (differ bytes_eq (target_names targets.now)) }
    ensures placed { IfOk result (λ places. (q : Items ℕ) → get_by_text places q ≡ target_place targets.now q) }
{
    let mut places = IndexMap::new(alloc);
    for (place, target) in targets.as_slice().iter().enumerate() {
        note(alloc, &mut places, target.name.text(), place)?;
    }
    Ok(places)
}

/// The places of the commands of drafts by their names, of which no two are the same.
pub fn command_places(alloc: Global, drafts: &List<Draft>) -> Result<Places, NoMemory>
    requires { IsTrue (differ bytes_eq (command_names (commands_of drafts.now))) }
    ensures placed { IfOk result (λ places. (q : Items ℕ) → get_by_text places q ≡ command_place (commands_of drafts.now) q) }
{
    let mut places = IndexMap::new(alloc);
    for (place, draft) in drafts.as_slice().iter().enumerate() {
        note(alloc, &mut places, draft.command.name.text(), place)?;
    }
    Ok(places)
}
