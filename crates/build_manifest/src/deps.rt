//! The dependency files of commands, and the rule over them.
ghost use Rattle.std.specs.Prelude.{◌≡◌, ℕ, List as Items, false, ◌||◌, cond, [], take, None, Some, bytes_eq, OnOk, IfOk};
ghost use Rattle.std.specs.List.{list_any};
ghost use Rattle.std.specs.Option.{option_or};
ghost use Rattle.indexmap.specs.IndexMap.{get_by_text};
ghost use Rattle.build_manifest.specs.declared.fault.RuleFault.TheVariants as faults;
ghost use Rattle.build_manifest.specs.Has.{has};
ghost use Rattle.build_manifest.specs.Judged.{Judges};
ghost use Rattle.build_manifest.specs.Places.{all_deps, deps_place, is_used};
ghost use Rattle.build_manifest.specs.Rules.{all_deps_fault, commands_of, deps_fault};

use crate::command::{Command, TargetEntry};
use crate::draft::Draft;
use crate::fault::RuleFault;
use crate::hits::{hits_of, wanted_of};
use crate::places::{Places, note};
use file_info::copied::Copied;
use file_info::list::List;
use file_info::memory::NoMemory;
use file_info::name::Name;
use file_info::path::PathName;
use indexmap::IndexMap;
use std::alloc::Global;

// The fault of a dependency file that is a node or is named before.
fn deps_clash(alloc: Global, command: &Name, path: &PathName) -> Result<RuleFault, NoMemory>
    ensures { IfOk result (λ fault. fault ≡ faults.DepsClash command.now path.now) }
{
    Ok(RuleFault::DepsClash {
        command: command.copy(alloc)?,
        path: path.copy(alloc)?,
    })
}

// Notes the place of a dependency file, and answers whether it is a node or is named before.
fn is_taken(
    alloc: Global,
    hits: &Places,
    places: &mut Places,
    path: &PathName,
    place: usize,
) -> Result<bool, NoMemory>
    ensures taken { IfOk result (λ taken. taken ≡ (has hits.now path.now || has places.old path.now)) }
    ensures placed { IfOk result (λ taken. taken ≡ false → (q : Items ℕ) → get_by_text places.new q
        ≡ option_or (get_by_text places.old q) (cond (bytes_eq q path.now) (Some place) None)) }
{
    if hits.contains_key(path.text()) {
        return Ok(true);
    }
    let before = note(alloc, places, path.text(), place)?;
    Ok(before.is_some())
}

// Notes the place of each dependency file of the command at a place, where those before it are noted. The first that is a
// node or is named before is a fault.
fn add_deps(
    alloc: Global,
    hits: &Places,
    places: &mut Places,
    drafts: &[Draft],
    place: usize,
    command: &Command,
) -> Result<(), RuleFault>
    requires before { (q : Items ℕ) → has places.old q ≡ list_any (bytes_eq q) (all_deps (commands_of (take place drafts.now))) }
    ensures judged { Judges result (deps_fault (has hits.now) (all_deps (commands_of (take place drafts.now))) command.now.name command.now.deps) }
    ensures placed { OnOk result ((q : Items ℕ) → get_by_text places.new q
        ≡ option_or (get_by_text places.old q) (cond (list_any (bytes_eq q) command.now.deps) (Some place) None)) }
{
    for path in command.deps.as_slice() {
        if is_taken(alloc, hits, places, path, place)? {
            return Err(deps_clash(alloc, &command.name, path)?);
        }
    }
    Ok(())
}

// The places of the dependency files, or the first that is a node or is named before, where these are the nodes.
fn places_of(alloc: Global, hits: &Places, drafts: &List<Draft>) -> Result<Places, RuleFault>
    ensures judged { Judges result (all_deps_fault (has hits.now) [] (commands_of drafts.now)) }
    ensures placed { IfOk result (λ places. (q : Items ℕ) → get_by_text places q ≡ deps_place (commands_of drafts.now) q) }
{
    let mut places = IndexMap::new(alloc);
    let drafts = drafts.as_slice();
    for (place, draft) in drafts.iter().enumerate() {
        add_deps(alloc, hits, &mut places, drafts, place, &draft.command)?;
    }
    Ok(places)
}

/// The places of the dependency files, or the first that is a node or is named before.
pub fn deps_places(
    alloc: Global,
    targets: &List<TargetEntry>,
    drafts: &List<Draft>,
) -> Result<Places, RuleFault>
    ensures judged { Judges result (all_deps_fault (is_used targets.now (commands_of drafts.now)) [] (commands_of drafts.now)) }
    ensures placed { IfOk result (λ places. (q : Items ℕ) → get_by_text places q ≡ deps_place (commands_of drafts.now) q) }
{
    let wanted = wanted_of(alloc, drafts)?;
    let hits = hits_of(alloc, &wanted, targets, drafts)?;
    places_of(alloc, &hits, drafts)
}
