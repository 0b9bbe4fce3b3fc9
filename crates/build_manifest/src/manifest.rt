//! A manifest, with one look for each question.
ghost use Rattle.std.specs.Prelude.{◌≡◌, ◌↔◌, ◌⊎◌, ◌<◌, IsSome, IfSome, IfOk, IfErr, Ok, Err, length, slice_get};
ghost use Rattle.std.specs.Option.{option_copied};
ghost use Rattle.build_manifest.specs.Command.{IsCommand};
ghost use Rattle.build_manifest.specs.Manifest.{AreParts, IsManifest, default_of};
ghost use Rattle.build_manifest.specs.Places.{command_place, deps_place, maker_of, target_named};
ghost use Rattle.build_manifest.specs.Rules as spec;

use crate::command::{Command, TargetEntry};
use crate::default::default_place;
use crate::deps::deps_places;
use crate::draft::Draft;
use crate::fault::RuleFault;
use crate::makers::{Makers, makers_of};
use crate::places::{Places, command_places, target_places};
use file_info::list::List;
use file_info::name::Name;
use file_info::node::NodeName;
use file_info::path::PathName;
use std::alloc::Global;
use std::marker::Model;

/// A manifest: targets and commands in the order of the file. Contracts see the lists. Every manifest keeps the limits, what
/// the tool of each command allows and requires, and the rules over the whole: `IsManifest`.
#[derive(Drop)]
pub struct Manifest {
    targets: List<TargetEntry>,
    target_places: Places,
    default_place: Option<usize>,
    // The commands as they were read. None has an output that is a directory.
    drafts: List<Draft>,
    command_places: Places,
    makers: Makers,
    deps_places: Places,
}

impl Model for Manifest {
    ghost use Rattle.build_manifest.specs.Manifest.{ManifestLists, IsIndexed, IsManifest, lists_of};
    ghost use Rattle.build_manifest.specs.Rules.{commands_of};

    ghost Value = { ManifestLists };

    ghost view = { λ m. lists_of m.targets m.default_place (commands_of m.drafts) };

    ghost invariant = { λ m.
        IsIndexed (lists_of m.targets m.default_place (commands_of m.drafts)) m.target_places m.command_places m.makers m.deps_places
        × IsManifest (lists_of m.targets m.default_place (commands_of m.drafts)) };
}

impl Manifest {
    /// The manifest of these targets and commands, of which `default` names the target that is built where none is named. The
    /// first rule over the whole that is broken is answered.
    #[tactic(auto, unfolding(crate::specs::Rules::ruled))]
    pub fn of(
        alloc: Global,
        targets: List<TargetEntry>,
        default: Option<Name>,
        drafts: List<Draft>,
    ) -> Result<Manifest, RuleFault>
        requires { AreParts targets (spec.commands_of drafts) }
        ensures ok { IfOk result (λ manifest. spec.ruled targets default drafts ≡ Ok manifest) }
        ensures refused { IfErr result (λ fault. (fault ≡ RuleFault.NoMemory) ⊎ (spec.ruled targets default drafts ≡ Err fault)) }
    {
        let target_places = target_places(alloc, &targets)?;
        let default_place = default_place(&targets, &target_places, default)?;
        let makers = makers_of(alloc, &drafts)?;
        let command_places = command_places(alloc, &drafts)?;
        let deps_places = deps_places(alloc, &targets, &drafts)?;
        Ok(Manifest {
            targets,
            target_places,
            default_place,
            drafts,
            command_places,
            makers,
            deps_places,
        })
    }

    /// How many commands there are.
    pub fn commands(&self) -> usize
        ensures { result ≡ length self.now.commands }
    {
        self.drafts.len()
    }

    /// The command at a place, counted from 0. None exactly past the last. It keeps what every command of a manifest keeps.
    pub fn command(&self, place: usize) -> Option<&Command>
        ensures value { option_copied result ≡ slice_get self.now.commands place }
        ensures within { IsSome result ↔ (place < length self.now.commands) }
        ensures keeps { IfSome result (λ command. IsCommand command.now) }
    {
        let draft = self.drafts.get(place)?;
        Some(&draft.command)
    }

    /// The place of the command of this name. None exactly where there is none.
    pub fn command_named(&self, name: &str) -> Option<usize>
        ensures value { result ≡ command_place self.now.commands name.now }
        ensures within { IfSome result (λ place. place < length self.now.commands) }
    {
        self.command_places.get(name).copied()
    }

    /// The place of the command that makes this node. None exactly where none does.
    pub fn maker(&self, node: &NodeName) -> Option<usize>
        ensures value { result ≡ maker_of self.now.commands node.now }
        ensures within { IfSome result (λ place. place < length self.now.commands) }
    {
        self.makers.place_of(node)
    }

    /// The place of the command that writes this dependency file. None exactly where none does.
    pub fn deps_owner(&self, path: &PathName) -> Option<usize>
        ensures value { result ≡ deps_place self.now.commands path.now }
        ensures within { IfSome result (λ place. place < length self.now.commands) }
    {
        self.deps_places.get(path.text()).copied()
    }

    /// The target of this name. None exactly where there is none.
    pub fn target(&self, name: &str) -> Option<&TargetEntry>
        ensures value { option_copied result ≡ target_named self.now.targets name.now }
    {
        let place = *self.target_places.get(name)?;
        self.targets.get(place)
    }

    /// The target that is built where none is named. None exactly where the manifest names none.
    pub fn default_target(&self) -> Option<&TargetEntry>
        ensures value { option_copied result ≡ default_of self.now.targets self.now.default_place }
    {
        let place = self.default_place?;
        self.targets.get(place)
    }

    /// What every manifest keeps, for a caller to use. It does nothing.
    pub fn keeps(&self)
        ensures { IsManifest self.now }
    {
        let _ = &self.targets;
    }
}
