//! Laws over the definitions, each the clause of a function that does nothing.
ghost use Rattle.std.specs.Prelude.{◌≡◌, ℕ, List as Items};
ghost use Rattle.file_info.specs.Content.{Content, FileVersion};
ghost use Rattle.build_manifest.specs.declared.command.Command.{Command};
ghost use Rattle.build_manifest.specs.Manifest.{IsManifest, ManifestLists};
ghost use Rattle.build_meaning.specs.Fresh.{Fresh, Sights};
ghost use Rattle.build_meaning.specs.Orderly.{AreOrderly};
ghost use Rattle.build_meaning.specs.Unique.{HasOneMaker, SawOnce};

use outside::law::Law;

/// Manifest and sources give a path one content at most.
pub fn single_valued<L: Law>()
    ensures { (m : Items FileVersion) (commands : Items Command) (seen : Sights) → HasOneMaker commands → SawOnce seen
        → (p : Items ℕ) (x y : Content) → Fresh L.does m commands seen p x → Fresh L.does m commands seen p y → x ≡ y }
{}

/// The rules of a manifest over its commands, as facts.
pub fn manifests_are_orderly()
    ensures { (m : ManifestLists) → IsManifest m → AreOrderly m.commands }
{}
