//! Laws over the definitions, each the clause of a function that is called for it alone.
ghost use Rattle.std.specs.Prelude.{◌≡◌, ℕ, IsTrue, List, Ok};
ghost use Rattle.build_manifest.specs.Manifest.{AreParts, ManifestLists};
ghost use Rattle.manifest_reader.specs.Load.{loaded};

use crate::attributes::ATTRIBUTES;

/// No tool has two attributes of one name: no two rows of the table have tool and name in common.
pub fn attributes_differ() -> bool
    ensures { IsTrue result }
{
    ATTRIBUTES.distinct()
}

/// The targets and the commands of every manifest that the definition gives keep the limits, and each command has what its
/// tool allows and requires, with the defaults elsewhere.
pub fn loaded_manifests_keep_their_limits()
    ensures { (bytes : List ℕ) (m : ManifestLists) → loaded bytes ≡ Ok m → AreParts m.targets m.commands }
{}
