//! The laws of the profile. Each function does nothing: what it ensures is the law, for a caller to use.
ghost use Rattle.std.specs.Prelude.{◌≡◌, ◌+◌, ◌≤◌, length, Ok, IsUtf8};
ghost use Rattle.yaml_profile.specs.Text.{Text};
ghost use Rattle.yaml_profile.specs.Read.{yaml_of};
ghost use Rattle.yaml_profile.specs.Spells.{Spells};
ghost use Rattle.yaml_profile.specs.Weight.{weight};
ghost use Rattle.yaml_profile.specs.declared.yaml.Yaml.{Yaml};

/// A text that is read as a tree spells this tree.
pub fn text_spells_its_tree()
    ensures { (t : Text) (tree : Yaml) → yaml_of t ≡ Ok tree → Spells tree t }
{}

/// A text in UTF-8 that is not too long and spells a tree is read as this tree. So it spells no other.
pub fn spelled_tree_is_read()
    ensures { (t : Text) (tree : Yaml) → length t ≤ 67108864 → IsUtf8 t → Spells tree t → yaml_of t ≡ Ok tree }
{}

/// The scalars and names of a tree that is read, each with one byte more, have together at most one byte more than its text.
pub fn text_bounds_weight()
    ensures { (t : Text) (tree : Yaml) → yaml_of t ≡ Ok tree → weight 64 tree ≤ length t + 1 }
{}
