//! The laws of keys and their spellings. Each function does nothing that is seen: what it ensures is the law, for a caller
//! to use.
ghost use Rattle.std.specs.Prelude.{◌≡◌, ℕ, [], ◌++◌, List as Items, Some};
ghost use Rattle.std.specs.Cmp.{IsTotalOrder};
ghost use Rattle.std.specs.declared.cmp.Ordering.TheVariants as orders;
ghost use Rattle.build_keys.specs.Keys.{IsShort, IsNode, IsKey, HasPatterns, is_name, is_path, key_bytes};
ghost use Rattle.build_keys.specs.Reading.{Reads};
ghost use Rattle.build_keys.specs.KeyReading.{key_at};
ghost use Rattle.build_keys.specs.KeyOrder.{key_cmp};
ghost use Rattle.build_keys.specs.declared.key.Key.{Key as AnyKey};

use crate::key::Key;
use file_info::laws::{normal_form_stays, path_is_accepted};
use file_info::name::Name;
use file_info::node::NodeName;
use file_info::path::PathName;

/// Keys are read by their spellings and by nothing else: a key that was written is read again, whatever follows it, and
/// bytes of which a key is read begin with its spelling.
pub fn keys_are_read()
    ensures { Reads key_bytes IsKey key_at }
{}

/// Bytes begin with the spelling of one key at most.
pub fn keys_differ()
    ensures { (a b : AnyKey) (r s : Items ℕ) → IsKey a → IsKey b → key_bytes a ++ r ≡ key_bytes b ++ s → (a ≡ b) × (r ≡ s) }
{}

/// Keys with one spelling are equal.
pub fn one_spelling_is_one_key()
    ensures { (a b : AnyKey) → IsKey a → IsKey b → key_bytes a ≡ key_bytes b → a ≡ b }
{}

/// No spelling of a key is a proper prefix of another.
pub fn no_key_is_a_prefix()
    ensures { (a b : AnyKey) (r : Items ℕ) → IsKey a → IsKey b → key_bytes a ++ r ≡ key_bytes b → r ≡ [] }
{}

/// The order of keys is total.
pub fn keys_are_ordered()
    ensures { IsTotalOrder key_cmp }
{}

/// Keys that are equal in order are one key.
pub fn no_two_keys_are_level()
    ensures { (a b : AnyKey) → IsKey a → IsKey b → key_cmp a b ≡ orders.Equal → a ≡ b }
{}

/// The patterns of a key with a spelling have one.
pub fn spelled_key_has_patterns()
    ensures { (key : AnyKey) → IsKey key → HasPatterns key }
{}

// A name has a spelling.
fn name_has_a_spelling(name: &Name)
    ensures { IsShort is_name name.now }
{
    let _bytes = name.text().as_bytes();
}

/// A path has a spelling.
pub fn path_has_a_spelling(path: &PathName)
    ensures { IsShort is_path path.now }
{
    path_is_accepted();
    normal_form_stays();
    let _bytes = path.text().as_bytes();
}

// A node has a spelling.
fn node_has_a_spelling(node: &NodeName)
    ensures { IsNode node.now }
{
    match node {
        NodeName::Path(path) => path_has_a_spelling(path),
        NodeName::Virtual(name) => name_has_a_spelling(name),
    }
}

/// A key has a spelling where its patterns have one.
pub fn key_has_a_spelling(key: &Key)
    requires { HasPatterns key.now }
    ensures { IsKey key.now }
{
    match key {
        Key::Target(name) | Key::Command(name) => name_has_a_spelling(name),
        Key::Node(node) => node_has_a_spelling(node),
        Key::Contents(path) | Key::Tree(path, _) | Key::Structure(path, _) => {
            path_has_a_spelling(path)
        }
    }
}
