//! What a build can ask for.
ghost use Rattle.std.specs.Prelude.{◌≡◌, ◌↔◌, ◌++◌, IsTrue};
ghost use Rattle.std.specs.Cmp.{decided, partial_equiv_from_equiv};
ghost use Rattle.std.specs.Hash as fed;
ghost use Rattle.build_keys.specs.Keys.{tag_of};
ghost use Rattle.build_keys.specs.SameKey.{is_key, key_text};
ghost use Rattle.build_keys.specs.SameKeyLemmas.{key-Decides, same-hash};

use crate::tags::{COMMAND, CONTENTS, NODE, STRUCTURE, TARGET, TREE};
use file_info::copied::Copied;
use file_info::list::{Bytes, List};
use file_info::memory::NoMemory;
use file_info::name::Name;
use file_info::node::NodeName;
use file_info::path::PathName;
use file_info::same::Same;
use std::alloc::Global;
use std::hash::{Hash, Hasher};

/// What a build can ask for. A key with patterns has a spelling only where each pattern is UTF-8, and their number and
/// lengths are below 2^32.
#[derive(Drop)]
pub enum Key {
    /// A target of the manifest.
    Target(Name),
    /// A command of the manifest.
    Command(Name),
    /// A node, which is a path or virtual.
    Node(NodeName),
    /// The names directly in a directory.
    Contents(PathName),
    /// All that stands below a directory, with file information, but for the names that a pattern excludes.
    Tree(PathName, List<Bytes>),
    /// The same, with kinds in place of file information.
    Structure(PathName, List<Bytes>),
}

impl Copied for Key {
    fn copy(&self, alloc: Global) -> Result<Key, NoMemory> {
        match self {
            Key::Target(name) => Ok(Key::Target(name.copy(alloc)?)),
            Key::Command(name) => Ok(Key::Command(name.copy(alloc)?)),
            Key::Node(node) => Ok(Key::Node(node.copy(alloc)?)),
            Key::Contents(path) => Ok(Key::Contents(path.copy(alloc)?)),
            Key::Tree(path, patterns) => Ok(Key::Tree(path.copy(alloc)?, patterns.copy(alloc)?)),
            Key::Structure(path, patterns) => {
                Ok(Key::Structure(path.copy(alloc)?, patterns.copy(alloc)?))
            }
        }
    }
}

impl Same for Key {
    fn same(&self, other: &Key) -> bool {
        match (self, other) {
            (Key::Target(name), Key::Target(other_name)) => name.same(other_name),
            (Key::Command(name), Key::Command(other_name)) => name.same(other_name),
            (Key::Node(node), Key::Node(other_node)) => node.same(other_node),
            (Key::Contents(path), Key::Contents(other_path)) => path.same(other_path),
            (Key::Tree(path, patterns), Key::Tree(other_path, other_patterns)) => {
                path.same(other_path) && patterns.same(other_patterns)
            }
            (Key::Structure(path, patterns), Key::Structure(other_path, other_patterns)) => {
                path.same(other_path) && patterns.same(other_patterns)
            }
            _ => false,
        }
    }
}

impl Key {
    /// The byte that the spelling begins with.
    pub(crate) fn tag(&self) -> u8
        ensures { result ≡ tag_of self.now }
    {
        match self {
            Key::Target(_) => TARGET,
            Key::Command(_) => COMMAND,
            Key::Node(_) => NODE,
            Key::Contents(_) => CONTENTS,
            Key::Tree(_, _) => TREE,
            Key::Structure(_, _) => STRUCTURE,
        }
    }

    /// The name or the path. It takes no memory.
    pub fn text(&self) -> &str
        ensures { result.now ≡ key_text self.now }
    {
        match self {
            Key::Target(name) | Key::Command(name) => name.text(),
            Key::Node(node) => node.text(),
            Key::Contents(path) | Key::Tree(path, _) | Key::Structure(path, _) => path.text(),
        }
    }
}

impl PartialEq for Key {
    ghost eq = { is_key };

    ghost laws = { partial_equiv_from_equiv (decided is_key key-Decides) };

    fn eq(&self, other: &Key) -> bool {
        self.same(other)
    }
}

impl Eq for Key {
    ghost laws = { decided is_key key-Decides };
}

/// A key is hashed by its tag and its text: keys that differ in their patterns alone are rare.
impl Hash for Key {
    ghost hash_input = { λ key. fed.u8 (tag_of key) ++ fed.str (key_text key) };

    ghost respects_eq = { same-hash };

    fn hash<H: Hasher>(&self, state: &mut H) {
        self.tag().hash(state);
        self.text().hash(state);
    }
}
