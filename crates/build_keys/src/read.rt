//! Reading a key.
ghost use Rattle.std.specs.Prelude.{◌≡◌, ℕ, ◌++◌, ◌≤◌, List as Items, length, IfOk, IfSome, IfNone};
ghost use Rattle.build_keys.specs.Keys.{IsKey, key_bytes};
ghost use Rattle.build_keys.specs.KeyReading.{BeginsWith, key_at};
ghost use Rattle.build_keys.specs.Results.{Gives};
ghost use Rattle.build_keys.specs.declared.key.Key.{Key as AnyKey};

use crate::key::Key;
use crate::parts::{read_name, read_node, read_path, read_patterns};
use crate::tags::{COMMAND, CONTENTS, NODE, STRUCTURE, TARGET, TREE};
use crate::unread::Unread;
use case_table::each_case;
use file_info::memory::NoMemory;
use std::alloc::Global;

// Reads the parts of a key after its tag.
macro_rules! read_parts {
    (($alloc:ident, $rest:ident) one $read:ident, $made:path) => {{
        let (part, rest) = $read($alloc, $rest)?;
        Ok(($made(part), rest))
    }};
    (($alloc:ident, $rest:ident) listed $made:path) => {{
        let (path, rest) = read_path($alloc, $rest)?;
        let (patterns, rest) = read_patterns($alloc, rest)?;
        Ok(($made(path, patterns), rest))
    }};
}

/// A key, and the bytes that follow it.
#[tactic(auto, unfolding(crate::specs::KeyReading::key_at))]
pub fn split_key(alloc: Global, bytes: &[u8]) -> Result<(Key, &[u8]), Unread>
    ensures reads { Gives (λ x. (x.0, x.1.now)) result (key_at bytes.now) }
    ensures shorter { IfOk result (λ x. length x.1.now ≤ length bytes.now) }
{
    let [tag, rest @ ..] = bytes else {
        return Err(Unread::NoSpelling);
    };
    each_case!(match *tag, read_parts!(alloc, rest) {
        TARGET => (one read_name, Key::Target),
        COMMAND => (one read_name, Key::Command),
        NODE => (one read_node, Key::Node),
        CONTENTS => (one read_path, Key::Contents),
        TREE => (listed Key::Tree),
        STRUCTURE => (listed Key::Structure),
    } else Err(Unread::NoSpelling))
}

/// The key whose spelling the bytes begin with, and the length of that. None exactly where they begin with no spelling.
pub fn read_key(alloc: Global, bytes: &[u8]) -> Result<Option<(Key, usize)>, NoMemory>
    ensures found { IfOk result (λ answer. IfSome answer (λ x. BeginsWith bytes.now x.0 x.1)) }
    ensures none { IfOk result (λ answer. IfNone answer ((key : AnyKey) (rest : Items ℕ) → IsKey key → bytes.now ≡ key_bytes key ++ rest → ⊥)) }
{
    match split_key(alloc, bytes) {
        Ok((key, rest)) => Ok(Some((key, bytes.len() - rest.len()))),
        Err(Unread::NoSpelling) => Ok(None),
        Err(Unread::NoMemory) => Err(NoMemory),
    }
}
