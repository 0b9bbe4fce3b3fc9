//! Writing a key.
ghost use Rattle.std.specs.Prelude.{◌≡◌, ◌++◌, OnOk, OnErr};
ghost use Rattle.spelling.specs.Spelling.{text_bytes, list_bytes};
ghost use Rattle.build_keys.specs.Keys.{HasPatterns, IsKey, key_bytes};

use crate::key::Key;
use crate::laws::key_has_a_spelling;
use crate::tags::{COMMAND, CONTENTS, NODE, STRUCTURE, TARGET, TREE};
use case_table::each_case;
use file_info::list::{Bytes, List};
use file_info::memory::NoMemory;
use spelling::{push_count, push_node, push_text};
use std::alloc::Global;

/// Adds texts after their count. It fails only for want of memory, and may have added a part of them then.
pub fn push_texts(out: &mut Vec<u8>, texts: &List<Bytes>) -> Result<(), NoMemory>
    ensures { OnOk result (out.new.items ≡ out.old.items ++ list_bytes text_bytes texts.now) }
{
    push_count(out, texts.len())?;
    for text in texts.as_slice() {
        push_text(out, text.as_slice())?;
    }
    Ok(())
}

// Adds the tag and the parts of a key.
macro_rules! push_parts {
    (($out:ident) $tag:ident text $text:ident) => {{
        $out.push($tag)?;
        push_text($out, $text.text().as_bytes())
    }};
    (($out:ident) $tag:ident node $node:ident) => {{
        $out.push($tag)?;
        push_node($out, $node)
    }};
    (($out:ident) $tag:ident listed $path:ident $patterns:ident) => {{
        $out.push($tag)?;
        push_text($out, $path.text().as_bytes())?;
        push_texts($out, $patterns)
    }};
}

/// Adds the spelling of a key to a buffer, which may be used again for the next one. It fails only for want of memory,
/// and may have added a part of the spelling then. Where a number or a length in the patterns does not fit four bytes,
/// what is added is no spelling.
pub fn push_key(out: &mut Vec<u8>, key: &Key) -> Result<(), NoMemory>
    ensures { OnOk result (out.new.items ≡ out.old.items ++ key_bytes key.now) }
{
    each_case!(match key, push_parts!(out) {
        Key::Target(name) => (TARGET text name),
        Key::Command(name) => (COMMAND text name),
        Key::Node(node) => (NODE node node),
        Key::Contents(path) => (CONTENTS text path),
        Key::Tree(path, patterns) => (TREE listed path patterns),
        Key::Structure(path, patterns) => (STRUCTURE listed path patterns),
    })
}

/// Adds bytes at the end of a list. Without memory it is as before.
pub fn append(alloc: Global, out: &mut Bytes, more: &[u8]) -> Result<(), NoMemory>
    ensures ok { OnOk result (out.new ≡ out.old ++ more.now) }
    ensures err { OnErr result (out.new ≡ out.old) }
{
    let mut bytes = std::mem::replace(out, List::new(alloc)).into_vec();
    let added = bytes.extend_from_slice(more);
    *out = List::from_vec(bytes);
    added?;
    Ok(())
}

/// Adds the one spelling of a key at the end of `out`. Without memory `out` is as before. The key has a spelling, since
/// its patterns have.
pub fn write_key(alloc: Global, key: &Key, out: &mut Bytes) -> Result<(), NoMemory>
    requires { HasPatterns key.now }
    ensures spelled { IsKey key.now }
    ensures ok { OnOk result (out.new ≡ out.old ++ key_bytes key.now) }
    ensures err { OnErr result (out.new ≡ out.old) }
{
    key_has_a_spelling(key);
    let mut spelled = Vec::new(alloc);
    push_key(&mut spelled, key)?;
    append(alloc, out, spelled.as_slice())
}
