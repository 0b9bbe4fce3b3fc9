//! The parts of a spelling. Each function reads a part from the front of bytes, and lends what follows it.
ghost use Rattle.std.specs.Prelude.{◌≡◌, ◌≤◌, length, IfOk};
ghost use Rattle.std.specs.Str.{is_utf8};
ghost use Rattle.build_keys.specs.Keys.{is_name, is_path};
ghost use Rattle.build_keys.specs.Reading.{count_at, text_at, passing_at};
ghost use Rattle.build_keys.specs.KeyReading.{patterns_at, node_at};
ghost use Rattle.build_keys.specs.Results.{Gives};

use crate::unread::Unread;
use file_info::list::{Bytes, List};
use file_info::name::{Name, NameError};
use file_info::node::NodeName;
use file_info::path::{PathError, PathName};
use name_list::text::utf8_text;
use std::alloc::Global;

/// A count in four bytes, the highest first. It takes no memory.
#[tactic(auto, unfolding(crate::specs::Reading::count_at))]
pub fn read_count(bytes: &[u8]) -> Result<(usize, &[u8]), Unread>
    ensures reads { Gives (λ x. (x.0, x.1.now)) result (count_at bytes.now) }
    ensures shorter { IfOk result (λ x. length x.1.now ≤ length bytes.now) }
{
    match bytes {
        [a, b, c, d, rest @ ..] => Ok((u32::from_be_bytes([*a, *b, *c, *d]) as usize, rest)),
        _ => Err(Unread::NoSpelling),
    }
}

/// The bytes of a text, after their count. It takes no memory.
#[tactic(auto, unfolding(crate::specs::Reading::text_at))]
pub fn read_text(bytes: &[u8]) -> Result<(&[u8], &[u8]), Unread>
    ensures reads { Gives (λ x. (x.0.now, x.1.now)) result (text_at bytes.now) }
    ensures shorter { IfOk result (λ x. length x.1.now ≤ length bytes.now) }
{
    let (count, rest) = read_count(bytes)?;
    if count > rest.len() {
        return Err(Unread::NoSpelling);
    }
    Ok((&rest[..count], &rest[count..]))
}

/// A text that is a name.
#[tactic(auto, unfolding(crate::specs::Reading::passing_at))]
pub fn read_name(alloc: Global, bytes: &[u8]) -> Result<(Name, &[u8]), Unread>
    ensures reads { Gives (λ x. (x.0, x.1.now)) result (passing_at is_name bytes.now) }
    ensures shorter { IfOk result (λ x. length x.1.now ≤ length bytes.now) }
{
    let (text, rest) = read_text(bytes)?;
    let Some(text) = utf8_text(text) else {
        return Err(Unread::NoSpelling);
    };
    match Name::read(alloc, text) {
        Ok(name) => Ok((name, rest)),
        Err(NameError::NoMemory) => Err(Unread::NoMemory),
        Err(_) => Err(Unread::NoSpelling),
    }
}

/// A text that is a path in normal form.
#[tactic(auto, unfolding(crate::specs::Reading::passing_at))]
pub fn read_path(alloc: Global, bytes: &[u8]) -> Result<(PathName, &[u8]), Unread>
    ensures reads { Gives (λ x. (x.0, x.1.now)) result (passing_at is_path bytes.now) }
    ensures shorter { IfOk result (λ x. length x.1.now ≤ length bytes.now) }
{
    let (text, rest) = read_text(bytes)?;
    let Some(text) = utf8_text(text) else {
        return Err(Unread::NoSpelling);
    };
    match PathName::read(alloc, text) {
        Ok(path) if path.text() == text => Ok((path, rest)),
        Err(PathError::NoMemory) => Err(Unread::NoMemory),
        _ => Err(Unread::NoSpelling),
    }
}

// A pattern, which is any text of UTF-8.
#[tactic(auto, unfolding(crate::specs::Reading::passing_at))]
fn read_pattern(alloc: Global, bytes: &[u8]) -> Result<(Bytes, &[u8]), Unread>
    ensures reads { Gives (λ x. (x.0, x.1.now)) result (passing_at is_utf8 bytes.now) }
    ensures shorter { IfOk result (λ x. length x.1.now ≤ length bytes.now) }
{
    let (text, rest) = read_text(bytes)?;
    if utf8_text(text).is_none() {
        return Err(Unread::NoSpelling);
    }
    Ok((List::from_vec(Vec::from_slice(alloc, text)?), rest))
}

/// Patterns after their count.
#[tactic(auto, unfolding(crate::specs::Reading::list_at))]
pub fn read_patterns(alloc: Global, bytes: &[u8]) -> Result<(List<Bytes>, &[u8]), Unread>
    ensures reads { Gives (λ x. (x.0, x.1.now)) result (patterns_at bytes.now) }
    ensures shorter { IfOk result (λ x. length x.1.now ≤ length bytes.now) }
{
    let (count, mut rest) = read_count(bytes)?;
    let mut found = List::new(alloc);
    for _ in 0..count {
        let (pattern, tail) = read_pattern(alloc, rest)?;
        found.push(pattern)?;
        rest = tail;
    }
    Ok((found, rest))
}

/// The name of a node.
#[tactic(auto, unfolding(crate::specs::KeyReading::node_at))]
pub fn read_node(alloc: Global, bytes: &[u8]) -> Result<(NodeName, &[u8]), Unread>
    ensures reads { Gives (λ x. (x.0, x.1.now)) result (node_at bytes.now) }
    ensures shorter { IfOk result (λ x. length x.1.now ≤ length bytes.now) }
{
    match bytes {
        [0, rest @ ..] => {
            let (path, rest) = read_path(alloc, rest)?;
            Ok((NodeName::Path(path), rest))
        }
        [1, rest @ ..] => {
            let (name, rest) = read_name(alloc, rest)?;
            Ok((NodeName::Virtual(name), rest))
        }
        _ => Err(Unread::NoSpelling),
    }
}
