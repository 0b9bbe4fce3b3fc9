//! What a text may be: a name, a path, or a virtual node.
ghost use Rattle.std.specs.Prelude.{◌≡◌, Ok, IfOk};
ghost use Rattle.std.specs.Option.{is_none};
ghost use Rattle.std.specs.Str.{is_utf8};
ghost use Rattle.file_info.specs.NameFault.{name_fault};
ghost use Rattle.manifest_values.specs.Refusal.{Gives, given_if};
ghost use Rattle.manifest_values.specs.Texts as spec;
ghost use Rattle.manifest_values.specs.declared.refusal.Refusal.TheVariants.{BadPath};

use crate::refusal::{Stop, bad_path};
use file_info::list::Bytes;
use file_info::memory::NoMemory;
use file_info::name::{NAME_MAX, Name};
use file_info::path::{PathError, PathName};
use std::alloc::Global;

// Whether the text has a control character.
fn has_control(text: &[u8]) -> bool
    ensures { result ≡ spec.has_control text.now }
{
    text.iter().any(|b| *b < 0x20 || *b == 0x7F)
}

// Whether the text has no fault as a name.
fn has_no_fault(text: &[u8]) -> bool
    ensures { result ≡ is_none (name_fault text.now) }
{
    if text.is_empty() {
        return false;
    }
    if text.len() > NAME_MAX {
        return false;
    }
    !has_control(text)
}

// Whether the text is UTF-8.
fn is_text(text: &[u8]) -> bool
    ensures { result ≡ is_utf8 text.now }
{
    match str::from_utf8(text) {
        Ok(_) => true,
        Err(_) => false,
    }
}

/// Whether the text is a name.
#[tactic(auto, unfolding(crate::specs::Texts::is_name))]
pub fn is_name(text: &[u8]) -> bool
    ensures { result ≡ spec.is_name text.now }
{
    is_text(text) && has_no_fault(text)
}

/// The name that the text is, which is moved. `BadPath` where it is no name.
pub fn name_of(alloc: Global, owner: &[u8], text: Bytes) -> Result<Name, Stop>
    ensures { Gives (λ n. n) result (given_if (spec.is_name text) (BadPath owner.now text) (Ok text)) }
{
    if !has_no_fault(text.as_slice()) {
        return Err(bad_path(alloc, owner, text.as_slice()));
    }
    match String::from_utf8(text.into_vec()) {
        Ok(text) => match Name::from_string(text) {
            Ok(name) => Ok(name),
            // This does not come, since the text has no fault.
            Err(_) => Err(Stop::Memory),
        },
        Err(error) => Err(bad_path(alloc, owner, error.into_bytes().as_slice())),
    }
}

/// The path that the text is, in normal form. None where it is no path.
pub fn text_path(alloc: Global, text: &str) -> Result<Option<PathName>, NoMemory>
    ensures { IfOk result (λ path. path ≡ spec.path_in text.now) }
{
    match PathName::read(alloc, text) {
        Ok(path) => Ok(Some(path)),
        Err(error) => match error {
            PathError::NoMemory => Err(NoMemory),
            _ => Ok(None),
        },
    }
}

/// The same of bytes that may be no text.
pub fn path_in(alloc: Global, text: &[u8]) -> Result<Option<PathName>, NoMemory>
    ensures { IfOk result (λ path. path ≡ spec.path_in text.now) }
{
    match str::from_utf8(text) {
        Ok(text) => text_path(alloc, text),
        Err(_) => Ok(None),
    }
}

/// Whether the text is a path.
pub fn is_path_text(alloc: Global, text: &[u8]) -> Result<bool, NoMemory>
    ensures { IfOk result (λ is_path. is_path ≡ spec.is_path_text text.now) }
{
    let path = path_in(alloc, text)?;
    Ok(path.is_some())
}

// Whether the byte is the text's last.
fn ends_with(byte: u8, text: &[u8]) -> bool
    ensures { result ≡ spec.ends_with byte text.now }
{
    match text.last() {
        Some(last) => *last == byte,
        None => false,
    }
}

/// Whether the text ends with `/`, as that of a directory does.
pub fn has_slash(text: &[u8]) -> bool
    ensures { result ≡ spec.has_slash text.now }
{
    ends_with(b'/', text)
}

/// Whether the text is `<...>`, which names a virtual node.
pub fn is_angled(text: &[u8]) -> bool
    ensures { result ≡ spec.is_angled text.now }
{
    match text {
        [first, rest @ ..] => *first == b'<' && ends_with(b'>', rest),
        [] => false,
    }
}
