//! What can name an entry of a directory.
ghost use Rattle.std.specs.Prelude.{◌≡◌, ◌==◌, ◌||◌, ◌&&◌, not, false, length, nat_le};
ghost use Rattle.std.specs.List.{list_any};
ghost use Rattle.name_list.specs.EntryNames.{ends_name, is_plain_name, is_entry_name};

use crate::text::utf8_text;
use file_info::dots::{is_here, is_parent};

/// The most bytes that the name of an entry has.
pub const ENTRY_NAME_MAX: usize = 4096;

// Whether the text holds a slash or a byte 0.
fn has_slash_or_nul(text: &str) -> bool
    ensures { result ≡ list_any ends_name text.now }
{
    text.as_bytes()
        .iter()
        .any(|byte| *byte == b'/' || *byte == 0)
}

// Whether a text that is UTF-8 can name an entry.
fn is_plain(text: &str) -> bool
    ensures { result ≡ is_plain_name text.now }
{
    if is_here(text.as_bytes()) {
        return false;
    }
    if is_parent(text.as_bytes()) {
        return false;
    }
    if text.len() > ENTRY_NAME_MAX {
        return false;
    }
    !has_slash_or_nul(text)
}

/// Whether a text can name an entry of a directory: it is UTF-8, it has from 1 to 4,096 bytes, it is neither `.` nor `..`,
/// and it holds neither `/` nor a byte 0. It takes no memory.
pub fn names_entry(bytes: &[u8]) -> bool
    ensures { result ≡ is_entry_name bytes.now }
{
    match utf8_text(bytes) {
        Some(text) => is_plain(text),
        None => false,
    }
}
