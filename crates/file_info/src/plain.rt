//! Paths that are in normal form as they stand.
ghost use Rattle.std.specs.Prelude.{◌≡◌, ◌||◌, not, true};
ghost use Rattle.std.specs.List.{list_any};
ghost use Rattle.file_info.specs.Path.{is_skipped, is_up, parts_of};
ghost use Rattle.file_info.specs.Normal.{IsNormal};

use crate::dots::{is_here, is_parent};

// Whether the part is empty, `.` or `..`.
fn is_special(part: &[u8]) -> bool
    ensures { result ≡ (is_skipped part.now || is_up part.now) }
{
    is_here(part) || is_parent(part)
}

// Whether a part between the slashes is empty, `.` or `..`.
fn has_special(bytes: &[u8]) -> bool
    ensures { result ≡ list_any (λ part. is_skipped part || is_up part) (parts_of bytes.now) }
{
    bytes.split(|byte| *byte == b'/').any(is_special)
}

/// Whether no part of the path is empty, `.` or `..`. Then it is in normal form as it stands.
pub fn is_plain(text: &[u8]) -> bool
    ensures { result ≡ true → IsNormal text.now }
{
    let Some((first, rest)) = text.split_first() else {
        return false;
    };
    if *first == b'/' {
        return !has_special(rest);
    }
    !has_special(text)
}
