//! Bytes that may be text.
ghost use Rattle.std.specs.Prelude.{◌≡◌, false, MatchOption};
ghost use Rattle.std.specs.Str.{is_utf8};
ghost use Rattle.name_list.specs.Text.{IsTextOf};

/// The text that has these bytes. None exactly where they are not UTF-8. It takes no memory.
pub fn utf8_text(bytes: &[u8]) -> Option<&str>
    ensures { MatchOption result (is_utf8 bytes.now ≡ false) (λ text. IsTextOf bytes.now text.now) }
{
    match std::str::from_utf8(bytes) {
        Ok(text) => Some(text),
        Err(_) => None,
    }
}
