//! The parts of a path that name nothing below where they stand.
ghost use Rattle.std.specs.Prelude.{◌≡◌};
ghost use Rattle.file_info.specs.Path.{is_skipped, is_up};

/// Whether the part is empty or `.`, so that it stays where it stands.
pub fn is_here(part: &[u8]) -> bool
    ensures { result ≡ is_skipped part.now }
{
    match part {
        [] => true,
        [byte] => *byte == b'.',
        _ => false,
    }
}

/// Whether the part is `..`, so that it leads up.
pub fn is_parent(part: &[u8]) -> bool
    ensures { result ≡ is_up part.now }
{
    match part {
        [first, second] => *first == b'.' && *second == b'.',
        _ => false,
    }
}
