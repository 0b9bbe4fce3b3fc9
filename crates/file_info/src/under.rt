//! What stands below a path.
ghost use Rattle.std.specs.Prelude.{◌≡◌, ◌≢◌, ℕ, List, ◌↔◌, [], ◌∷◌, ◌++◌, true, false, IsTrue, MatchOption, All};
ghost use Rattle.file_info.specs.Path.{is_absolute};
ghost use Rattle.file_info.specs.Under.{front_of, leads_up, GoesDown, IsBelow, IsDirectlyIn, IsUnder};

// The bytes after a front.
fn after<'a>(path: &'a [u8], front: &[u8]) -> Option<&'a [u8]>
    ensures { MatchOption result ((rest : List ℕ) → path.now ≢ front.now ++ rest) (λ rest. path.now ≡ front.now ++ rest.now) }
{
    path.strip_prefix(front)
}

// The bytes after a folder and a slash.
fn after_folder<'a>(path: &'a [u8], root: &[u8]) -> Option<&'a [u8]>
    ensures { MatchOption result ((rest : List ℕ) → path.now ≢ (root.now ++ 47 ∷ []) ++ rest)
        (λ rest. path.now ≡ (root.now ++ 47 ∷ []) ++ rest.now) }
{
    match after(path, root) {
        Some(more) => after(more, b"/"),
        None => None,
    }
}

// The bytes after the front of a root.
fn after_front<'a>(path: &'a [u8], root: &[u8]) -> Option<&'a [u8]>
    ensures { MatchOption result ((rest : List ℕ) → path.now ≢ front_of root.now ++ rest) (λ rest. path.now ≡ front_of root.now ++ rest.now) }
{
    match root {
        [] | [b'.'] => Some(path),
        [b'/'] => after(path, b"/"),
        _ => after_folder(path, root),
    }
}

// Whether the first part is `..`.
fn leads_up(rest: &[u8]) -> bool
    ensures { result ≡ leads_up rest.now }
{
    match rest {
        [b'.', b'.'] => true,
        [b'.', b'.', b'/', ..] => true,
        _ => false,
    }
}

// Whether these are parts that go down.
fn goes_down(rest: &[u8]) -> bool
    ensures { IsTrue result ↔ GoesDown rest.now }
{
    match rest {
        [] | [b'.'] | [b'/', ..] => false,
        _ => !leads_up(rest),
    }
}

// Whether the path begins at the root.
fn is_absolute(path: &[u8]) -> bool
    ensures { result ≡ is_absolute path.now }
{
    match path {
        [b'/', ..] => true,
        _ => false,
    }
}

// The parts of the path below the root, where it is under it.
fn below<'a>(path: &'a [u8], root: &[u8]) -> Option<&'a [u8]>
    ensures { MatchOption result ((rest : List ℕ) → IsBelow path.now root.now rest → ⊥) (λ rest. IsBelow path.now root.now rest.now) }
{
    if is_absolute(path) != is_absolute(root) {
        return None;
    }
    match after_front(path, root) {
        Some(rest) => if goes_down(rest) { Some(rest) } else { None },
        None => None,
    }
}

// Whether there is more than one part.
fn has_slash(rest: &[u8]) -> bool
    ensures none { result ≡ false → All (λ b. b ≢ 47) rest.now }
    ensures some { result ≡ true → All (λ b. b ≢ 47) rest.now → ⊥ }
{
    rest.iter().any(|byte| *byte == b'/')
}

/// Whether a path is under another.
pub fn is_under(path: &[u8], root: &[u8]) -> bool
    ensures { IsTrue result ↔ IsUnder path.now root.now }
{
    match below(path, root) {
        Some(_) => true,
        None => false,
    }
}

/// Whether a path is under another with one part more.
pub fn is_directly_in(path: &[u8], root: &[u8]) -> bool
    ensures { IsTrue result ↔ IsDirectlyIn path.now root.now }
{
    match below(path, root) {
        Some(rest) => !has_slash(rest),
        None => false,
    }
}
