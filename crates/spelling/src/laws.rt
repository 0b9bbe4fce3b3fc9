//! The law of spelled texts. Its function does nothing: what it ensures is the law, for a caller to use.
ghost use Rattle.std.specs.Prelude.{◌≡◌, ℕ, ◌<◌, ◌^◌, List, ◌++◌, length};
ghost use Rattle.spelling.specs.Spelling.{text_bytes};

/// Where the same bytes begin with the spellings of two texts, each of fewer than 2^32 bytes, the texts are equal, and
/// so is what follows them.
pub fn texts_differ()
    ensures { (a b r s : List ℕ) → length a < 2 ^ 32 → length b < 2 ^ 32 → text_bytes a ++ r ≡ text_bytes b ++ s → (a ≡ b) × (r ≡ s) }
{}
