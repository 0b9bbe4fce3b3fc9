//! Texts that are asked for.
ghost use Rattle.std.specs.Prelude.{◌≡◌, [], ◌∷◌, ◌++◌, IfOk, bytes_eq};
ghost use Rattle.std.specs.List.{list_any};

use crate::refusal::copy_of;
use file_info::list::{Bytes, List};
use file_info::memory::NoMemory;
use std::alloc::Global;
use std::collections::HashSet;
use std::marker::Model;

/// Texts, in order, with one look for whether a text is among them. Contracts see the texts.
#[derive(Drop)]
pub struct TextSet {
    texts: List<Bytes>,
    set: HashSet<Vec<u8>>,
}

impl Model for TextSet {
    ghost use Rattle.std.specs.Prelude.{ℕ, List as ListOf};
    ghost use Rattle.manifest_values.specs.Known.{AreTexts};

    ghost Value = { ListOf (ListOf ℕ) };

    ghost view = { λ s. s.texts };

    ghost invariant = { λ s. AreTexts s.set.keys s.texts };
}

impl TextSet {
    /// No texts. It takes no memory.
    pub fn new(alloc: Global) -> TextSet
        ensures { result ≡ [] }
    {
        TextSet {
            texts: List::new(alloc),
            set: HashSet::new(alloc),
        }
    }

    /// Whether the text is among them. Where there are none it is not hashed.
    pub fn has(&self, text: &[u8]) -> bool
        ensures { result ≡ list_any (bytes_eq text.now) self.now }
    {
        if self.texts.is_empty() {
            return false;
        }
        self.set.contains(text)
    }

    /// The texts with one more at the end.
    pub fn with(self, alloc: Global, text: Bytes) -> Result<TextSet, NoMemory>
        ensures { IfOk result (λ texts. texts ≡ self ++ text ∷ []) }
    {
        let TextSet { mut texts, mut set } = self;
        set.insert(copy_of(alloc, text.as_slice())?.into_vec())?;
        texts.push(text)?;
        Ok(TextSet { texts, set })
    }

    /// The texts with these after them.
    pub fn with_all(self, alloc: Global, more: List<Bytes>) -> Result<TextSet, NoMemory>
        ensures { IfOk result (λ texts. texts ≡ self ++ more) }
    {
        let mut texts = self;
        for text in more.into_vec() {
            texts = texts.with(alloc, text)?;
        }
        Ok(texts)
    }
}
