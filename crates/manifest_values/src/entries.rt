//! What the entries of `nodes` say of paths.
ghost use Rattle.std.specs.Prelude.{◌≡◌, ℕ, true, false, List as Items, [], ◌∷◌, ◌++◌, None, Some, cond, bytes_eq, OnOk, IfOk, IfSome, ◌<◌, length};
ghost use Rattle.std.specs.Option.{option_copied, option_or};
ghost use Rattle.std.specs.HashMap.{get_by_text};
ghost use Rattle.manifest_values.specs.Known as spec;

use crate::known::Entry;
use file_info::list::List;
use file_info::memory::NoMemory;
use file_info::path::PathName;
use std::alloc::Global;
use std::collections::HashMap;
use std::marker::Model;

/// Places of entries, by the texts of their paths.
pub type Places = HashMap<String, usize>;

/// Entries, in order, with one look for the first of a path. Contracts see the entries.
#[derive(Drop)]
pub struct Entries {
    entries: List<Entry>,
    files: Places,
    folders: Places,
}

impl Model for Entries {
    ghost use Rattle.std.specs.Prelude.{List as ListOf};
    ghost use Rattle.manifest_values.specs.declared.known.Entry.{Entry};
    ghost use Rattle.manifest_values.specs.Known.{ArePlaced};

    ghost Value = { ListOf Entry };

    ghost view = { λ e. e.entries };

    ghost invariant = { λ e. ArePlaced e.entries e.files e.folders };
}

// Notes the place of a text, where it has none.
fn note(alloc: Global, places: &mut Places, text: &str, place: usize) -> Result<(), NoMemory>
    ensures { OnOk result ((q : Items ℕ) → get_by_text places.new q
        ≡ option_or (get_by_text places.old q) (cond (bytes_eq q text.now) (Some place) None)) }
{
    if places.contains_key(text) {
        return Ok(());
    }
    let text = String::from_str(alloc, text)?;
    places.insert(text, place)?;
    Ok(())
}

impl Entries {
    /// No entries. It takes no memory.
    pub fn new(alloc: Global) -> Entries
        ensures { result ≡ [] }
    {
        Entries {
            entries: List::new(alloc),
            files: HashMap::new(alloc),
            folders: HashMap::new(alloc),
        }
    }

    // The entries with one more at the end, whose name ends with `/`.
    fn with_folder(self, alloc: Global, entry: Entry) -> Result<Entries, NoMemory>
        requires { entry.slash ≡ true }
        ensures { IfOk result (λ entries. entries ≡ self ++ entry ∷ []) }
    {
        let Entries {
            mut entries,
            files,
            mut folders,
        } = self;
        note(alloc, &mut folders, entry.path.text(), entries.len())?;
        entries.push(entry)?;
        Ok(Entries {
            entries,
            files,
            folders,
        })
    }

    // The entries with one more at the end, whose name does not end with `/`.
    fn with_file(self, alloc: Global, entry: Entry) -> Result<Entries, NoMemory>
        requires { entry.slash ≡ false }
        ensures { IfOk result (λ entries. entries ≡ self ++ entry ∷ []) }
    {
        let Entries {
            mut entries,
            mut files,
            folders,
        } = self;
        note(alloc, &mut files, entry.path.text(), entries.len())?;
        entries.push(entry)?;
        Ok(Entries {
            entries,
            files,
            folders,
        })
    }

    /// The entries with one more at the end.
    pub fn with(self, alloc: Global, entry: Entry) -> Result<Entries, NoMemory>
        ensures { IfOk result (λ entries. entries ≡ self ++ entry ∷ []) }
    {
        if entry.slash {
            self.with_folder(alloc, entry)
        } else {
            self.with_file(alloc, entry)
        }
    }

    // The place of the first entry of the path with this final `/` or without it.
    fn place(&self, path: &PathName, slash: bool) -> Option<usize>
        ensures { result ≡ spec.entry_place self.now path.now slash }
    {
        if slash {
            self.folders.get(path.text()).copied()
        } else {
            self.files.get(path.text()).copied()
        }
    }

    /// The first entry of the path with this final `/` or without it. Where there are no entries the path is not hashed.
    pub fn entry(&self, path: &PathName, slash: bool) -> Option<&Entry>
        ensures { option_copied result ≡ spec.entry_among self.now path.now slash }
    {
        if self.entries.is_empty() {
            return None;
        }
        let place = self.place(path, slash)?;
        self.entries.get(place)
    }
}
