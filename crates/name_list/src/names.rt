//! The names in a directory.
ghost use Rattle.std.specs.Prelude.{◌≡◌, ◌<◌, ◌^◌, ◌⊎◌, true, false, [], Some, None, length, IfOk, IfErr, OnOk, MatchOption};
ghost use Rattle.name_list.specs.EntryNames.{comes_first, are_entry_names, IsInOrder};
ghost use Rattle.name_list.specs.ListFaults.{first_fault};

use crate::entry::names_entry;
use crate::fault::ListError;
use crate::sorting::sorted;
use file_info::copied::Copied;
use file_info::list::{Bytes, List};
use file_info::memory::NoMemory;
use file_info::same::Same;
use std::alloc::Global;
use std::marker::Model;

/// The names in one directory: each can name an entry, and they stand in byte order, none twice. Contracts see the list of
/// their bytes.
#[derive(Drop)]
pub struct NameList {
    names: List<Bytes>,
}

impl Model for NameList {
    ghost use Rattle.std.specs.Prelude.{◌≡◌, ℕ, true, List};
    ghost use Rattle.name_list.specs.EntryNames.{are_entry_names};

    ghost Value = { List (List ℕ) };

    ghost view = { λ l. l.names };

    ghost invariant = { λ l. are_entry_names l.names ≡ true };
}

// Whether the name comes before the first of the others, if there is one.
fn stands_before(name: &[u8], others: &[Bytes]) -> bool
    ensures { result ≡ comes_first name.now others.now }
{
    match others {
        [next, ..] => name.cmp(next.as_slice()).is_lt(),
        [] => true,
    }
}

// Whether each text can name an entry, and comes before the next one.
fn all_in_order(names: &[Bytes]) -> bool
    ensures { result ≡ are_entry_names names.now }
{
    let mut rest = names;
    while let [name, others @ ..] = rest {
        if !names_entry(name.as_slice()) || !stands_before(name.as_slice(), others) {
            return false;
        }
        rest = others;
    }
    true
}

impl NameList {
    /// The list of these names, put in byte order, or the first fault of the named ones.
    pub fn read(alloc: Global, names: List<Bytes>) -> Result<NameList, ListError>
        requires { length names < 2 ^ 32 }
        ensures ok { IfOk result (λ list. IsInOrder names list) }
        ensures faultless { OnOk result (first_fault [] names ≡ None) }
        ensures refused { IfErr result (λ error. (error ≡ ListError.NoMemory) ⊎ (first_fault [] names ≡ Some error)) }
    {
        let names = sorted(alloc, names)?;
        Ok(NameList { names })
    }

    /// The list of these names, where each can name an entry, and they stand in byte order, none twice. None exactly where
    /// that does not hold. It takes no memory.
    pub fn in_order(names: List<Bytes>) -> Option<NameList>
        ensures { MatchOption result (are_entry_names names ≡ false) (λ list. (list ≡ names) × (are_entry_names names ≡ true)) }
    {
        if all_in_order(names.as_slice()) {
            Some(NameList { names })
        } else {
            None
        }
    }

    /// The names. It takes no memory.
    pub fn names(&self) -> &List<Bytes>
        ensures value { result.now ≡ self.now }
        ensures in_order { are_entry_names self.now ≡ true }
    {
        &self.names
    }
}

impl Same for NameList {
    fn same(&self, other: &NameList) -> bool {
        self.names.same(&other.names)
    }
}

impl Copied for NameList {
    fn copy(&self, alloc: Global) -> Result<NameList, NoMemory> {
        let names = self.names.copy(alloc)?;
        Ok(NameList { names })
    }
}
