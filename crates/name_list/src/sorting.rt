//! Names put in byte order.
ghost use Rattle.std.specs.Prelude.{◌≡◌, ◌<◌, ◌^◌, ◌⊎◌, [], Some, None, length, map, IfOk, IfErr, OnOk};
ghost use Rattle.name_list.specs.EntryNames.{IsInOrder};
ghost use Rattle.name_list.specs.ListFaults.{first_fault};

use crate::entry::names_entry;
use crate::fault::ListError;
use file_info::list::{Bytes, List};
use file_info::memory::NoMemory;
use std::alloc::Global;
use std::collections::BTreeSet;

// The set of these names, or the first fault of theirs.
fn set_of(alloc: Global, names: List<Bytes>) -> Result<BTreeSet<Vec<u8>>, ListError>
    requires { length names < 2 ^ 32 }
    ensures ok { IfOk result (λ set. IsInOrder names (map (λ v. v.items) set.keys)) }
    ensures faultless { OnOk result (first_fault [] names ≡ None) }
    ensures refused { IfErr result (λ error. (error ≡ ListError.NoMemory) ⊎ (first_fault [] names ≡ Some error)) }
{
    let mut set = BTreeSet::new(alloc);
    for name in names.into_vec() {
        let place = set.len() as u32;
        if !names_entry(name.as_slice()) {
            return Err(ListError::Bad { place });
        }
        if !set.insert(name.into_vec())? {
            return Err(ListError::Repeated { place });
        }
    }
    Ok(set)
}

// The names of a set, in its order.
fn list_of(alloc: Global, set: BTreeSet<Vec<u8>>) -> Result<List<Bytes>, NoMemory>
    ensures { IfOk result (λ list. list ≡ map (λ v. v.items) set.keys) }
{
    let mut list = List::new(alloc);
    list.reserve(set.len())?;
    for name in set {
        list.push(List::from_vec(name))?;
    }
    Ok(list)
}

/// The names in byte order, or the first fault of theirs.
pub fn sorted(alloc: Global, names: List<Bytes>) -> Result<List<Bytes>, ListError>
    requires { length names < 2 ^ 32 }
    ensures ok { IfOk result (λ list. IsInOrder names list) }
    ensures faultless { OnOk result (first_fault [] names ≡ None) }
    ensures refused { IfErr result (λ error. (error ≡ ListError.NoMemory) ⊎ (first_fault [] names ≡ Some error)) }
{
    let set = set_of(alloc, names)?;
    let list = list_of(alloc, set)?;
    Ok(list)
}
