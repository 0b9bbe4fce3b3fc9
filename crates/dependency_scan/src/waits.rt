//! Keys that wait for others.
ghost use Rattle.std.specs.Prelude.{◌≡◌, Some, cond, OnOk, IfOk};
ghost use Rattle.std.specs.Option.{option_copied};
ghost use Rattle.indexmap.specs.IndexMap.{get as place_in};
ghost use Rattle.build_keys.specs.declared.key.Key.{Key as KeyData};
ghost use Rattle.build_keys.specs.SameKey.{is_key};
ghost use Rattle.dependency_scan.specs.Ring.{next_in, waiting, TellNexts};

use build_keys::key::Key;
use file_info::copied::Copied;
use file_info::list::List;
use file_info::memory::NoMemory;
use indexmap::IndexMap;
use std::alloc::Global;

/// A key that waits, and what it waits for, the first of all first.
#[derive(Drop)]
pub struct Wait {
    pub key: Key,
    pub waits_for: List<Key>,
}

/// Where each key waits.
pub type Places = IndexMap<Key, usize>;

// Notes the place of a key instead of the one that it had.
fn note(alloc: Global, places: &mut Places, key: &Key, place: usize) -> Result<(), NoMemory>
    ensures { OnOk result ((q : KeyData) → place_in is_key places.new q ≡ cond (is_key key.now q) (Some place) (place_in is_key places.old q)) }
{
    places.insert(key.copy(alloc)?, place)?;
    Ok(())
}

/// The places of the waits by their keys, the first one where a key waits twice.
pub fn places_of(alloc: Global, waits: &List<Wait>) -> Result<Places, NoMemory>
    ensures { IfOk result (λ places. TellNexts waits.now (place_in is_key places)) }
{
    let mut places = IndexMap::new(alloc);
    let items = waits.as_slice();
    let mut left = items.len();
    'waits: while left > 0 {
        left -= 1;
        note(alloc, &mut places, &items[left].key, left)?;
    }
    Ok(places)
}

/// What a key waits for first. None where it does not wait.
pub fn next_of<'a>(waits: &'a List<Wait>, places: &Places, key: &Key) -> Option<&'a Key>
    requires { TellNexts waits.now (place_in is_key places.now) }
    ensures { option_copied result ≡ next_in waits.now key.now }
{
    let place = places.get(key)?;
    let wait = waits.get(*place)?;
    wait.waits_for.get(0)
}

/// The keys that wait, in order.
pub fn waiting_keys(alloc: Global, waits: &List<Wait>) -> Result<List<Key>, NoMemory>
    ensures { IfOk result (λ keys. keys ≡ waiting waits.now) }
{
    let mut keys = List::new(alloc);
    for wait in waits.as_slice() {
        keys.push(wait.key.copy(alloc)?)?;
    }
    Ok(keys)
}
