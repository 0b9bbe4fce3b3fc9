//! Walks from key to key.
ghost use Rattle.std.specs.Prelude.{◌≡◌, ◌≤◌, ◌++◌, drop, take, length, IfOk, IfSome, OnOk};
ghost use Rattle.indexmap.specs.IndexMap.{get as place_in};
ghost use Rattle.build_keys.specs.Keys.{Each, HasPatterns};
ghost use Rattle.build_keys.specs.SameKey.{is_key};
ghost use Rattle.dependency_scan.specs.Ring.{waiting, IsWalked, TellNexts};

use crate::waits::{Places, Wait, next_of};
use build_keys::key::Key;
use file_info::copied::Copied;
use file_info::list::List;
use file_info::memory::NoMemory;
use indexmap::IndexSet;
use std::alloc::Global;

// Adds copies of keys.
fn add_keys(alloc: Global, all: &mut List<Key>, keys: &[Key]) -> Result<(), NoMemory>
    ensures { OnOk result (all.new ≡ all.old ++ keys.now) }
{
    for key in keys {
        all.push(key.copy(alloc)?)?;
    }
    Ok(())
}

// The keys from a place on.
fn keys_from(alloc: Global, keys: &[Key], place: usize) -> Result<List<Key>, NoMemory>
    requires { place ≤ length keys.now }
    ensures { IfOk result (λ part. part ≡ drop place keys.now) }
{
    let mut part = List::new(alloc);
    add_keys(alloc, &mut part, &keys[place..])?;
    Ok(part)
}

/// A ring from a place on.
pub fn turned(alloc: Global, ring: &List<Key>, place: usize) -> Result<List<Key>, NoMemory>
    requires { place ≤ length ring.now }
    ensures { IfOk result (λ turned. turned ≡ drop place ring.now ++ take place ring.now) }
{
    let keys = ring.as_slice();
    let mut turned = List::new(alloc);
    add_keys(alloc, &mut turned, &keys[place..])?;
    add_keys(alloc, &mut turned, &keys[..place])?;
    Ok(turned)
}

/// The ring that the walk from a key comes to, as it is reached. None where the walk ends.
pub fn walk<'a>(
    alloc: Global,
    waits: &'a List<Wait>,
    places: &Places,
    from: &'a Key,
) -> Result<Option<List<Key>>, NoMemory>
    requires nexts { TellNexts waits.now (place_in is_key places.now) }
    requires patterns { Each HasPatterns (waiting waits.now) }
    ensures walked { IfOk result (IsWalked waits.now from.now) }
    ensures patterns { IfOk result (λ found. IfSome found (Each HasPatterns)) }
{
    let mut path = IndexSet::new(alloc);
    let mut key = from;
    'steps: while let Some(next) = next_of(waits, places, key) {
        let (place, is_new) = path.insert_full(key.copy(alloc)?)?;
        if !is_new {
            let ring = keys_from(alloc, path.as_slice(), place)?;
            return Ok(Some(ring));
        }
        key = next;
    }
    Ok(None)
}
