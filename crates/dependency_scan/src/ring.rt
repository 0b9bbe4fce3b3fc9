//! The ring of waiting keys.
ghost use Rattle.std.specs.Prelude.{◌≡◌, IfOk};
ghost use Rattle.build_keys.specs.Keys.{Each, HasPatterns};
ghost use Rattle.dependency_scan.specs.Ring.{waiting, IsRingAnswer};

use crate::least::least_place;
use crate::waits::{Wait, places_of, waiting_keys};
use crate::walk::{turned, walk};
use build_keys::key::Key;
use file_info::list::List;
use file_info::memory::NoMemory;
use std::alloc::Global;

/// The ring of keys that wait for each other: the one that the walk from the least waiting key reaches, from its least key on.
/// The walk goes from each key to the first that it waits for. None exactly where nothing waits, or where the walk comes to a key
/// that does not wait. Keys are in the order of their spellings. It takes time and memory in proportion to the number of keys.
pub fn ring(alloc: Global, waits: &List<Wait>) -> Result<Option<List<Key>>, NoMemory>
    requires { Each HasPatterns (waiting waits.now) }
    ensures { IfOk result (IsRingAnswer waits.now) }
{
    let keys = waiting_keys(alloc, waits)?;
    if keys.is_empty() {
        return Ok(None);
    }
    let places = places_of(alloc, waits)?;
    let start = &keys.as_slice()[least_place(&keys)];
    match walk(alloc, waits, &places, start)? {
        None => Ok(None),
        Some(found) => {
            let place = least_place(&found);
            let ring = turned(alloc, &found, place)?;
            Ok(Some(ring))
        }
    }
}
