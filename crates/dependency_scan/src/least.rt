//! The least of keys.
ghost use Rattle.std.specs.Prelude.{◌≡◌, ◌+◌, ◌<◌, length};
ghost use Rattle.build_keys.specs.Keys.{Each, HasPatterns};
ghost use Rattle.dependency_scan.specs.Ring.{IsLeastPlace};

use build_keys::key::Key;
use build_keys::order::key_order;
use file_info::list::List;

// The place of the lesser one of two keys.
fn lesser(keys: &[Key], best: usize, place: usize) -> usize
    requires patterns { Each HasPatterns keys.now }
    requires within { place < length keys.now }
    requires before { IsLeastPlace keys.now place best }
    ensures { IsLeastPlace keys.now (place + 1) result }
{
    if key_order(&keys[place], &keys[best]).is_lt() {
        place
    } else {
        best
    }
}

/// The place of the least key, by the order of keys. It takes no memory.
pub fn least_place(keys: &List<Key>) -> usize
    requires patterns { Each HasPatterns keys.now }
    requires some { 0 < length keys.now }
    ensures { IsLeastPlace keys.now (length keys.now) result }
{
    let items = keys.as_slice();
    let mut best = 0;
    for place in 1..items.len() {
        best = lesser(items, best, place);
    }
    best
}
