//! The rows of settled keys.
ghost use Rattle.std.specs.Prelude.{◌≡◌, List as Items, reverse};
ghost use Rattle.std.specs.Option.{option_copied};
ghost use Rattle.engine_rules.specs.declared.row.Settled.{Settled as SettledKey};
ghost use Rattle.build_keys.specs.SameKey.{is_key};
ghost use Rattle.engine_rules.specs.Known.{row_in};

use build_keys::key::Key;
use engine_rules::row::{Row, Settled};
use file_info::list::List;
use file_info::same::Same;

/// The rows of the keys that are settled so far.
pub trait SettledRows {
    /// The settled keys with their rows, the newest first.
    ghost settled: { Self → Items SettledKey };

    /// The row that a key was settled with. None exactly where it is not settled. It takes no memory.
    fn row_of(&self, key: &Key) -> Option<&Row>
        ensures { option_copied result ≡ row_in (settled self.now) key.now };
}

// Whether an entry is of the key.
fn is_of(entry: &Settled, key: &Key) -> bool
    ensures { result ≡ is_key entry.now.key key.now }
{
    entry.key.same(key)
}

/// A plain list, the oldest entry first. Each look-up walks it.
impl SettledRows for List<Settled> {
    ghost settled = { λ l. reverse l };

    fn row_of(&self, key: &Key) -> Option<&Row> {
        let entries = self.as_slice();
        let mut left = entries.len();
        'entries: while left > 0 {
            left -= 1;
            let entry = &entries[left];
            if is_of(entry, key) {
                return Some(&entry.row);
            }
        }
        None
    }
}
