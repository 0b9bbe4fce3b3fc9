//! What stands in the lists of a value.
ghost use Rattle.std.specs.Prelude.{◌≡◌, ℕ, ◌++◌, ◌<◌, ◌≤◌, ◌^◌, List as Items, length, IfOk, OnOk};
ghost use Rattle.spelling.specs.Spelling.{items_bytes, list_bytes};
ghost use Rattle.build_keys.specs.Keys.{AreItems};
ghost use Rattle.build_keys.specs.Reading.{Reader, list_at};
ghost use Rattle.build_keys.specs.Results.{Gives};
ghost use Rattle.build_values.specs.Values.{capped};

use crate::length::sum_len;
use build_keys::parts::read_count;
use build_keys::unread::Unread;
use file_info::list::List;
use file_info::memory::NoMemory;
use spelling::push_count;
use std::alloc::Global;

/// A thing with a spelling, of which lists are spelled.
pub trait Item: Drop {
    /// The bytes of its spelling.
    ghost spelled: { Self → Items ℕ };

    /// It has a spelling.
    ghost has_one: { Self → Type 0 };

    /// How it is read from the front of bytes.
    ghost reads: { Reader Self };

    /// Adds the spelling. It fails only for want of memory, and may have added a part of it then.
    fn push_to(&self, out: &mut Vec<u8>) -> Result<(), NoMemory>
        ensures { OnOk result (out.new.items ≡ out.old.items ++ spelled self.now) };

    /// The length of the spelling, or 16,777,217 for every greater one. It takes no memory.
    fn spelled_len(&self) -> u64
        ensures { result ≡ capped (length (spelled self.now)) };

    /// It has a spelling where that is short enough. Nothing is done.
    fn has_a_spelling(&self)
        requires { length (spelled self.now) < 2 ^ 32 }
        ensures { has_one self.now };

    /// Such a thing, and what follows it.
    fn read_from(alloc: Global, bytes: &[u8]) -> Result<(Self, &[u8]), Unread>
        ensures reads { Gives (λ x. (x.0, x.1.now)) result (reads bytes.now) }
        ensures shorter { IfOk result (λ x. length x.1.now ≤ length bytes.now) };
}

/// Adds things after their count. It fails only for want of memory, and may have added a part of them then.
pub fn push_items<T: Item>(out: &mut Vec<u8>, items: &List<T>) -> Result<(), NoMemory>
    ensures { OnOk result (out.new.items ≡ out.old.items ++ list_bytes T.spelled items.now) }
{
    push_count(out, items.len())?;
    for item in items.as_slice() {
        item.push_to(out)?;
    }
    Ok(())
}

/// Things have a spelling where that is short enough. They are walked over, and nothing is done.
pub fn items_have_a_spelling<T: Item>(items: &List<T>)
    requires short { length (items_bytes T.spelled items.now) < 2 ^ 32 }
    requires few { length items.now < 2 ^ 32 }
    ensures { AreItems T.has_one items.now }
{
    for item in items.as_slice() {
        item.has_a_spelling();
    }
}

/// The length of things after their count, or 16,777,217 for every greater one. It takes no memory.
pub fn items_len<T: Item>(items: &List<T>) -> u64
    ensures { result ≡ capped (length (list_bytes T.spelled items.now)) }
{
    let mut total = 4;
    for item in items.as_slice() {
        total = sum_len(total, item.spelled_len());
    }
    total
}

/// Things after their count, and what follows them.
#[tactic(auto, unfolding(build_keys::specs::Reading::list_at))]
pub fn read_items<T: Item>(alloc: Global, bytes: &[u8]) -> Result<(List<T>, &[u8]), Unread>
    ensures reads { Gives (λ x. (x.0, x.1.now)) result (list_at T.reads bytes.now) }
    ensures shorter { IfOk result (λ x. length x.1.now ≤ length bytes.now) }
{
    let (count, mut rest) = read_count(bytes)?;
    let mut found = List::new(alloc);
    for _ in 0..count {
        let (item, tail) = T::read_from(alloc, rest)?;
        found.push(item)?;
        rest = tail;
    }
    Ok((found, rest))
}
