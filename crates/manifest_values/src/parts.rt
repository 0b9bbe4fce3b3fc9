//! Lists of parts.
ghost use Rattle.manifest_values.specs.Refusal.{Given, Gives, Makes};
ghost use Rattle.manifest_values.specs.Refusal as spec;
ghost use Rattle.manifest_values.specs.declared.refusal.Refusal.TheVariants.{BadAttribute, Limit};

use crate::refusal::{Counted, Refusal, Stop, bad_attribute};
use file_info::list::List;
use std::alloc::Global;

/// A reader of the parts of a list.
pub trait ReadPart {
    type Item: Drop;

    type Part: Drop;

    /// What an item gives.
    ghost gives: { Self → Self.Item → Given Self.Part };

    /// Reads an item.
    fn read(&self, alloc: Global, item: Self::Item) -> Result<Self::Part, Stop>
        ensures { Gives (λ x. x) result (gives self.now item) };
}

/// Reads each item, or answers the refusal of the first that is refused.
pub fn each<R: ReadPart>(
    alloc: Global,
    reader: &R,
    items: List<R::Item>,
) -> Result<List<R::Part>, Stop>
    ensures { Gives (λ x. x) result (spec.each (R.gives reader.now) items) }
{
    let mut parts = List::new(alloc);
    parts.reserve(items.len())?;
    for item in items.into_vec() {
        let part = reader.read(alloc, item)?;
        parts.push(part)?;
    }
    Ok(parts)
}

/// Reads each item of a list that has a limit.
pub fn each_within<R: ReadPart>(
    alloc: Global,
    reader: &R,
    items: List<R::Item>,
    limit: usize,
    what: Counted,
    most: u64,
) -> Result<List<R::Part>, Stop>
    ensures { Gives (λ x. x) result (spec.each_within limit (Limit what most) (R.gives reader.now) items) }
{
    let over = limit < items.len();
    let mut items = items.into_vec();
    items.truncate(limit);
    let parts = each(alloc, reader, List::from_vec(items))?;
    if over {
        return Err(Stop::Refused(Refusal::Limit { what, limit: most }));
    }
    Ok(parts)
}

/// A step of a fold.
pub trait Step {
    type Item: Drop;

    type State: Drop;

    /// What an item makes of a state.
    ghost makes: { Self → Self.State → Self.Item → Given Self.State };

    /// Takes an item, which changes the state.
    fn take(&self, alloc: Global, state: &mut Self::State, item: Self::Item) -> Result<(), Stop>
        ensures { Makes state.new result (makes self.now state.old item) };
}

/// Takes each item in turn.
pub fn fold<S: Step>(
    alloc: Global,
    step: &S,
    start: S::State,
    items: List<S::Item>,
) -> Result<S::State, Stop>
    ensures { Gives (λ x. x) result (spec.fold (S.makes step.now) start items) }
{
    let mut state = start;
    for item in items.into_vec() {
        step.take(alloc, &mut state, item)?;
    }
    Ok(state)
}

/// The value that is due at an attribute of the owner, where it has the shape.
pub fn shaped<T: Drop>(
    alloc: Global,
    owner: &[u8],
    name: &[u8],
    found: Option<T>,
) -> Result<T, Stop>
    ensures { Gives (λ x. x) result (spec.given_or (BadAttribute owner.now name.now) found) }
{
    match found {
        Some(value) => Ok(value),
        None => Err(bad_attribute(alloc, owner, name)),
    }
}
