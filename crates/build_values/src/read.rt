//! Reading a value.
ghost use Rattle.std.specs.Prelude.{◌≡◌, ℕ, ◌++◌, ◌≤◌, List as Items, length, IfOk, IfSome, IfNone};
ghost use Rattle.build_values.specs.Values.{IsValue, value_bytes};
ghost use Rattle.build_values.specs.ValueReading.{BeginsWithValue, names_at, value_at};
ghost use Rattle.build_keys.specs.Results.{Gives};
ghost use Rattle.build_values.specs.declared.value.Value.{Value as AnyValue};

use crate::item::{Item, read_items};
use crate::length::VALUE_MAX;
use crate::tags::{
    VALUE_DONE, VALUE_EXPECTED, VALUE_FAILED, VALUE_FILE, VALUE_NAMES, VALUE_STRUCTURE,
    VALUE_TARGETS, VALUE_TREE, VALUE_VIRTUAL,
};
use crate::value::Value;
use build_keys::parts::read_patterns;
use build_keys::unread::Unread;
use case_table::each_case;
use file_info::info::Info;
use file_info::memory::NoMemory;
use name_list::names::NameList;
use std::alloc::Global;

// The names of a directory, in order.
#[tactic(auto, unfolding(crate::specs::ValueReading::names_at))]
fn read_names(alloc: Global, bytes: &[u8]) -> Result<(NameList, &[u8]), Unread>
    ensures reads { Gives (λ x. (x.0, x.1.now)) result (names_at bytes.now) }
    ensures shorter { IfOk result (λ x. length x.1.now ≤ length bytes.now) }
{
    let (names, rest) = read_patterns(alloc, bytes)?;
    match NameList::in_order(names) {
        Some(names) => Ok((names, rest)),
        None => Err(Unread::NoSpelling),
    }
}

// Reads the parts of a value after its tag.
macro_rules! read_parts {
    (($alloc:ident, $rest:ident) bare $made:path) => {
        Ok(($made, $rest))
    };
    (($alloc:ident, $rest:ident) one $made:path) => {{
        let (part, rest) = Info::read_from($alloc, $rest)?;
        Ok(($made(part), rest))
    }};
    (($alloc:ident, $rest:ident) names $made:path) => {{
        let (names, rest) = read_names($alloc, $rest)?;
        Ok(($made(names), rest))
    }};
    (($alloc:ident, $rest:ident) all $made:path) => {{
        let (parts, rest) = read_items($alloc, $rest)?;
        Ok(($made(parts), rest))
    }};
}

/// A value of any length, and the bytes that follow it.
#[tactic(auto, unfolding(crate::specs::ValueReading::value_at))]
pub fn split_value(alloc: Global, bytes: &[u8]) -> Result<(Value, &[u8]), Unread>
    ensures reads { Gives (λ x. (x.0, x.1.now)) result (value_at bytes.now) }
    ensures shorter { IfOk result (λ x. length x.1.now ≤ length bytes.now) }
{
    let [tag, rest @ ..] = bytes else {
        return Err(Unread::NoSpelling);
    };
    each_case!(match *tag, read_parts!(alloc, rest) {
        VALUE_VIRTUAL => (bare Value::Virtual),
        VALUE_FILE => (one Value::File),
        VALUE_NAMES => (names Value::Names),
        VALUE_TREE => (all Value::Tree),
        VALUE_STRUCTURE => (all Value::Structure),
        VALUE_DONE => (all Value::Done),
        VALUE_EXPECTED => (all Value::Expected),
        VALUE_TARGETS => (bare Value::Targets),
        VALUE_FAILED => (bare Value::Failed),
    } else Err(Unread::NoSpelling))
}

/// The value whose spelling the bytes begin with, and the length of that. None exactly where they begin with no spelling,
/// as where that would have more than 16,777,216 bytes.
pub fn read_value(alloc: Global, bytes: &[u8]) -> Result<Option<(Value, usize)>, NoMemory>
    ensures found { IfOk result (λ answer. IfSome answer (λ x. BeginsWithValue bytes.now x.0 x.1)) }
    ensures none { IfOk result (λ answer. IfNone answer ((value : AnyValue) (rest : Items ℕ)
        → IsValue value → bytes.now ≡ value_bytes value ++ rest → ⊥)) }
{
    match split_value(alloc, bytes) {
        Ok((value, rest)) => {
            let long = bytes.len() - rest.len();
            if long > VALUE_MAX as usize {
                return Ok(None);
            }
            Ok(Some((value, long)))
        }
        Err(Unread::NoSpelling) => Ok(None),
        Err(Unread::NoMemory) => Err(NoMemory),
    }
}
