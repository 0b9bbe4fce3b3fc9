//! The laws of values and their spellings. What a function ensures is the law, for a
//! caller to use; beside that it does nothing.
ghost use Rattle.std.specs.Prelude.{◌≡◌, ℕ, ◌≤◌, [], ◌++◌, List as Items, length};
ghost use Rattle.build_keys.specs.Reading.{Reads};
ghost use Rattle.build_values.specs.Values.{HasParts, IsValue, value_bytes};
ghost use Rattle.build_values.specs.ValueReading.{value_at};
ghost use Rattle.build_values.specs.declared.value.Value.{Value as AnyValue};

use crate::item::{Item, items_have_a_spelling};
use crate::value::Value;

/// Values are read by their spellings and by nothing else: a value that was written is read again, whatever follows it,
/// and bytes of which a value is read begin with its spelling.
pub fn values_are_read()
    ensures { Reads value_bytes HasParts value_at }
{}

/// Bytes begin with the spelling of one value at most.
pub fn values_differ()
    ensures { (a b : AnyValue) (r s : Items ℕ) → IsValue a → IsValue b → value_bytes a ++ r ≡ value_bytes b ++ s → (a ≡ b) × (r ≡ s) }
{}

/// Values with one spelling are equal.
pub fn one_spelling_is_one_value()
    ensures { (a b : AnyValue) → IsValue a → IsValue b → value_bytes a ≡ value_bytes b → a ≡ b }
{}

/// No spelling of a value is a proper prefix of another.
pub fn no_value_is_a_prefix()
    ensures { (a b : AnyValue) (r : Items ℕ) → IsValue a → IsValue b → value_bytes a ++ r ≡ value_bytes b → r ≡ [] }
{}

/// A value has a spelling where that has at most 16,777,216 bytes. The value is walked over for it.
pub fn value_has_a_spelling(value: &Value)
    requires { length (value_bytes value.now) ≤ 16777216 }
    ensures { IsValue value.now }
{
    match value {
        Value::Virtual | Value::Targets | Value::Failed => {}
        Value::File(info) => info.has_a_spelling(),
        Value::Names(names) => {
            let _names = names.names();
        }
        Value::Tree(entries) => items_have_a_spelling(entries),
        Value::Structure(entries) => items_have_a_spelling(entries),
        Value::Done(infos) => items_have_a_spelling(infos),
        Value::Expected(paths) => items_have_a_spelling(paths),
    }
}
