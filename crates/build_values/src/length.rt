//! The lengths of spellings, up to one more than the most that a value has.
ghost use Rattle.std.specs.Prelude.{◌≡◌, ◌+◌, length};
ghost use Rattle.spelling.specs.Spelling.{text_bytes, list_bytes};
ghost use Rattle.build_values.specs.Values.{capped, value_bytes};

use crate::item::{Item, items_len};
use crate::value::Value;
use file_info::list::{Bytes, List};

/// The most bytes that the spelling of a value has.
pub const VALUE_MAX: u64 = 16_777_216;

/// The sum of two lengths, or 16,777,217 for every greater one. It takes no memory.
pub fn sum_len(a: u64, b: u64) -> u64
    ensures { result ≡ capped (a + b) }
{
    if a > VALUE_MAX {
        return VALUE_MAX + 1;
    }
    if b > VALUE_MAX - a {
        return VALUE_MAX + 1;
    }
    a + b
}

/// The length of a spelled text of so many bytes, or 16,777,217 for every greater one. It takes no memory.
pub fn text_len(count: usize) -> u64
    ensures { result ≡ capped (4 + count) }
{
    sum_len(4, count as u64)
}

// The length of spelled texts after their count.
fn texts_len(texts: &List<Bytes>) -> u64
    ensures { result ≡ capped (length (list_bytes text_bytes texts.now)) }
{
    let mut total = 4;
    for text in texts.as_slice() {
        total = sum_len(total, text_len(text.len()));
    }
    total
}

/// The length of the spelling of a value, or 16,777,217 for every greater one. It takes no memory.
pub fn value_len(value: &Value) -> u64
    ensures { result ≡ capped (length (value_bytes value.now)) }
{
    match value {
        Value::Virtual | Value::Targets | Value::Failed => 1,
        Value::File(info) => sum_len(1, info.spelled_len()),
        Value::Names(names) => sum_len(1, texts_len(names.names())),
        Value::Tree(entries) => sum_len(1, items_len(entries)),
        Value::Structure(entries) => sum_len(1, items_len(entries)),
        Value::Done(infos) => sum_len(1, items_len(infos)),
        Value::Expected(paths) => sum_len(1, items_len(paths)),
    }
}
