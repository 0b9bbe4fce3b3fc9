//! Writing a value.
ghost use Rattle.std.specs.Prelude.{◌≡◌, ◌≤◌, ◌++◌, length, OnOk, OnErr};
ghost use Rattle.build_values.specs.Values.{value_bytes};

use crate::item::{Item, push_items};
use crate::tags::{
    VALUE_DONE, VALUE_EXPECTED, VALUE_FAILED, VALUE_FILE, VALUE_NAMES, VALUE_STRUCTURE,
    VALUE_TARGETS, VALUE_TREE, VALUE_VIRTUAL,
};
use crate::value::Value;
use build_keys::write::{append, push_texts};
use case_table::each_case;
use file_info::list::Bytes;
use file_info::memory::NoMemory;
use std::alloc::Global;

// Adds the tag and the parts of a value.
macro_rules! push_parts {
    (($out:ident) $tag:ident bare) => {{
        $out.push($tag)?;
        Ok(())
    }};
    (($out:ident) $tag:ident one $part:ident) => {{
        $out.push($tag)?;
        $part.push_to($out)
    }};
    (($out:ident) $tag:ident names $names:ident) => {{
        $out.push($tag)?;
        push_texts($out, $names.names())
    }};
    (($out:ident) $tag:ident all $parts:ident) => {{
        $out.push($tag)?;
        push_items($out, $parts)
    }};
}

/// Adds the spelling of a value to a buffer, which may be used again for the next one. It fails only for want of memory,
/// and may have added a part of the spelling then. Where that has more than 16,777,216 bytes, what is added is no spelling.
pub fn push_value(out: &mut Vec<u8>, value: &Value) -> Result<(), NoMemory>
    ensures { OnOk result (out.new.items ≡ out.old.items ++ value_bytes value.now) }
{
    each_case!(match value, push_parts!(out) {
        Value::Virtual => (VALUE_VIRTUAL bare),
        Value::File(info) => (VALUE_FILE one info),
        Value::Names(names) => (VALUE_NAMES names names),
        Value::Tree(entries) => (VALUE_TREE all entries),
        Value::Structure(entries) => (VALUE_STRUCTURE all entries),
        Value::Done(infos) => (VALUE_DONE all infos),
        Value::Expected(paths) => (VALUE_EXPECTED all paths),
        Value::Targets => (VALUE_TARGETS bare),
        Value::Failed => (VALUE_FAILED bare),
    })
}

/// Adds the one spelling of a value at the end of `out`. Without memory `out` is as before.
pub fn write_value(alloc: Global, value: &Value, out: &mut Bytes) -> Result<(), NoMemory>
    requires { length (value_bytes value.now) ≤ 16777216 }
    ensures ok { OnOk result (out.new ≡ out.old ++ value_bytes value.now) }
    ensures err { OnErr result (out.new ≡ out.old) }
{
    let mut spelled = Vec::new(alloc);
    push_value(&mut spelled, value)?;
    append(alloc, out, spelled.as_slice())
}
