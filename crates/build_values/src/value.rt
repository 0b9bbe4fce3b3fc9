//! What a key has when it is done.
ghost use Rattle.std.specs.Prelude.{◌≡◌, ◌↔◌, IsTrue};

use file_info::copied::Copied;
use file_info::info::Info;
use file_info::list::List;
use file_info::memory::NoMemory;
use file_info::node::{ShapeEntry, TreeEntry};
use file_info::path::PathName;
use file_info::same::Same;
use name_list::names::NameList;
use std::alloc::Global;

/// What a key has when it is done. A value has a spelling only where that has at most 16,777,216 bytes.
#[derive(Drop)]
pub enum Value {
    /// Of a virtual node.
    Virtual,
    /// The file information of a path.
    File(Info),
    /// The names directly in a directory.
    Names(NameList),
    /// All that stands below a directory, with file information.
    Tree(List<TreeEntry>),
    /// All that stands below a directory, with kinds.
    Structure(List<ShapeEntry>),
    /// The file information of each output of a command that is not virtual, in order.
    Done(List<Info>),
    /// The paths that a command that removes what is stale expects to stay.
    Expected(List<PathName>),
    /// Of a target.
    Targets,
    /// Of a target or a command that failed.
    Failed,
}

impl Copied for Value {
    fn copy(&self, alloc: Global) -> Result<Value, NoMemory> {
        match self {
            Value::Virtual => Ok(Value::Virtual),
            Value::File(info) => Ok(Value::File(info.copy(alloc)?)),
            Value::Names(names) => Ok(Value::Names(names.copy(alloc)?)),
            Value::Tree(entries) => Ok(Value::Tree(entries.copy(alloc)?)),
            Value::Structure(entries) => Ok(Value::Structure(entries.copy(alloc)?)),
            Value::Done(infos) => Ok(Value::Done(infos.copy(alloc)?)),
            Value::Expected(paths) => Ok(Value::Expected(paths.copy(alloc)?)),
            Value::Targets => Ok(Value::Targets),
            Value::Failed => Ok(Value::Failed),
        }
    }
}

impl Same for Value {
    fn same(&self, other: &Value) -> bool {
        match (self, other) {
            (Value::Virtual, Value::Virtual) => true,
            (Value::File(info), Value::File(other)) => info.same(other),
            (Value::Names(names), Value::Names(others)) => names.same(others),
            (Value::Tree(entries), Value::Tree(others)) => entries.same(others),
            (Value::Structure(entries), Value::Structure(others)) => entries.same(others),
            (Value::Done(infos), Value::Done(others)) => infos.same(others),
            (Value::Expected(paths), Value::Expected(others)) => paths.same(others),
            (Value::Targets, Value::Targets) => true,
            (Value::Failed, Value::Failed) => true,
            _ => false,
        }
    }
}
