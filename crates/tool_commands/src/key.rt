//! The key that an input asks for.
ghost use Rattle.std.specs.Prelude.{◌≡◌, IfOk};
ghost use Rattle.tool_commands.specs.InputKeys.{asked};

use build_keys::key::Key;
use build_manifest::command::{Input, InputForm};
use file_info::copied::Copied;
use file_info::memory::NoMemory;
use file_info::node::NodeName;
use std::alloc::Global;

/// The key that an input asks for: its node, or all that stands below its path. It fails for want of memory alone.
pub fn key_of(alloc: Global, input: &Input) -> Result<Key, NoMemory>
    ensures { IfOk result (λ key. key ≡ asked input.now.form input.now.node) }
{
    match (&input.form, &input.node) {
        (InputForm::Tree(patterns), NodeName::Path(path)) => {
            Ok(Key::Tree(path.copy(alloc)?, patterns.copy(alloc)?))
        }
        (InputForm::Structure(patterns), NodeName::Path(path)) => {
            Ok(Key::Structure(path.copy(alloc)?, patterns.copy(alloc)?))
        }
        (InputForm::Tree(_), NodeName::Virtual(name)) => Ok(Key::Node(NodeName::Virtual(name.copy(
            alloc,
        )?))),
        (InputForm::Structure(_), NodeName::Virtual(name)) => Ok(Key::Node(NodeName::Virtual(
            name.copy(alloc)?,
        ))),
        (InputForm::File, node) => Ok(Key::Node(node.copy(alloc)?)),
        (InputForm::Virtual, node) => Ok(Key::Node(node.copy(alloc)?)),
    }
}
