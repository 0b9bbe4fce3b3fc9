// How counts, flags, texts, lists and names of nodes are spelled in bytes. What differs is spelled differently, within stated limits.
#![tactic(auto)]

ghost use Rattle.std.specs.Prelude.{◌≡◌, ◌++◌, OnOk};
ghost use Rattle.spelling.specs.Spelling.{count_bytes, flag_bytes, text_bytes, node_bytes};

use file_info::memory::NoMemory;
use file_info::node::NodeName;

pub mod laws;
#[cfg(test)]
mod tests;

/// A count in four bytes, the highest first. A count is written modulo 2^32, so only counts below 2^32 are told apart.
pub fn count_of(count: usize) -> [u8; 4]
    ensures { result ≡ count_bytes count }
{
    let low = (count % 0x1_0000_0000) as u32;
    low.to_be_bytes()
}

/// Adds a count in the four bytes of `count_of`, so only counts below 2^32 are told apart. It fails only for want of
/// memory.
pub fn push_count(out: &mut Vec<u8>, count: usize) -> Result<(), NoMemory>
    ensures { OnOk result (out.new.items ≡ out.old.items ++ count_bytes count) }
{
    out.extend_from_slice(&count_of(count))?;
    Ok(())
}

/// Adds a flag: the byte 1 for true and 0 for false. It fails only for want of memory.
pub fn push_flag(out: &mut Vec<u8>, flag: bool) -> Result<(), NoMemory>
    ensures { OnOk result (out.new.items ≡ out.old.items ++ flag_bytes flag) }
{
    out.push(u8::from(flag))?;
    Ok(())
}

/// Adds a text: the count of its bytes, and then the bytes. Texts of fewer than 2^32 bytes are told apart, as the law
/// `texts_differ` says. It fails only for want of memory, and may have added the count then.
pub fn push_text(out: &mut Vec<u8>, text: &[u8]) -> Result<(), NoMemory>
    ensures { OnOk result (out.new.items ≡ out.old.items ++ text_bytes text.now) }
{
    push_count(out, text.len())?;
    out.extend_from_slice(text)?;
    Ok(())
}

/// Adds the name of a node: the byte 0 and the text of a path, or the byte 1 and the text of a virtual name. It fails
/// only for want of memory, and may have added a part of the name then.
pub fn push_node(out: &mut Vec<u8>, node: &NodeName) -> Result<(), NoMemory>
    ensures { OnOk result (out.new.items ≡ out.old.items ++ node_bytes node.now) }
{
    match node {
        NodeName::Path(path) => {
            out.push(0)?;
            push_text(out, path.text().as_bytes())
        }
        NodeName::Virtual(name) => {
            out.push(1)?;
            push_text(out, name.text().as_bytes())
        }
    }
}
