//! File information, kinds, paths and entries, as they are spelled in a value.
ghost use Rattle.std.specs.Prelude.{◌≡◌, ◌+◌, ◌++◌, ◌≤◌, length, IfOk, OnOk};
ghost use Rattle.spelling.specs.Spelling.{items_bytes};
ghost use Rattle.build_keys.specs.Keys.{Each};
ghost use Rattle.build_values.specs.Values.{capped, num_bytes, kind_bytes, IsNum, IsStamp};
ghost use Rattle.build_values.specs.ValueReading.{num_at, stamp_at, kind_at};
ghost use Rattle.build_keys.specs.Results.{Gives};

use crate::item::Item;
use crate::length::{sum_len, text_len};
use crate::tags::{INFO_DIRECTORY, INFO_FILE, INFO_LINK, INFO_MISSING, KIND_DIRECTORY, KIND_OTHER};
use build_keys::laws::path_has_a_spelling;
use build_keys::parts::{read_path, read_text};
use build_keys::unread::Unread;
use file_info::info::{Info, Kind};
use file_info::list::List;
use file_info::memory::NoMemory;
use file_info::node::{ShapeEntry, TreeEntry};
use file_info::path::PathName;
use spelling::push_text;
use std::alloc::Global;

/// Adds a number in eight bytes, the highest first. It fails only for want of memory.
#[tactic(auto, unfolding(crate::specs::Values::num_bytes))]
pub fn push_num(out: &mut Vec<u8>, number: u64) -> Result<(), NoMemory>
    ensures { OnOk result (out.new.items ≡ out.old.items ++ num_bytes number) }
{
    out.extend_from_slice(&number.to_be_bytes())?;
    Ok(())
}

/// A number in eight bytes, the highest first. It takes no memory.
#[tactic(auto, unfolding(crate::specs::ValueReading::num_at))]
pub fn read_num(bytes: &[u8]) -> Result<(u64, &[u8]), Unread>
    ensures reads { Gives (λ x. (x.0, x.1.now)) result (num_at bytes.now) }
    ensures shorter { IfOk result (λ x. length x.1.now ≤ length bytes.now) }
{
    match bytes {
        [a, b, c, d, e, f, g, h, rest @ ..] => {
            let number = u64::from_be_bytes([*a, *b, *c, *d, *e, *f, *g, *h]);
            Ok((number, rest))
        }
        _ => Err(Unread::NoSpelling),
    }
}

// Adds the numbers of a stamp.
fn push_stamp(out: &mut Vec<u8>, stamp: &[u64]) -> Result<(), NoMemory>
    ensures { OnOk result (out.new.items ≡ out.old.items ++ items_bytes num_bytes stamp.now) }
{
    for number in stamp {
        push_num(out, *number)?;
    }
    Ok(())
}

// The four numbers of a stamp.
fn read_stamp(bytes: &[u8]) -> Result<([u64; 4], &[u8]), Unread>
    ensures reads { Gives (λ x. (x.0, x.1.now)) result (stamp_at bytes.now) }
    ensures shorter { IfOk result (λ x. length x.1.now ≤ length bytes.now) }
{
    let (seconds, rest) = read_num(bytes)?;
    let (nanos, rest) = read_num(rest)?;
    let (inode, rest) = read_num(rest)?;
    let (device, rest) = read_num(rest)?;
    Ok(([seconds, nanos, inode, device], rest))
}

// Numbers of eight bytes have a spelling.
fn numbers_have_a_spelling(numbers: &[u64])
    ensures { Each IsNum numbers.now }
{
    let _first = numbers.first();
}

// The size and the stamp of a file have a spelling.
fn file_has_a_spelling(size: u64, stamp: &[u64; 4])
    ensures size { IsNum size }
    ensures stamp { IsStamp stamp.now }
{
    numbers_have_a_spelling(stamp);
}

// The length of the spelling of a file's information.
fn file_len(size: u64, stamp: &[u64; 4]) -> u64
    ensures { result ≡ capped (1 + length (num_bytes size ++ items_bytes num_bytes stamp.now)) }
{
    41
}

impl Item for Info {
    ghost use Rattle.build_values.specs.Values.{info_bytes, IsInfo};
    ghost use Rattle.build_values.specs.ValueReading.{info_at};

    ghost spelled = { info_bytes };

    ghost has_one = { IsInfo };

    ghost reads = { info_at };

    fn push_to(&self, out: &mut Vec<u8>) -> Result<(), NoMemory> {
        match self {
            Info::Missing => out.push(INFO_MISSING)?,
            Info::Directory => out.push(INFO_DIRECTORY)?,
            Info::File { size, stamp } => {
                out.push(INFO_FILE)?;
                push_num(out, *size)?;
                push_stamp(out, stamp)?;
            }
            Info::Link { text } => {
                out.push(INFO_LINK)?;
                push_text(out, text.as_slice())?;
            }
        }
        Ok(())
    }

    fn spelled_len(&self) -> u64 {
        match self {
            Info::Missing | Info::Directory => 1,
            Info::File { size, stamp } => file_len(*size, stamp),
            Info::Link { text } => sum_len(1, text_len(text.len())),
        }
    }

    fn has_a_spelling(&self) {
        match self {
            Info::Missing | Info::Directory | Info::Link { .. } => {}
            Info::File { size, stamp } => file_has_a_spelling(*size, stamp),
        }
    }

    #[tactic(auto, unfolding(crate::specs::ValueReading::info_at))]
    fn read_from(alloc: Global, bytes: &[u8]) -> Result<(Info, &[u8]), Unread> {
        let [tag, rest @ ..] = bytes else {
            return Err(Unread::NoSpelling);
        };
        match *tag {
            INFO_MISSING => Ok((Info::Missing, rest)),
            INFO_DIRECTORY => Ok((Info::Directory, rest)),
            INFO_FILE => {
                let (size, rest) = read_num(rest)?;
                let (stamp, rest) = read_stamp(rest)?;
                Ok((Info::File { size, stamp }, rest))
            }
            INFO_LINK => {
                let (text, rest) = read_text(rest)?;
                let text = List::from_vec(Vec::from_slice(alloc, text)?);
                Ok((Info::Link { text }, rest))
            }
            _ => Err(Unread::NoSpelling),
        }
    }
}

impl Item for PathName {
    ghost use Rattle.spelling.specs.Spelling.{text_bytes};
    ghost use Rattle.build_keys.specs.Keys.{IsShort, is_path};
    ghost use Rattle.build_keys.specs.Reading.{passing_at};

    ghost spelled = { text_bytes };

    ghost has_one = { IsShort is_path };

    ghost reads = { passing_at is_path };

    fn push_to(&self, out: &mut Vec<u8>) -> Result<(), NoMemory> {
        push_text(out, self.text().as_bytes())
    }

    fn spelled_len(&self) -> u64 {
        text_len(self.text().len())
    }

    fn has_a_spelling(&self) {
        path_has_a_spelling(self);
    }

    fn read_from(alloc: Global, bytes: &[u8]) -> Result<(PathName, &[u8]), Unread> {
        read_path(alloc, bytes)
    }
}

impl Item for TreeEntry {
    ghost use Rattle.build_values.specs.Values.{entry_bytes, IsEntry};
    ghost use Rattle.build_values.specs.ValueReading.{entry_at};

    ghost spelled = { entry_bytes };

    ghost has_one = { IsEntry };

    ghost reads = { entry_at };

    fn push_to(&self, out: &mut Vec<u8>) -> Result<(), NoMemory> {
        self.path.push_to(out)?;
        self.info.push_to(out)
    }

    fn spelled_len(&self) -> u64 {
        sum_len(self.path.spelled_len(), self.info.spelled_len())
    }

    fn has_a_spelling(&self) {
        path_has_a_spelling(&self.path);
        self.info.has_a_spelling();
    }

    #[tactic(auto, unfolding(crate::specs::ValueReading::entry_at))]
    fn read_from(alloc: Global, bytes: &[u8]) -> Result<(TreeEntry, &[u8]), Unread> {
        let (path, rest) = PathName::read_from(alloc, bytes)?;
        let (info, rest) = Info::read_from(alloc, rest)?;
        Ok((TreeEntry { path, info }, rest))
    }
}

// Adds a kind.
fn push_kind(out: &mut Vec<u8>, kind: Kind) -> Result<(), NoMemory>
    ensures { OnOk result (out.new.items ≡ out.old.items ++ kind_bytes kind) }
{
    let tag = match kind {
        Kind::Directory => KIND_DIRECTORY,
        Kind::Other => KIND_OTHER,
    };
    out.push(tag)?;
    Ok(())
}

// A kind.
#[tactic(auto, unfolding(crate::specs::ValueReading::kind_at))]
fn read_kind(bytes: &[u8]) -> Result<(Kind, &[u8]), Unread>
    ensures reads { Gives (λ x. (x.0, x.1.now)) result (kind_at bytes.now) }
    ensures shorter { IfOk result (λ x. length x.1.now ≤ length bytes.now) }
{
    match bytes {
        [KIND_DIRECTORY, rest @ ..] => Ok((Kind::Directory, rest)),
        [KIND_OTHER, rest @ ..] => Ok((Kind::Other, rest)),
        _ => Err(Unread::NoSpelling),
    }
}

impl Item for ShapeEntry {
    ghost use Rattle.build_values.specs.Values.{shape_bytes, IsShape};
    ghost use Rattle.build_values.specs.ValueReading.{shape_at};

    ghost spelled = { shape_bytes };

    ghost has_one = { IsShape };

    ghost reads = { shape_at };

    fn push_to(&self, out: &mut Vec<u8>) -> Result<(), NoMemory> {
        self.path.push_to(out)?;
        push_kind(out, self.kind)
    }

    fn spelled_len(&self) -> u64 {
        sum_len(self.path.spelled_len(), 1)
    }

    fn has_a_spelling(&self) {
        path_has_a_spelling(&self.path);
    }

    #[tactic(auto, unfolding(crate::specs::ValueReading::shape_at))]
    fn read_from(alloc: Global, bytes: &[u8]) -> Result<(ShapeEntry, &[u8]), Unread> {
        let (path, rest) = PathName::read_from(alloc, bytes)?;
        let (kind, rest) = read_kind(rest)?;
        Ok((ShapeEntry { path, kind }, rest))
    }
}
