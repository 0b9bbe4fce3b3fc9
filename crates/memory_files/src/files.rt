//! Files in memory.
ghost use Rattle.std.specs.Prelude.{◌≡◌, ◌<◌, ◌≤◌, ◌+◌, [], IfOk, OnOk, OnErr, IsTrue};
ghost use Rattle.std.specs.Option.{option_copied};
ghost use Rattle.memory_files.specs.Log.{last_of, info_of, standing, put, numbered_from};
ghost use Rattle.outside.specs.FileRead.{bytes_of};

use crate::write::{What, Write};
use file_info::copied::Copied;
use file_info::info::{Form, Info};
use file_info::memory::NoMemory;
use file_info::path::PathName;
use outside::disk::FileBytes;
use reserved_list::reserved::Reserved;
use std::alloc::Global;
use std::collections::HashMap;
use std::marker::Model;

/// A path that is to be written, and its key among the places.
#[derive(Drop)]
pub struct Draft {
    path: PathName,
    key: String,
}

impl Model for Draft {
    ghost use Rattle.std.specs.Prelude.{◌≡◌, List, ℕ, string_bytes};

    ghost Value = { List ℕ };

    ghost view = { λ d. d.path };

    ghost invariant = { λ d. string_bytes d.key ≡ d.path };
}

impl Draft {
    /// A draft for a path. What is kept for a write is copied here.
    pub fn new(alloc: Global, path: &PathName) -> Result<Draft, NoMemory>
        ensures { IfOk result (λ draft. draft ≡ path.now) }
    {
        let key = String::from_str(alloc, path.text())?;
        let path = path.copy(alloc)?;
        Ok(Draft { path, key })
    }

    /// The text of its path.
    pub fn text(&self) -> &str
        ensures { result.now ≡ self.now }
    {
        self.path.text()
    }
}

/// All writes since the beginning, and beside them the place of the last one at each path. Contracts see the writes, and
/// the room: how many more can be added without memory.
#[derive(Drop)]
pub struct Files {
    writes: Reserved<Write>,
    places: HashMap<String, usize>,
}

impl Model for Files {
    ghost use Rattle.std.specs.Prelude.{min};
    ghost use Rattle.std.specs.HashMap.{get_by_text, spare};
    ghost use Rattle.memory_files.specs.Log.{IsIndexed, Stored};

    ghost Value = { Stored };

    ghost view = { λ f. record { writes = f.writes.items; room = min f.writes.spare (spare f.places) } };

    ghost invariant = { λ f. IsIndexed f.writes.items (λ p. get_by_text f.places p) };
}

impl Files {
    /// No writes yet. It takes no memory.
    pub fn new(alloc: Global) -> Files
        ensures { result.writes ≡ [] }
    {
        let writes = Reserved::new(alloc);
        let places = HashMap::new(alloc);
        Files { writes, places }
    }

    /// All writes, the oldest first. Their numbers rise from 1.
    pub fn writes(&self) -> &[Write]
        ensures value { result.now ≡ self.now.writes }
        ensures numbered { IsTrue (numbered_from 1 self.now.writes) }
    {
        self.writes.as_slice()
    }

    /// The last write at the path of this text. It walks over no writes.
    pub fn last(&self, path: &str) -> Option<&Write>
        ensures { option_copied result ≡ last_of self.now.writes path.now }
    {
        let place = self.places.get(path)?;
        self.writes.as_slice().get(*place)
    }

    /// What stands at the path of this text. It walks over no writes.
    pub fn info(&self, alloc: Global, path: &str, form: Form) -> Result<Info, NoMemory>
        ensures { IfOk result (λ info. info ≡ info_of (last_of self.now.writes path.now) form) }
    {
        match self.last(path) {
            None => Ok(Info::Missing),
            Some(write) => match &write.what {
                What::Gone => Ok(Info::Missing),
                What::Dir => Ok(Info::Directory),
                What::Bytes(text) => Ok(Info::File {
                    size: text.len() as u64,
                    stamp: [write.number, 0, 0, 0],
                }),
                What::LinkText(text) => match form {
                    Form::Follow => Ok(Info::Missing),
                    Form::Link => Ok(Info::Link {
                        text: text.copy(alloc)?,
                    }),
                },
            },
        }
    }

    /// The bytes of the file at the path of this text, where there are at most `most` of them. It walks over no writes. A
    /// link leads nowhere.
    pub fn read(&self, alloc: Global, path: &str, most: u64) -> Result<FileBytes, NoMemory>
        ensures { IfOk result (λ bytes. bytes ≡ bytes_of most (standing self.now.writes path.now Form.Follow)) }
    {
        match self.last(path) {
            None => Ok(FileBytes::Missing),
            Some(write) => match &write.what {
                What::Gone => Ok(FileBytes::Missing),
                What::Dir => Ok(FileBytes::NotFile),
                What::LinkText(_) => Ok(FileBytes::Missing),
                What::Bytes(text) => {
                    if text.len() as u64 <= most {
                        Ok(FileBytes::Bytes(text.copy(alloc)?))
                    } else {
                        Ok(FileBytes::TooLong)
                    }
                }
            },
        }
    }

    /// Makes room for this many more writes. The writes stay.
    pub fn reserve(&mut self, more: usize) -> Result<(), NoMemory>
        ensures writes { self.new.writes ≡ self.old.writes }
        ensures ok { OnOk result (more ≤ self.new.room) }
    {
        self.writes.reserve(more)?;
        self.places.reserve(more)?;
        Ok(())
    }

    /// Writes a path, with a new number, within the room.
    pub fn add(&mut self, draft: Draft, what: What)
        requires { 0 < self.old.room }
        ensures writes { self.new.writes ≡ put self.old.writes draft what }
        ensures room { self.old.room ≤ self.new.room + 1 }
    {
        let Draft { path, key } = draft;
        let place = self.writes.as_slice().len();
        let placed: Result<_, _> = self.places.insert(key, place);
        placed.unwrap();
        let number = place as u64 + 1;
        self.writes.push(Write { path, number, what });
    }

    /// Writes a path, with a new number. Without memory nothing is written.
    pub fn put(&mut self, alloc: Global, path: &PathName, what: What) -> Result<(), NoMemory>
        ensures ok { OnOk result (self.new.writes ≡ put self.old.writes path.now what) }
        ensures err { OnErr result (self.new.writes ≡ self.old.writes) }
    {
        let draft = Draft::new(alloc, path)?;
        self.reserve(1)?;
        self.add(draft, what);
        Ok(())
    }
}
