//! The steps of a script on files in memory.
ghost use Rattle.std.specs.Prelude.{◌≡◌, ◌<◌, ◌≤◌, ◌+◌, ◌++◌, ◌∷◌, [], not, ◌&&◌, length, take, drop, get_or};
ghost use Rattle.std.specs.Prelude.{IfOk, OnOk, OnErr, option_to_list, ℕ, List as Items};
ghost use Rattle.std.specs.Str.{IsCharBoundary};
ghost use Rattle.memory_files.specs.declared.write.Write.{Write};
ghost use Rattle.outside.specs.Outcome.{stands_in};
ghost use Rattle.memory_files.specs.Log.{last_of, info_of, is_directory};
ghost use Rattle.memory_files.specs.Edits.{begins_up, leads_down, named, front, above_at, above_from, is_here, above};
ghost use Rattle.memory_files.specs.Edits.{is_free, is_file, leads_through, with_directory, with_directories};
ghost use Rattle.memory_files.specs.Edits.{after_set, after_dir, has_below, after_drop};

use crate::files::{Draft, Files};
use crate::write::What;
use file_info::copied::Copied;
use file_info::info::Form;
use file_info::list::{Bytes, List};
use file_info::memory::NoMemory;
use file_info::path::{PathError, PathName};
use outside::asked::is_among;
use std::alloc::Global;

// Whether a text goes on with a part that is a name.
fn goes_down(text: &[u8]) -> bool
    ensures { result ≡ leads_down text.now }
{
    match text {
        [] => false,
        [b'.', b'.'] => false,
        [b'.', b'.', b'/', ..] => false,
        _ => true,
    }
}

// Whether a path stands in the folder that it starts from, or below.
fn stands_here(path: &str) -> bool
    ensures { result ≡ is_here path.now }
{
    match path.as_bytes() {
        [b'/', ..] => false,
        [b'.'] => false,
        text => goes_down(text),
    }
}

// Adds the path of a text, if it is one.
fn add_named(alloc: Global, found: &mut List<PathName>, text: &str) -> Result<(), NoMemory>
    ensures { OnOk result (found.new ≡ found.old ++ named text.now) }
{
    match PathName::read(alloc, text) {
        Ok(path) => found.push(path),
        Err(PathError::NoMemory) => Err(NoMemory),
        Err(_) => Ok(()),
    }
}

// What stands before a slash.
fn before(text: &str, place: usize) -> &str
    requires { IsCharBoundary text.now place }
    ensures { result.now ≡ front (take place text.now) }
{
    if place == 0 { "/" } else { &text[..place] }
}

// Adds the directory whose text ends at this byte, if one does.
fn add_above(
    alloc: Global,
    found: &mut List<PathName>,
    text: &str,
    place: usize,
) -> Result<(), NoMemory>
    requires { place < length text.now }
    ensures { OnOk result (found.new ≡ found.old ++ above_at (take place text.now) (get_or text.now place 0) (drop (place + 1) text.now)) }
{
    let bytes = text.as_bytes();
    if bytes[place] == b'/' && goes_down(&bytes[place + 1..]) {
        return add_named(alloc, found, before(text, place));
    }
    Ok(())
}

/// The directories above a path, the outermost first.
pub fn parents(alloc: Global, path: &PathName) -> Result<List<PathName>, NoMemory>
    ensures { IfOk result (λ paths. paths ≡ above path.now) }
{
    let text = path.text();
    let mut found = List::new(alloc);
    if stands_here(text) {
        add_named(alloc, &mut found, ".")?;
    }
    for place in 0..text.len() {
        add_above(alloc, &mut found, text, place)?;
    }
    Ok(found)
}

/// Whether nothing stands at a path.
pub fn stands_free(files: &Files, path: &str) -> bool
    ensures { result ≡ is_free (last_of files.now.writes path.now) }
{
    match files.last(path) {
        None => true,
        Some(write) => match &write.what {
            What::Gone => true,
            _ => false,
        },
    }
}

/// Whether a file or a link stands at a path.
pub fn stands_file(files: &Files, path: &str) -> bool
    ensures { result ≡ is_file (last_of files.now.writes path.now) }
{
    match files.last(path) {
        None => false,
        Some(write) => match &write.what {
            What::Bytes(_) => true,
            What::LinkText(_) => true,
            _ => false,
        },
    }
}

/// Whether a directory stands at a path.
pub fn stands_directory(files: &Files, path: &str) -> bool
    ensures { result ≡ is_directory (info_of (last_of files.now.writes path.now) Form.Link) }
{
    match files.last(path) {
        None => false,
        Some(write) => match &write.what {
            What::Dir => true,
            _ => false,
        },
    }
}

// Whether a file or a link stands in the way.
fn is_barred(files: &Files, paths: &List<PathName>) -> bool
    ensures { result ≡ leads_through files.now.writes paths.now }
{
    paths
        .as_slice()
        .iter()
        .any(|path| stands_file(files, path.text()))
}

// The paths, to be written.
fn drafts(alloc: Global, paths: &List<PathName>) -> Result<List<Draft>, NoMemory>
    ensures { IfOk result (λ drafts. drafts ≡ paths.now) }
{
    let mut drafts = List::new(alloc);
    for path in paths.as_slice() {
        drafts.push(Draft::new(alloc, path)?)?;
    }
    Ok(drafts)
}

// Makes a directory where nothing stands.
fn add_directory(files: &mut Files, draft: Draft)
    requires { 0 < files.old.room }
    ensures writes { files.new.writes ≡ with_directory files.old.writes draft }
    ensures room { files.old.room ≤ files.new.room + 1 }
{
    if stands_free(files, draft.text()) {
        files.add(draft, What::Dir);
    }
}

// Makes directories where nothing stands.
fn add_directories(files: &mut Files, drafts: List<Draft>)
    requires { length drafts ≤ files.old.room }
    ensures writes { files.new.writes ≡ with_directories files.old.writes drafts }
    ensures room { files.old.room ≤ files.new.room + length drafts }
{
    for draft in drafts.into_vec() {
        add_directory(files, draft);
    }
}

/// Writes a file, and directories above it where nothing stands. Through a file or a link, and on a directory, it does
/// nothing. Without memory nothing is written.
pub fn set(alloc: Global, files: &mut Files, path: &PathName, text: Bytes) -> Result<(), NoMemory>
    ensures ok { OnOk result (files.new.writes ≡ after_set files.old.writes path.now text) }
    ensures err { OnErr result (files.new.writes ≡ files.old.writes) }
{
    let above = parents(alloc, path)?;
    if is_barred(files, &above) || stands_directory(files, path.text()) {
        return Ok(());
    }
    let directories = drafts(alloc, &above)?;
    let file = Draft::new(alloc, path)?;
    files.reserve(directories.as_slice().len() + 1)?;
    add_directories(files, directories);
    files.add(file, What::Bytes(text));
    Ok(())
}

/// Makes a directory, and those above it where nothing stands. Through a file or a link, and on one, it does nothing.
/// Without memory nothing is written.
pub fn dir(alloc: Global, files: &mut Files, path: &PathName) -> Result<(), NoMemory>
    ensures ok { OnOk result (files.new.writes ≡ after_dir files.old.writes path.now) }
    ensures err { OnErr result (files.new.writes ≡ files.old.writes) }
{
    let mut way = parents(alloc, path)?;
    way.push(path.copy(alloc)?)?;
    if is_barred(files, &way) {
        return Ok(());
    }
    let directories = drafts(alloc, &way)?;
    files.reserve(directories.len())?;
    add_directories(files, directories);
    Ok(())
}

// Whether something stands at the path of a write, and that path is below this one.
fn keeps_full(
    alloc: Global,
    files: &Files,
    written: &PathName,
    path: &str,
) -> Result<bool, NoMemory>
    ensures { IfOk result (λ below. below ≡ not (is_free (last_of files.now.writes written.now)) && stands_in (above written.now) path.now) }
{
    if stands_free(files, written.text()) {
        return Ok(false);
    }
    let above = parents(alloc, written)?;
    Ok(is_among(&above, path))
}

// Whether something stands below a path.
fn is_full(alloc: Global, files: &Files, path: &str) -> Result<bool, NoMemory>
    ensures { IfOk result (λ full. full ≡ has_below files.now.writes path.now) }
{
    for write in files.writes() {
        if keeps_full(alloc, files, &write.path, path)? {
            return Ok(true);
        }
    }
    Ok(false)
}

/// Removes a file, a link or an empty directory. Where it cannot it does nothing.
pub fn drop_path(alloc: Global, files: &mut Files, path: &PathName) -> Result<(), NoMemory>
    ensures ok { OnOk result (files.new.writes ≡ after_drop files.old.writes path.now) }
    ensures err { OnErr result (files.new.writes ≡ files.old.writes) }
{
    if stands_free(files, path.text()) {
        return Ok(());
    }
    if stands_directory(files, path.text()) && is_full(alloc, files, path.text())? {
        return Ok(());
    }
    files.put(alloc, path, What::Gone)
}
