//! What orders do without a program: outputs are removed, and directories and links are made.
use crate::files::says_missing;
use file_info::list::List;
use file_info::path::PathName;
use outside::order::Exit;
use std::fs::Metadata;
use std::io::ErrorKind;
use std::os::unix::fs::symlink;
use std::rt::Files;
use std::{fs, io};

// What stands at a path itself. A link is not followed.
fn standing<R: Files>(rt: &R, path: &PathName) -> io::Result<Option<Metadata>> {
    match fs::symlink_metadata(rt, path.text()) {
        Ok(metadata) => Ok(Some(metadata)),
        Err(error) if says_missing(&error) => Ok(None),
        Err(error) => Err(error),
    }
}

// Removes what stands at a path, but no directory. Whether nothing stands there now.
fn clear<R: Files>(rt: &R, path: &PathName) -> io::Result<bool> {
    match standing(rt, path)? {
        None => Ok(true),
        Some(metadata) if metadata.is_dir() => Ok(false),
        Some(_) => {
            fs::remove_file(rt, path.text())?;
            Ok(true)
        }
    }
}

/// Removes the outputs, but no directory.
pub fn clear_all<R: Files>(rt: &R, outputs: &List<PathName>) -> io::Result<()> {
    for path in outputs.as_slice() {
        clear(rt, path)?;
    }
    Ok(())
}

// Makes a directory where nothing stands. Whether one stands there now.
fn make_dir<R: Files>(rt: &R, path: &PathName) -> io::Result<bool> {
    match fs::create_dir(rt, path.text()) {
        Ok(()) => Ok(true),
        Err(error) if error.kind() == ErrorKind::AlreadyExists => match standing(rt, path)? {
            Some(metadata) => Ok(metadata.is_dir()),
            None => Err(error),
        },
        Err(error) => Err(error),
    }
}

/// Makes each output a directory. A directory that stands is left. The status is 1 where a file or a link stands, and any other
/// failure is an error, also where the directory above is missing.
pub fn make_dirs<R: Files>(rt: &R, outputs: &List<PathName>) -> io::Result<Exit> {
    for path in outputs.as_slice() {
        if !make_dir(rt, path)? {
            return Ok(Exit::Code(1));
        }
    }
    Ok(Exit::Code(0))
}

/// Makes each output a symbolic link with this text, in place of a file or a link that stands there. The status is 1 where a
/// directory stands, and any other failure is an error.
pub fn make_links<R: Files>(rt: &R, outputs: &List<PathName>, text: &str) -> io::Result<Exit> {
    for path in outputs.as_slice() {
        if !clear(rt, path)? {
            return Ok(Exit::Code(1));
        }
        symlink(rt, text, path.text())?;
    }
    Ok(Exit::Code(0))
}
