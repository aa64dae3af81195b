//! The files in a client's folder.

use crate::fault::FolderFault;
use safe_files::{FileLock, FileSystem, LockFault, lock};
use std::alloc::AllocError;
use std::fs;
use std::fs::File;
use std::io::ErrorKind;

/// Opens a file to be read, when there is one. What is no file of its own, such as a link or a
/// pipe, is never opened.
pub fn open_file<R: FileSystem>(
    rt: &R,
    path: &str,
    name: &str,
) -> Result<Option<R::File>, FolderFault> {
    let name = format!(in rt.alloc(); "{path}/{name}")?;
    match fs::symlink_metadata(rt, name.as_str()) {
        Ok(found) if found.is_file() => {}
        Err(fault) if fault.kind() == ErrorKind::NotFound => return Ok(None),
        _ => return Err(FolderFault::State),
    }
    match File::open(rt, name.as_str()) {
        Ok(opened) => Ok(Some(opened)),
        // Another run may have dropped it meanwhile.
        Err(fault) if fault.kind() == ErrorKind::NotFound => Ok(None),
        Err(_) => Err(FolderFault::State),
    }
}

/// Whether a file of its own is there, or nothing: no link, pipe or folder, which is never opened
/// or replaced.
pub fn is_free<R: FileSystem>(rt: &R, name: &str) -> bool {
    match fs::symlink_metadata(rt, name) {
        Ok(found) => found.is_file(),
        Err(fault) => fault.kind() == ErrorKind::NotFound,
    }
}

/// Takes the lock on a file, beside it; none when another run has it.
pub fn lock_beside<R: FileSystem>(rt: &R, path: &str) -> Result<Option<FileLock<R>>, FolderFault> {
    let name = format!(in rt.alloc(); "{path}.lock")?;
    unless_held(lock(rt, name.as_str()))
}

/// A lock that was taken; none when another run has it.
pub fn unless_held<R: FileSystem>(
    taken: Result<FileLock<R>, LockFault>,
) -> Result<Option<FileLock<R>>, FolderFault> {
    match taken {
        Ok(taken) => Ok(Some(taken)),
        Err(LockFault::Held) => Ok(None),
        Err(fault) => Err(fault.into()),
    }
}

/// Removes a file, when there is one.
pub fn remove_file<R: FileSystem>(rt: &R, path: &str, name: &str) -> Result<(), FolderFault> {
    let name = format!(in rt.alloc(); "{path}/{name}")?;
    match fs::remove_file(rt, name.as_str()) {
        Err(fault) if fault.kind() != ErrorKind::NotFound => Err(FolderFault::State),
        _ => Ok(()),
    }
}

/// The names in a folder, in order.
pub fn names_in<R: FileSystem>(rt: &R, path: &str) -> Result<Vec<String>, FolderFault> {
    let mut names = Vec::new(rt.alloc());
    for entry in fs::read_dir(rt, path)? {
        let entry = entry?;
        add(&mut names, String::from_str(rt.alloc(), entry.file_name())?)?;
    }
    names.sort_unstable();
    Ok(names)
}

/// Adds one more.
pub fn add<T: Drop>(items: &mut Vec<T>, item: T) -> Result<(), AllocError> {
    items.push(item)?;
    Ok(())
}
