//! Locks between processes.

ghost use Rattle.std.specs.Prelude.{◌≡◌};

use crate::system::FileSystem;
use std::alloc::AllocError;
use std::fs::{File, Metadata, OpenFile, OpenOptions, TryLockError};
use std::io::ErrorKind;
use std::os::unix::fs::{MetadataExt, OpenOptionsExt};
use std::{fs, io};
use thiserror::Error;

/// The mode of a lock's file that is made.
const LOCK_MODE: u32 = 0o600;

/// Why a lock was not taken.
#[derive(Clone, Copy, Debug, PartialEq, Eq, Error)]
pub enum LockFault {
    /// Another process has it.
    #[error("another process has the lock")]
    Held,
    /// Its file can't be opened or made, or is no file of its own.
    #[error("the lock's file can't be opened")]
    File,
    /// Memory was refused.
    #[error("out of memory")]
    Memory,
}

impl From<AllocError> for LockFault {
    ghost use Rattle.safe_files.specs.declared.locking.LockFault.TheVariants.{Memory};

    ghost from_gives = { λ _ fault. fault ≡ Memory };

    fn from(_refused: AllocError) -> Self {
        LockFault::Memory
    }
}

/// A lock that this process has, given back when the value is dropped, and by the system when the
/// process ends, in whatever way.
#[derive(Drop)]
pub struct FileLock<R: FileSystem = HostRuntime> {
    file: R::File,
}

impl<R: FileSystem> FileLock<R> {
    // Gives the lock's file the owner of another.
    pub(crate) fn keep_owner_of(&self, rt: &R, old: &Metadata) {
        rt.keep_owner(&self.file, old);
    }
}

/// Takes the lock on a file of this name, without waiting for it. The file is made if there is
/// none, and is never to be renamed or removed.
///
/// # Errors
///
/// `Held` if another process has it; `File` if the file can't be opened or made, or is a link or no
/// file.
pub fn lock<R: FileSystem>(rt: &R, name: &str) -> Result<FileLock<R>, LockFault> {
    let Ok(file) = lock_file(rt, name) else {
        return Err(LockFault::File);
    };
    if !is_own_file(rt, name, &file) {
        return Err(LockFault::File);
    }
    match rt.try_lock(&file) {
        Ok(()) => Ok(FileLock { file }),
        Err(TryLockError::WouldBlock) => Err(LockFault::Held),
        Err(TryLockError::Error(_)) => Err(LockFault::File),
    }
}

// Opens the lock's file, or makes it. What is in it is never read or written.
fn lock_file<R: FileSystem>(rt: &R, name: &str) -> io::Result<R::File> {
    match fs::symlink_metadata(rt, name) {
        Ok(found) if found.is_file() => File::open(rt, name),
        // Opening a pipe waits for its writer.
        Ok(_) => Err(ErrorKind::InvalidInput.into()),
        Err(fault) if fault.kind() == ErrorKind::NotFound => OpenOptions::new()
            .read(true)
            .write(true)
            .create(true)
            .mode(LOCK_MODE)
            .open(rt, name),
        Err(fault) => Err(fault),
    }
}

// Whether the name is that of the open file itself, and neither a link nor something that is no
// file.
fn is_own_file<R: FileSystem>(rt: &R, name: &str, file: &R::File) -> bool {
    match (fs::symlink_metadata(rt, name), file.metadata()) {
        (Ok(named), Ok(opened)) => named.is_file() && is_one_file(&named, &opened),
        _ => false,
    }
}

// Whether both are of one file.
fn is_one_file(a: &Metadata, b: &Metadata) -> bool {
    a.dev() == b.dev() && a.ino() == b.ino()
}
