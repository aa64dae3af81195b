//! A folder in the earlier format, which had a seed, the number of the next retrieval, and one hint
//! that named the seed.

use crate::fault::FolderFault;
use crate::files::{open_file, remove_file, unless_held};
use crate::folder::Folder;
use hint_file::{HintError, KeptHint, read_old_hint};
use safe_files::{FileLock, FileSystem, lock};

/// The files of a folder in the earlier format, the secret one first, and what each begins with.
const OLD_FILES: [(&str, [u8; 8]); 3] = [
    ("seed", *b"PIRSEED1"),
    ("counter", *b"PIRNEXT1"),
    ("hint", *b"PIRHINT2"),
];

/// What else may be in a folder in the earlier format: what a killed process left, and the lock
/// last.
const LEFT_FILES: [&str; 4] = ["seed.new", "counter.new", "hint.new", "lock"];

/// A folder in the earlier format that was taken over: its files are gone.
#[derive(Clone, Copy, Debug, PartialEq, Eq)]
pub struct OldFolder {
    /// Whether its hint is kept.
    pub hint_kept: bool,
}

impl<R: FileSystem> Folder<'_, R> {
    /// Takes over a folder in the earlier format, if this is one: its hint is kept, if it is a
    /// sound one, and its seed, its counter, its hint and its lock are removed. None when this is
    /// no such folder, or another process uses it as one.
    ///
    /// # Errors
    ///
    /// `State` when the hint can't be kept, and then nothing is removed, or when a file can't be
    /// removed; `Memory` when memory was refused.
    pub fn take_old(&self) -> Result<Option<OldFolder>, FolderFault> {
        if !has_old(self)? {
            return Ok(None);
        }
        let Some(_lock) = old_lock(self)? else {
            return Ok(None);
        };
        let hint_kept = keep_old_hint(self)?;
        let removed = remove_old(self)?;
        remove_left(self)?;
        // Another run may have taken it over just before the lock was taken.
        if removed {
            Ok(Some(OldFolder { hint_kept }))
        } else {
            Ok(None)
        }
    }
}

// Whether a file of a folder in the earlier format is there.
fn has_old<R: FileSystem>(folder: &Folder<'_, R>) -> Result<bool, FolderFault> {
    for (name, magic) in OLD_FILES {
        if is_old(folder, name, magic)? {
            return Ok(true);
        }
    }
    Ok(false)
}

// Whether a file begins so. What can't be opened does not.
fn is_old<R: FileSystem>(
    folder: &Folder<'_, R>,
    name: &str,
    magic: [u8; 8],
) -> Result<bool, FolderFault> {
    match open_file(folder.rt(), folder.path(), name) {
        Ok(Some(file)) => {
            let mut begins = [0u8; 8];
            Ok(folder.rt().read_exact_at(&file, &mut begins, 0).is_ok() && begins == magic)
        }
        Ok(None) | Err(FolderFault::State) => Ok(false),
        Err(FolderFault::Memory) => Err(FolderFault::Memory),
    }
}

// The lock of a folder in the earlier format; none if another process has it.
fn old_lock<R: FileSystem>(folder: &Folder<'_, R>) -> Result<Option<FileLock<R>>, FolderFault> {
    let path = folder.path();
    let name = format!(in folder.rt().alloc(); "{path}/lock")?;
    unless_held(lock(folder.rt(), name.as_str()))
}

// Keeps the hint of a folder in the earlier format, if there is a sound one. Returns whether there
// was.
fn keep_old_hint<R: FileSystem>(folder: &Folder<'_, R>) -> Result<bool, FolderFault> {
    match old_hint(folder)? {
        Some(kept) => {
            folder.keep(&kept.known, &kept.hint)?;
            Ok(true)
        }
        None => Ok(false),
    }
}

// The hint of a folder in the earlier format, when there is a sound one.
fn old_hint<R: FileSystem>(folder: &Folder<'_, R>) -> Result<Option<KeptHint>, FolderFault> {
    match open_file(folder.rt(), folder.path(), "hint") {
        Ok(Some(mut file)) => match read_old_hint(folder.rt().alloc(), &mut file) {
            Ok(kept) => Ok(Some(kept)),
            Err(HintError::Damaged | HintError::Read) => Ok(None),
            Err(HintError::Memory) => Err(FolderFault::Memory),
        },
        Ok(None) | Err(FolderFault::State) => Ok(None),
        Err(FolderFault::Memory) => Err(FolderFault::Memory),
    }
}

// Removes the files of a folder in the earlier format. Returns whether there was one.
fn remove_old<R: FileSystem>(folder: &Folder<'_, R>) -> Result<bool, FolderFault> {
    let mut removed = false;
    for (name, magic) in OLD_FILES {
        if is_old(folder, name, magic)? {
            remove_file(folder.rt(), folder.path(), name)?;
            removed = true;
        }
    }
    Ok(removed)
}

// Removes what else a folder in the earlier format had: what killed processes left, and its lock.
fn remove_left<R: FileSystem>(folder: &Folder<'_, R>) -> Result<(), FolderFault> {
    for name in LEFT_FILES {
        remove_file(folder.rt(), folder.path(), name)?;
    }
    Ok(())
}
