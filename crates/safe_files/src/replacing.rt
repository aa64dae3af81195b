//! A file replaced, step by step.

ghost use Rattle.std.specs.Prelude.{IfErr};
ghost use Rattle.std.specs.List.{FoldsTo};
ghost use Rattle.safe_files.specs.Steps.{Replaces, IsFinishFault, finishing, settling};

use crate::content::{Content, ContentFault};
use crate::disk::Disk;
use std::alloc::Global;
use thiserror::Error;

/// Why a file was not replaced.
///
/// After all but `Rename` and `SyncFolder` the old file is surely still there. After these two a
/// crash may leave the old one or the new one, whole.
#[derive(Clone, Copy, Debug, PartialEq, Eq, Error)]
pub enum ReplaceFault {
    /// No file could be made beside the old one.
    #[error("no file can be made beside the old one")]
    Make,
    /// The content could not be written.
    #[error("a write failed")]
    Write,
    /// Memory was refused.
    #[error("out of memory")]
    Memory,
    /// The new file's bytes could not be sent to the device.
    #[error("the new file could not be synced")]
    Sync,
    /// The new file could not be given the name.
    #[error("the new file could not be given the name")]
    Rename,
    /// The folder could not be sent to the device.
    #[error("the folder could not be synced")]
    SyncFolder,
}

/// Replaces a file by one with this content, or makes it: makes a new file beside it, writes the
/// content, sends it to the device, gives it the old one's name, and sends the folder to the
/// device.
///
/// `Ok` comes only after all five. Nothing is renamed before its bytes were written and sent to the
/// device, and nothing is written after that. A new file that was not given the name is removed, or
/// left if that fails.
///
/// # Errors
///
/// `Make`, `Sync`, `Rename` and `SyncFolder` exactly when that step failed. `Write` and `Memory` as
/// the content answers: no clause says that a write failed or that memory was refused. No step is
/// taken then but the removal of a new file that was not given the name.
pub fn replace<D: Disk, C: Content>(
    alloc: Global,
    disk: &mut D,
    content: &C,
) -> Result<(), ReplaceFault>
    ensures { Replaces D.does D.fresh (C.bytes content.now) disk.old result disk.new }
{
    let Ok(mut file) = disk.make() else {
        return Err(ReplaceFault::Make);
    };
    match content.write_to(alloc, &mut file) {
        Ok(()) => {}
        Err(ContentFault::Write) => {
            disk.remove();
            return Err(ReplaceFault::Write);
        }
        Err(ContentFault::Memory) => {
            disk.remove();
            return Err(ReplaceFault::Memory);
        }
    }
    finish(disk, file)
}

/// The second half of a replacement, for a caller that wrote the new file's bytes other than from a
/// [`Content`]: sends it to the device, gives it the old one's name, and sends the folder to the
/// device.
///
/// `Ok` comes only after all three. A new file that was not given the name is removed, or left if
/// that fails.
///
/// # Errors
///
/// `Sync`, `Rename` and `SyncFolder`, each exactly when its step failed.
pub fn finish<D: Disk>(disk: &mut D, file: D::File) -> Result<(), ReplaceFault>
    ensures steps { FoldsTo D.does disk.old (finishing (D.File.contents file) result) disk.new }
    ensures refused { IfErr result IsFinishFault }
{
    if disk.sync(&file).is_err() {
        disk.remove();
        return Err(ReplaceFault::Sync);
    }
    if disk.rename(file).is_err() {
        disk.remove();
        return Err(ReplaceFault::Rename);
    }
    match disk.sync_folder() {
        Ok(()) => Ok(()),
        Err(_) => Err(ReplaceFault::SyncFolder),
    }
}

/// Why an existing file was not sent to the device.
#[derive(Clone, Copy, Debug, PartialEq, Eq, Error)]
pub enum SettleFault {
    /// Its bytes could not be sent.
    #[error("the file could not be synced")]
    Sync,
    /// Its name could not be sent.
    #[error("the folder could not be synced")]
    SyncFolder,
}

/// Sends an existing file to the device, and then its name: whoever replaced it may have been
/// killed before.
///
/// # Errors
///
/// Each exactly when its step failed.
pub fn settle<D: Disk>(disk: &mut D, file: &D::File) -> Result<(), SettleFault>
    ensures { FoldsTo D.does disk.old (settling (D.File.contents file.now) result) disk.new }
{
    if disk.sync(file).is_err() {
        return Err(SettleFault::Sync);
    }
    let Ok(()) = disk.sync_folder() else {
        return Err(SettleFault::SyncFolder);
    };
    Ok(())
}
