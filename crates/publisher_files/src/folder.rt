//! The folder and the files in it.

ghost use Rattle.std.specs.Prelude.{◌≡◌, IfOk, string_bytes, codes};
ghost use Rattle.publisher_drafts.specs.Texts.{name_in};

use command_words::{Failed, Failure};
use safe_files::{FileSystem, folder_of};
use server_commands::make;
use server_files::{OwnFile, failed_at};
use server_words::Making;
use std::alloc::{AllocError, Global};
use std::fs;
use std::fs::{DirBuilder, File};
use std::io::ErrorKind;
use std::os::unix::fs::DirBuilderExt;

/// The mode of a folder that is made: its owner alone may use it.
const FOLDER_MODE: u32 = 0o700;

/// The failure of a file that can't be opened or made.
pub const NO_FILE: Failure = Failure::Fault("File");

/// The name of the snapshot in a folder.
///
/// # Errors
///
/// `AllocError` when memory was refused.
pub fn records_name(alloc: Global, dir: &str) -> Result<String, AllocError>
    ensures { IfOk result (λ name. string_bytes name ≡ name_in dir.now (codes "records.pir")) }
{
    format!(in alloc; "{dir}/records.pir")
}

/// The name of the draft in a folder.
///
/// # Errors
///
/// `AllocError` when memory was refused.
pub fn draft_name(alloc: Global, dir: &str) -> Result<String, AllocError>
    ensures { IfOk result (λ name. string_bytes name ≡ name_in dir.now (codes "draft")) }
{
    format!(in alloc; "{dir}/draft")
}

/// A folder's names, and the lock of its snapshot, held by whoever changes anything in the folder.
#[derive(Drop)]
pub struct LockedFolder<'a, R: FileSystem = HostRuntime> {
    /// The name of the snapshot.
    pub records: String,
    /// The name of the draft.
    pub draft: String,
    // Kept until the end.
    _own: OwnFile<'a, R>,
}

/// Takes the lock of a folder.
///
/// # Errors
///
/// `File` if the folder has no snapshot, or its lock can't be taken; `Locked` if another process
/// has it; `Memory`.
pub fn lock_folder<'a, R: FileSystem>(
    rt: &'a R,
    dir: &str,
) -> Result<LockedFolder<'a, R>, Failure> {
    let records = records_name(rt.alloc(), dir)?;
    let draft = draft_name(rt.alloc(), dir)?;
    let own = OwnFile::to_read(rt, records.as_str())?;
    Ok(LockedFolder {
        records,
        draft,
        _own: own,
    })
}

/// Makes a folder if there is none, and in it the snapshot of version 1 of the records on standard
/// input. Returns how many there are.
///
/// # Errors
///
/// `File` if the folder can't be made; then those of [`make`] with `new`: `Exists` if the folder
/// has a snapshot.
pub fn init(rt: &HostRuntime, dir: &str, making: Making<'_>) -> Result<u32, Failed> {
    let name = records_name(rt.alloc(), dir)?;
    if let Err(failure) = make_folder(rt, dir) {
        return Err(failed_at(rt, dir, failure));
    }
    let making = Making {
        out: name.as_str(),
        new: true,
        ..making
    };
    make(rt, &making)
}

// A folder that is to have this name, if it has.
fn stands(rt: &HostRuntime, dir: &str) -> Result<(), Failure> {
    match fs::metadata(rt, dir) {
        Ok(found) if found.is_dir() => Ok(()),
        _ => Err(NO_FILE),
    }
}

// Makes a folder that is missing, and sends its name to the device.
fn make_folder(rt: &HostRuntime, dir: &str) -> Result<(), Failure> {
    match DirBuilder::new().mode(FOLDER_MODE).create(rt, dir) {
        Ok(()) => {}
        Err(fault) if fault.kind() == ErrorKind::AlreadyExists => return stands(rt, dir),
        Err(_) => return Err(NO_FILE),
    }
    let Ok(parent) = File::open(rt, folder_of(dir)) else {
        return Err(NO_FILE);
    };
    match parent.sync_all() {
        Ok(()) => Ok(()),
        // A file system on which a folder can't be synced: nothing more can be done.
        Err(fault) if fault.kind() == ErrorKind::InvalidInput => Ok(()),
        Err(_) => Err(NO_FILE),
    }
}
