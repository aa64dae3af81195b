//! A log in a file of the system.

ghost use Rattle.std.specs.Prelude.{IfOk, IfSome, List};
ghost use Rattle.publication_log.specs.Publications.{Published};
ghost use Rattle.publication_log.specs.Opened.{IsOpenedLog, IsReadLog};

use crate::entries::frame_at;
use crate::header::{LOG_MARK, LogHeader};
use crate::laws::found_is_end;
use crate::log::{AppendDisk, Log, LogDiskFailed};
use crate::opened::{OpenedLog, ReadLog};
use crate::reading::{BadLog, Found, LogReadFault, read_log};
use safe_files::{BytesInMemory, FileSystem, ReplaceFault, folder_of, remove_beside, replace_file};
use std::fs;
use std::fs::{File, OpenFile, OpenOptions};
use std::io::{ErrorKind, Read, Write};
use thiserror::Error;

/// Why a log's file was not opened.
#[derive(Clone, Copy, Debug, PartialEq, Eq, Error)]
pub enum OpenFault {
    /// The file can't be made, opened or read, or is not a file (but a folder, for example).
    #[error("the log's file can't be opened")]
    File,
    /// The file is no good log of the snapshot. Nothing was cut off.
    #[error("bad log: {0}")]
    Bad(BadLog),
    /// A torn end could not be cut off.
    #[error("the log's torn end can't be cut off")]
    Cut,
    /// Memory was refused.
    #[error("out of memory")]
    Memory,
}

impl From<LogReadFault> for OpenFault {
    fn from(fault: LogReadFault) -> Self {
        match fault {
            LogReadFault::Bad(cause) => OpenFault::Bad(cause),
            LogReadFault::Memory => OpenFault::Memory,
        }
    }
}

/// A file to whose end entries are written.
#[derive(Drop)]
pub struct LogFile<F = File> {
    file: F,
}

impl<F: Write + OpenFile> AppendDisk for LogFile<F> {
    fn write(&mut self, bytes: &[u8]) -> Result<(), LogDiskFailed> {
        match self.file.write_all(bytes) {
            Ok(()) => Ok(()),
            Err(_) => Err(LogDiskFailed),
        }
    }

    fn sync(&mut self) -> Result<(), LogDiskFailed> {
        match self.file.sync_data() {
            Ok(()) => Ok(()),
            Err(_) => Err(LogDiskFailed),
        }
    }

    fn truncate(&mut self, len: u64) -> Result<(), LogDiskFailed> {
        match self.file.set_len(len) {
            Ok(()) => Ok(()),
            Err(_) => Err(LogDiskFailed),
        }
    }
}

/// Opens the log of a snapshot, or makes it. A torn end is cut off. The file and its name are sent
/// to the device first: what a killed process wrote is seen, and need not be on the device yet. The
/// last entry is written once more, in its place, before that: what a failed sync has lost is still
/// seen, and a later sync alone would not bring it back. No more memory is taken than for the
/// file's bytes and its header.
///
/// A new file has its header as soon as it has the name, and mode 0600. Whoever calls this has the
/// lock of the snapshot's file, so that nobody else appends meanwhile.
///
/// # Errors
///
/// Each of [`OpenFault`] when its step failed or its cause was there.
pub fn open_log<R: FileSystem>(
    rt: &R,
    name: &str,
    header: &LogHeader,
) -> Result<OpenedLog<R::File>, OpenFault>
    ensures { IfOk result (λ opened. (ps : List Published) × IsOpenedLog header.now ps opened) }
{
    let Ok(prefix) = header.to_bytes(rt.alloc()) else {
        return Err(OpenFault::Memory);
    };
    make_missing(rt, name, &prefix)?;
    let Ok(mut file) = OpenOptions::new().read(true).append(true).open(rt, name) else {
        return Err(OpenFault::File);
    };
    let bytes = bytes_of(rt, &mut file)?;
    let found = read_log(rt.alloc(), header, &bytes)?;
    write_last_again(rt, name, &bytes, &found)?;
    if file.sync_all().is_err() {
        return Err(OpenFault::File);
    }
    sync_name(rt, name)?;
    // Called for its law: what was found is the end of the log.
    found_is_end();
    let Ok(log) = Log::recover(LogFile { file }, &found, bytes.len()) else {
        return Err(OpenFault::Cut);
    };
    let read = ReadLog::of(bytes, &found);
    Ok(OpenedLog { log, read })
}

/// Reads the log of a snapshot, and changes nothing, so that another process may append to it
/// meanwhile: an entry that is not whole yet is a torn end. `None` if nothing has the name: then no
/// publication follows the snapshot's version.
///
/// # Errors
///
/// As [`open_log`], but no `Cut`.
pub fn read_log_file<R: FileSystem>(
    rt: &R,
    name: &str,
    header: &LogHeader,
) -> Result<Option<ReadLog>, OpenFault>
    ensures { IfOk result (λ it. IfSome it (λ read.
        (ps : List Published) × IsReadLog header.now ps read)) }
{
    match fs::symlink_metadata(rt, name) {
        Ok(there) if there.is_file() => {}
        Err(fault) if fault.kind() == ErrorKind::NotFound => return Ok(None),
        _ => return Err(OpenFault::File),
    }
    let Ok(mut file) = File::open(rt, name) else {
        return Err(OpenFault::File);
    };
    let bytes = bytes_of(rt, &mut file)?;
    let found = read_log(rt.alloc(), header, &bytes)?;
    Ok(Some(ReadLog::of(bytes, &found)))
}

/// Removes the log of this name, if there is one, and sends that to the device. Whoever calls this
/// has the lock of the file whose log it is.
///
/// # Errors
///
/// `File` when it can't be removed, or its folder can't be sent to the device.
pub fn remove_log<R: FileSystem>(rt: &R, name: &str) -> Result<(), OpenFault> {
    match fs::remove_file(rt, name) {
        Ok(()) => sync_name(rt, name),
        Err(fault) if fault.kind() == ErrorKind::NotFound => Ok(()),
        Err(_) => Err(OpenFault::File),
    }
}

/// Removes the logs beside a file but the one of this name: those of snapshots that the file had
/// before. Whoever calls this has the lock of the file.
pub fn remove_other_logs<R: FileSystem>(rt: &R, file: &str, kept: &str) {
    remove_beside(rt, file, LOG_MARK, kept);
}

// Makes a log without entries if nothing has the name. What has it must be a file, and no link.
fn make_missing<R: FileSystem>(rt: &R, name: &str, prefix: &[u8]) -> Result<(), OpenFault> {
    match fs::symlink_metadata(rt, name) {
        Ok(there) if there.is_file() => Ok(()),
        Err(fault) if fault.kind() == ErrorKind::NotFound => {
            match replace_file(rt, name, &BytesInMemory(prefix)) {
                Ok(()) => Ok(()),
                Err(ReplaceFault::Memory) => Err(OpenFault::Memory),
                Err(_) => Err(OpenFault::File),
            }
        }
        _ => Err(OpenFault::File),
    }
}

// Writes the last entry of a log over itself.
fn write_last_again<R: FileSystem>(
    rt: &R,
    name: &str,
    bytes: &[u8],
    found: &Found,
) -> Result<(), OpenFault> {
    let at = last_entry(bytes, found);
    let Some(entry) = bytes.get(at..found.len) else {
        return Ok(());
    };
    if entry.is_empty() {
        return Ok(());
    }
    let Ok(file) = OpenOptions::new().write(true).open(rt, name) else {
        return Err(OpenFault::File);
    };
    match rt.write_all_at(&file, entry, at as u64) {
        Ok(()) => Ok(()),
        Err(_) => Err(OpenFault::File),
    }
}

// Where the last entry of a log begins; where its entries end if it has none.
fn last_entry(bytes: &[u8], found: &Found) -> usize {
    let Some(entries) = bytes.get(found.start..found.len) else {
        return found.len;
    };
    let mut last = entries;
    let mut rest = entries;
    'entries: while let Some(frame) = frame_at(rest) {
        last = rest;
        rest = frame.rest;
    }
    found.len.saturating_sub(last.len())
}

// Sends the file's name to the device: whoever made the file may have been killed before.
fn sync_name<R: FileSystem>(rt: &R, name: &str) -> Result<(), OpenFault> {
    let Ok(folder) = File::open(rt, folder_of(name)) else {
        return Err(OpenFault::File);
    };
    match folder.sync_all() {
        Ok(()) => Ok(()),
        // A file system on which a folder can't be synced: nothing more can be done.
        Err(fault) if fault.kind() == ErrorKind::InvalidInput => Ok(()),
        Err(_) => Err(OpenFault::File),
    }
}

// All bytes of a file, for which the room is made at once.
fn bytes_of<R: FileSystem>(rt: &R, file: &mut R::File) -> Result<Vec<u8>, OpenFault> {
    let Ok(about) = file.metadata() else {
        return Err(OpenFault::File);
    };
    let Ok(mut bytes) = Vec::from_elem(rt.alloc(), 0u8, about.len() as usize) else {
        return Err(OpenFault::Memory);
    };
    match file.read_exact(&mut bytes) {
        Ok(()) => Ok(bytes),
        Err(_) => Err(OpenFault::File),
    }
}
