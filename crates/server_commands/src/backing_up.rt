//! The command `backup`.

use command_words::{Failed, Failure, printed};
use server_files::{OwnFile, RecordsOf, failed_at, snapshot_in, whole_of, write_anew};
use server_words::BackingUp;
use session_core::{Header, Snapshot, snapshot_digest};

/// The failure of a file that does not have what was written to it.
const NOT_AS_WRITTEN: Failure = Failure::Fault("Write");

/// Writes the last version that a file and its log have as a snapshot of its own, even while a
/// server serves them, reads it again, and prints how many records it has and its version.
///
/// # Errors
///
/// In this order: those of the new file's lock (`File`, `Locked`), those of the file and its log
/// (`File`, the refusals of the snapshot, `BadLog`), those of the new file (`File`, `Write`), and
/// `Write` if it can't be read again as it was written. `Memory` if memory was refused.
pub fn back_up(rt: &HostRuntime, backing_up: &BackingUp<'_>) -> Result<(), Failed> {
    let mut out = match OwnFile::to_write(rt, backing_up.out) {
        Ok(out) => out,
        Err(failure) => return Err(failed_at(rt, backing_up.out, failure)),
    };
    let header = match copy_to(rt, backing_up, &mut out) {
        Ok(header) => header,
        Err(failed) => return Err(failed),
    };
    let count = header.count;
    let version = header.version;
    printed(rt, println!(rt; "backed up {count} {version}"))
}

// Writes the last version to a file that no other process has.
fn copy_to(
    rt: &HostRuntime,
    backing_up: &BackingUp<'_>,
    out: &mut OwnFile<'_>,
) -> Result<Header, Failed> {
    let whole = match whole_of(rt, backing_up.file) {
        Ok(whole) => whole,
        Err(failure) => return Err(failed_at(rt, backing_up.file, failure)),
    };
    match write_and_read(rt, out, &whole.snapshot) {
        Ok(header) => Ok(header),
        Err(failure) => Err(failed_at(rt, backing_up.out, failure)),
    }
}

// Writes a snapshot to a file, and reads it again.
fn write_and_read(
    rt: &HostRuntime,
    out: &mut OwnFile<'_>,
    snapshot: &Snapshot,
) -> Result<Header, Failure> {
    let header = snapshot.header();
    let digest = snapshot_digest(rt.alloc(), &header, &snapshot.records)?;
    let content = RecordsOf {
        header: &header,
        bytes: &snapshot.records,
    };
    write_anew(rt, out, &content)?;
    if !out.is_file() {
        return Ok(header);
    }
    let (_, found) = snapshot_in(rt, out.name())?;
    if found != digest {
        return Err(NOT_AS_WRITTEN);
    }
    Ok(header)
}
