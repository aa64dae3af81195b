//! The command `show`.

ghost use Rattle.std.specs.Prelude.{◌≡◌, IfOk};
ghost use Rattle.snapshot_file.specs.Snapshots.{header_of};
ghost use Rattle.version_store.specs.Openings.{IsSound};

use crate::causes::failed_in;
use crate::diffing::read_folder;
use crate::folder::records_name;
use crate::version::{FolderVersion, open_folder};
use command_words::{Failed, Failure, printed, shown_bytes};
use digit_pack::is_slotted;
use server_files::LogSize;
use std::alloc::{AllocError, Global};

/// Prints what a folder has, a line each: the current version, how many records it has, how many
/// the draft changes, the version of the snapshot, how much the log has, the form, and the sizes.
///
/// # Errors
///
/// Those of [`diff`](crate::diff).
pub fn show(rt: &HostRuntime, dir: &str) -> Result<(), Failed> {
    let (version, draft) = match read_folder(rt, dir) {
        Ok(both) => both,
        Err(failure) => return Err(failed_in(rt, dir, failure)),
    };
    let mut text = version_lines(rt.alloc(), &version, draft.changes.len())?;
    let sizes = match size_lines(rt.alloc(), &version)? {
        Some(sizes) => sizes,
        None => return Err(failed_in(rt, dir, Failure::Fault("BadLayout"))),
    };
    text.push_str(sizes.as_str())?;
    printed(rt, print!(rt; "{text}"))
}

/// Prints a record of a folder's current version in hex, or a dash if it has no bytes.
///
/// # Errors
///
/// In this order: `File` if the folder has no snapshot, those of the snapshot and of its log
/// (`File`, `BadLog`), `BadIndex` if there is no such record, and `Write` if it can't be printed.
/// `Memory` if memory was refused.
pub fn show_record(rt: &HostRuntime, dir: &str, index: u32) -> Result<(), Failed> {
    match record_text(rt, dir, index as usize) {
        Ok(text) => printed(rt, println!(rt; "{text}")),
        Err(failure) => Err(failed_in(rt, dir, failure)),
    }
}

// A record in hex.
fn record_text(rt: &HostRuntime, dir: &str, index: usize) -> Result<String, Failure> {
    let records = records_name(rt.alloc(), dir)?;
    let version = open_folder(rt, records.as_str())?;
    if index >= version.count() {
        return Err(Failure::Fault("BadIndex"));
    }
    let text = shown_bytes(rt.alloc(), version.record(index))?;
    Ok(text)
}

// The lines on the versions.
fn version_lines(
    alloc: Global,
    version: &FolderVersion,
    drafted: usize,
) -> Result<String, AllocError> {
    let number = version.number();
    let count = version.count();
    let plan = version.plan();
    let len = plan.record_len;
    let since = version.snapshot_version();
    let LogSize {
        publications,
        bytes,
    } = version.log_size();
    let records = if is_slotted(plan.form) {
        let most = len.saturating_sub(2);
        format!(in alloc; "records {count} of at most {most} bytes\n")?
    } else {
        format!(in alloc; "records {count} of {len} bytes\n")?
    };
    let records = records.as_str();
    format!(in alloc;
        "version {number}\n{records}draft {drafted} records\nsnapshot {since}\n\
            log {publications} publications, {bytes} bytes\n"
    )
}

// The lines on the sizes; none if no store has them.
fn size_lines(alloc: Global, version: &FolderVersion) -> Result<Option<String>, AllocError> {
    let plan = version.plan();
    let Ok(layout) = plan.layout(version.count()) else {
        return Ok(None);
    };
    let form = plan.form;
    let width = plan.width;
    let groups = plan.groups;
    let rows = layout.rows();
    let cols = layout.cols();
    let n = plan.dimension;
    let text = format!(in alloc;
        "form {form}\nwidth {width}\ngroups {groups}\ndigits {rows} rows {cols} columns\n\
            dimension {n}\n"
    )?;
    Ok(Some(text))
}
