//! The command `diff`.

ghost use Rattle.std.specs.Prelude.{◌≡◌, IfOk};
ghost use Rattle.snapshot_file.specs.Snapshots.{header_of};
ghost use Rattle.version_store.specs.Openings.{IsSound};

use crate::causes::failed_in;
use crate::drafts::{BAD_DRAFT, Draft, read_draft};
use crate::folder::{draft_name, records_name};
use crate::version::{FolderVersion, open_folder};
use command_words::{Failed, Failure, printed};
use publisher_drafts::{appended_line, changed_line};
use safe_files::FileSystem;
use std::alloc::{AllocError, Global};

/// How often a folder is read whose draft is not of its version, since another process may have
/// published meanwhile.
const TRIES: u32 = 3;

/// Prints what a folder's draft changes of the current version, a line for each record: its index,
/// its bytes, and those that it has in the draft; of an appended one `+`, and its bytes.
///
/// # Errors
///
/// In this order: `File` if the folder has no snapshot, those of the snapshot, of its log (`File`,
/// `BadLog`) and of the draft (`File`, `BadDraft`), and `Write` if the lines can't be printed.
/// `Memory` if memory was refused.
pub fn diff(rt: &HostRuntime, dir: &str) -> Result<(), Failed> {
    let (version, draft) = match read_folder(rt, dir) {
        Ok(both) => both,
        Err(failure) => return Err(failed_in(rt, dir, failure)),
    };
    let text = diff_text(rt.alloc(), &version, &draft)?;
    printed(rt, print!(rt; "{text}"))
}

/// The current version of a folder, and its draft. Another process may change both meanwhile:
/// neither is changed here, and no lock is taken.
///
/// # Errors
///
/// `File`, those of the snapshot and of its log, those of the draft; `Memory`.
pub fn read_folder<R: FileSystem>(rt: &R, dir: &str) -> Result<(FolderVersion, Draft), Failure>
    ensures sound { IfOk result (λ it.
        IsSound (header_of it.0.snapshot) it.0.snapshot.records.items) }
{
    let records = records_name(rt.alloc(), dir)?;
    let draft = draft_name(rt.alloc(), dir)?;
    for _ in 1..TRIES {
        let version = open_folder(rt, records.as_str())?;
        match read_draft(rt, draft.as_str(), &version) {
            Ok(draft) => return Ok((version, draft)),
            Err(BAD_DRAFT) => {}
            Err(failure) => return Err(failure),
        }
    }
    let version = open_folder(rt, records.as_str())?;
    let draft = read_draft(rt, draft.as_str(), &version)?;
    Ok((version, draft))
}

// The lines of a draft's changes.
fn diff_text(alloc: Global, version: &FolderVersion, draft: &Draft) -> Result<String, AllocError>
    requires { IsSound (header_of version.now.snapshot) version.now.snapshot.records.items }
{
    let mut text = String::new(alloc);
    for (place, bytes) in draft.changes.iter() {
        let line = change_line(alloc, version, *place, bytes)?;
        text.push_str(line.as_str())?;
    }
    Ok(text)
}

// The line of a change.
fn change_line(
    alloc: Global,
    version: &FolderVersion,
    place: u32,
    bytes: &[u8],
) -> Result<String, AllocError>
    requires { IsSound (header_of version.now.snapshot) version.now.snapshot.records.items }
{
    let index = place as usize;
    if index < version.count() {
        changed_line(alloc, place, version.record(index), bytes)
    } else {
        appended_line(alloc, bytes)
    }
}
