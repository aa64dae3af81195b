//! The commands `set` and `add`, and what they have in common with `import`.

ghost use Rattle.std.specs.Prelude.{IfOk};
ghost use Rattle.snapshot_file.specs.Snapshots.{header_of};
ghost use Rattle.version_store.specs.Openings.{IsSound};

use crate::causes::failed_in;
use crate::drafts::{Draft, DraftFile, append_entry, read_draft, remove_draft};
use crate::folder::{LockedFolder, lock_folder};
use crate::version::{FolderVersion, open_folder, settle_log};
use command_words::{Failed, Failure};
use publisher_drafts::{ChangeMap, Target, judge, put_change};
use safe_files::FileSystem;
use std::alloc::{AllocError, Global};
use std::collections::BTreeMap;

/// How many places a draft changes.
#[derive(Clone, Copy, Debug, PartialEq, Eq)]
pub struct Drafted(pub usize);

/// A folder that is locked, its current version, and its draft.
#[derive(Drop)]
pub struct OpenDraft<'a, R: FileSystem = HostRuntime> {
    /// The folder's names, and its lock.
    pub folder: LockedFolder<'a, R>,
    /// The current version.
    pub version: FolderVersion,
    /// The draft of the next one.
    pub draft: Draft,
}

/// Opens a folder to change its draft. What a publication left of an earlier draft is removed.
///
/// # Errors
///
/// `File`, `Locked`, those of the snapshot and of its log, those of the draft; `Memory`.
pub fn open_draft<'a, R: FileSystem>(rt: &'a R, dir: &str) -> Result<OpenDraft<'a, R>, Failure>
    ensures { IfOk result (λ it.
        IsSound (header_of it.version.snapshot) it.version.snapshot.records.items) }
{
    let folder = lock_folder(rt, dir)?;
    match open_both(rt, &folder) {
        Ok((version, draft)) => Ok(OpenDraft {
            folder,
            version,
            draft,
        }),
        Err(failure) => {
            // A call keeps the prover from taking apart here all that a folder has.
            drop(folder);
            Err(failure)
        }
    }
}

// The current version of a folder, and its draft.
fn open_both<R: FileSystem>(
    rt: &R,
    folder: &LockedFolder<'_, R>,
) -> Result<(FolderVersion, Draft), Failure>
    ensures { IfOk result (λ it.
        IsSound (header_of it.0.snapshot) it.0.snapshot.records.items) }
{
    let version = open_folder(rt, folder.records.as_str())?;
    match draft_to_change(rt, folder, &version) {
        Ok(draft) => Ok((version, draft)),
        Err(failure) => {
            drop(version);
            Err(failure)
        }
    }
}

// The draft of a version, which is on the device then.
fn draft_to_change<R: FileSystem>(
    rt: &R,
    folder: &LockedFolder<'_, R>,
    version: &FolderVersion,
) -> Result<Draft, Failure>
    requires { IsSound (header_of version.now.snapshot) version.now.snapshot.records.items }
{
    settle_log(rt, version)?;
    let draft = read_draft(rt, folder.draft.as_str(), version)?;
    if draft.file == DraftFile::Published {
        if let Err(failure) = remove_draft(rt, folder.draft.as_str()) {
            drop(draft);
            return Err(failure);
        }
    }
    Ok(draft)
}

/// Appends these changes to a draft, as one entry, and returns how many places the draft changes
/// then. No changes are no entry.
///
/// # Errors
///
/// Those of [`append_entry`].
pub fn draft_changes<R: FileSystem>(
    rt: &R,
    open: OpenDraft<'_, R>,
    changes: ChangeMap,
) -> Result<Drafted, Failure> {
    let OpenDraft {
        folder,
        version,
        draft,
    } = open;
    if !changes.is_empty() {
        append_entry(rt, folder.draft.as_str(), &version, &changes)?;
    }
    let count = count_with(rt.alloc(), &draft.changes, changes)?;
    Ok(Drafted(count))
}

// How many places some changes and others have.
fn count_with(alloc: Global, some: &ChangeMap, others: ChangeMap) -> Result<usize, AllocError> {
    let mut all = others;
    for place in some.keys() {
        put_change(&mut all, *place, Vec::new(alloc))?;
    }
    Ok(all.len())
}

/// Replaces a record of a folder's draft.
///
/// # Errors
///
/// In this order: `File` if the folder has no snapshot, `Locked` if another process has it, those
/// of the snapshot, of its log (`File`, `BadLog`) and of the draft (`File`, `BadDraft`), `BadIndex`
/// if the draft has no such record, `BadLength` if no record has so many bytes, and those of the
/// draft's new entry (`VersionsUsedUp`, `Write`). `Memory` if memory was refused.
pub fn set(rt: &HostRuntime, dir: &str, index: u32, bytes: Vec<u8>) -> Result<Drafted, Failed> {
    match draft_one(rt, dir, Target::At(index), bytes) {
        Ok(drafted) => Ok(drafted),
        Err(failure) => Err(failed_in(rt, dir, failure)),
    }
}

/// Appends a record to a folder's draft.
///
/// # Errors
///
/// As [`set`], but `Full` if the store has room for no further record, and no `BadIndex`.
pub fn add(rt: &HostRuntime, dir: &str, bytes: Vec<u8>) -> Result<Drafted, Failed> {
    match draft_one(rt, dir, Target::End, bytes) {
        Ok(drafted) => Ok(drafted),
        Err(failure) => Err(failed_in(rt, dir, failure)),
    }
}

/// Replaces a record of a folder's draft, or appends one to it.
///
/// # Errors
///
/// Those of [`set`] or of [`add`].
pub fn draft_one<R: FileSystem>(
    rt: &R,
    dir: &str,
    target: Target,
    bytes: Vec<u8>,
) -> Result<Drafted, Failure> {
    let open = open_draft(rt, dir)?;
    let place = match judge(&open.version.plan(), open.draft.count, target, &bytes) {
        Ok(place) => place,
        Err(fault) => return Err(Failure::Fault(fault.name())),
    };
    let mut changes = BTreeMap::new(rt.alloc());
    put_change(&mut changes, place, bytes)?;
    draft_changes(rt, open, changes)
}
