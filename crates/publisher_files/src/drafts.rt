//! The draft of a folder's next version.

ghost use Rattle.std.specs.Prelude.{◌≡◌, ◌<◌, ◌+◌, ◌^◌, ℕ, List, [], IfOk, true};
ghost use Rattle.publication_log.specs.Publications.{Published};
ghost use Rattle.publication_log.specs.Builders.{IsMadeOf};
ghost use Rattle.publication_log.specs.Entries.{chain_bytes};
ghost use Rattle.publication_log.specs.Logs.{AreNext, bodies_of};
ghost use Rattle.snapshot_file.specs.Snapshots.{header_of};
ghost use Rattle.version_store.specs.Openings.{IsSound};
ghost use Rattle.publisher_drafts.specs.Merging.{changes_of_map, merged_all, are_entries_of};
ghost use Rattle.publisher_drafts.specs.Merging.{count_after_entries};
ghost use Rattle.publisher_files.specs.Drafts.{draft_header};

use crate::version::FolderVersion;
use command_words::Failure;
use pir_schemes::Plan;
use publication_log::{
    AppendDisk, AppendFault, BadLog, ChangeFault, Log, LogHeader, OpenFault, PublicationBuilder,
    Publications, open_log, read_log_file, remove_log,
};
use publisher_drafts::{ChangeMap, MergeFault, merge_entries, merged_of, publication_of};
use safe_files::FileSystem;
use server_files::{FileVersion, append_version};
use std::alloc::Global;
use std::collections::BTreeMap;

/// The failure of a draft that is damaged, or is of another store or another version.
pub const BAD_DRAFT: Failure = Failure::Fault("BadDraft");

/// The failure of a store that has the last version there is.
pub const VERSIONS_USED_UP: Failure = Failure::Fault("VersionsUsedUp");

/// The failure of changes that no publication has room for.
const TOO_LONG: Failure = Failure::Fault("TooLong");

/// The failure of what is not on the device.
const NOT_WRITTEN: Failure = Failure::Fault("Write");

/// What the file of a draft has.
#[derive(Clone, Copy, Debug, PartialEq, Eq)]
pub enum DraftFile {
    /// There is none.
    Missing,
    /// Changes of the current version.
    Current,
    /// Changes of the version before, all of which the current version has.
    Published,
}

/// What a draft changes of the current version.
#[derive(Drop)]
pub struct Draft {
    /// The changes, merged.
    pub changes: ChangeMap,
    /// How many records there are after them.
    pub count: usize,
    /// What the file has.
    pub file: DraftFile,
}

/// The draft of a folder's current version, which is that of the file of this name.
///
/// # Errors
///
/// `File` if the file can't be read, or is not a file; `BadDraft` if it is damaged, or is no draft
/// of the version nor of the one before that was published; `Memory`.
pub fn read_draft<R: FileSystem>(
    rt: &R,
    name: &str,
    version: &FolderVersion,
) -> Result<Draft, Failure>
    requires { IsSound (header_of version.now.snapshot) version.now.snapshot.records.items }
{
    let header = draft_header(version, version.number());
    match read_log_file(rt, name, &header) {
        Ok(Some(log)) => {
            let alloc = rt.alloc();
            current_draft(alloc, &version.plan(), version.count(), log.publications())
        }
        Ok(None) => Ok(no_draft(rt.alloc(), version, DraftFile::Missing)),
        Err(OpenFault::Bad(BadLog::OtherSnapshot)) => published_draft(rt, name, version),
        Err(fault) => Err(draft_failure(fault)),
    }
}

// What the file of a draft of a version begins with.
fn draft_header(version: &FolderVersion, number: u64) -> LogHeader
    ensures { result ≡ draft_header version.now.snapshot number }
{
    LogHeader {
        form: version.snapshot.form,
        digest: [0; 32],
        version: number,
        seed: version.snapshot.seed,
    }
}

// A draft that changes nothing.
fn no_draft(alloc: Global, version: &FolderVersion, file: DraftFile) -> Draft {
    Draft {
        changes: BTreeMap::new(alloc),
        count: version.count(),
        file,
    }
}

// The draft of these entries, of so many records.
fn current_draft(
    alloc: Global,
    plan: &Plan,
    count: usize,
    entries: Publications<'_>,
) -> Result<Draft, Failure>
    ensures { (link : List ℕ) (version : ℕ) (ps : List Published) → AreNext version ps →
        entries.entry.rest.now ≡ chain_bytes link (bodies_of ps) → IfOk result (λ it.
        (are_entries_of plan.now count ps ≡ true)
        × (changes_of_map it.changes.entries ≡ merged_all [] ps)
        × (it.count ≡ count_after_entries count ps)) }
{
    match merge_entries(alloc, plan, count, entries) {
        Ok(merged) => Ok(Draft {
            changes: merged.changes,
            count: merged.count,
            file: DraftFile::Current,
        }),
        Err(MergeFault::BadEntry) => Err(BAD_DRAFT),
        Err(MergeFault::Memory) => Err(Failure::Memory),
    }
}

// The draft of no changes, if the file has a draft of the version before, and the current version
// has all that it changes.
fn published_draft<R: FileSystem>(
    rt: &R,
    name: &str,
    version: &FolderVersion,
) -> Result<Draft, Failure>
    requires { IsSound (header_of version.now.snapshot) version.now.snapshot.records.items }
{
    let header = draft_header(version, version.number().saturating_sub(1));
    match read_log_file(rt, name, &header) {
        Ok(Some(log)) if is_made(version, &merged_of(rt.alloc(), log.publications())?) => {
            Ok(no_draft(rt.alloc(), version, DraftFile::Published))
        }
        Ok(Some(_)) => Err(BAD_DRAFT),
        Ok(None) => Ok(no_draft(rt.alloc(), version, DraftFile::Missing)),
        Err(fault) => Err(draft_failure(fault)),
    }
}

// Whether a version has all of these changes.
fn is_made(version: &FolderVersion, changes: &ChangeMap) -> bool
    requires { IsSound (header_of version.now.snapshot) version.now.snapshot.records.items }
{
    for (place, bytes) in changes.iter() {
        if !has_record(version, *place as usize, bytes) {
            return false;
        }
    }
    true
}

// Whether a version has this record at a place.
fn has_record(version: &FolderVersion, place: usize, bytes: &[u8]) -> bool
    requires { IsSound (header_of version.now.snapshot) version.now.snapshot.records.items }
{
    place < version.count() && version.record(place) == bytes
}

/// Appends an entry of these changes to the draft of the current version, in the file of this name,
/// which is made if there is none. The entry is on the device then.
///
/// # Errors
///
/// `File` if the file can't be made or opened, `BadDraft` if it is no good draft, `VersionsUsedUp`
/// if no number is left for the entry, `TooLong` if no entry has room for the changes, `Write` if
/// it can't be written or sent to the device; `Memory`.
pub fn append_entry<R: FileSystem>(
    rt: &R,
    name: &str,
    version: &FolderVersion,
    changes: &ChangeMap,
) -> Result<(), Failure> {
    let header = draft_header(version, version.number());
    let mut log = match open_log(rt, name, &header) {
        Ok(opened) => opened.into_log(),
        Err(fault) => return Err(draft_failure(fault)),
    };
    if log.version == u64::MAX {
        return Err(VERSIONS_USED_UP);
    }
    let entry = publication_after(rt.alloc(), log.version, changes)?;
    append_to(rt.alloc(), &mut log, &entry)?;
    Ok(())
}

/// The publication of these changes after a version.
///
/// # Errors
///
/// `TooLong` if no publication has room for them, `Memory`.
pub fn publication_after(
    alloc: Global,
    version: u64,
    changes: &ChangeMap,
) -> Result<PublicationBuilder, Failure>
    requires { version + 1 < 2 ^ 64 }
    ensures made { IfOk result (λ it. IsMadeOf it
        (record { version = version + 1; changes = changes_of_map changes.now.entries })) }
    ensures version { IfOk result (λ it. it.version ≡ version + 1) }
{
    match publication_of(alloc, version + 1, changes) {
        Ok(publication) => Ok(publication),
        Err(ChangeFault::Memory) => Err(Failure::Memory),
        Err(_) => Err(TOO_LONG),
    }
}

/// Appends a publication to a log, and returns the version that the log has then. If that fails,
/// what it left is cut off.
///
/// # Errors
///
/// `Write` if it can't be written or sent to the device, `TooLong` if the log has no room for it;
/// `Memory`.
pub fn append_to<D: AppendDisk>(
    alloc: Global,
    log: &mut Log<D>,
    publication: &PublicationBuilder,
) -> Result<FileVersion, Failure>
    requires { publication.now.version ≡ log.old.version + 1 }
    ensures version { IfOk result (λ it. it.version ≡ publication.now.version) }
{
    match append_version(alloc, log, publication) {
        Ok(has) => Ok(has),
        Err(AppendFault::Memory) => Err(Failure::Memory),
        Err(AppendFault::Full) => Err(TOO_LONG),
        Err(AppendFault::Write | AppendFault::Sync | AppendFault::Torn) => {
            // If that fails too, the next command cuts the torn end off.
            let _ = log.cut();
            Err(NOT_WRITTEN)
        }
    }
}

/// Removes the draft, in the file of this name.
///
/// # Errors
///
/// `File` if it can't be removed, or its folder can't be sent to the device.
pub fn remove_draft<R: FileSystem>(rt: &R, name: &str) -> Result<(), Failure> {
    match remove_log(rt, name) {
        Ok(()) => Ok(()),
        Err(fault) => Err(draft_failure(fault)),
    }
}

// The failure that a draft which was not opened is.
fn draft_failure(fault: OpenFault) -> Failure {
    match fault {
        OpenFault::File => Failure::Fault("File"),
        OpenFault::Bad(_) => BAD_DRAFT,
        OpenFault::Cut => NOT_WRITTEN,
        OpenFault::Memory => Failure::Memory,
    }
}
