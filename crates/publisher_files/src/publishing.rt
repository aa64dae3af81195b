//! The command `publish`.

ghost use Rattle.std.specs.Prelude.{◌≡◌, ◌+◌, IfOk};
ghost use Rattle.snapshot_file.specs.Snapshots.{header_of};
ghost use Rattle.version_store.specs.Openings.{IsSound};

use crate::causes::failed_in;
use crate::drafting::{OpenDraft, open_draft};
use crate::drafts::{
    BAD_DRAFT, Draft, DraftFile, VERSIONS_USED_UP, append_to, publication_after, remove_draft,
};
use crate::folder::LockedFolder;
use crate::version::FolderVersion;
use command_words::{Failed, Failure};
use log_replay::{ReplayFault, replay_records};
use publication_log::{Publication, PublicationBuilder, open_log};
use safe_files::FileSystem;
use server_files::{BAD_LOG, FileVersion, OwnLog, log_failure};
use session_core::Snapshot;

/// The failure of a draft that changes nothing.
const NOTHING_TO_PUBLISH: Failure = Failure::Fault("NothingToPublish");

/// Makes a folder's draft the next version: appends its changes to the log as one publication, and
/// removes the draft. Returns the version that snapshot and log have then.
///
/// # Errors
///
/// In this order: `File` if the folder has no snapshot, `Locked` if another process has it, those
/// of the snapshot, of its log (`File`, `BadLog`) and of the draft (`File`, `BadDraft`),
/// `NothingToPublish` if the draft changes nothing, `VersionsUsedUp` if there is no further
/// version, `TooLong` if no publication has room for the changes, and `Write` if it can't be
/// written or sent to the device. `Memory` if memory was refused.
pub fn publish(rt: &HostRuntime, dir: &str) -> Result<FileVersion, Failed> {
    match publish_draft(rt, dir) {
        Ok(has) => Ok(has),
        Err(failure) => Err(failed_in(rt, dir, failure)),
    }
}

/// The same without the text of a failure's cause.
///
/// # Errors
///
/// Those of [`publish`].
pub fn publish_draft<R: FileSystem>(rt: &R, dir: &str) -> Result<FileVersion, Failure> {
    let OpenDraft {
        folder,
        version,
        draft,
    } = open_draft(rt, dir)?;
    let published = match drafted(rt, &folder, &version, &draft) {
        Ok(publication) => publish_next(rt, &folder, version, publication),
        Err(failure) => {
            // A call keeps the prover from taking apart here all that a version has.
            drop(version);
            Err(failure)
        }
    };
    drop(draft);
    drop(folder);
    published
}

// The publication of a draft of a version.
fn drafted<R: FileSystem>(
    rt: &R,
    folder: &LockedFolder<'_, R>,
    version: &FolderVersion,
    draft: &Draft,
) -> Result<PublicationBuilder, Failure>
    ensures { IfOk result (λ it. it.version ≡ version.now.snapshot.version + 1) }
{
    if draft.changes.is_empty() {
        return Err(nothing_to_publish(rt, folder, draft.file));
    }
    let number = version.number();
    if number == u64::MAX {
        return Err(VERSIONS_USED_UP);
    }
    publication_after(rt.alloc(), number, &draft.changes)
}

// Appends the publication after a version to the log, and removes the draft.
fn publish_next<R: FileSystem>(
    rt: &R,
    folder: &LockedFolder<'_, R>,
    version: FolderVersion,
    publication: PublicationBuilder,
) -> Result<FileVersion, Failure>
    requires sound { IsSound (header_of version.snapshot) version.snapshot.records.items }
    requires next { publication.version ≡ version.snapshot.version + 1 }
{
    let number = version.number();
    let (snapshot, own) = version.into_parts();
    let appended = match follows(snapshot, &publication) {
        Ok(()) => append_to_own(rt, &own, number, &publication),
        Err(failure) => Err(failure),
    };
    drop(own);
    drop(publication);
    let has = appended?;
    // The version is published. If the draft stays, the next command finds that, and removes it.
    let _ = remove_draft(rt, folder.draft.as_str());
    Ok(has)
}

// Appends the publication after a version to the log of a snapshot.
fn append_to_own<R: FileSystem>(
    rt: &R,
    own: &OwnLog,
    number: u64,
    publication: &PublicationBuilder,
) -> Result<FileVersion, Failure>
    requires { publication.now.version ≡ number + 1 }
    ensures { IfOk result (λ it. it.version ≡ number + 1) }
{
    let mut log = match open_log(rt, own.name.as_str(), &own.header) {
        Ok(opened) => opened.into_log(),
        Err(fault) => return Err(log_failure(fault)),
    };
    if log.version != number {
        return Err(BAD_LOG);
    }
    append_to(rt.alloc(), &mut log, publication)
}

// Why nothing is published. A draft without changes, such as one left by a command that was killed
// before it wrote any, is removed.
fn nothing_to_publish<R: FileSystem>(
    rt: &R,
    folder: &LockedFolder<'_, R>,
    file: DraftFile,
) -> Failure {
    if file == DraftFile::Current {
        let _ = remove_draft(rt, folder.draft.as_str());
    }
    NOTHING_TO_PUBLISH
}

// A publication that is appended follows the version before it: it is made on the records first.
fn follows(snapshot: Snapshot, publication: &PublicationBuilder) -> Result<(), Failure>
    requires { IsSound (header_of snapshot) snapshot.records.items }
{
    let mut snapshot = snapshot;
    let Ok(read) = Publication::decode(&publication.body) else {
        return Err(BAD_DRAFT);
    };
    match replay_records(&mut snapshot, read) {
        Ok(()) => Ok(()),
        Err(ReplayFault::BadPublication) => Err(BAD_DRAFT),
        Err(ReplayFault::Memory) => Err(Failure::Memory),
    }
}
