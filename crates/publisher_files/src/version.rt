//! The current version of a folder, read without its draft.

ghost use Rattle.std.specs.Prelude.{◌≡◌, ◌<◌, IfOk};
ghost use Rattle.digit_pack.specs.Layout.{record_at};
ghost use Rattle.snapshot_file.specs.Snapshots.{header_of};
ghost use Rattle.version_store.specs.Openings.{IsSound, plan_held, records_for};

use command_words::Failure;
use digit_pack::nth_record;
use pir_schemes::Plan;
use publication_log::{Publications, ReadLog, open_log};
use safe_files::FileSystem;
use server_files::{LogSize, OwnFile, OwnLog, ReadPair, log_failure, read_pair};
use session_core::Snapshot;
use version_store::plan_in;

/// The current version of a folder, and the snapshot and the log that it was read of.
#[derive(Drop)]
pub struct FolderVersion {
    /// The current version: the snapshot after all publications of the log.
    pub snapshot: Snapshot,
    /// The version of the snapshot itself.
    pub since: u64,
    /// The log that the snapshot has, whether there is a file of it or not.
    pub own: OwnLog,
    // What was read of the log; none if there is no file of it.
    log: Option<ReadLog>,
}

impl FolderVersion {
    /// The number of the current version.
    pub fn number(&self) -> u64
        ensures { result ≡ self.now.snapshot.version }
    {
        self.snapshot.version
    }

    /// How many records the current version has.
    pub fn count(&self) -> usize
        ensures { result ≡ self.now.snapshot.count }
    {
        self.snapshot.count as usize
    }

    /// What stays the same in every version: the form, the sizes and the public seed.
    pub fn plan(&self) -> Plan
        ensures { result ≡ plan_held (header_of self.now.snapshot) }
    {
        plan_in(&self.snapshot)
    }

    /// The SHA-256 digest of the publisher's key.
    pub fn publisher(&self) -> [u8; 32]
        ensures { result ≡ self.now.snapshot.publisher }
    {
        self.snapshot.publisher
    }

    /// The version of the snapshot, after which the log's publications follow.
    pub fn snapshot_version(&self) -> u64
        ensures { result ≡ self.now.since }
    {
        self.since
    }

    /// The publications of the log, the oldest first.
    pub fn publications(&self) -> Publications<'_> {
        match &self.log {
            Some(log) => log.publications(),
            None => Publications { rest: &[] },
        }
    }

    /// How much the log has: nothing if there is no file of it.
    pub fn log_size(&self) -> LogSize {
        match &self.log {
            Some(log) => LogSize::of(log),
            None => LogSize {
                publications: 0,
                bytes: 0,
            },
        }
    }

    /// The snapshot of the current version, and the log that its file has.
    pub fn into_parts(self) -> (Snapshot, OwnLog)
        ensures { result.0 ≡ self.snapshot }
    {
        let FolderVersion { snapshot, own, .. } = self;
        (snapshot, own)
    }

    /// The record of an index in the current version.
    pub fn record(&self, i: usize) -> &[u8]
        requires sound { IsSound (header_of self.now.snapshot) self.now.snapshot.records.items }
        requires index { i < self.now.snapshot.count }
        ensures { result.now ≡ record_at
            (records_for (header_of self.now.snapshot) self.now.snapshot.records.items) i }
    {
        record_in(&self.snapshot, i)
    }
}

// The record of an index in a snapshot.
fn record_in(snapshot: &Snapshot, i: usize) -> &[u8]
    requires sound { IsSound (header_of snapshot.now) snapshot.now.records.items }
    requires index { i < snapshot.now.count }
    ensures { result.now ≡ record_at
        (records_for (header_of snapshot.now) snapshot.now.records.items) i }
{
    let plan = plan_in(snapshot);
    // The sizes are within the limits: no refusal is left.
    let layout = plan.layout(snapshot.count as usize).unwrap();
    plan.content(nth_record(&layout, &snapshot.records, i))
}

/// The current version that a folder has in its snapshot, of this name, and its log. Another
/// process may publish meanwhile: nothing is changed, and no lock is taken.
///
/// # Errors
///
/// In this order: `File` if there is no snapshot or its log can't be read, the refusals of the
/// snapshot, `BadLog`; `Memory`.
pub fn open_folder<R: FileSystem>(rt: &R, records: &str) -> Result<FolderVersion, Failure>
    ensures sound { IfOk result (λ it.
        IsSound (header_of it.snapshot) it.snapshot.records.items) }
{
    let ReadPair {
        snapshot,
        since,
        own,
        log,
    } = read_pair(rt, records)?;
    Ok(FolderVersion {
        snapshot,
        since,
        own,
        log,
    })
}

/// The same, with its last publication on the device, so that it may be pushed: one that failed
/// half, or that another process is about to make, is there by then, or not among them.
///
/// # Errors
///
/// `File` if there is no snapshot, `Locked` if another process changes the folder, those of
/// [`open_folder`], and `Write` if a torn end of the log can't be cut off.
pub fn settled_folder<R: FileSystem>(rt: &R, records: &str) -> Result<FolderVersion, Failure>
    ensures sound { IfOk result (λ it.
        IsSound (header_of it.snapshot) it.snapshot.records.items) }
{
    let _own = OwnFile::to_read(rt, records)?;
    let version = open_folder(rt, records)?;
    settle_log(rt, &version)?;
    Ok(version)
}

/// Sends the log of a version to the device, for a caller that has the folder's lock: nothing is to
/// be built on a publication that is not there.
///
/// # Errors
///
/// `File` if the log can't be opened, `BadLog`, `Write` if a torn end can't be cut off; `Memory`.
pub fn settle_log<R: FileSystem>(rt: &R, version: &FolderVersion) -> Result<(), Failure> {
    if version.log.is_none() {
        return Ok(());
    }
    match open_log(rt, version.own.name.as_str(), &version.own.header) {
        Ok(_) => Ok(()),
        Err(fault) => Err(log_failure(fault)),
    }
}
