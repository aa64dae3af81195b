//! A snapshot file and the log of publications beside it, read together.

ghost use Rattle.std.specs.Prelude.{◌≡◌, ◌≤◌, IfOk, IfSome};
ghost use Rattle.snapshot_file.specs.Snapshots.{IsSnapshot, header_of};
ghost use Rattle.version_store.specs.Openings.{IsSound};

use crate::files::{NO_FILE, snapshot_failure};
use crate::logs::{OwnLog, log_failure, replay_failure};
use command_words::Failure;
use log_replay::replay_first;
use publication_log::{Publications, ReadLog, read_log_file};
use safe_files::{FileSystem, Place, SteadyFile};
use session_core::{Snapshot, read_snapshot_and_digest};
use std::fs;
use std::os::unix::fs::MetadataExt;

/// What a file has is what a store is opened with.
pub fn opens_a_store(snapshot: &Snapshot)
    requires { IsSnapshot (header_of snapshot.now) snapshot.now.records.items }
    ensures { IsSound (header_of snapshot.now) snapshot.now.records.items }
{}

/// How often a file is read again that was replaced while it was read.
const TRIES: u32 = 16;

/// How much a log has.
#[derive(Clone, Copy, Debug)]
pub struct LogSize {
    /// How many publications.
    pub publications: usize,
    /// How many bytes its header and its entries have.
    pub bytes: usize,
}

impl LogSize {
    /// How much was read of a log.
    pub fn of(log: &ReadLog) -> LogSize {
        LogSize {
            publications: log.publications().count(),
            bytes: log.len(),
        }
    }
}

/// The last version that a file and its log have.
#[derive(Drop)]
pub struct Whole {
    /// Its snapshot.
    pub snapshot: Snapshot,
    /// How much the log has, if there is one.
    pub log: Option<LogSize>,
}

/// The last version that a file and its log have, and what that was read of.
#[derive(Drop)]
pub struct ReadPair {
    /// The last version: the snapshot after all publications of the log.
    pub snapshot: Snapshot,
    /// The version of the file's own snapshot.
    pub since: u64,
    /// The log that the file has, whether there is a file of it or not.
    pub own: OwnLog,
    /// What was read of the log; none if there is no file of it.
    pub log: Option<ReadLog>,
}

/// The last version that a file and its log have. Another process may serve them meanwhile: neither
/// is changed, and no lock is taken.
///
/// # Errors
///
/// Those of [`read_pair`].
pub fn whole_of(rt: &HostRuntime, name: &str) -> Result<Whole, Failure>
    ensures sound { IfOk result (λ it.
        IsSound (header_of it.snapshot) it.snapshot.records.items) }
    ensures dimension { IfOk result (λ it. it.snapshot.dimension ≤ 1024) }
{
    let ReadPair { snapshot, log, .. } = read_pair(rt, name)?;
    let log = match &log {
        Some(read) => Some(LogSize::of(read)),
        None => None,
    };
    Ok(Whole { snapshot, log })
}

/// The last version that a file and its log have, with what it was read of. Another process may
/// publish meanwhile: neither is changed, and no lock is taken.
///
/// # Errors
///
/// In this order: `File` if there is no file or its log can't be read, the refusals of the
/// snapshot, `BadLog`; `Memory`.
pub fn read_pair<R: FileSystem>(rt: &R, name: &str) -> Result<ReadPair, Failure>
    ensures sound { IfOk result (λ it.
        IsSound (header_of it.snapshot) it.snapshot.records.items) }
{
    let place = Place::of(rt, name)?;
    for _ in 0..TRIES {
        if let Some(pair) = read_both(rt, &place)? {
            return Ok(pair);
        }
    }
    Err(NO_FILE)
}

// Both, unless the file was replaced before its log was read: the old log may be gone then.
fn read_both<R: FileSystem>(rt: &R, place: &Place<'_, R>) -> Result<Option<ReadPair>, Failure>
    ensures sound { IfOk result (λ it. IfSome it (λ it.
        IsSound (header_of it.snapshot) it.snapshot.records.items)) }
{
    let Ok(mut file) = place.open() else {
        return Err(NO_FILE);
    };
    let (snapshot, digest) = match read_snapshot_and_digest(rt.alloc(), &mut file) {
        Ok(both) => both,
        Err(fault) => return Err(snapshot_failure(fault)),
    };
    opens_a_store(&snapshot);
    let own = OwnLog::of(rt.alloc(), place.name(), &snapshot.header(), digest)?;
    match read_log_file(rt, own.name.as_str(), &own.header) {
        Ok(None) if is_replaced(rt, place, &file) => Ok(None),
        Ok(log) => Ok(Some(after_log(snapshot, own, log)?)),
        Err(fault) => Err(log_failure(fault)),
    }
}

// Whether another file has the name by now. The number of the one that is open is not given again.
fn is_replaced<R: FileSystem>(rt: &R, place: &Place<'_, R>, file: &SteadyFile<R::File>) -> bool {
    match (fs::metadata(rt, place.name()), file.metadata()) {
        (Ok(there), Ok(own)) => there.ino() != own.ino() || there.dev() != own.dev(),
        _ => true,
    }
}

// A snapshot after the publications of its log.
fn after_log(snapshot: Snapshot, own: OwnLog, log: Option<ReadLog>) -> Result<ReadPair, Failure>
    requires { IsSound (header_of snapshot) snapshot.records.items }
    ensures { IfOk result (λ it. IsSound (header_of it.snapshot) it.snapshot.records.items) }
{
    let since = snapshot.version;
    let snapshot = match &log {
        Some(read) => replayed(snapshot, read.publications())?,
        None => snapshot,
    };
    Ok(ReadPair {
        snapshot,
        since,
        own,
        log,
    })
}

// A snapshot after publications.
fn replayed(snapshot: Snapshot, publications: Publications<'_>) -> Result<Snapshot, Failure>
    requires { IsSound (header_of snapshot) snapshot.records.items }
    ensures { IfOk result (λ it. IsSound (header_of it) it.records.items) }
{
    let mut snapshot = snapshot;
    match replay_first(&mut snapshot, publications, publications.count()) {
        Ok(()) => Ok(snapshot),
        Err(fault) => Err(replay_failure(fault)),
    }
}
