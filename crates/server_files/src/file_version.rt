//! The version of the snapshot that a file has.
//!
//! A [`FileVersion`] is made here alone: when a snapshot was read to its end and its file was sent
//! to the device, when the publications of its log were made again, when one more was appended to
//! that log, or taken back, when a file was replaced by a snapshot, and when one was written to
//! what is no file. So whoever has one did that, and a version can't be counted as saved without
//! it.

ghost use Rattle.std.specs.Prelude.{◌≡◌, ◌+◌, ℕ, List, [], ◌∷◌, take, IfOk, OnOk, OnErr};
ghost use Rattle.std.specs.List.{FoldsTo};
ghost use Rattle.std.specs.Io.KnownBytes.{Appends, Consumes, IsAtEnd};
ghost use Rattle.safe_files.specs.Steps.{Replaces, Syncs, SyncsFolder};
ghost use Rattle.sha2.specs.Sha256.{sha256};
ghost use Rattle.snapshot_file.specs.Snapshots.{IsSnapshot, hashed_bytes, snapshot_bytes};
ghost use Rattle.publication_log.specs.Publications.{Published};
ghost use Rattle.publication_log.specs.Entries.{log_entry, chain_bytes};
ghost use Rattle.publication_log.specs.Logs.{AreNext, bodies_of};
ghost use Rattle.version_store.specs.Openings.{IsSound};
ghost use Rattle.log_replay.specs.Replays.{HasNoDraft, replayed_all};
ghost use Rattle.log_replay.specs.Laws.{AreRecordsReplayedAll};
ghost use Rattle.publication_log.specs.Steps.{AppendsToLog as AppendsEntry, Cuts};

use crate::progress::{ReadProgress, WatchedReader};
use log_replay::{ReplayFault, replay_all, replay_first};
use publication_log::{
    AppendDisk, AppendFault, CutFault, Log, LogEnd, PublicationBuilder, Publications,
};
use safe_files::{Content, ContentFault, Disk, ReplaceFault, SettleFault, replace, settle};
use session_core::{Lanes, SnapshotFault, Store};
use std::alloc::Global;
use std::io::{Read, Write};
use std::marker::Model;
use version_store::Opening;

/// A snapshot, as a file is to hold it.
pub trait Versioned: Content {
    /// The version whose snapshot it is.
    ghost version: { Self → ℕ };

    /// The version whose snapshot it is.
    fn version(&self) -> u64
        ensures { result ≡ version self.now };
}

/// The version of the snapshot that a file has. A contract sees its number.
#[derive(Drop)]
pub struct FileVersion {
    version: u64,
}

impl Model for FileVersion {
    ghost use Rattle.server_files.specs.Versions.{FileVersionSeen};

    ghost Value = { FileVersionSeen };

    ghost view = { λ it. record { version = it.version } };
}

impl FileVersion {
    /// Its number.
    pub fn number(&self) -> u64
        ensures { result ≡ self.now.version }
    {
        self.version
    }
}

/// A snapshot that was read of a file which is on the device.
#[derive(Drop)]
pub struct ReadVersion {
    /// What a store of it is opened with.
    pub opening: Opening,
    /// The digest at its end.
    pub digest: [u8; 32],
    /// Its version, which the file has.
    pub has: FileVersion,
}

/// Why a snapshot that a file has was not taken.
#[derive(Clone, Copy, Debug)]
pub enum VersionFault {
    /// The snapshot was not read.
    Snapshot(SnapshotFault),
    /// The file or its name could not be sent to the device.
    Settle(SettleFault),
}

/// Reads a snapshot, which must be the whole file, and sends the file and its name to the device,
/// since whoever wrote it may have been killed before. What reports on the reading, if anything
/// does, counts each read. The file is given back.
///
/// # Errors
///
/// In this order: those of [`Opening::read`], those of [`settle`].
pub fn read_version<F: Read + Write + Drop, D: Disk<File = F>>(
    alloc: Global,
    disk: &mut D,
    file: F,
    progress: Option<ReadProgress<'_>>,
) -> Result<(ReadVersion, F), VersionFault>
    ensures version { IfOk result (λ it. it.0.has.version ≡ it.0.opening.header.version) }
    ensures sound { IfOk result (λ it.
        IsSnapshot it.0.opening.header it.0.opening.bytes) }
    ensures digest { IfOk result (λ it. it.0.digest ≡
        sha256 (hashed_bytes it.0.opening.header it.0.opening.bytes)) }
    ensures taken { IfOk result (λ it. Consumes (F.remaining file) (F.remaining it.1)
        (snapshot_bytes it.0.opening.header it.0.opening.bytes)
        × IsAtEnd (F.remaining it.1)) }
    ensures settled { IfOk result (λ it. FoldsTo D.does disk.old
        (Syncs (F.contents it.1) ∷ SyncsFolder ∷ []) disk.new) }
{
    let mut watched = WatchedReader::new(file, progress);
    let (opening, digest) = match Opening::read(alloc, &mut watched) {
        Ok(both) => both,
        Err(fault) => return Err(VersionFault::Snapshot(fault)),
    };
    let mut file = watched.into_reader();
    match settle(disk, &mut file) {
        Ok(()) => {}
        Err(fault) => return Err(VersionFault::Settle(fault)),
    }
    let has = FileVersion {
        version: opening.version(),
    };
    let read = ReadVersion {
        opening,
        digest,
        has,
    };
    Ok((read, file))
}

/// The snapshot that a file has, after the first `n` publications of its log, made on its records
/// alone. The digest stays that of the file.
///
/// # Errors
///
/// Those of [`replay_first`].
pub fn take_up_version(
    read: ReadVersion,
    publications: Publications<'_>,
    n: usize,
) -> Result<ReadVersion, ReplayFault>
    requires sound { IsSound read.opening.header read.opening.bytes }
    ensures version { IfOk result (λ it. it.has.version ≡ it.opening.header.version) }
    ensures sound { IfOk result (λ it. IsSound it.opening.header it.opening.bytes) }
    ensures replayed { (link : List ℕ) (version : ℕ) (ps : List Published) → AreNext version ps →
        publications.entry.rest.now ≡ chain_bytes link (bodies_of ps) → IfOk result
        (λ it. AreRecordsReplayedAll read.opening.header read.opening.bytes
        (take n ps) it.opening.header it.opening.bytes) }
{
    let ReadVersion {
        mut opening,
        digest,
        ..
    } = read;
    replay_first(&mut opening, publications, n)?;
    let has = FileVersion {
        version: opening.version(),
    };
    Ok(ReadVersion {
        opening,
        digest,
        has,
    })
}

/// Makes the publications of a log again, on the store of the snapshot that a file has.
///
/// # Errors
///
/// Those of [`replay_all`]: the store is of no further use then.
pub fn replay_version(
    store: &mut Store<Lanes>,
    has: FileVersion,
    publications: Publications<'_>,
) -> Result<FileVersion, ReplayFault>
    requires has { has.version ≡ store.old.version }
    requires draft { HasNoDraft store.old }
    ensures version { IfOk result (λ it. it.version ≡ store.new.version) }
    ensures replayed { (link : List ℕ) (version : ℕ) (ps : List Published) → AreNext version ps →
        publications.entry.rest.now ≡ chain_bytes link (bodies_of ps) →
        OnOk result (store.new ≡ replayed_all ps store.old) }
{
    replay_all(store, publications)?;
    Ok(FileVersion {
        version: store.version(),
    })
}

/// Appends a publication to the log of a file.
///
/// # Errors
///
/// Those of [`Log::append`].
pub fn append_version<D: AppendDisk>(
    alloc: Global,
    log: &mut Log<D>,
    publication: &PublicationBuilder,
) -> Result<FileVersion, AppendFault>
    requires { publication.now.version ≡ log.old.version + 1 }
    ensures steps { AppendsEntry D.does (log_entry log.old.link publication.now.body.items)
        log.old.disk result log.new.disk }
    ensures version { IfOk result (λ it. it.version ≡ publication.now.version) }
    ensures log { OnOk result (log.new.version ≡ publication.now.version) }
    ensures kept { OnErr result (log.new.version ≡ log.old.version) }
{
    match log.append(alloc, publication) {
        Ok(()) => Ok(FileVersion {
            version: publication.version,
        }),
        Err(fault) => Err(fault),
    }
}

/// Takes back what was appended to the log of a file since it had this end.
///
/// # Errors
///
/// Those of [`Log::take_back`].
pub fn take_back_version<D: AppendDisk>(
    log: &mut Log<D>,
    end: &LogEnd,
) -> Result<FileVersion, CutFault>
    ensures steps { Cuts D.does end.now.len log.old.disk result log.new.disk }
    ensures version { IfOk result (λ it. it.version ≡ end.now.version) }
    ensures log { log.new.version ≡ end.now.version }
{
    match log.take_back(end) {
        Ok(()) => Ok(FileVersion {
            version: end.version,
        }),
        Err(fault) => Err(fault),
    }
}

/// Replaces a file by a snapshot, or makes it.
///
/// # Errors
///
/// Those of [`replace`].
pub fn replace_version<D: Disk, C: Versioned>(
    alloc: Global,
    disk: &mut D,
    content: &C,
) -> Result<FileVersion, ReplaceFault>
    ensures steps { Replaces D.does D.fresh (C.bytes content.now) disk.old result disk.new }
    ensures version { IfOk result (λ it. it.version ≡ C.version content.now) }
{
    match replace(alloc, disk, content) {
        Ok(()) => Ok(FileVersion {
            version: content.version(),
        }),
        Err(fault) => Err(fault),
    }
}

/// Writes a snapshot to what is no file.
///
/// # Errors
///
/// `Write` if a write failed, `Memory` if memory was refused.
pub fn write_version<W: Write, C: Versioned>(
    alloc: Global,
    writer: &mut W,
    content: &C,
) -> Result<FileVersion, ContentFault>
    ensures whole { OnOk result
        (Appends (W.contents writer.old) (W.contents writer.new) (C.bytes content.now)) }
    ensures version { IfOk result (λ it. it.version ≡ C.version content.now) }
{
    match content.write_to(alloc, writer) {
        Ok(()) => Ok(FileVersion {
            version: content.version(),
        }),
        Err(fault) => Err(fault),
    }
}
