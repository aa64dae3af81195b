//! Snapshot files.

ghost use Rattle.std.specs.Prelude.{◌≡◌, ℕ, List, IfOk, OnOk};
ghost use Rattle.snapshot_file.specs.Snapshots.{records_len, snapshot_bytes};
ghost use Rattle.server_files.specs.ReadIn.{IsReadWhole};
ghost use Rattle.version_store.specs.Openings.{IsSound, held_of, snapshot_of};
ghost use Rattle.publication_log.specs.Publications.{Published};
ghost use Rattle.publication_log.specs.Entries.{chain_bytes};
ghost use Rattle.publication_log.specs.Logs.{AreNext, bodies_of};
ghost use Rattle.log_replay.specs.Replays.{replayed_all};

use crate::file_version::{
    FileVersion, ReadVersion, VersionFault, Versioned, read_version, replace_version,
    replay_version, take_up_version, write_version,
};
use crate::last_bytes::LastBytes;
use crate::logs::{OwnLog, log_failure, replay_failure};
use crate::progress::{InputSize, ReadProgress};
use crate::reading_in::{Unwritten, how_unwritten, replace_read};
use command_words::Failure;
use log_replay::earlier_count;
use log_replay::laws::last_sixteen_suffice;
use publication_log::{Publications, log_name, remove_log, remove_other_logs};
use safe_files::{
    Content, ContentFault, FileLock, FileSystem, LockFault, Place, ReplaceFault, SteadyFile,
    open_file,
};
use session_core::{
    Header, Lanes, MigrateError, Snapshot, SnapshotFault, Store, WidenError, WriteFault,
    read_snapshot_and_digest, write_snapshot, write_snapshot_bytes,
};
use snapshot_file::{write_snapshot_from, write_snapshot_read};
use std::alloc::Global;
use std::fs;
use std::fs::File;
use std::io::{Read, Write};
use version_store::{HintWatcher, Opening};

/// The snapshot of a store's current version, as a file is to hold it.
#[derive(Clone, Copy)]
pub struct VersionOf<'a>(pub &'a Store<Lanes>);

/// The snapshot of records of which no store is made.
#[derive(Clone, Copy)]
pub struct RecordsOf<'a> {
    /// What they are records of.
    pub header: &'a Header,
    /// Their bytes, one record after the other.
    pub bytes: &'a [u8],
}

/// The snapshot of what a store is opened with.
#[derive(Clone, Copy)]
pub struct OpeningOf<'a>(pub &'a Opening);

impl Content for VersionOf<'_> {
    ghost bytes = { λ content. snapshot_of content.0.now };

    fn write_to<W: Write>(&self, alloc: Global, writer: &mut W) -> Result<(), ContentFault> {
        match write_snapshot(alloc, self.0, writer) {
            Ok(()) => Ok(()),
            Err(fault) => Err(content_fault(fault)),
        }
    }
}

impl Content for RecordsOf<'_> {
    ghost bytes = { λ content. snapshot_bytes content.header.now content.bytes.now };

    fn write_to<W: Write>(&self, alloc: Global, writer: &mut W) -> Result<(), ContentFault> {
        match write_snapshot_bytes(alloc, self.header, self.bytes, writer) {
            Ok(()) => Ok(()),
            Err(fault) => Err(content_fault(fault)),
        }
    }
}

impl Content for OpeningOf<'_> {
    ghost bytes = { λ content. snapshot_bytes content.0.now.header content.0.now.bytes };

    fn write_to<W: Write>(&self, alloc: Global, writer: &mut W) -> Result<(), ContentFault> {
        let header = self.0.header();
        match write_snapshot_from(alloc, &header, self.0, writer) {
            Ok(()) => Ok(()),
            Err(fault) => Err(content_fault(fault)),
        }
    }
}

impl Versioned for VersionOf<'_> {
    ghost version = { λ content. content.0.now.version };

    fn version(&self) -> u64 {
        self.0.version()
    }
}

impl Versioned for RecordsOf<'_> {
    ghost version = { λ content. content.header.now.version };

    fn version(&self) -> u64 {
        self.header.version
    }
}

impl Versioned for OpeningOf<'_> {
    ghost version = { λ content. content.0.now.header.version };

    fn version(&self) -> u64 {
        self.0.version()
    }
}

/// The failure of a file that can't be opened or made.
pub const NO_FILE: Failure = Failure::Fault("File");

/// The failure of a file that can't be written.
pub const NOT_WRITTEN: Failure = Failure::Fault("Write");

/// A file that no other process serves or replaces, until the value is dropped. What is no file,
/// such as a terminal, has no lock.
///
/// If the name given is a link, what it leads to is found once: that is what is locked, read and
/// replaced.
#[derive(Drop)]
pub struct OwnFile<'a, R: FileSystem = HostRuntime> {
    place: Place<'a, R>,
    // What is no file has none, and is written to as it is.
    lock: Option<FileLock<R>>,
}

impl<'a, R: FileSystem> OwnFile<'a, R> {
    /// A file that is to be made, or replaced.
    ///
    /// # Errors
    ///
    /// `Locked` if another process has it, `File` if its lock can't be taken, `Memory`.
    pub fn to_write(rt: &'a R, name: &str) -> Result<OwnFile<'a, R>, Failure> {
        let mut place = Place::of(rt, name)?;
        if place.is_no_file() {
            return Ok(OwnFile { place, lock: None });
        }
        match place.lock() {
            Ok(lock) => Ok(OwnFile {
                place,
                lock: Some(lock),
            }),
            Err(LockFault::Held) => Err(Failure::Fault("Locked")),
            Err(LockFault::File) => Err(NO_FILE),
            Err(LockFault::Memory) => Err(Failure::Memory),
        }
    }

    /// An existing file, which is to be read and replaced.
    ///
    /// # Errors
    ///
    /// `File` if nothing has this name, or what has it is no file; then as [`OwnFile::to_write`].
    pub fn to_read(rt: &'a R, name: &str) -> Result<OwnFile<'a, R>, Failure> {
        match fs::metadata(rt, name) {
            Ok(found) if found.is_file() => OwnFile::to_write(rt, name),
            _ => Err(NO_FILE),
        }
    }

    /// Whether it is a file, or will be one: what is none, such as a terminal, is written to as it
    /// is.
    pub fn is_file(&self) -> bool {
        self.lock.is_some()
    }

    /// Whether anything has the name.
    pub fn is_taken(&self) -> bool {
        self.place.is_taken()
    }

    /// The name of the file itself.
    pub fn name(&self) -> &str {
        self.place.name()
    }
}

/// A snapshot that a file has, and the log beside it.
#[derive(Drop)]
pub struct FileWithLog {
    /// What was read of the file.
    pub read: ReadVersion,
    /// Its log.
    pub own: OwnLog,
}

impl FileWithLog {
    /// What was read of a snapshot, its digest, the version that the file has, and its log.
    pub fn of(opening: Opening, digest: [u8; 32], has: FileVersion, own: OwnLog) -> FileWithLog
        ensures opening { result.read.opening ≡ opening }
        ensures version { result.read.has ≡ has }
    {
        FileWithLog {
            read: ReadVersion {
                opening,
                digest,
                has,
            },
            own,
        }
    }
}

/// The snapshot that a file has. The file is on the device then. What reports on the reading, if
/// anything does, counts each read.
///
/// # Errors
///
/// In this order: `File`, the refusals of the snapshot, `Write` if the file or its name can't be
/// sent to the device; `Memory`.
pub fn kept_file<R: FileSystem>(
    rt: &R,
    file: &mut OwnFile<'_, R>,
    progress: Option<ReadProgress<'_>>,
) -> Result<FileWithLog, Failure>
    ensures sound { IfOk result (λ it. IsSound it.read.opening.header it.read.opening.bytes) }
    ensures version { IfOk result (λ it. it.read.has.version ≡ it.read.opening.header.version) }
{
    let Ok(opened) = file.place.open() else {
        return Err(NO_FILE);
    };
    let read = match read_version(rt.alloc(), &mut file.place, opened, progress) {
        Ok((read, _file)) => read,
        Err(VersionFault::Snapshot(fault)) => return Err(snapshot_failure(fault)),
        Err(VersionFault::Settle(_)) => return Err(NOT_WRITTEN),
    };
    let header = read.opening.header();
    let own = OwnLog::of(rt.alloc(), file.name(), &header, read.digest)?;
    Ok(FileWithLog { read, own })
}

/// What reports on the reading of a file, a line each second; nothing if the system has no clock.
pub fn progress_of_file<'a>(rt: &'a HostRuntime, name: &str) -> Option<ReadProgress<'a>> {
    let whole = match fs::metadata(rt, name) {
        Ok(found) => InputSize::Bytes(found.len()),
        Err(_) => InputSize::Unknown,
    };
    ReadProgress::new(rt, whole)
}

/// The store of a snapshot that a file has, after the publications of its log, and the version that
/// both have: the store's. All but the last 16 publications are made on the records alone, before
/// any hint is: the store is the same. Its hints are watched while their rows are made, first that
/// of SimplePIR and then that of DoublePIR.
///
/// # Errors
///
/// `BadLog` if one of the publications can't follow; `Memory`.
pub fn store_after<W: HintWatcher>(
    alloc: Global,
    read: ReadVersion,
    publications: Publications<'_>,
    watcher: &mut W,
) -> Result<(Store<Lanes>, FileVersion), Failure>
    requires { IsSound read.opening.header read.opening.bytes }
    ensures version { IfOk result (λ it. it.1.version ≡ it.0.version) }
    ensures replayed { (link : List ℕ) (version : ℕ) (ps : List Published) → AreNext version ps →
        publications.entry.rest.now ≡ chain_bytes link (bodies_of ps) →
        IfOk result (λ it. it.0 ≡ replayed_all ps
        (held_of read.opening.header read.opening.bytes)) }
{
    last_sixteen_suffice();
    let earlier = earlier_count(publications);
    let taken = match take_up_version(read, publications, earlier) {
        Ok(taken) => taken,
        Err(fault) => return Err(replay_failure(fault)),
    };
    open_and_replay(alloc, taken, publications.without_first(earlier), watcher)
}

// The store of a snapshot after publications, and the version of both.
fn open_and_replay<W: HintWatcher>(
    alloc: Global,
    read: ReadVersion,
    publications: Publications<'_>,
    watcher: &mut W,
) -> Result<(Store<Lanes>, FileVersion), Failure>
    requires { read.has.version ≡ read.opening.header.version }
    ensures version { IfOk result (λ it. it.1.version ≡ it.0.version) }
    ensures replayed { (link : List ℕ) (version : ℕ) (ps : List Published) → AreNext version ps →
        publications.entry.rest.now ≡ chain_bytes link (bodies_of ps) →
        IfOk result (λ it. it.0 ≡ replayed_all ps
        (held_of read.opening.header read.opening.bytes)) }
{
    let ReadVersion { opening, has, .. } = read;
    let mut store = opening.open_watched(alloc, Lanes, watcher)?;
    match replay_version(&mut store, has, publications) {
        Ok(has) => Ok((store, has)),
        Err(fault) => Err(replay_failure(fault)),
    }
}

/// The snapshot in a file, and the digest at its end.
///
/// # Errors
///
/// In this order: `File`, the refusals of the snapshot.
pub fn snapshot_in(rt: &HostRuntime, name: &str) -> Result<(Snapshot, [u8; 32]), Failure> {
    let Ok(mut file) = open_file(rt, name) else {
        return Err(NO_FILE);
    };
    match read_snapshot_and_digest(rt.alloc(), &mut file) {
        Ok(both) => Ok(both),
        Err(fault) => Err(snapshot_failure(fault)),
    }
}

/// Writes a snapshot that no log follows in the place of a file, or makes it, and returns the
/// version that it has then. A log that belongs to this very snapshot is removed before, since it
/// would be taken for its own, and those of other snapshots after.
///
/// # Errors
///
/// As [`write_file`], and `File` if that log can't be removed.
pub fn write_anew<R: FileSystem, C: Versioned>(
    rt: &R,
    file: &mut OwnFile<'_, R>,
    content: &C,
) -> Result<FileVersion, Failure>
    ensures { IfOk result (λ it. it.version ≡ C.version content.now) }
{
    if !file.is_file() {
        return write_file(rt, file, content);
    }
    let digest = digest_of(rt.alloc(), content)?;
    let log = log_name(rt.alloc(), file.name(), &digest)?;
    match remove_log(rt, log.as_str()) {
        Ok(()) => {}
        Err(fault) => return Err(log_failure(fault)),
    }
    let has = write_file(rt, file, content)?;
    remove_other_logs(rt, file.name(), "");
    Ok(has)
}

/// Writes the snapshot of a header and of all bytes that a reader has, which must be as many as the
/// header's records have, in the place of a file, or makes it. The logs of other snapshots are
/// removed after.
///
/// # Errors
///
/// Those of [`replace_read`], and of a device that can't be written to. A part of the snapshot may
/// have gone to a device then.
pub fn write_read<R: Read>(
    rt: &HostRuntime,
    file: &mut OwnFile<'_>,
    header: &Header,
    reader: &mut R,
) -> Result<(), Unwritten>
    ensures { OnOk result (IsReadWhole (records_len header.now)
        (R.remaining reader.old) (R.remaining reader.new)) }
{
    if !file.is_file() {
        return write_read_in_place(rt, file.place.name(), header, reader);
    }
    let Ok(name) = String::from_str(rt.alloc(), file.name()) else {
        return Err(Unwritten::File(Failure::Memory, 0));
    };
    replace_read(rt, &mut file.place, name.as_str(), header, reader)?;
    remove_other_logs(rt, name.as_str(), "");
    Ok(())
}

// Writes such a snapshot to what is no file.
fn write_read_in_place<R: Read>(
    rt: &HostRuntime,
    name: &str,
    header: &Header,
    reader: &mut R,
) -> Result<(), Unwritten>
    ensures { OnOk result (IsReadWhole (records_len header.now)
        (R.remaining reader.old) (R.remaining reader.new)) }
{
    let Ok(file) = File::create(rt, name) else {
        return Err(Unwritten::File(NO_FILE, 0));
    };
    let mut file = SteadyFile::new(file);
    match write_snapshot_read(rt.alloc(), header, reader, &mut file) {
        Ok(_) => {}
        Err(fault) => return Err(how_unwritten(fault)),
    }
    match file.sync() {
        Ok(()) => Ok(()),
        Err(_) => Err(Unwritten::File(NOT_WRITTEN, header.records_len())),
    }
}

/// The digest at a snapshot's end.
///
/// # Errors
///
/// `Memory`.
pub fn digest_of<C: Content>(alloc: Global, content: &C) -> Result<[u8; 32], Failure> {
    let mut writer = LastBytes::new();
    match content.write_to(alloc, &mut writer) {
        Ok(()) => Ok(writer.bytes()),
        Err(fault) => Err(content_failure(fault)),
    }
}

/// Writes a snapshot to a file that is made, or replaces it, and returns the version that it has
/// then: the file is whole at any moment, the old one or the new one. What is no file, such as a
/// terminal, is written to as it is.
///
/// # Errors
///
/// `File` if no file can be made beside it, or can't be given the name; `Write` if it can't
/// be written or sent to the device; `Memory`. None is left beside it.
pub fn write_file<R: FileSystem, C: Versioned>(
    rt: &R,
    file: &mut OwnFile<'_, R>,
    content: &C,
) -> Result<FileVersion, Failure>
    ensures { IfOk result (λ it. it.version ≡ C.version content.now) }
{
    if file.lock.is_none() {
        return write_in_place(rt, file.place.name(), content);
    }
    match replace_version(rt.alloc(), &mut file.place, content) {
        Ok(version) => Ok(version),
        Err(fault) => Err(replace_failure(fault)),
    }
}

// Writes a snapshot to what is no file.
fn write_in_place<R: FileSystem, C: Versioned>(
    rt: &R,
    name: &str,
    content: &C,
) -> Result<FileVersion, Failure>
    ensures { IfOk result (λ it. it.version ≡ C.version content.now) }
{
    let Ok(file) = File::create(rt, name) else {
        return Err(NO_FILE);
    };
    let mut file = SteadyFile::new(file);
    let version = match write_version(rt.alloc(), &mut file, content) {
        Ok(version) => version,
        Err(fault) => return Err(content_failure(fault)),
    };
    match file.sync() {
        Ok(()) => Ok(version),
        Err(_) => Err(NOT_WRITTEN),
    }
}

// The failure that a content which was not written is.
fn content_failure(fault: ContentFault) -> Failure {
    match fault {
        ContentFault::Write => NOT_WRITTEN,
        ContentFault::Memory => Failure::Memory,
    }
}

/// The failure that a file which was not replaced is.
pub fn replace_failure(fault: ReplaceFault) -> Failure {
    match fault {
        ReplaceFault::Make | ReplaceFault::Rename => NO_FILE,
        ReplaceFault::Write | ReplaceFault::Sync | ReplaceFault::SyncFolder => NOT_WRITTEN,
        ReplaceFault::Memory => Failure::Memory,
    }
}

// What a snapshot that was not written is to a file.
fn content_fault(fault: WriteFault) -> ContentFault {
    match fault {
        WriteFault::Write => ContentFault::Write,
        WriteFault::Memory => ContentFault::Memory,
    }
}

/// The failure that a refused snapshot is.
pub fn snapshot_failure(fault: SnapshotFault) -> Failure {
    match fault {
        SnapshotFault::Memory => Failure::Memory,
        fault => Failure::Fault(fault.name()),
    }
}

/// The failure that refused slots are.
pub fn migrate_failure(fault: MigrateError) -> Failure {
    match fault {
        MigrateError::Memory => Failure::Memory,
        fault => Failure::Fault(fault.name()),
    }
}

/// The failure that a refused wide store is.
pub fn widen_failure(fault: WidenError) -> Failure {
    match fault {
        WidenError::Memory => Failure::Memory,
        fault => Failure::Fault(fault.name()),
    }
}
