//! The command `compact`, and the same before a file is served: a log made shorter.

ghost use Rattle.std.specs.Prelude.{◌≡◌, IfOk};
ghost use Rattle.version_store.specs.Openings.{IsSound};

use crate::causes::failed_at;
use crate::files::{
    FileWithLog, OpeningOf, OwnFile, digest_of, kept_file, replace_failure, write_file,
};
use crate::logs::{OwnLog, log_failure, replay_failure};
use command_words::{Failed, Failure, printed};
use log_replay::{earlier_count, replay_first};
use publication_log::{Publications, ReadLog, read_log_file, relinked, remove_other_logs};
use safe_files::{BytesInMemory, FileSystem, replace_file};
use std::fs;

/// Puts all publications of a file's log into its snapshot, but the last 16, and prints the version
/// of the snapshot and how many publications follow it.
///
/// # Errors
///
/// In this order: `File` if there is no file, `Locked` if another process has it, those of the
/// snapshot, `Write` if the file can't be sent to the device, those of the log (`File`, `BadLog`),
/// and those of the new files (`File`, `Write`). `Memory` if memory was refused.
pub fn compact_file(rt: &HostRuntime, name: &str) -> Result<(), Failed> {
    match compact_pair(rt, name) {
        Ok(Compacted { version, after }) => printed(
            rt,
            println!(rt; "compacted {version} {after}"),
        ),
        Err(failure) => Err(failed_at(rt, name, failure)),
    }
}

/// What a file has whose log was made shorter.
#[derive(Clone, Copy, Debug, PartialEq, Eq)]
pub struct Compacted {
    /// The version of the snapshot.
    pub version: u64,
    /// How many publications follow it.
    pub after: usize,
}

/// Puts all publications of a file's log into its snapshot, but the last 16.
///
/// # Errors
///
/// Those of [`compact_file`].
pub fn compact_pair<R: FileSystem>(rt: &R, name: &str) -> Result<Compacted, Failure> {
    let mut file = OwnFile::to_read(rt, name)?;
    let compacted = compact_own(rt, &mut file);
    drop(file);
    compacted
}

// The same of a file that no other process has.
fn compact_own<R: FileSystem>(rt: &R, file: &mut OwnFile<'_, R>) -> Result<Compacted, Failure> {
    let kept = kept_file(rt, file, None)?;
    // What a compaction that was cut short left is removed, even if there is no log to shorten.
    remove_other_logs(rt, file.name(), kept.own.name.as_str());
    match read_own(rt, &kept.own) {
        Ok(Some(log)) => {
            let compacted = compact_both(rt, file, kept, &log);
            drop(log);
            compacted
        }
        Ok(None) => Ok(compacted_to(kept, 0)),
        Err(failure) => {
            // A call keeps the prover from taking apart here all that was read.
            drop(kept);
            Err(failure)
        }
    }
}

// What a file has that is kept no longer, with so many publications after its snapshot.
fn compacted_to(kept: FileWithLog, after: usize) -> Compacted {
    let version = kept.read.opening.version();
    drop(kept);
    Compacted { version, after }
}

// The same of a file that has this log.
fn compact_both<R: FileSystem>(
    rt: &R,
    file: &mut OwnFile<'_, R>,
    kept: FileWithLog,
    log: &ReadLog,
) -> Result<Compacted, Failure>
    requires { IsSound kept.read.opening.header kept.read.opening.bytes }
{
    let publications = log.publications();
    let earlier = earlier_count(publications);
    if earlier == 0 {
        return Ok(compacted_to(kept, publications.count()));
    }
    let kept = shortened(rt, file, kept, log)?;
    Ok(compacted_to(kept, publications.count().saturating_sub(earlier)))
}

/// A file that is to be served, with a log of more than 16 publications and more than so many bytes
/// made shorter.
///
/// # Errors
///
/// Those of the log (`File`, `BadLog`), and those of the new files (`File`, `Write`); `Memory`.
pub fn compacted_past<R: FileSystem>(
    rt: &R,
    file: &mut OwnFile<'_, R>,
    kept: FileWithLog,
    limit: usize,
) -> Result<FileWithLog, Failure>
    requires version { kept.read.has.version ≡ kept.read.opening.header.version }
    requires sound { IsSound kept.read.opening.header kept.read.opening.bytes }
    ensures version { IfOk result (λ it. it.read.has.version ≡ it.read.opening.header.version) }
    ensures sound { IfOk result (λ it. IsSound it.read.opening.header it.read.opening.bytes) }
{
    if !is_longer(rt, kept.own.name.as_str(), limit) {
        return Ok(kept);
    }
    match read_own(rt, &kept.own) {
        Ok(Some(log)) => {
            let kept = shortened_past(rt, file, kept, &log, limit);
            drop(log);
            kept
        }
        Ok(None) => Ok(kept),
        Err(failure) => {
            drop(kept);
            Err(failure)
        }
    }
}

// The same with a log that was read.
fn shortened_past<R: FileSystem>(
    rt: &R,
    file: &mut OwnFile<'_, R>,
    kept: FileWithLog,
    log: &ReadLog,
    limit: usize,
) -> Result<FileWithLog, Failure>
    requires version { kept.read.has.version ≡ kept.read.opening.header.version }
    requires sound { IsSound kept.read.opening.header kept.read.opening.bytes }
    ensures version { IfOk result (λ it. it.read.has.version ≡ it.read.opening.header.version) }
    ensures sound { IfOk result (λ it. IsSound it.read.opening.header it.read.opening.bytes) }
{
    if log.len() <= limit || earlier_count(log.publications()) == 0 {
        return Ok(kept);
    }
    shortened(rt, file, kept, log)
}

// Whether a file has more than so many bytes: then it is worth reading.
fn is_longer<R: FileSystem>(rt: &R, name: &str, limit: usize) -> bool {
    match fs::symlink_metadata(rt, name) {
        Ok(found) => found.len() > limit as u64,
        Err(_) => false,
    }
}

// The log beside a file, if there is one.
fn read_own<R: FileSystem>(rt: &R, own: &OwnLog) -> Result<Option<ReadLog>, Failure> {
    match read_log_file(rt, own.name.as_str(), &own.header) {
        Ok(log) => Ok(log),
        Err(fault) => Err(log_failure(fault)),
    }
}

// Writes the log of the last 16 publications under the name that belongs to the snapshot before
// them, then that snapshot in the place of the file, and removes the earlier log. At each moment
// the file and its log have what they had.
fn shortened<R: FileSystem>(
    rt: &R,
    file: &mut OwnFile<'_, R>,
    kept: FileWithLog,
    log: &ReadLog,
) -> Result<FileWithLog, Failure>
    requires sound { IsSound kept.read.opening.header kept.read.opening.bytes }
    ensures version { IfOk result (λ it. it.read.has.version ≡ it.read.opening.header.version) }
    ensures sound { IfOk result (λ it. IsSound it.read.opening.header it.read.opening.bytes) }
{
    let publications = log.publications();
    let earlier = earlier_count(publications);
    let mut opening = kept.read.opening;
    match replay_first(&mut opening, publications, earlier) {
        Ok(()) => {}
        Err(fault) => return Err(replay_failure(fault)),
    }
    let content = OpeningOf(&opening);
    let digest = digest_of(rt.alloc(), &content)?;
    let own = OwnLog::of(rt.alloc(), file.name(), &opening.header(), digest)?;
    write_log(rt, &own, publications.without_first(earlier))?;
    let has = write_file(rt, file, &content)?;
    remove_other_logs(rt, file.name(), own.name.as_str());
    Ok(FileWithLog::of(opening, digest, has, own))
}

// Writes a log of these publications.
fn write_log<R: FileSystem>(
    rt: &R,
    own: &OwnLog,
    publications: Publications<'_>,
) -> Result<(), Failure> {
    let bytes = relinked(rt.alloc(), &own.header, publications)?;
    match replace_file(rt, own.name.as_str(), &BytesInMemory(&bytes)) {
        Ok(()) => Ok(()),
        Err(fault) => Err(replace_failure(fault)),
    }
}
