//! A snapshot file and its log, opened to be served.

ghost use Rattle.std.specs.Prelude.{◌≡◌, IfOk};
ghost use Rattle.version_store.specs.Openings.{IsSound};
ghost use Rattle.server_files.specs.Saved.{saved_version};

use crate::compacting::compacted_past;
use crate::file_version::ReadVersion;
use crate::files::{OwnFile, kept_file, store_after};
use crate::logs::{BAD_LOG, log_failure};
use crate::progress::ReadProgress;
use crate::saving::LogSaver;
use command_words::Failure;
use publication_log::{LogFile, OpenedLog, open_log};
use safe_files::FileSystem;
use session_core::{Lanes, Store};
use std::alloc::Global;
use std::fs::OpenFile;
use std::io::Write;
use version_store::HintWatcher;

/// A snapshot that was read of a file, and the file's log, to which can be appended.
#[derive(Drop)]
pub struct OpenPair<F: Write + OpenFile + Drop> {
    /// What was read of the file.
    pub read: ReadVersion,
    /// Its log.
    pub log: OpenedLog<F>,
}

/// Opens a file and its log to serve them. A log of more than so many bytes is made shorter first,
/// and a torn end is cut off. What reports on the reading of the file, if anything does, counts
/// each read.
///
/// # Errors
///
/// In this order: those of the snapshot, `Write` if the file can't be sent to the device, those of
/// its log (`File`, `BadLog`, `Write` if a torn end can't be cut off, or if a log that is too long
/// can't be made shorter); `Memory`.
pub fn open_pair<R: FileSystem>(
    rt: &R,
    file: &mut OwnFile<'_, R>,
    limit: usize,
    progress: Option<ReadProgress<'_>>,
) -> Result<OpenPair<R::File>, Failure>
    ensures sound { IfOk result (λ it. IsSound it.read.opening.header it.read.opening.bytes) }
{
    let kept = kept_file(rt, file, progress)?;
    let kept = compacted_past(rt, file, kept, limit)?;
    match open_log(rt, kept.own.name.as_str(), &kept.own.header) {
        Ok(log) => Ok(OpenPair {
            read: kept.read,
            log,
        }),
        Err(fault) => Err(log_failure(fault)),
    }
}

impl<F: Write + OpenFile + Drop> OpenPair<F> {
    /// The store of the snapshot after the publications of its log, and what appends to that log.
    /// The store's hints are watched while they are made.
    ///
    /// # Errors
    ///
    /// `BadLog` if one of the publications can't follow; `Memory`.
    pub fn store<W: HintWatcher>(
        self,
        alloc: Global,
        watcher: &mut W,
    ) -> Result<(Store<Lanes>, LogSaver<LogFile<F>>), Failure>
        requires { IsSound self.read.opening.header self.read.opening.bytes }
        ensures { IfOk result (λ it. saved_version it.1 ≡ it.0.version) }
    {
        let OpenPair { read, log } = self;
        let (store, has) = store_after(alloc, read, log.publications(), watcher)?;
        match LogSaver::of(log.into_log(), has) {
            Some(saver) => Ok((store, saver)),
            None => Err(BAD_LOG),
        }
    }
}
