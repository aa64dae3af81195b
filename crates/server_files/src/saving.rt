//! Publications saved in the log of a snapshot file.

ghost use Rattle.std.specs.Prelude.{◌≡◌, ◌<◌, ◌+◌, ◌^◌, ◌↔◌, IfOk, IfSome, IsErrOf, IsTrue, OnOk};
ghost use Rattle.std.specs.Prelude.{true};

use crate::file_version::{FileVersion, append_version, take_back_version};
use connection_turns::{AppendFailed, SaveFailed};
use log_replay::draft_publication;
use publication_log::{AppendDisk, AppendFault, Log, LogEnd};
use session_core::{Lanes, Store};
use std::alloc::Global;

/// Appends publications to the log of a snapshot file. What it counts as saved is what file and log
/// have.
#[derive(Drop)]
pub struct LogSaver<D: AppendDisk + Drop> {
    log: Log<D>,
    has: FileVersion,
    // Where the log ended before the last publication that was appended.
    before: LogEnd,
}

impl<D: AppendDisk + Drop> LogSaver<D> {
    ghost use Rattle.server_files.specs.Saved.{saved_version};

    /// One for the log that a file has, and the version that both have; `None` if the log has
    /// another one.
    pub fn of(log: Log<D>, has: FileVersion) -> Option<LogSaver<D>>
        ensures { IfSome result (λ saver. saved_version saver ≡ has.version) }
    {
        if log.version != has.number() {
            return None;
        }
        let before = log.end();
        Some(LogSaver { log, has, before })
    }

    /// Appends a publication before it is made: the store's draft, as the next version, is in the
    /// log then.
    ///
    /// # Errors
    ///
    /// If it could not be appended: nothing of it is left, or, if that can't be achieved either, a
    /// part may be.
    pub fn append(&mut self, alloc: Global, store: &Store<Lanes>) -> Result<(), AppendFailed>
        requires saved { saved_version self.old ≡ store.now.version }
        requires draft { store.now.marked ≡ true }
        requires next { store.now.version + 1 < 2 ^ 64 }
        ensures ok { OnOk result (saved_version self.new ≡ store.now.version + 1) }
        ensures undone { IsErrOf result AppendFailed.Undone →
            saved_version self.new ≡ saved_version self.old }
    {
        let Ok(publication) = draft_publication(alloc, store) else {
            return Err(AppendFailed::Undone);
        };
        if !follows(self.log.version, publication.version) {
            return Err(AppendFailed::Undone);
        }
        self.before = self.log.end();
        match append_version(alloc, &mut self.log, &publication) {
            Ok(has) => {
                self.has = has;
                Ok(())
            }
            Err(AppendFault::Memory | AppendFault::Full) => Err(AppendFailed::Undone),
            Err(AppendFault::Write | AppendFault::Sync | AppendFault::Torn) => {
                match self.log.cut() {
                    Ok(()) => Err(AppendFailed::Undone),
                    Err(_) => Err(AppendFailed::Lost),
                }
            }
        }
    }

    /// Takes back the publication that was appended and was not made: nothing of it is left.
    ///
    /// # Errors
    ///
    /// If that could not be done.
    pub fn take_back(&mut self, store: &Store<Lanes>) -> Result<(), SaveFailed>
        requires appended { saved_version self.old ≡ store.now.version + 1 }
        ensures ok { OnOk result (saved_version self.new ≡ store.now.version) }
    {
        if self.before.version != store.version() {
            return Err(SaveFailed);
        }
        match take_back_version(&mut self.log, &self.before) {
            Ok(has) => {
                self.has = has;
                Ok(())
            }
            Err(_) => Err(SaveFailed),
        }
    }
}

// Whether a version is the next one after another.
fn follows(version: u64, other: u64) -> bool
    ensures { IsTrue result ↔ (other ≡ version + 1) }
{
    version < other && other - version == 1
}
