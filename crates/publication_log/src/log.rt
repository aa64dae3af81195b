//! An append to a log, and the cut of one that failed, step by step.

ghost use Rattle.std.specs.Prelude.{
  ◌≡◌,
  ◌↔◌,
  ◌+◌,
  ◌<◌,
  ◌≤◌,
  ◌^◌,
  Err,
  true,
  false,
  ⊤,
  IfOk,
  OnOk,
  OnErr,
  length,
};
ghost use Rattle.publication_log.specs.Entries.{log_entry, next_link};
ghost use Rattle.publication_log.specs.Steps.{LogStep, write_step, log_sync_step, truncate_step};
ghost use Rattle.publication_log.specs.Steps.{AppendsToLog};
ghost use Rattle.publication_log.specs.Steps.{Cuts, Recovers, is_torn_after, is_torn_after_cut};
ghost use Rattle.publication_log.specs.Opened.{end_of};

use crate::builder::PublicationBuilder;
use crate::entries::{LINK_LEN, entry_of, link_after};
use crate::reading::Found;
use std::alloc::{AllocError, Global};
use thiserror::Error;

/// A step of the disk failed.
#[derive(Clone, Copy, Debug, PartialEq, Eq, Error)]
#[error("a step of the disk failed")]
pub struct LogDiskFailed;

/// A file to whose end is written. What each call did is known from the call alone.
pub trait AppendDisk {
    /// Relates the disk before a step, the step, and the disk after it.
    ghost does: { Self → LogStep → Self → Type 0 } = { λ _ _ _. ⊤ };

    /// Writes these bytes at the end.
    fn write(&mut self, bytes: &[u8]) -> Result<(), LogDiskFailed>
        ensures did { does self.old (write_step bytes.now result) self.new };

    /// Sends all bytes and the file's length to the device.
    fn sync(&mut self) -> Result<(), LogDiskFailed>
        ensures did { does self.old (log_sync_step result) self.new };

    /// Cuts off what is after so many bytes.
    fn truncate(&mut self, len: u64) -> Result<(), LogDiskFailed>
        ensures did { does self.old (truncate_step len result) self.new };
}

/// Why a publication was not appended.
#[derive(Clone, Copy, Debug, PartialEq, Eq, Error)]
pub enum AppendFault {
    /// An append failed before, and what it left was not cut off: nothing was written.
    #[error("the log has a torn end")]
    Torn,
    /// The log would have 2^64 bytes or more: nothing was written.
    #[error("the log is full")]
    Full,
    /// Memory was refused: nothing was written.
    #[error("out of memory")]
    Memory,
    /// The entry could not be written.
    #[error("a write failed")]
    Write,
    /// The entry could not be sent to the device.
    #[error("a sync failed")]
    Sync,
}

impl From<AllocError> for AppendFault {
    ghost use Rattle.publication_log.specs.declared.log.AppendFault.TheVariants.{Memory};

    ghost from_gives = { λ _ fault. fault ≡ Memory };

    fn from(_refused: AllocError) -> Self {
        AppendFault::Memory
    }
}

/// Why what a failed append left was not cut off.
#[derive(Clone, Copy, Debug, PartialEq, Eq, Error)]
pub enum CutFault {
    /// The file could not be cut.
    #[error("the log could not be cut")]
    Truncate,
    /// The cut could not be sent to the device.
    #[error("a sync failed")]
    Sync,
}

/// Where a log ends.
#[derive(Clone, Copy, Debug, PartialEq, Eq)]
pub struct LogEnd {
    /// The link of the last entry, or of the header if there is none.
    pub link: [u8; LINK_LEN],
    /// The version of the last publication, or of the snapshot if there is none.
    pub version: u64,
    /// How many bytes the header and the whole entries have.
    pub len: u64,
}

/// A log to which publications are appended.
#[derive(Drop)]
pub struct Log<D: AppendDisk> {
    /// The file.
    pub disk: D,
    /// The link of the last entry, or of the header if there is none.
    pub link: [u8; LINK_LEN],
    /// The version of the last publication, or of the snapshot if there is none.
    pub version: u64,
    /// How many bytes the header and the whole entries have.
    pub len: u64,
    /// An append failed, and what it left was not cut off.
    pub is_torn: bool,
}

impl<D: AppendDisk + Drop> Log<D> {
    /// The log that was found in a file of `all` bytes. What is after the bytes found is a torn
    /// end, and is cut off.
    ///
    /// # Errors
    ///
    /// As [`Log::cut`].
    pub fn recover(disk: D, found: &Found, all: usize) -> Result<Log<D>, CutFault>
        ensures steps { IfOk result (λ log. Recovers D.does found.now.len all disk log.disk) }
        ensures link { IfOk result (λ log. log.link ≡ found.now.link) }
        ensures version { IfOk result (λ log. log.version ≡ found.now.version) }
        ensures len { IfOk result (λ log. log.len ≡ found.now.len) }
        ensures untorn { IfOk result (λ log. log.is_torn ≡ false) }
        ensures refused { OnErr result (found.now.len < all) }
    {
        let link = found.link;
        let mut log = Log {
            disk,
            link,
            version: found.version,
            len: found.len as u64,
            is_torn: false,
        };
        if found.len < all {
            log.cut()?;
        }
        Ok(log)
    }
}

impl<D: AppendDisk> Log<D> {
    /// Where it ends.
    pub fn end(&self) -> LogEnd
        ensures { result ≡ end_of self.now }
    {
        LogEnd {
            link: self.link,
            version: self.version,
            len: self.len,
        }
    }

    /// Appends the publication of the next version: writes its entry, and sends it to the device.
    /// `Ok` comes only after both.
    ///
    /// # Errors
    ///
    /// Each exactly when its cause was there or its step failed; no further step is then taken.
    /// After `Write` and `Sync` a part of the entry, or all of it, may be in the file: [`Log::cut`]
    /// comes before the next append.
    pub fn append(
        &mut self,
        alloc: Global,
        publication: &PublicationBuilder,
    ) -> Result<(), AppendFault>
        requires { publication.now.version ≡ self.old.version + 1 }
        ensures steps { AppendsToLog D.does (log_entry self.old.link publication.now.body.items)
            self.old.disk result self.new.disk }
        ensures link { OnOk result
            (self.new.link ≡ next_link self.old.link publication.now.body.items) }
        ensures version { OnOk result (self.new.version ≡ publication.now.version) }
        ensures len { OnOk result (self.new.len ≡ self.old.len +
            length (log_entry self.old.link publication.now.body.items)) }
        ensures kept { OnErr result ((self.new.link ≡ self.old.link) ×
            (self.new.version ≡ self.old.version) × (self.new.len ≡ self.old.len)) }
        ensures torn { self.new.is_torn ≡ is_torn_after self.old.is_torn result }
        ensures uncut { (result ≡ Err AppendFault.Torn) ↔ (self.old.is_torn ≡ true) }
        ensures full { result ≡ Err AppendFault.Full → 2 ^ 64 ≤ self.old.len +
            length (log_entry self.old.link publication.now.body.items) }
    {
        if self.is_torn {
            return Err(AppendFault::Torn);
        }
        let link = link_after(&self.link, &publication.body);
        let bytes = entry_of(alloc, &publication.body, &link)?;
        let Some(len) = self.len.checked_add(bytes.len() as u64) else {
            return Err(AppendFault::Full);
        };
        if self.disk.write(&bytes).is_err() {
            self.is_torn = true;
            return Err(AppendFault::Write);
        }
        if self.disk.sync().is_err() {
            self.is_torn = true;
            return Err(AppendFault::Sync);
        }
        self.link = link;
        self.version = publication.version;
        self.len = len;
        Ok(())
    }

    /// Cuts off what a failed append left, and sends the cut to the device: the log is again as
    /// before that append.
    ///
    /// # Errors
    ///
    /// Each exactly when its step failed: the log is as torn as before.
    pub fn cut(&mut self) -> Result<(), CutFault>
        ensures steps { Cuts D.does self.old.len self.old.disk result self.new.disk }
        ensures kept { (self.new.link ≡ self.old.link) × (self.new.version ≡ self.old.version) ×
            (self.new.len ≡ self.old.len) }
        ensures done { OnOk result (self.new.is_torn ≡ false) }
        ensures refused { OnErr result (self.new.is_torn ≡ self.old.is_torn) }
    {
        if self.disk.truncate(self.len).is_err() {
            return Err(CutFault::Truncate);
        }
        let Ok(()) = self.disk.sync() else {
            return Err(CutFault::Sync);
        };
        self.is_torn = false;
        Ok(())
    }

    /// Takes back what was appended since the log had this end: cuts it off, and sends the cut to
    /// the device.
    ///
    /// # Errors
    ///
    /// As [`Log::cut`]: the log is torn at that end then.
    pub fn take_back(&mut self, end: &LogEnd) -> Result<(), CutFault>
        ensures steps { Cuts D.does end.now.len self.old.disk result self.new.disk }
        ensures end { end_of self.new ≡ end.now }
        ensures torn { self.new.is_torn ≡ is_torn_after_cut true result }
    {
        self.link = end.link;
        self.version = end.version;
        self.len = end.len;
        self.is_torn = true;
        self.cut()
    }
}
