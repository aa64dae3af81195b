//! The `LogSaver` of `server_files` as the loop's `Saver`. It needs a type of this crate, since
//! `server_files` knows nothing of the loop.

use mio_server::{AppendFailed, SaveFailed, Saver};
use publication_log::LogFile;
use server_files::LogSaver;
use session_core::{Lanes, Store};

/// Saves publications in the log of a snapshot file.
#[derive(Drop)]
pub struct FileSaver {
    /// What appends to the log.
    pub log: LogSaver<LogFile>,
}

impl Saver for FileSaver {
    ghost use Rattle.server_files.specs.Saved.{saved_version};

    ghost saved = { λ s. saved_version s.log };

    fn append(&mut self, rt: &HostRuntime, store: &Store<Lanes>) -> Result<(), AppendFailed> {
        self.log.append(rt.alloc(), store)
    }

    fn take_back(&mut self, _rt: &HostRuntime, store: &Store<Lanes>) -> Result<(), SaveFailed> {
        self.log.take_back(store)
    }
}
