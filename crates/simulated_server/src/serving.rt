//! What a server serves, while its version is there after a crash.

ghost use Rattle.std.specs.Prelude.{◌≡◌, ◌≢◌, ◌↔◌, IsErrOf, IsSome, None, OnOk, OnErr};
ghost use Rattle.server_core.specs.Cores.{session_of};
ghost use Rattle.server_files.specs.Saved.{saved_version};

use publication_log::LogFile;
use server_core::{ServerCore, SessionError};
use server_files::LogSaver;
use session_core::{Lanes, Store};
use std::alloc::Global;
use std::fs::OpenFile;
use std::io::Write;

/// A server whose current version is there after a crash, and what saves its publications. A turn
/// takes it and gives it back, unless a publication may be there in part.
#[derive(Drop)]
pub struct Serving<F: Write + OpenFile + Drop> {
    /// The server.
    pub core: ServerCore<Lanes>,
    /// What saves its publications.
    pub saver: LogSaver<LogFile<F>>,
    ghost is_saved: { saved_version saver ≡ core.store.version },
}

impl<F: Write + OpenFile + Drop> Serving<F> {
    /// A server of a store whose version was saved.
    pub fn new(alloc: Global, store: Store<Lanes>, saver: LogSaver<LogFile<F>>) -> Serving<F>
        requires { saved_version saver ≡ store.version }
    {
        Serving {
            core: ServerCore::new(alloc, store),
            saver,
        }
    }

    /// Opens the session of a connection.
    ///
    /// # Errors
    ///
    /// Those of [`ServerCore::open_session`].
    pub fn open_session(&mut self, id: u64) -> Result<(), SessionError> {
        self.core.open_session(id)
    }

    /// Takes the session of a connection away.
    pub fn close_session(&mut self, id: u64) {
        self.core.close_session(id);
    }

    /// Drops the draft.
    pub fn drop_draft(&mut self) {
        self.core.drop_draft();
    }
}
