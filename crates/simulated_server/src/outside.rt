//! The disk, and the end of one connection.

use connection_turns::{AppendFailed, Outside, SaveFailed, SocketStop};
use publication_log::LogFile;
use server_files::LogSaver;
use session_core::{Lanes, Store};
use simulated_host::{Dice, End, Moved, Network, SimulatedFiles};
use std::alloc::Global;
use std::fs::OpenFile;
use std::io::Write;

/// What lies outside of a server in a turn of one connection.
#[derive(Drop)]
pub struct Surroundings<'w, 'a, F: Write + OpenFile + Drop> {
    /// What saves publications.
    pub saver: LogSaver<LogFile<F>>,
    /// The machine, whose power may be cut.
    pub files: &'w SimulatedFiles<'a>,
    /// The connections.
    pub network: &'w mut Network,
    /// What decides how many bytes a call takes.
    pub dice: &'w mut Dice,
    /// The server's end of the connection.
    pub end: End,
    /// Where memory comes from.
    pub alloc: Global,
    /// How many bytes were written.
    pub written: usize,
}

impl<F: Write + OpenFile + Drop> Outside<Lanes> for Surroundings<'_, '_, F> {
    ghost use Rattle.server_files.specs.Saved.{saved_version};

    ghost saved = { λ outside. saved_version outside.saver };

    fn append(&mut self, store: &Store<Lanes>) -> Result<(), AppendFailed> {
        self.saver.append(self.alloc, store)
    }

    fn take_back(&mut self, store: &Store<Lanes>) -> Result<(), SaveFailed> {
        self.saver.take_back(store)
    }

    fn read(&mut self, buffer: &mut [u8]) -> Result<usize, SocketStop> {
        let most = buffer.len();
        match self.network.read(self.end, buffer, self.dice) {
            Moved::Bytes(count) => Ok(count.min(most)),
            Moved::Later => Err(SocketStop::Later),
            Moved::Broken => Err(SocketStop::Failed),
        }
    }

    fn write(&mut self, _store: &Store<Lanes>, bytes: &[u8]) -> Result<usize, SocketStop> {
        if bytes.is_empty() {
            return Ok(0);
        }
        if self.files.is_cut() {
            return Err(SocketStop::Failed);
        }
        match self.network.write(self.end, bytes, self.dice) {
            Ok(Moved::Bytes(count)) if count > 0 => {
                self.written = self.written.saturating_add(count);
                Ok(count.min(bytes.len()))
            }
            Ok(Moved::Bytes(_) | Moved::Later) => Err(SocketStop::Later),
            Ok(Moved::Broken) | Err(_) => Err(SocketStop::Failed),
        }
    }
}
