//! The disk, and the socket of one connection.

ghost use Rattle.std.specs.Prelude.{◌≡◌, ◌<◌, ◌+◌, ◌^◌, ℕ, IsErrOf, OnOk, true};

use crate::tallies::Tallies;
use crate::watch::Watch;
use connection_turns::{AppendFailed, Outside, SaveFailed, SocketStop};
use lane_kernels::Lanes;
use mio::net::TcpStream;
use service_status::micros_since;
use service_watch::Counted;
use std::io::{Error, ErrorKind, Read, Write};
use std::time::Instant;
use version_store::Store;

/// What writes publications down before they are made, so that they are there after a crash.
pub trait Saver {
    /// The version that is there after a crash.
    ghost saved: { Self → ℕ };

    /// Appends a publication before it is made: the store's draft, as the next version, is there
    /// after a crash.
    ///
    /// # Errors
    ///
    /// If it could not be appended: nothing of it is left, or, if that can't be achieved either, a
    /// part may be.
    fn append(&mut self, rt: &HostRuntime, store: &Store<Lanes>) -> Result<(), AppendFailed>
        requires saved { saved self.old ≡ store.now.version }
        requires draft { store.now.marked ≡ true }
        requires next { store.now.version + 1 < 2 ^ 64 }
        ensures ok { OnOk result (saved self.new ≡ store.now.version + 1) }
        ensures undone { IsErrOf result AppendFailed.Undone → saved self.new ≡ saved self.old };

    /// Takes back the publication that was appended and was not made: nothing of it is left.
    ///
    /// # Errors
    ///
    /// If that could not be done: nothing may be written any more, on any connection.
    fn take_back(&mut self, rt: &HostRuntime, store: &Store<Lanes>) -> Result<(), SaveFailed>
        requires appended { saved self.old ≡ store.now.version + 1 }
        ensures ok { OnOk result (saved self.new ≡ store.now.version) };
}

/// The disk, and the socket of a connection. A flag is put out when a call would have waited, and
/// set by an event.
#[derive(Drop)]
pub struct Device<'a, S> {
    /// The runtime.
    pub rt: &'a HostRuntime,
    /// What writes publications down.
    pub saver: S,
    /// The connection.
    pub stream: &'a TcpStream,
    /// There may be something to read.
    pub readable: bool,
    /// There may be room to write.
    pub writable: bool,
    /// What is seen of the connection.
    pub watch: Watch,
    /// What was counted of all.
    pub counters: Tallies,
}

impl<S: Saver> Outside<Lanes> for Device<'_, S> {
    ghost saved = { λ d. S.saved d.saver };

    fn append(&mut self, store: &Store<Lanes>) -> Result<(), AppendFailed> {
        let begun = Instant::now(self.rt).ok();
        let appended = self.saver.append(self.rt, store);
        self.watch.saved = micros_since(self.rt, begun);
        appended
    }

    fn take_back(&mut self, store: &Store<Lanes>) -> Result<(), SaveFailed> {
        self.saver.take_back(self.rt, store)
    }

    fn read(&mut self, buffer: &mut [u8]) -> Result<usize, SocketStop> {
        if !self.readable {
            return Err(SocketStop::Later);
        }
        let mut stream = self.stream;
        match stream.read(buffer) {
            Ok(n) => {
                self.counters.add(Counted::BytesIn, n as u64);
                self.watch
                    .scan
                    .count(&buffer[..n], &mut self.counters.counts);
                Ok(n)
            }
            Err(e) => {
                self.readable = !must_wait(&e);
                Err(stop_of(&e))
            }
        }
    }

    fn write(&mut self, _store: &Store<Lanes>, bytes: &[u8]) -> Result<usize, SocketStop> {
        if bytes.is_empty() {
            return Ok(0);
        }
        self.watch.look(bytes);
        if !self.writable {
            return Err(SocketStop::Later);
        }
        let mut stream = self.stream;
        match stream.write(bytes) {
            Ok(0) => Err(SocketStop::Failed),
            Ok(n) => {
                self.watch.wrote(n);
                self.counters.add(Counted::BytesOut, n as u64);
                Ok(n)
            }
            Err(e) => {
                self.writable = !must_wait(&e);
                Err(stop_of(&e))
            }
        }
    }
}

// Whether a call would have waited.
fn must_wait(e: &Error) -> bool {
    e.kind() == ErrorKind::WouldBlock
}

// Why a call gave nothing. One that a signal interrupted is made again in the next turn.
fn stop_of(e: &Error) -> SocketStop {
    if must_wait(e) || e.kind() == ErrorKind::Interrupted {
        SocketStop::Later
    } else {
        SocketStop::Failed
    }
}
