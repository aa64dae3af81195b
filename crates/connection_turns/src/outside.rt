//! What lies outside of a server: the disk, and the socket of a connection.

ghost use Rattle.std.specs.Prelude.{◌≡◌, ◌≤◌, ◌<◌, ◌+◌, ◌^◌, ℕ, length, true, IfOk, IsErrOf, OnOk};
ghost use Rattle.std.specs.Prelude.{⊤};
ghost use Rattle.connection_turns.specs.Calls.{DeviceCall, append_call, device_read};
ghost use Rattle.connection_turns.specs.Calls.{take_back_call};
ghost use Rattle.connection_turns.specs.Calls.{device_write};

use matrix_u32::Kernel;
use thiserror::Error;
use version_store::Store;

/// Why a call on a socket gave nothing.
#[derive(Clone, Copy, Debug, PartialEq, Eq, Error)]
pub enum SocketStop {
    /// The call would have waited: nothing changed.
    #[error("nothing can be done yet")]
    Later,
    /// The call failed.
    #[error("the call failed")]
    Failed,
}

/// Why a publication was not appended.
#[derive(Clone, Copy, Debug, PartialEq, Eq, Error)]
pub enum AppendFailed {
    /// Nothing of it is left.
    #[error("a publication was not written down")]
    Undone,
    /// A part of it may be left: nothing may be written any more, on any connection.
    #[error("a publication was written down in part")]
    Lost,
}

/// What is saved is not the version that is served.
#[derive(Clone, Copy, Debug, PartialEq, Eq, Error)]
#[error("a version was not saved")]
pub struct SaveFailed;

/// The disk with the log of publications, and the socket of a connection.
pub trait Outside<K: Kernel> {
    /// The version that is there after a crash.
    ghost saved: { Self → ℕ };

    /// Relates what is outside before a call, what came of the call, and what is outside after it.
    ghost does: { Self → DeviceCall → Self → Type 0 } = { λ _ _ _. ⊤ };

    /// Appends a publication before it is made: the store's draft, as the next version, is there
    /// after a crash.
    ///
    /// # Errors
    ///
    /// If it could not be appended: nothing of it is left, or, if that can't be achieved either, a
    /// part may be.
    fn append(&mut self, store: &Store<K>) -> Result<(), AppendFailed>
        requires saved { saved self.old ≡ store.now.version }
        requires draft { store.now.marked ≡ true }
        requires next { store.now.version + 1 < 2 ^ 64 }
        ensures ok { OnOk result (saved self.new ≡ store.now.version + 1) }
        ensures undone { IsErrOf result AppendFailed.Undone → saved self.new ≡ saved self.old }
        ensures did { does self.old (append_call result (store.now.version + 1)) self.new };

    /// Takes back the publication that was appended and was not made: nothing of it is left, and
    /// the version that is there after a crash is the store's again.
    ///
    /// # Errors
    ///
    /// If that could not be done: nothing may be written any more, on any connection.
    fn take_back(&mut self, store: &Store<K>) -> Result<(), SaveFailed>
        requires appended { saved self.old ≡ store.now.version + 1 }
        ensures ok { OnOk result (saved self.new ≡ store.now.version) }
        ensures did { does self.old (take_back_call result (store.now.version + 1)) self.new };

    /// Reads into the start of the buffer, and returns how many bytes came. 0 is the end, if
    /// there is room.
    fn read(&mut self, buffer: &mut [u8]) -> Result<usize, SocketStop>
        ensures within { IfOk result (λ n. n ≤ length buffer.new) }
        ensures did { does self.old (device_read result buffer.new) self.new }
        ensures kept { saved self.new ≡ saved self.old };

    /// Writes some bytes from their start on, and returns how many were taken: one at least, if
    /// there are any. Bytes may be written only while the store's current version is saved, since
    /// the bytes may say that it was published.
    fn write(&mut self, store: &Store<K>, bytes: &[u8]) -> Result<usize, SocketStop>
        requires saved { saved self.old ≡ store.now.version }
        ensures within { IfOk result (λ n. n ≤ length bytes.now) }
        ensures some { IfOk result (λ n. 0 < length bytes.now → 0 < n) }
        ensures did { does self.old (device_write result bytes.now) self.new }
        ensures kept { saved self.new ≡ saved self.old };
}
