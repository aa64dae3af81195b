//! Reads and writes, in the order in which they are made.

ghost use Rattle.std.specs.Prelude.{◌≡◌, ◌≤◌, ◌<◌, ℕ, length, take, IfOk, OnOk, OnErr, ⊤};
ghost use Rattle.connection_io.specs.Calls.{IoCall, io_read, io_write, Sends, SendsUntilFault};

use crate::pieces::{ReadFailed, WriteFailed};

/// A reader and a writer in one, whose calls are in the order in which they were made.
///
/// Code over any connection can report that a read or a write failed only if one did: what a call
/// did is known from the call alone.
pub trait Connection {
    /// Relates the connection before a call, what came of the call, and the connection after it.
    ghost does: { Self → IoCall → Self → Type 0 } = { λ _ _ _. ⊤ };

    /// Reads into the start of the buffer, and returns how many bytes came. 0 is the end, if there
    /// is room.
    fn read(&mut self, buffer: &mut [u8]) -> Result<usize, ReadFailed>
        ensures within { IfOk result (λ n. n ≤ length buffer.new) }
        ensures did { does self.old (io_read result buffer.new) self.new };

    /// Writes some bytes from their start on, and returns how many were taken: at least one, if
    /// there are any.
    fn write(&mut self, bytes: &[u8]) -> Result<usize, WriteFailed>
        ensures within { IfOk result (λ n. n ≤ length bytes.now) }
        ensures some { IfOk result (λ n. 0 < length bytes.now → 0 < n) }
        ensures did { does self.old (io_write result bytes.now) self.new };
}

/// Reads a piece into the start of the buffer, in one read, and returns how many bytes it has. 0 is
/// the end, if there is room.
///
/// # Errors
///
/// `ReadFailed` exactly when the read failed.
pub fn receive<C: Connection>(connection: &mut C, buffer: &mut Vec<u8>) -> Result<usize, ReadFailed>
    ensures within { IfOk result (λ n. n ≤ length buffer.new.items) }
    ensures did { C.does connection.old (io_read result buffer.new.items) connection.new }
    ensures room { length buffer.new.items ≡ length buffer.old.items }
{
    connection.read(buffer)
}

/// Writes all of some bytes, in as many writes as it takes.
///
/// # Errors
///
/// `WriteFailed` exactly when a write failed: a prefix of the bytes was written before it, and
/// nothing after.
pub fn send<C: Connection>(connection: &mut C, bytes: &[u8]) -> Result<(), WriteFailed>
    ensures all { OnOk result (Sends C.does connection.old bytes.now connection.new) }
    ensures prefix { OnErr result ((n : ℕ) × (n < length bytes.now)
        × SendsUntilFault C.does connection.old (take n bytes.now) connection.new) }
{
    let mut at = 0;
    while at < bytes.len() {
        match connection.write(&bytes[at..]) {
            Ok(n) => at += n,
            Err(_) => return Err(WriteFailed),
        }
    }
    Ok(())
}
