//! One read of a piece, and a write of all of some bytes. Every read error, every write error and
//! every write of 0 bytes is a fault.

ghost use Rattle.std.specs.Prelude.{◌≡◌, ◌≤◌, ◌<◌, ℕ, IsErrOf, length, take, IfOk, OnOk, OnErr};
ghost use Rattle.std.specs.Io.KnownBytes.{Appends, Consumes, IsAtEnd, Keeps};

use std::alloc::{AllocError, Global};
use std::io::{Read, Write};
use thiserror::Error;

/// How many bytes one read takes at most.
pub const PIECE_LEN: usize = 65_536;

/// A write failed, or took no byte.
#[derive(Clone, Copy, Debug, PartialEq, Eq, Error)]
#[error("a write failed")]
pub struct WriteFailed;

/// A read failed.
#[derive(Clone, Copy, Debug, PartialEq, Eq, Error)]
#[error("a read failed")]
pub struct ReadFailed;

/// Writes all of some bytes, by a loop over `write`: an error and a write of 0 bytes end it.
///
/// At `Ok` the writer has gained the bytes, after an error a part of them from their start on.
pub fn write_out<W: Write>(writer: &mut W, bytes: &[u8]) -> Result<(), WriteFailed>
    ensures all { OnOk result (Appends (W.contents writer.old) (W.contents writer.new) bytes.now) }
    ensures prefix { OnErr result ((n : ℕ) × (n < length bytes.now) ×
        Appends (W.contents writer.old) (W.contents writer.new) (take n bytes.now)) }
{
    let mut at = 0;
    while at < bytes.len() {
        match writer.write(&bytes[at..]) {
            Ok(0) | Err(_) => return Err(WriteFailed),
            Ok(n) => at += n,
        }
    }
    Ok(())
}

/// Room for a piece: [`PIECE_LEN`] bytes, whose values are unspecified.
pub fn piece_buffer(alloc: Global) -> Result<Vec<u8>, AllocError>
    ensures { IfOk result (λ buffer. length buffer.items ≡ 65536) }
{
    Vec::from_elem(alloc, 0u8, PIECE_LEN)
}

/// Reads a piece into the beginning of the buffer, and returns how many bytes it has. 0 is the end.
pub fn read_piece<R: Read>(reader: &mut R, buffer: &mut Vec<u8>) -> Result<usize, ReadFailed>
    requires { 0 < length buffer.old.items }
    ensures piece { IfOk result (λ n. Consumes (R.remaining reader.old) (R.remaining reader.new)
        (take n buffer.new.items)) }
    ensures within { IfOk result (λ n. n ≤ length buffer.new.items) }
    ensures end { IfOk result (λ n. n ≡ 0 → IsAtEnd (R.remaining reader.new)) }
    ensures kept { OnErr result (Keeps (R.remaining reader.old) (R.remaining reader.new)) }
    ensures room { length buffer.new.items ≡ length buffer.old.items }
{
    match reader.read(buffer) {
        Ok(n) => Ok(n),
        Err(_) => Err(ReadFailed),
    }
}
