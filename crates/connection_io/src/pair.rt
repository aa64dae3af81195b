//! A reader and a writer as a connection.

ghost use Rattle.std.specs.Prelude.{◌≡◌};
ghost use Rattle.connection_io.specs.Pairs.{PairDoes};

use crate::connection::Connection;
use crate::pieces::{ReadFailed, WriteFailed};
use std::io::{Read, Write};

/// A reader and a writer as one connection. If they report their bytes, its calls are known by what
/// each took from the one and added to the other.
#[derive(Drop)]
pub struct Pair<'a, R, W> {
    reader: &'a mut R,
    writer: &'a mut W,
}

impl<'a, R: Read, W: Write> Pair<'a, R, W> {
    /// Joins a reader and a writer.
    pub fn new(reader: &'a mut R, writer: &'a mut W) -> Pair<'a, R, W>
        ensures reader { (result.reader.ghost_name ≡ reader.entry.ghost_name)
            × (result.reader.now ≡ reader.old) }
        ensures writer { (result.writer.ghost_name ≡ writer.entry.ghost_name)
            × (result.writer.now ≡ writer.old) }
    {
        Pair { reader, writer }
    }
}

impl<R: Read, W: Write> Connection for Pair<'_, R, W> {
    ghost does = { PairDoes R.remaining W.contents };

    fn read(&mut self, buffer: &mut [u8]) -> Result<usize, ReadFailed> {
        match self.reader.read(buffer) {
            Ok(n) => Ok(n),
            Err(_) => Err(ReadFailed),
        }
    }

    fn write(&mut self, bytes: &[u8]) -> Result<usize, WriteFailed> {
        if bytes.is_empty() {
            return Ok(0);
        }
        match self.writer.write(bytes) {
            Ok(0) | Err(_) => Err(WriteFailed),
            Ok(n) => Ok(n),
        }
    }
}
