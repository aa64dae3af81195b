//! A writer that keeps the last bytes alone.

use std::io;
use std::io::Write;

/// How many bytes are kept: those of a digest.
const KEPT: usize = 32;

/// The last 32 bytes of what was written; zeros before them while there were fewer.
#[derive(Clone, Copy, Debug)]
pub struct LastBytes {
    bytes: [u8; KEPT],
}

impl LastBytes {
    /// One to which nothing was written.
    pub fn new() -> LastBytes {
        LastBytes { bytes: [0; KEPT] }
    }

    /// The last bytes.
    pub fn bytes(&self) -> [u8; KEPT] {
        self.bytes
    }
}

impl Write for LastBytes {
    fn write(&mut self, buffer: &[u8]) -> io::Result<usize> {
        let new = buffer.len().min(KEPT);
        self.bytes.copy_within(new.., 0);
        self.bytes[KEPT - new..].copy_from_slice(&buffer[buffer.len() - new..]);
        Ok(buffer.len())
    }

    fn flush(&mut self) -> io::Result<()> {
        Ok(())
    }
}
