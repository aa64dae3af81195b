//! Readers and writers over memory, for tests: they take their time, end, fail from some byte on,
//! or fail once.

ghost use Rattle.std.specs.Prelude.{◌≡◌, false};

use std::io;
use std::io::{Read, Write};

/// Gives at most `most` bytes a read. After its bytes it ends, or every read fails.
#[derive(Drop)]
pub struct Input<'a> {
    pub bytes: &'a [u8],
    pub most: usize,
    pub fails: bool,
}

impl Read for Input<'_> {
    fn read(&mut self, buf: &mut [u8]) -> io::Result<usize> {
        if self.fails && self.bytes.is_empty() {
            return Err(io::ErrorKind::Other.into());
        }
        let n = self.most.min(buf.len()).min(self.bytes.len());
        buf[..n].copy_from_slice(&self.bytes[..n]);
        self.bytes = &self.bytes[n..];
        Ok(n)
    }
}

/// Takes at most `most` bytes a write, and `room` in all. Then it takes 0 bytes, or every write
/// fails.
#[derive(Drop)]
pub struct Output {
    pub bytes: Vec<u8>,
    pub most: usize,
    pub room: usize,
    pub fails: bool,
}

impl Write for Output {
    fn write(&mut self, buf: &[u8]) -> io::Result<usize> {
        if self.room == 0 && self.fails {
            return Err(io::ErrorKind::Other.into());
        }
        let n = self.most.min(buf.len()).min(self.room);
        self.bytes.extend_from_slice(&buf[..n])?;
        self.room -= n;
        Ok(n)
    }

    fn flush(&mut self) -> io::Result<()> {
        Ok(())
    }
}

/// A reader or a writer of which one call fails: the one that comes after `calls` others. Calls
/// after that succeed, so that whoever tries once more is found out.
#[derive(Drop)]
pub struct FailsOnce<T> {
    pub inner: T,
    pub calls: usize,
    pub failed: bool,
}

impl<T> FailsOnce<T> {
    /// Fails after so many calls.
    pub fn after(calls: usize, inner: T) -> FailsOnce<T>
        ensures made { result ≡ record { inner = inner; calls = calls; failed = false } }
    {
        FailsOnce {
            inner,
            calls,
            failed: false,
        }
    }

    // Whether this call is the one that fails.
    fn fails_now(&mut self) -> bool {
        if self.failed {
            return false;
        }
        if self.calls == 0 {
            self.failed = true;
            return true;
        }
        self.calls -= 1;
        false
    }
}

impl<R: Read> Read for FailsOnce<R> {
    fn read(&mut self, buf: &mut [u8]) -> io::Result<usize> {
        if self.fails_now() {
            return Err(io::ErrorKind::Other.into());
        }
        self.inner.read(buf)
    }
}

impl<W: Write> Write for FailsOnce<W> {
    fn write(&mut self, buf: &[u8]) -> io::Result<usize> {
        if self.fails_now() {
            return Err(io::ErrorKind::Other.into());
        }
        self.inner.write(buf)
    }

    fn flush(&mut self) -> io::Result<()> {
        self.inner.flush()
    }
}
