//! A file that a simulated machine has open.

ghost use Rattle.std.specs.Io.{ReadsAtMost};

use crate::files::SimulatedFiles;
use crate::machine::Handle;
use std::fs::{Metadata, OpenFile, OpenOptions, Permissions};
use std::io;
use std::io::{ErrorKind, Read, Seek, SeekFrom, Write};

/// An open file or folder. Its lock is given back when it is dropped.
pub struct SimulatedFile<'a> {
    files: SimulatedFiles<'a>,
    handle: Handle,
    at: u64,
    is_read: bool,
    is_written: bool,
    is_appended: bool,
}

impl<'a> SimulatedFile<'a> {
    /// What was opened in this way.
    pub(crate) fn new(
        files: SimulatedFiles<'a>,
        handle: Handle,
        how: &OpenOptions,
    ) -> SimulatedFile<'a> {
        SimulatedFile {
            files,
            handle,
            at: 0,
            is_read: how.asks_read(),
            is_written: how.asks_write() || how.asks_append(),
            is_appended: how.asks_append(),
        }
    }

    /// Reads some bytes at a place.
    pub(crate) fn read_at(&self, buffer: &mut [u8], at: u64) -> io::Result<usize>
        ensures bound { ReadsAtMost result buffer.new }
    {
        if !self.is_read {
            return Err(ErrorKind::PermissionDenied.into());
        }
        let mut disk = self.files.disk.try_borrow_mut()?;
        let count = disk
            .machine(self.files.machine)?
            .read(self.handle, at, buffer)?;
        Ok(count.min(buffer.len()))
    }

    /// Fills a buffer with the bytes at a place.
    pub(crate) fn read_exact_at(&self, buffer: &mut [u8], at: u64) -> io::Result<()> {
        let mut done = 0;
        for _ in 0..=buffer.len() {
            let Some((_, rest)) = buffer.split_at_mut_checked(done) else {
                break;
            };
            if rest.is_empty() {
                return Ok(());
            }
            let count = self.read_at(rest, at.saturating_add(done as u64))?;
            if count == 0 {
                break;
            }
            done = done.saturating_add(count);
        }
        Err(ErrorKind::UnexpectedEof.into())
    }

    // Writes some bytes at a place or at the end, and returns how many and where the last one ends.
    fn write_some(&self, bytes: &[u8], at: Option<u64>) -> io::Result<(usize, u64)> {
        if !self.is_written {
            return Err(ErrorKind::PermissionDenied.into());
        }
        let mut disk = self.files.disk.try_borrow_mut()?;
        disk.machine(self.files.machine)?
            .write(self.handle, at, bytes)
    }

    /// Writes all bytes at a place.
    pub(crate) fn write_all_at(&self, bytes: &[u8], at: u64) -> io::Result<()> {
        let mut rest = bytes;
        let mut at = at;
        for _ in 0..=bytes.len() {
            if rest.is_empty() {
                return Ok(());
            }
            let (count, end) = self.write_some(rest, Some(at))?;
            let Some(left) = rest.get(count..) else {
                break;
            };
            rest = left;
            at = end;
        }
        Err(ErrorKind::WriteZero.into())
    }

    /// Takes the lock, and returns whether nobody else has it.
    pub(crate) fn lock(&self) -> io::Result<bool> {
        let mut disk = self.files.disk.try_borrow_mut()?;
        disk.machine(self.files.machine)?.lock(self.handle)
    }

    fn sync(&self) -> io::Result<()> {
        let mut disk = self.files.disk.try_borrow_mut()?;
        disk.machine(self.files.machine)?.sync(self.handle)
    }
}

impl Drop for SimulatedFile<'_> {
    fn drop(self) {
        if let Ok(mut disk) = self.files.disk.try_borrow_mut()
            && let Ok(machine) = disk.machine(self.files.machine)
        {
            machine.close(self.handle);
        }
        let Self {
            files: _,
            handle: _,
            at: _,
            is_read: _,
            is_written: _,
            is_appended: _,
        } = self;
    }
}

impl Read for SimulatedFile<'_> {
    fn read(&mut self, buffer: &mut [u8]) -> io::Result<usize> {
        let count = self.read_at(buffer, self.at)?;
        self.at = self.at.saturating_add(count as u64);
        Ok(count)
    }
}

impl Write for SimulatedFile<'_> {
    fn write(&mut self, bytes: &[u8]) -> io::Result<usize> {
        let at = if self.is_appended {
            None
        } else {
            Some(self.at)
        };
        let (count, end) = self.write_some(bytes, at)?;
        self.at = end;
        Ok(count.min(bytes.len()))
    }

    fn flush(&mut self) -> io::Result<()> {
        Ok(())
    }
}

impl Seek for SimulatedFile<'_> {
    fn seek(&mut self, to: SeekFrom) -> io::Result<u64> {
        let at = match to {
            SeekFrom::Start(at) => Some(at),
            SeekFrom::End(by) => self.metadata()?.len().checked_add_signed(by),
            SeekFrom::Current(by) => self.at.checked_add_signed(by),
        };
        match at {
            Some(at) => {
                self.at = at;
                Ok(at)
            }
            None => Err(ErrorKind::InvalidInput.into()),
        }
    }
}

impl OpenFile for SimulatedFile<'_> {
    fn metadata(&self) -> io::Result<Metadata> {
        let mut disk = self.files.disk.try_borrow_mut()?;
        disk.machine(self.files.machine)?.metadata_of(self.handle)
    }

    fn set_len(&self, size: u64) -> io::Result<()> {
        if !self.is_written {
            return Err(ErrorKind::InvalidInput.into());
        }
        let mut disk = self.files.disk.try_borrow_mut()?;
        disk.machine(self.files.machine)?.set_len(self.handle, size)
    }

    fn sync_all(&self) -> io::Result<()> {
        self.sync()
    }

    fn sync_data(&self) -> io::Result<()> {
        self.sync()
    }

    fn set_permissions(&self, _perm: Permissions) -> io::Result<()> {
        Ok(())
    }

    fn try_clone(&self) -> io::Result<Self> {
        let mut disk = self.files.disk.try_borrow_mut()?;
        let handle = disk.machine(self.files.machine)?.another(self.handle)?;
        Ok(SimulatedFile {
            files: self.files,
            handle,
            at: self.at,
            is_read: self.is_read,
            is_written: self.is_written,
            is_appended: self.is_appended,
        })
    }
}
