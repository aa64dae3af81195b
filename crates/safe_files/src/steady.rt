//! Open files whose calls no signal interrupts.

use std::fs::{File, Metadata, OpenFile};
use std::io;
use std::io::{ErrorKind, Read, Write};

/// How often a call is made again that a signal interrupts.
const TRIES: u32 = 1_000;

/// An open file. A read or a write that a signal interrupted is made again.
#[derive(Drop)]
pub struct SteadyFile<F = File> {
    file: F,
}

impl<F: OpenFile> SteadyFile<F> {
    /// An open file.
    pub fn new(file: F) -> SteadyFile<F> {
        SteadyFile { file }
    }

    /// What the system knows of it.
    pub fn metadata(&self) -> io::Result<Metadata> {
        self.file.metadata()
    }

    /// Sends all that was written to the device. What is no file, such as a pipe or a terminal, has
    /// none: there is nothing to do.
    pub fn sync(&self) -> io::Result<()> {
        if self.file.metadata()?.is_file() {
            self.file.sync_all()
        } else {
            Ok(())
        }
    }

    /// The file.
    pub(crate) fn file(&self) -> &F {
        &self.file
    }
}

impl<F: Read> Read for SteadyFile<F> {
    fn read(&mut self, buffer: &mut [u8]) -> io::Result<usize> {
        for _ in 0..TRIES {
            match self.file.read(buffer) {
                Err(fault) if fault.kind() == ErrorKind::Interrupted => {}
                done => return done,
            }
        }
        Err(ErrorKind::Interrupted.into())
    }
}

impl<F: Write> Write for SteadyFile<F> {
    fn write(&mut self, bytes: &[u8]) -> io::Result<usize> {
        for _ in 0..TRIES {
            match self.file.write(bytes) {
                Err(fault) if fault.kind() == ErrorKind::Interrupted => {}
                done => return done,
            }
        }
        Err(ErrorKind::Interrupted.into())
    }

    fn flush(&mut self) -> io::Result<()> {
        Ok(())
    }
}
