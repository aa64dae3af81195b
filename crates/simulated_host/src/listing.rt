//! The names in a folder that a simulated machine reads.

use crate::files::SimulatedFiles;
use std::io;
use std::io::{ErrorKind, Read};

/// The names that were in a folder when it was opened.
#[derive(Drop)]
pub struct SimulatedNames<'a> {
    files: SimulatedFiles<'a>,
    // Each is ended by a NUL.
    names: Vec<u8>,
    at: usize,
}

impl<'a> SimulatedNames<'a> {
    /// The names that are listed.
    pub(crate) fn new(files: SimulatedFiles<'a>, names: Vec<u8>) -> SimulatedNames<'a> {
        SimulatedNames {
            files,
            names,
            at: 0,
        }
    }
}

impl Read for SimulatedNames<'_> {
    fn read(&mut self, buffer: &mut [u8]) -> io::Result<usize> {
        {
            let mut disk = self.files.disk.try_borrow_mut()?;
            disk.machine(self.files.machine)?.read_names()?;
        }
        let Some(rest) = self.names.get(self.at..) else {
            return Ok(0);
        };
        let count = whole_names(rest, buffer.len())
            .min(buffer.len())
            .min(rest.len());
        if count == 0 && !rest.is_empty() {
            return Err(ErrorKind::InvalidInput.into());
        }
        buffer[..count].copy_from_slice(&rest[..count]);
        self.at = self.at.saturating_add(count);
        Ok(count)
    }
}

// How many bytes the first names have that fit in so many bytes.
fn whole_names(names: &[u8], room: usize) -> usize {
    let mut end = 0;
    for (at, byte) in names.iter().take(room).enumerate() {
        if *byte == 0 {
            end = at.saturating_add(1);
        }
    }
    end
}
