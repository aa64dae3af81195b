//! A connection over which a hint moves by delta alone, or in a wide store by the records that
//! changed.

use crate::server::Server;
use std::cell::Cell;
use std::io;
use std::io::{Read, Write};

/// How many bytes an ask for a delta has, and one for changed records.
const DELTA_ASK_LEN: usize = 13;

/// The frame Refused, with the code for a part that doesn't exist.
const REFUSED: [u8; 6] = [1, 0, 0, 0, 0x8f, 10];

/// What has gone over a connection over which the client asks for a delta. When there is none, the
/// client's ask for the first part of a hint is refused on this side, and the server gets nothing
/// of it: the parts are fetched one by one, into their file.
#[derive(Drop)]
pub struct DeltaOnly {
    sent: Cell<usize>,
    refused: Cell<bool>,
    given: Cell<usize>,
}

/// What the client reads of such a connection.
#[derive(Drop)]
pub struct DeltaReader<'a> {
    server: &'a Server,
    only: &'a DeltaOnly,
}

/// What it writes to it.
#[derive(Drop)]
pub struct DeltaWriter<'a> {
    server: &'a Server,
    only: &'a DeltaOnly,
}

impl DeltaOnly {
    /// Nothing was asked.
    pub fn new() -> DeltaOnly {
        DeltaOnly {
            sent: Cell::new(0),
            refused: Cell::new(false),
            given: Cell::new(0),
        }
    }

    /// Whether the server had no delta.
    pub fn has_refused(&self) -> bool {
        self.refused.get()
    }
}

impl<'a> DeltaReader<'a> {
    /// The reading end.
    pub fn new(server: &'a Server, only: &'a DeltaOnly) -> DeltaReader<'a> {
        DeltaReader { server, only }
    }
}

impl<'a> DeltaWriter<'a> {
    /// The writing end.
    pub fn new(server: &'a Server, only: &'a DeltaOnly) -> DeltaWriter<'a> {
        DeltaWriter { server, only }
    }
}

impl Write for DeltaWriter<'_> {
    fn write(&mut self, buf: &[u8]) -> io::Result<usize> {
        let sent = self.only.sent.get();
        let left = DELTA_ASK_LEN.saturating_sub(sent).min(buf.len());
        if left == 0 {
            self.only.refused.set(true);
            return Ok(buf.len());
        }
        let n = (&mut &*self.server).write(&buf[..left])?;
        self.only.sent.set(sent.saturating_add(n));
        Ok(n)
    }

    fn flush(&mut self) -> io::Result<()> {
        Ok(())
    }
}

impl Read for DeltaReader<'_> {
    fn read(&mut self, buf: &mut [u8]) -> io::Result<usize> {
        if !self.only.refused.get() {
            return (&mut &*self.server).read(buf);
        }
        let at = self.only.given.get();
        match (REFUSED.get(at), buf.first_mut()) {
            (Some(byte), Some(room)) => {
                *room = *byte;
                self.only.given.set(at.saturating_add(1));
                Ok(1)
            }
            _ => Ok(0),
        }
    }
}
