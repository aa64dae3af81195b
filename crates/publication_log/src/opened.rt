//! A log that was read or opened, with the bytes that were read of it.

ghost use Rattle.std.specs.Prelude.{◌≤◌, vec_len};

use crate::file::LogFile;
use crate::log::Log;
use crate::reading::{Found, Publications};
use std::fs::{File, OpenFile};
use std::io::Write;

/// The bytes of a log, and what was found in them.
#[derive(Drop)]
pub struct ReadLog {
    /// How many bytes of a torn end are after its entries.
    pub torn: usize,
    bytes: Vec<u8>,
    found: Found,
    ghost order: { found.start ≤ found.len },
    ghost within: { found.len ≤ vec_len bytes },
}

impl ReadLog {
    ghost use Rattle.std.specs.Prelude.{◌≡◌, ◌-◌};
    ghost use Rattle.publication_log.specs.Opened.{entries_in, entries_of};

    // The bytes in which that was found.
    pub(crate) fn of(bytes: Vec<u8>, found: &Found) -> ReadLog
        requires order { found.now.start ≤ found.now.len }
        requires within { found.now.len ≤ vec_len bytes }
        ensures torn { result.torn ≡ vec_len bytes - found.now.len }
        ensures found { result.found ≡ found.now }
        ensures entries { entries_of result ≡ entries_in bytes.items found.now }
    {
        ReadLog {
            torn: bytes.len() - found.len,
            bytes,
            found: *found,
        }
    }

    /// The publications that were found, the oldest first.
    pub fn publications(&self) -> Publications<'_>
        ensures { result.rest.now ≡ entries_of self.now }
    {
        self.found.publications(&self.bytes)
    }

    /// How many bytes its header and its entries have.
    pub fn len(&self) -> usize
        ensures { result ≡ self.now.found.len }
    {
        self.found.len
    }
}

/// A log that was opened, with what was read of it.
#[derive(Drop)]
pub struct OpenedLog<F: Write + OpenFile + Drop = File> {
    /// The log, to which may be appended. Its torn end was cut off.
    pub log: Log<LogFile<F>>,
    /// What was read, before the torn end was cut off.
    pub read: ReadLog,
}

impl<F: Write + OpenFile + Drop> OpenedLog<F> {
    ghost use Rattle.std.specs.Prelude.{◌≡◌};
    ghost use Rattle.publication_log.specs.Opened.{entries_of};

    /// The publications that were found, the oldest first.
    pub fn publications(&self) -> Publications<'_>
        ensures { result.rest.now ≡ entries_of self.now.read }
    {
        self.read.publications()
    }

    /// The log, once its publications were read: their bytes are let go.
    pub fn into_log(self) -> Log<LogFile<F>>
        ensures { result ≡ self.log }
    {
        self.log
    }
}
