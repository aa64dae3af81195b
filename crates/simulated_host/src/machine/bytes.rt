//! Files that are read, written and synced.

use super::{Handle, Machine, failed};
use crate::faults::is_failing;
use std::fs::Metadata;
use std::io;
use std::io::ErrorKind;

/// One read or write in so many is short.
const SHORT_IN: usize = 8;

impl Machine {
    /// Fills a buffer with some bytes at a place, and returns how many.
    pub(crate) fn read(&mut self, handle: Handle, at: u64, buffer: &mut [u8]) -> io::Result<usize> {
        self.begin_on(handle)?;
        self.risk(self.faults.reads_fail)?;
        let most = self.short(buffer.len());
        let node = self.node(handle)?;
        if node.folder.is_some() {
            return Err(ErrorKind::IsADirectory.into());
        }
        let Some((buffer, _)) = buffer.split_at_mut_checked(most) else {
            return Err(failed());
        };
        Ok(node.image.read(at as usize, buffer))
    }

    // So many, or sometimes fewer, but not none.
    fn short(&mut self, count: usize) -> usize {
        if count > 1 && self.dice.one_in(SHORT_IN) {
            return self.dice.below(count).max(1);
        }
        count
    }

    /// Writes some bytes at a place, or at the end, and returns how many and where the last one
    /// ends. A write that fails may have written some of them.
    pub(crate) fn write(
        &mut self,
        handle: Handle,
        at: Option<u64>,
        bytes: &[u8],
    ) -> io::Result<(usize, u64)> {
        self.begin_on(handle)?;
        let is_failing = self.spend().is_err()
            || is_failing(&mut self.dice, self.faults.writes_fail);
        let len = self.node(handle)?.image.len();
        let at = match at {
            Some(at) => at as usize,
            None => len,
        };
        let count = if is_failing {
            self.dice.below(bytes.len().saturating_add(1))
        } else {
            self.fitting(len.saturating_sub(at), bytes.len())
        };
        self.put(handle, at, bytes, count)?;
        if is_failing {
            return Err(failed());
        }
        if count == 0 && !bytes.is_empty() {
            return Err(ErrorKind::StorageFull.into());
        }
        Ok((count, at.saturating_add(count) as u64))
    }

    // Writes so many of the bytes.
    fn put(&mut self, handle: Handle, at: usize, bytes: &[u8], count: usize) -> io::Result<()> {
        let Some(bytes) = bytes.get(..count) else {
            return Err(failed());
        };
        let node = self.node(handle)?;
        if node.folder.is_some() {
            return Err(ErrorKind::IsADirectory.into());
        }
        node.image.write(at, bytes)?;
        Ok(())
    }

    // How many bytes of so many are written, if these many of them make the file no longer.
    fn fitting(&mut self, inside: usize, count: usize) -> usize {
        let more = count.saturating_sub(inside);
        if self.faults.full && more > 0 {
            return inside.saturating_add(self.dice.below(more)).min(count);
        }
        self.short(count)
    }

    /// Makes a file so long.
    pub(crate) fn set_len(&mut self, handle: Handle, len: u64) -> io::Result<()> {
        self.begin_on(handle)?;
        self.spend()?;
        self.risk(self.faults.writes_fail)?;
        let node = self.node(handle)?;
        node.image.set_len(len as usize)?;
        Ok(())
    }

    /// Sends a file's bytes or a folder's names to the device. If that fails, a file's bytes may be
    /// lost for good.
    pub(crate) fn sync(&mut self, handle: Handle) -> io::Result<()> {
        self.begin_on(handle)?;
        self.spend()?;
        let is_failing = is_failing(&mut self.dice, self.faults.syncs_fail);
        let is_lost = is_failing && self.dice.one_in(2);
        let Some(node) = self.nodes.get_mut(handle.node) else {
            return Err(failed());
        };
        if is_lost {
            node.image.lose();
        }
        if is_failing {
            return Err(failed());
        }
        match &node.folder {
            Some(folder) => self.names.sync(folder.as_str())?,
            None => node.image.sync()?,
        }
        Ok(())
    }

    /// What is said of something open.
    pub(crate) fn metadata_of(&mut self, handle: Handle) -> io::Result<Metadata> {
        self.begin_on(handle)?;
        Ok(self.node(handle)?.metadata())
    }
}
