//! The bytes of a file: what a reader sees, and what the device has.

use crate::change::{Change, put};
use crate::dice::Dice;
use std::alloc::{AllocError, Global};
use std::mem;

/// How many changes wait at most. With one more, the device gets all of them by itself.
const MOST_PENDING: usize = 64;

/// One time in so many, zeros are in place of the bytes that did not come; else anything is.
const ZEROS_IN: usize = 2;

/// The bytes of a file.
#[derive(Drop)]
pub(crate) struct Image {
    alloc: Global,
    // What a reader sees.
    current: Vec<u8>,
    // What the device surely has.
    durable: Vec<u8>,
    // What was done since, in order.
    pending: Vec<Change>,
}

impl Image {
    /// An empty file.
    pub(crate) fn new(alloc: Global) -> Image {
        Image {
            alloc,
            current: Vec::new(alloc),
            durable: Vec::new(alloc),
            pending: Vec::new(alloc),
        }
    }

    /// How many bytes a reader sees.
    pub(crate) fn len(&self) -> usize {
        self.current.len()
    }

    /// Fills a buffer with the bytes at a place, and returns how many there were.
    pub(crate) fn read(&self, at: usize, buffer: &mut [u8]) -> usize {
        let Some(rest) = self.current.get(at..) else {
            return 0;
        };
        let count = rest.len().min(buffer.len());
        buffer[..count].copy_from_slice(&rest[..count]);
        count
    }

    /// Writes bytes at a place.
    pub(crate) fn write(&mut self, at: usize, bytes: &[u8]) -> Result<(), AllocError> {
        if bytes.is_empty() {
            return Ok(());
        }
        put(&mut self.current, at, bytes)?;
        if let Some(last) = self.pending.last_mut()
            && last.joins(at, bytes)?
        {
            return Ok(());
        }
        let bytes = bytes.to_vec(self.alloc)?;
        self.push(Change::Writes(at, bytes))
    }

    /// Makes the file so long.
    pub(crate) fn set_len(&mut self, len: usize) -> Result<(), AllocError> {
        if len == self.current.len() {
            return Ok(());
        }
        self.current.resize(len, 0)?;
        self.push(Change::Sets(len))
    }

    fn push(&mut self, change: Change) -> Result<(), AllocError> {
        if self.pending.len() >= MOST_PENDING {
            self.sync()?;
        }
        self.pending.push(change)?;
        Ok(())
    }

    /// Sends all changes to the device.
    pub(crate) fn sync(&mut self) -> Result<(), AllocError> {
        for change in self.pending.iter() {
            change.apply(&mut self.durable)?;
        }
        self.pending.clear();
        Ok(())
    }

    /// Drops the changes that the device does not have. A reader goes on seeing them.
    pub(crate) fn lose(&mut self) {
        self.pending.clear();
    }

    /// Does what a crash does: all changes since the last sync are lost, kept or torn.
    pub(crate) fn crash(&mut self, dice: &mut Dice) -> Result<(), AllocError> {
        match dice.below(3) {
            0 => self.lose(),
            1 => self.sync()?,
            _ => self.tear(dice)?,
        }
        self.current.clear();
        self.current.extend_from_slice(self.durable.as_slice())
    }

    // Some of the changes come, and a part of the next one.
    fn tear(&mut self, dice: &mut Dice) -> Result<(), AllocError> {
        let pending = mem::replace(&mut self.pending, Vec::new(self.alloc));
        let whole = dice.below(pending.len().saturating_add(1));
        for change in pending.iter().take(whole) {
            change.apply(&mut self.durable)?;
        }
        if let Some(torn) = pending.get(whole) {
            torn.apply_part(&mut self.durable, dice)?;
        }
        let left = pending.len().saturating_sub(whole);
        let later = whole.saturating_add(dice.below(left));
        match pending.get(later) {
            Some(later) if dice.one_in(3) => self.stretch(later.end(), dice),
            _ => Ok(()),
        }
    }

    // The length of a later change came without its bytes.
    fn stretch(&mut self, len: usize, dice: &mut Dice) -> Result<(), AllocError> {
        let old = self.durable.len();
        if len <= old {
            return Ok(());
        }
        self.durable.resize(len, 0)?;
        if dice.one_in(ZEROS_IN) {
            return Ok(());
        }
        match self.durable.as_mut_slice().split_at_mut_checked(old) {
            Some((_, rest)) => dice.fill(rest),
            None => {}
        }
        Ok(())
    }
}
