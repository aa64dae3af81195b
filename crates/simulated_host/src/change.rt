//! A change of a file's bytes.

use crate::dice::Dice;
use std::alloc::AllocError;

/// A change of a file that its device need not have yet.
#[derive(Drop)]
pub(crate) enum Change {
    /// Bytes that were written at a place.
    Writes(usize, Vec<u8>),
    /// A length that was set.
    Sets(usize),
}

impl Change {
    /// Makes the change in these bytes.
    pub(crate) fn apply(&self, bytes: &mut Vec<u8>) -> Result<(), AllocError> {
        match self {
            Change::Writes(at, written) => put(bytes, *at, written.as_slice()),
            Change::Sets(len) => bytes.resize(*len, 0),
        }
    }

    /// Makes a part of the change: some of the first bytes that were written.
    pub(crate) fn apply_part(
        &self,
        bytes: &mut Vec<u8>,
        dice: &mut Dice,
    ) -> Result<(), AllocError> {
        match self {
            Change::Writes(at, written) => {
                let part = dice.below(written.len().saturating_add(1));
                match written.get(..part) {
                    Some(part) => put(bytes, *at, part),
                    None => Ok(()),
                }
            }
            Change::Sets(_) => Ok(()),
        }
    }

    /// How long the file is at least after the change.
    pub(crate) fn end(&self) -> usize {
        match self {
            Change::Writes(at, written) => at.saturating_add(written.len()),
            Change::Sets(len) => *len,
        }
    }

    /// Adds bytes that were written just after those of this change, and returns whether they were.
    pub(crate) fn joins(&mut self, at: usize, more: &[u8]) -> Result<bool, AllocError> {
        if self.end() != at {
            return Ok(false);
        }
        match self {
            Change::Writes(_, written) => {
                written.extend_from_slice(more)?;
                Ok(true)
            }
            Change::Sets(_) => Ok(false),
        }
    }
}

/// Writes bytes at a place, with zeros before it if there was nothing.
pub(crate) fn put(bytes: &mut Vec<u8>, at: usize, written: &[u8]) -> Result<(), AllocError> {
    if written.is_empty() {
        return Ok(());
    }
    if bytes.len() < at {
        bytes.resize(at, 0)?;
    }
    let over = bytes.len().saturating_sub(at).min(written.len());
    if let Some((_, rest)) = bytes.as_mut_slice().split_at_mut_checked(at) {
        for (byte, new) in rest.iter_mut().zip(written) {
            *byte = *new;
        }
    }
    if let Some(rest) = written.get(over..) {
        bytes.extend_from_slice(rest)?;
    }
    Ok(())
}
