//! The records of a version, by a model that knows nothing of stores and files.

use std::alloc::{AllocError, Global};

/// The records of a version, in their order.
#[derive(Drop)]
pub struct Records {
    all: Vec<Vec<u8>>,
}

impl Records {
    /// No records.
    pub fn none(alloc: Global) -> Records {
        Records {
            all: Vec::new(alloc),
        }
    }

    /// How many there are.
    pub fn count(&self) -> usize {
        self.all.len()
    }

    /// The record of an index.
    pub fn get(&self, index: usize) -> Option<&[u8]> {
        match self.all.get(index) {
            Some(bytes) => Some(bytes),
            None => None,
        }
    }

    /// Replaces the record at a place, or puts one after the others if there is none.
    ///
    /// # Errors
    ///
    /// `AllocError` when memory was refused.
    pub fn put(&mut self, alloc: Global, place: usize, bytes: &[u8]) -> Result<(), AllocError> {
        let bytes = bytes.to_vec(alloc)?;
        match self.all.get_mut(place) {
            Some(old) => *old = bytes,
            None => self.all.push(bytes)?,
        }
        Ok(())
    }

    /// The same records once more.
    ///
    /// # Errors
    ///
    /// `AllocError` when memory was refused.
    pub fn copy(&self, alloc: Global) -> Result<Records, AllocError> {
        let mut all = Vec::new(alloc);
        for bytes in self.all.iter() {
            all.push(bytes.to_vec(alloc)?)?;
        }
        Ok(Records { all })
    }

    /// Whether others are the same.
    pub fn are(&self, others: &Records) -> bool {
        self.all.len() == others.all.len()
            && self
                .all
                .iter()
                .zip(others.all.iter())
                .all(|(some, other)| some.as_slice() == other.as_slice())
    }
}

/// The records of all versions that were published.
#[derive(Drop)]
pub struct Truth {
    versions: Vec<Records>,
    digests: Vec<Option<[u8; 32]>>,
}

impl Truth {
    /// Version 1 alone.
    ///
    /// # Errors
    ///
    /// `AllocError` when memory was refused.
    pub fn new(alloc: Global, first: Records) -> Result<Truth, AllocError> {
        let mut truth = Truth {
            versions: Vec::new(alloc),
            digests: Vec::new(alloc),
        };
        truth.publish(first)?;
        Ok(truth)
    }

    /// The number of the last version.
    pub fn last(&self) -> u64 {
        self.versions.len() as u64
    }

    /// One more version.
    ///
    /// # Errors
    ///
    /// `AllocError` when memory was refused.
    pub fn publish(&mut self, records: Records) -> Result<(), AllocError> {
        self.versions.push(records)?;
        self.digests.push(None)?;
        Ok(())
    }

    /// The records of a version.
    pub fn at(&self, version: u64) -> Option<&Records> {
        self.versions.get(place_of(version)?)
    }

    /// Notes the digest of a version's snapshot. Returns whether it is the one that was noted
    /// before, if there was any.
    pub fn note_digest(&mut self, version: u64, digest: [u8; 32]) -> bool {
        let Some(place) = place_of(version) else {
            return false;
        };
        match self.digests.get_mut(place) {
            Some(noted) => match noted {
                Some(before) => *before == digest,
                None => {
                    *noted = Some(digest);
                    true
                }
            },
            None => false,
        }
    }
}

// Where a version is in a list that begins with version 1.
fn place_of(version: u64) -> Option<usize> {
    match version.checked_sub(1) {
        Some(place) => Some(place as usize),
        None => None,
    }
}
