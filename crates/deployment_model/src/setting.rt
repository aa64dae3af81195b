//! Which store a run is about, and what its servers allow.

use crate::records::Records;
use session_core::Header;
use sha2::{Digest, Sha256};
use simulated_host::Dice;
use simulated_server::Limits;
use std::alloc::{AllocError, Global};

/// How many bytes the length of a record takes in its slot.
const LENGTH: usize = 2;

/// One store in so many is a large one.
const LARGE_IN: usize = 40;

/// A store whose SimplePIR hint has 76,800 words: two parts. Most of its groups have no record.
const LARGE: Shape = Shape {
    record_len: 4,
    groups: 300,
    dimension: 64,
};

/// How many bytes a server may hold for the parts of a large store's hint.
const ROOM_FOR_PARTS: usize = 2_000_000;

/// Which store a run is about.
#[derive(Clone, Copy)]
pub struct RunSetting {
    /// The snapshot's fields at version 1.
    pub header: Header,
    /// The publisher's key.
    pub key: [u8; 32],
    /// What servers allow.
    pub limits: Limits,
    /// Something goes wrong one time in so many hundred steps.
    pub rest: usize,
}

impl RunSetting {
    /// A setting, chosen at random: that of a large store if so asked.
    pub fn choose(dice: &mut Dice, large: bool) -> RunSetting {
        let mut key = [0u8; 32];
        dice.fill(&mut key);
        let mut seed = [0u8; 32];
        dice.fill(&mut seed);
        let form = match dice.below(4) {
            0 => 1,
            1 => 2,
            2 => 129,
            _ => 130,
        };
        let shape = Shape::choose(dice, large);
        let header = Header {
            form,
            width: 8,
            record_len: shape.record_len,
            groups: shape.groups,
            count: (2 + dice.below(7) % 7) as u32,
            dimension: shape.dimension,
            version: 1,
            seed,
            publisher: Sha256::digest(key.as_slice()),
        };
        RunSetting {
            header,
            key,
            limits: limits_of(dice, shape.room()),
            rest: match dice.below(3) {
                0 => 1,
                1 => 2,
                _ => 6,
            },
        }
    }

    /// Whether the store is a wide one.
    pub fn is_wide(&self) -> bool {
        self.header.form > 128
    }

    /// Whether records have lengths of their own.
    pub fn has_slots(&self) -> bool {
        self.header.form % 2 == 0
    }

    /// How many bytes a record has at most.
    pub fn most(&self) -> usize {
        let len = usize::from(self.header.record_len);
        if self.has_slots() {
            len.saturating_sub(LENGTH)
        } else {
            len
        }
    }

    /// The records of version 1.
    ///
    /// # Errors
    ///
    /// `AllocError` when memory was refused.
    pub fn first(&self, alloc: Global, dice: &mut Dice) -> Result<Records, AllocError> {
        let mut records = Records::none(alloc);
        for index in 0..self.header.count as usize {
            let mut bytes = Vec::from_elem(alloc, 0u8, self.most())?;
            dice.fill(&mut bytes);
            records.put(alloc, index, &bytes)?;
        }
        Ok(records)
    }

    /// The bytes of records as a snapshot has them.
    ///
    /// # Errors
    ///
    /// `AllocError` when memory was refused.
    pub fn bytes_of(&self, alloc: Global, records: &Records) -> Result<Vec<u8>, AllocError> {
        let mut bytes = Vec::new(alloc);
        for index in 0..records.count() {
            if let Some(record) = records.get(index) {
                self.add_record(&mut bytes, record)?;
            }
        }
        Ok(bytes)
    }

    // Adds a record, in its slot if records have slots.
    fn add_record(&self, bytes: &mut Vec<u8>, record: &[u8]) -> Result<(), AllocError> {
        if self.has_slots() {
            let len = record.len().min(65_535) as u16;
            bytes.extend_from_slice(&len.to_le_bytes())?;
        }
        bytes.extend_from_slice(record)?;
        for _ in record.len()..self.most() {
            bytes.push(0)?;
        }
        Ok(())
    }
}

// The sizes of a store.
#[derive(Clone, Copy)]
struct Shape {
    record_len: u16,
    groups: u16,
    dimension: u16,
}

impl Shape {
    // A small one, mostly. A few have hints that come in more than one part.
    fn choose(dice: &mut Dice, large: bool) -> Shape {
        if dice.one_in(LARGE_IN) || large {
            return LARGE;
        }
        Shape {
            record_len: (3 + dice.below(3) % 3) as u16,
            groups: (1 + dice.below(3) % 3) as u16,
            dimension: dimension_of(dice),
        }
    }

    // How many bytes a server has to hold for a part of a hint.
    fn room(&self) -> usize {
        if self.groups == LARGE.groups {
            ROOM_FOR_PARTS
        } else {
            0
        }
    }
}

// How many words a secret has: one, mostly. With more, a hint has room for a log of the records
// that changed.
fn dimension_of(dice: &mut Dice) -> u16 {
    match dice.below(4) {
        0 => 64,
        1 => 16,
        _ => 1,
    }
}

// What servers allow, with room for so many more bytes than a small store asks for.
fn limits_of(dice: &mut Dice, more: usize) -> Limits {
    Limits {
        most: dice.below(6).saturating_add(3),
        idle: 60_000,
        memory: dice
            .below(20_000)
            .saturating_add(2_000)
            .saturating_add(more),
        log: dice.below(6_000).saturating_add(200),
    }
}
