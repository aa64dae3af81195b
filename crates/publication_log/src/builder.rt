//! A publication's bytes, made change by change.

ghost use Rattle.std.specs.Prelude.{
  ◌≡◌,
  ◌<◌,
  ◌+◌,
  ◌^◌,
  ◌++◌,
  [],
  length,
  take,
  vec_len,
  IfOk,
  IfErr,
  OnOk,
  OnErr,
};
ghost use Rattle.publication_log.specs.Publications.{placed_bytes};

use crate::changes::CHANGE_HEAD_LEN;
use std::alloc::{AllocError, Global};
use thiserror::Error;

/// How many bytes a body can have, and one more.
const BODY_END: usize = 1 << 32;

/// How many bytes a record can have, and one more.
const RECORD_END: usize = 1 << 16;

/// Why a change was not added.
#[derive(Clone, Copy, Debug, PartialEq, Eq, Error)]
pub enum ChangeFault {
    /// The place is not above the one before it.
    #[error("the place is not above the one before it")]
    NotAscending,
    /// The record has 65,536 bytes or more.
    #[error("the record is too long")]
    TooLong,
    /// The publication would have 2^32 bytes or more.
    #[error("the publication is too long")]
    Full,
    /// Memory was refused.
    #[error("out of memory")]
    Memory,
}

impl From<AllocError> for ChangeFault {
    ghost use Rattle.publication_log.specs.declared.builder.ChangeFault.TheVariants.{Memory};

    ghost from_gives = { λ _ fault. fault ≡ Memory };

    fn from(_refused: AllocError) -> Self {
        ChangeFault::Memory
    }
}

/// A publication that is made, change by change.
#[derive(Drop)]
pub struct PublicationBuilder {
    /// The version.
    pub version: u64,
    /// The bytes of the version and the changes so far, fewer than 2^32.
    pub body: Vec<u8>,
    /// The lowest place that the next change may have.
    pub low: u64,
    ghost small: { vec_len body < 2 ^ 32 },
}

impl PublicationBuilder {
    ghost use Rattle.publication_log.specs.Builders.{IsMadeOf, IsUnchanged, AddsChange};
    ghost use Rattle.publication_log.specs.Builders.{HasChangeFault};

    /// A publication without changes.
    ///
    /// # Errors
    ///
    /// `AllocError` when memory was refused.
    #[tactic(auto, unfolding(crate::specs::Publications::log_number_bytes))]
    pub fn new(alloc: Global, version: u64) -> Result<PublicationBuilder, AllocError>
        ensures { IfOk result (λ it. IsMadeOf it (record { version = version; changes = [] })) }
    {
        let body = Vec::from_slice(alloc, &version.to_le_bytes())?;
        Ok(PublicationBuilder {
            version,
            body,
            low: 0,
        })
    }

    /// Adds a change, whose place must be above those before it.
    ///
    /// # Errors
    ///
    /// The first of [`ChangeFault`] that applies: nothing changes then.
    pub fn push(&mut self, place: u32, bytes: &[u8]) -> Result<(), ChangeFault>
        ensures added { OnOk result (AddsChange self.old self.new
            (record { place = place; bytes = bytes.now })) }
        ensures refused { IfErr result (HasChangeFault self.old
            (record { place = place; bytes = bytes.now })) }
        ensures version { self.new.version ≡ self.old.version }
        ensures kept { OnErr result (IsUnchanged self.old self.new) }
    {
        if (place as u64) < self.low {
            return Err(ChangeFault::NotAscending);
        }
        if bytes.len() >= RECORD_END {
            return Err(ChangeFault::TooLong);
        }
        let len = self.body.len();
        if len + CHANGE_HEAD_LEN + bytes.len() >= BODY_END {
            return Err(ChangeFault::Full);
        }
        let Ok(()) = push_change(&mut self.body, place, bytes) else {
            self.body.truncate(len);
            return Err(ChangeFault::Memory);
        };
        self.low = place as u64 + 1;
        Ok(())
    }
}

// Adds the bytes of a change. After an `Err` a part of them may be there.
#[tactic(auto, unfolding(crate::specs::Publications::log_number_bytes))]
fn push_change(body: &mut Vec<u8>, place: u32, bytes: &[u8]) -> Result<(), AllocError>
    requires { length bytes.now < 2 ^ 16 }
    ensures added { OnOk result (body.new.items ≡ body.old.items ++
        placed_bytes (record { place = place; bytes = bytes.now })) }
    ensures len { OnOk result (vec_len body.new ≡ vec_len body.old + 6 + length bytes.now) }
    ensures before { OnErr result (take (vec_len body.old) body.new.items ≡ body.old.items) }
{
    body.extend_from_slice(&place.to_le_bytes())?;
    body.extend_from_slice(&(bytes.len() as u16).to_le_bytes())?;
    body.extend_from_slice(bytes)?;
    Ok(())
}
