//! What a file is to hold.

ghost use Rattle.std.specs.Prelude.{◌≡◌, ℕ, List, OnOk};
ghost use Rattle.std.specs.Io.KnownBytes.{Appends};

use std::alloc::{AllocError, Global};
use std::io::Write;
use thiserror::Error;

/// Why a content was not written as a whole.
#[derive(Clone, Copy, Debug, PartialEq, Eq, Error)]
pub enum ContentFault {
    /// A write failed, or took no byte.
    #[error("a write failed")]
    Write,
    /// Memory to make the bytes was refused.
    #[error("out of memory")]
    Memory,
}

impl From<AllocError> for ContentFault {
    ghost use Rattle.safe_files.specs.declared.content.ContentFault.TheVariants.{Memory};

    ghost from_gives = { λ _ fault. fault ≡ Memory };

    fn from(_refused: AllocError) -> Self {
        ContentFault::Memory
    }
}

/// What a file is to hold, written from its start to its end. The whole need not be in memory at
/// once.
pub trait Content {
    /// Its bytes.
    ghost bytes: { Self → List ℕ };

    /// Writes all of its bytes.
    ///
    /// # Errors
    ///
    /// `Write` if a write failed, `Memory` if memory was refused. How many bytes went out is not
    /// said.
    fn write_to<W: Write>(&self, alloc: Global, writer: &mut W) -> Result<(), ContentFault>
        ensures whole { OnOk result
            (Appends (W.contents writer.old) (W.contents writer.new) (bytes self.now)) };
}

/// Bytes in memory.
#[derive(Clone, Copy, Debug)]
pub struct BytesInMemory<'a>(pub &'a [u8]);

impl Content for BytesInMemory<'_> {
    ghost bytes = { λ content. content.0.now };

    fn write_to<W: Write>(&self, _alloc: Global, writer: &mut W) -> Result<(), ContentFault> {
        match writer.write_all(self.0) {
            Ok(()) => Ok(()),
            Err(_) => Err(ContentFault::Write),
        }
    }
}
