//! Why a rehearsal ends before its script does.

ghost use Rattle.std.specs.Prelude.{◌≡◌};

use connection_io::{ReadFailed, WriteFailed};
use std::alloc::AllocError;
use thiserror::Error;
use version_store::OpenError;

/// Why a rehearsal ends before its script does.
#[derive(Clone, Copy, Debug, PartialEq, Eq, Error)]
pub enum Stop {
    /// A read failed.
    #[error("a read failed")]
    Read,
    /// A write failed, or took no byte.
    #[error("a write failed")]
    Write,
    /// The script has more bytes than a script may have.
    #[error("the script is too long")]
    TooLong,
    /// A line, counted from 1, doesn't fit its place.
    #[error("line {number} is bad")]
    BadLine { number: u64 },
    /// The world can't be opened.
    #[error("the world is refused")]
    World(OpenError),
    /// Memory was refused.
    #[error("out of memory")]
    Memory,
}

impl From<AllocError> for Stop {
    ghost use Rattle.world_script.specs.declared.stop.Stop.TheVariants.{Memory};

    ghost from_gives = { λ _ stop. stop ≡ Memory };

    fn from(_failed: AllocError) -> Self {
        Stop::Memory
    }
}

impl From<ReadFailed> for Stop {
    ghost use Rattle.world_script.specs.declared.stop.Stop.TheVariants.{Read};

    ghost from_gives = { λ _ stop. stop ≡ Read };

    fn from(_failed: ReadFailed) -> Self {
        Stop::Read
    }
}

impl From<WriteFailed> for Stop {
    ghost use Rattle.world_script.specs.declared.stop.Stop.TheVariants.{Write};

    ghost from_gives = { λ _ stop. stop ≡ Write };

    fn from(_failed: WriteFailed) -> Self {
        Stop::Write
    }
}
