//! How a command failed.

ghost use Rattle.std.specs.Prelude.{◌≡◌};
ghost use Rattle.command_words.specs.Statuses.{status_of};

use std::alloc::AllocError;
use thiserror::Error;

/// How a command failed. Printed, it is the line that says so.
#[derive(Clone, Copy, Debug, PartialEq, Eq, Error)]
pub enum Failure {
    /// The server refused a call, with this code.
    #[error("refused {0}")]
    Refused(u8),
    /// The version asked is not current any more, and this one is.
    #[error("stale {0}")]
    Stale(u64),
    /// The answer's digits set a bit past the record's last byte, or their bytes are no slot, if
    /// the store has slots.
    #[error("unreadable {index} {version}")]
    Unreadable { index: u32, version: u64 },
    /// A store, a file, input or a connection was refused, or failed: the name of it.
    #[error("fault: {0}")]
    Fault(&'static str),
    /// A secret's file has no value that its option takes: what that takes.
    #[error("error: {0}\n\nFor more information, try '--help'.")]
    Value(&'static str),
    /// Memory was refused.
    #[error("fault: Memory")]
    Memory,
}

impl Failure {
    /// Its exit status: 1 for what the server said, 2 for a secret that its option doesn't take, 3
    /// for a fault, 4 for refused memory.
    pub fn status(self) -> u8
        ensures { result ≡ status_of self }
    {
        match self {
            Failure::Refused(_) | Failure::Stale(_) | Failure::Unreadable { .. } => 1,
            Failure::Fault(_) => 3,
            Failure::Value(_) => 2,
            Failure::Memory => 4,
        }
    }
}

impl From<AllocError> for Failure {
    ghost use Rattle.command_words.specs.declared.failure.Failure.TheVariants.{Memory};

    ghost from_gives = { λ _ failure. failure ≡ Memory };

    fn from(_refused: AllocError) -> Self {
        Failure::Memory
    }
}
