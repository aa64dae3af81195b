//! Why a folder can't be used.

ghost use Rattle.std.specs.Prelude.{◌≡◌};

use hint_file::HintError;
use safe_files::{LockFault, ReplaceFault};
use std::alloc::AllocError;
use std::io::{Error as IoError, ErrorKind};
use thiserror::Error;

/// Why a folder can't be used.
#[derive(Clone, Copy, Debug, PartialEq, Eq, Error)]
pub enum FolderFault {
    /// There is no folder, others than its owner may use it, or it can't be read or written.
    #[error("the folder can't be used")]
    State,
    /// Memory was refused.
    #[error("out of memory")]
    Memory,
}

impl From<AllocError> for FolderFault {
    ghost use Rattle.client_state.specs.declared.fault.FolderFault.TheVariants.{Memory};

    ghost from_gives = { λ _ fault. fault ≡ Memory };

    fn from(_refused: AllocError) -> Self {
        FolderFault::Memory
    }
}

impl From<IoError> for FolderFault {
    fn from(fault: IoError) -> Self {
        match fault.kind() {
            ErrorKind::OutOfMemory => FolderFault::Memory,
            _ => FolderFault::State,
        }
    }
}

impl From<LockFault> for FolderFault {
    fn from(fault: LockFault) -> Self {
        match fault {
            LockFault::Memory => FolderFault::Memory,
            LockFault::Held | LockFault::File => FolderFault::State,
        }
    }
}

impl From<ReplaceFault> for FolderFault {
    fn from(fault: ReplaceFault) -> Self {
        match fault {
            ReplaceFault::Memory => FolderFault::Memory,
            _ => FolderFault::State,
        }
    }
}

/// The fault that reading a hint ends with, when its file can't be opened, or not be finished.
pub fn read_fault(fault: FolderFault) -> HintError {
    match fault {
        FolderFault::Memory => HintError::Memory,
        FolderFault::State => HintError::Read,
    }
}
