//! Why a run failed.

ghost use Rattle.std.specs.Prelude.{◌≡◌};

use client_core::{CallFault, ClientFault};
use std::alloc::AllocError;
use thiserror::Error;

/// Why a run failed.
#[derive(Clone, Copy, Debug, PartialEq, Eq, Error)]
pub enum RunFault {
    /// The client refused a call.
    #[error(transparent)]
    Call(CallFault),
    /// The client stopped.
    #[error(transparent)]
    Client(ClientFault),
    /// A reply other than those that the ask may get, or bytes after it.
    #[error("a bad reply")]
    BadReply,
    /// Bytes came after the run had ended.
    #[error("the run is over")]
    Over,
    /// Memory was refused.
    #[error("out of memory")]
    Memory,
}

impl From<AllocError> for RunFault {
    ghost use Rattle.simulated_client.specs.declared.fault.RunFault.TheVariants.{Memory};

    ghost from_gives = { λ _ fault. fault ≡ Memory };

    fn from(_refused: AllocError) -> Self {
        RunFault::Memory
    }
}

impl From<CallFault> for RunFault {
    fn from(fault: CallFault) -> Self {
        RunFault::Call(fault)
    }
}

impl From<ClientFault> for RunFault {
    fn from(fault: ClientFault) -> Self {
        RunFault::Client(fault)
    }
}
