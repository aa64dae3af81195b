//! Why a push came to nothing.

ghost use Rattle.std.specs.Prelude.{◌≡◌};

use client_core::{CallFault, ClientFault};
use thiserror::Error;

/// Why a push came to nothing. What was published before stays published.
#[derive(Clone, Copy, Debug, PartialEq, Eq, Error)]
pub enum PushFault {
    /// The server refused what it was asked for, for the reason that the code names.
    #[error("the server refused with code {0}")]
    Refused(u8),
    /// The server did what it was asked for in another version than the one that was awaited.
    #[error("the server is at version {named}, and {awaited} was awaited")]
    WrongVersion { awaited: u64, named: u64 },
    /// The server's reply is another than that what was asked for is done.
    #[error("the server did not say that it is done")]
    NotDone,
    /// The publications are no log's: one of their records has more bytes than a record may have.
    #[error("the publications to push are not those of a log")]
    BadLog,
    /// The client did not make the call.
    #[error("the server can't be asked: {0}")]
    Call(CallFault),
    /// The client did not take what the server sent.
    #[error("the server's reply can't be taken: {0}")]
    Client(ClientFault),
}

impl From<CallFault> for PushFault {
    ghost use Rattle.publication_push.specs.declared.fault.PushFault.TheVariants.{Call};

    ghost from_gives = { λ cause fault. fault ≡ Call cause };

    fn from(cause: CallFault) -> Self {
        PushFault::Call(cause)
    }
}
