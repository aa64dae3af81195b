//! How a server's part of a round ends.

use client_core::ServerInfo;
use publication_push::PushFault;
use thiserror::Error;

/// Why a server was left as it is.
#[derive(Clone, Copy, Debug, PartialEq, Eq, Error)]
pub enum PushCause {
    /// No address of it takes a connection.
    #[error("Connect: it takes no connection")]
    Connect,
    /// The server said nothing for too long.
    #[error("Timeout: it said nothing for too long")]
    Timeout,
    /// The server ended the connection.
    #[error("Ended: it ended the connection")]
    Ended,
    /// Memory was refused.
    #[error("Memory: out of memory")]
    Memory,
    /// Its store is another one.
    #[error("OtherStore: its seed or sizes are others: start it from a copy of the snapshot")]
    OtherStore,
    /// Its version is later than the folder's.
    #[error("Ahead: it is at version {0}, which the folder does not have")]
    Ahead(u64),
    /// The log does not reach back to its version.
    #[error("BeforeLog: it is at version {0}, before the log: start it from a copy of the snapshot")]
    BeforeLog(u64),
    /// The push came to nothing.
    #[error("Push: {0}")]
    Push(PushFault),
    /// A record that was retrieved of it is another one than the folder's.
    #[error("Differs: its record {0} is another: start it from a copy of the snapshot")]
    Differs(u32),
    /// The server is at the folder's version, and has more or fewer records, or another one was
    /// published meanwhile.
    #[error("Differs: it has another number of records: start it from a copy of the snapshot")]
    OtherCount,
    /// A record could not be retrieved of it.
    #[error("Unverified: a record could not be retrieved")]
    Unverified,
}

impl PushCause {
    /// Whether the server may be well a moment later.
    pub fn may_pass(self) -> bool {
        matches!(
            self,
            PushCause::Connect | PushCause::Timeout | PushCause::Ended | PushCause::Memory
        )
    }
}

impl From<PushFault> for PushCause {
    fn from(fault: PushFault) -> Self {
        PushCause::Push(fault)
    }
}

/// How a server's part of a round ended.
#[derive(Clone, Copy, Debug, PartialEq, Eq)]
pub enum End {
    /// The server is at the folder's version.
    Pushed(u64),
    /// The server told what it has.
    Told(ServerInfo),
    /// The server was left as it is.
    Left(PushCause),
}
