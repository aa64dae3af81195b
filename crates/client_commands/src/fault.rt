//! Why a command was not done.

use blocking_io::ConverseFault;
use client_core::CallFault;
use thiserror::Error;

/// Why a command was not done.
#[derive(Clone, Copy, Debug, PartialEq, Eq, Error)]
pub enum CommandError {
    /// The server refused a call, with this code.
    #[error("the server refused with code {0}")]
    Refused(u8),
    /// The version asked isn't current; this one is.
    #[error("version {0} is current")]
    Stale(u64),
    /// The answer's digits set a bit past the record's last byte, or their bytes are no slot, if
    /// the store has slots.
    #[error("record {index} of version {version} can't be read")]
    Unreadable { index: u32, version: u64 },
    /// The secrets that the server wants have so many words, fewer than are accepted.
    #[error("secrets of {0} words are too short")]
    ShortSecrets(usize),
    /// The client refused a call.
    #[error(transparent)]
    Call(CallFault),
    /// The conversation over a call came to no event.
    #[error(transparent)]
    Conversation(ConverseFault),
}
