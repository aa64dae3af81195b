//! What comes of a run.

use crate::fault::RunFault;
use frame_codec::Bytes;

/// What a run ended with.
#[derive(Clone, Copy, Debug, PartialEq, Eq)]
pub enum RunEnd {
    /// All records were asked for.
    Over,
    /// The server refused a call, with this code.
    Refused(u8),
    /// The server's version is older than one that was seen before. Nothing was asked of it.
    Older { version: u64, seen: u64 },
    /// Every answer for a record was stale; this version was current at last.
    Stale(u64),
    /// The run failed.
    Failed(RunFault),
}

/// A record that was retrieved.
#[derive(Drop)]
pub struct Retrieved {
    /// Which record it is.
    pub index: u32,
    /// The version that it is of.
    pub version: u64,
    /// Its bytes.
    pub bytes: Bytes,
}

/// What a run does next.
#[derive(Drop)]
pub enum RunStep {
    /// More of the reply is to come.
    Waits,
    /// The bytes that are to be sent.
    Sends(Vec<u8>),
    /// Nothing more is to be sent, and the connection is to be closed.
    Ends(RunEnd),
}
