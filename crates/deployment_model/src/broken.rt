//! What must never be, and was seen.

use std::alloc::{AllocError, AllocFailed};
use thiserror::Error;

/// What must never be, and was seen.
#[derive(Clone, Copy, Debug, PartialEq, Eq, Error)]
pub enum Broken {
    /// A file that a server left can't be served.
    #[error("server {server} can't open what it left: {fault}")]
    Start {
        server: usize,
        fault: &'static str,
    },
    /// A version that was seen is gone.
    #[error("server {server} has version {has}, and version {seen} was seen of it")]
    Lost {
        server: usize,
        has: u64,
        seen: u64,
    },
    /// A store has a version that was not published, or other records.
    #[error("server {server} has other records in version {version}")]
    OtherRecords {
        server: usize,
        version: u64,
    },
    /// Hints that were moved are not those made anew.
    #[error("server {server} has another hint in version {version} than the one made anew")]
    OtherHint {
        server: usize,
        version: u64,
    },
    /// Two snapshots of one version differ.
    #[error("server {server} has another snapshot of version {version} than another server")]
    OtherSnapshot {
        server: usize,
        version: u64,
    },
    /// More bytes are held than are allowed.
    #[error("server {server} holds {held} bytes for its connections")]
    Held {
        server: usize,
        held: usize,
    },
    /// A record that was retrieved is not the one that was published.
    #[error("client {client} got other bytes of record {index} in version {version}")]
    WrongRecord {
        client: usize,
        index: u32,
        version: u64,
    },
    /// An answer could not be read.
    #[error("client {client} got an answer that can't be read")]
    Unreadable {
        client: usize,
    },
    /// A server reported an earlier version than before.
    #[error("server {server} reported version {now} after version {before}")]
    WentBack {
        server: usize,
        before: u64,
        now: u64,
    },
    /// A number was spent twice, or a query sent without spending one.
    #[error("client {client} used a number twice")]
    NumberTwice {
        client: usize,
    },
    /// A well-behaved client was refused, or got a reply that it can't take.
    #[error("client {client} ended with a fault that no peer gave it cause for: {fault}")]
    ClientFault {
        client: usize,
        fault: &'static str,
    },
    /// The publisher's folder is in a state that no command left.
    #[error("the publisher's folder has version {version}, or a draft, that no command left")]
    OtherFolder {
        version: u64,
    },
    /// The publisher's folder can't be opened.
    #[error("the publisher's folder can't be opened: {fault}")]
    BadFolder {
        fault: &'static str,
    },
    /// A server was pushed to, and is at another version.
    #[error("server {server} was pushed to, and the version is not the folder's")]
    OtherPush {
        server: usize,
    },
    /// A push found a server ahead of the folder, or of another store.
    #[error("server {server} has version {version}, which is not in the folder")]
    Ahead {
        server: usize,
        version: u64,
    },
    /// With no faults any more, something was not reached.
    #[error("with no faults any more: {what}")]
    Stuck {
        what: &'static str,
    },
    /// The simulation itself failed.
    #[error("the simulation ran out of memory")]
    Memory,
}

impl From<AllocError> for Broken {
    ghost use Rattle.deployment_model.specs.declared.broken.Broken.TheVariants.{Memory};
    ghost use Rattle.std.specs.Prelude.{◌≡◌};

    ghost from_gives = { λ _ fault. fault ≡ Memory };

    fn from(_refused: AllocError) -> Self {
        Broken::Memory
    }
}

impl<T: Drop> From<AllocFailed<T>> for Broken {
    ghost use Rattle.deployment_model.specs.declared.broken.Broken.TheVariants.{Memory};
    ghost use Rattle.std.specs.Prelude.{◌≡◌};

    ghost from_gives = { λ _ fault. fault ≡ Memory };

    fn from(_refused: AllocFailed<T>) -> Self {
        Broken::Memory
    }
}
