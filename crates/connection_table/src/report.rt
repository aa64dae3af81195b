//! How a service ends, and why a connection is closed.

use connection_turns::Fault;
use service_watch::Cause;
use std::io;
use thiserror::Error;

/// Why a service came to an end.
#[derive(Clone, Copy, Debug, PartialEq, Eq, Error)]
pub enum RunFault {
    /// The address can't be listened on, or the system gives no events.
    #[error("no connection can be accepted")]
    Connect,
    /// The address of those who ask how it does can't be listened on.
    #[error("the status address can't be listened on")]
    Status,
    /// A version could not be saved, or the address could not be printed.
    #[error("a write failed")]
    Write,
    /// Standard input was to be watched, and can't be.
    #[error("standard input can't be watched")]
    Input,
    /// Memory was refused.
    #[error("out of memory")]
    Memory,
}

impl RunFault {
    /// That of a call of the system which was refused memory, or else made no connection.
    pub fn of_system(error: &io::Error) -> RunFault {
        if error.kind() == io::ErrorKind::OutOfMemory {
            RunFault::Memory
        } else {
            RunFault::Connect
        }
    }
}

/// Why a connection was closed before its session had come to its end.
#[derive(Clone, Copy, Debug, PartialEq, Eq)]
pub enum Closing {
    /// No connection could be accepted.
    Connect,
    /// A turn ended with a fault.
    Turn(Fault),
    /// There was no progress for too long.
    Idle,
    /// Too many bytes were held for all connections, and the most for this one.
    Crowded,
    /// Its peer had as many as it may have.
    TooMany,
}

impl Closing {
    /// Its name, as the line has it.
    pub fn name(self) -> &'static str {
        match self {
            Closing::Connect => "Connect",
            Closing::Turn(fault) => fault.name(),
            Closing::Idle => "Idle",
            Closing::Crowded => "Memory",
            Closing::TooMany => "TooMany",
        }
    }

    /// What it is counted as.
    pub fn cause(self) -> Cause {
        match self {
            Closing::Connect => Cause::Connect,
            Closing::Turn(Fault::Read) => Cause::Read,
            Closing::Turn(Fault::Write | Fault::Save) => Cause::Write,
            Closing::Turn(Fault::Memory) | Closing::Crowded => Cause::Memory,
            Closing::Idle => Cause::Idle,
            Closing::TooMany => Cause::TooMany,
        }
    }
}
