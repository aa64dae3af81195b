//! The log of publications beside a snapshot file.

ghost use Rattle.std.specs.Prelude.{◌≡◌, IfOk};

use command_words::Failure;
use log_replay::ReplayFault;
use publication_log::{LogHeader, OpenFault, log_name};
use session_core::Header;
use std::alloc::{AllocError, Global};

/// The failure of a log that is damaged, or is no log of its snapshot.
pub const BAD_LOG: Failure = Failure::Fault("BadLog");

/// The log that a snapshot file has beside it.
#[derive(Drop)]
pub struct OwnLog {
    /// What it begins with.
    pub header: LogHeader,
    /// The name of its file.
    pub name: String,
}

impl OwnLog {
    /// The log of the snapshot with these fields and this digest, in a file of this name.
    ///
    /// # Errors
    ///
    /// `AllocError` when memory was refused.
    pub fn of(
        alloc: Global,
        file: &str,
        header: &Header,
        digest: [u8; 32],
    ) -> Result<OwnLog, AllocError>
        ensures form { IfOk result (λ it. it.header.form ≡ header.now.form) }
        ensures digest { IfOk result (λ it. it.header.digest ≡ digest) }
        ensures version { IfOk result (λ it. it.header.version ≡ header.now.version) }
        ensures seed { IfOk result (λ it. it.header.seed ≡ header.now.seed) }
    {
        let name = log_name(alloc, file, &digest)?;
        Ok(OwnLog {
            header: LogHeader {
                form: header.form,
                digest,
                version: header.version,
                seed: header.seed,
            },
            name,
        })
    }
}

/// The failure that a log which was not opened is.
pub fn log_failure(fault: OpenFault) -> Failure {
    match fault {
        OpenFault::File => Failure::Fault("File"),
        OpenFault::Bad(_) => BAD_LOG,
        OpenFault::Cut => Failure::Fault("Write"),
        OpenFault::Memory => Failure::Memory,
    }
}

/// The failure that a publication which was not made again is.
pub fn replay_failure(fault: ReplayFault) -> Failure {
    match fault {
        ReplayFault::BadPublication => BAD_LOG,
        ReplayFault::Memory => Failure::Memory,
    }
}
