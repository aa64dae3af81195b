//! The codes of a server's results, as include/vulandrai.h lists them.

ghost use Rattle.std.specs.Prelude.{◌≡◌};
ghost use Rattle.vulandrai_c.specs.ServerCodes as codes;

use crate::codes::{MEMORY, NO_SESSION, OK, UNTAKEN};
use foreign_sessions::{
    AppendError, EditError, FeedError, PieceFault, PublishError, SessionError, SnapshotFault,
};

/// The code of bytes that are no snapshot file, or for which memory was refused.
pub fn snapshot_code(fault: SnapshotFault) -> u32
    ensures { result ≡ codes.snapshot_code fault }
{
    match fault {
        SnapshotFault::NotSnapshot => 64,
        SnapshotFault::BadLayout => 65,
        SnapshotFault::Short => 66,
        SnapshotFault::BadDigest => 67,
        SnapshotFault::TrailingBytes => 68,
        SnapshotFault::BadSlot => 69,
        SnapshotFault::Read => 70,
        SnapshotFault::Memory => MEMORY,
    }
}

/// The code of the opening of a session.
pub fn opening_code(answer: Result<(), SessionError>) -> u32
    ensures { result ≡ codes.opening_code answer }
{
    match answer {
        Ok(()) => OK,
        Err(SessionError::IdInUse) => 49,
        Err(SessionError::Memory) => MEMORY,
    }
}

fn served_code(fault: FeedError) -> u32
    ensures { result ≡ codes.served_code fault }
{
    match fault {
        FeedError::NoSession => NO_SESSION,
        FeedError::Memory => MEMORY,
    }
}

/// The code of a piece of a session's stream.
pub fn piece_code(answer: Result<(), PieceFault>) -> u32
    ensures { result ≡ codes.piece_code answer }
{
    match answer {
        Ok(()) => OK,
        Err(PieceFault::Untaken) => UNTAKEN,
        Err(PieceFault::Server(fault)) => served_code(fault),
    }
}

/// The code of a server's edit.
pub fn edit_code(answer: Result<(), EditError>) -> u32
    ensures { result ≡ codes.edit_code answer }
{
    match answer {
        Ok(()) => OK,
        Err(EditError::BadIndex) => 50,
        Err(EditError::BadLength) => 51,
        Err(EditError::Memory) => MEMORY,
    }
}

/// The code of a server's append.
pub fn append_code(answer: Result<(), AppendError>) -> u32
    ensures { result ≡ codes.append_code answer }
{
    match answer {
        Ok(()) => OK,
        Err(AppendError::BadLength) => 51,
        Err(AppendError::Full) => 54,
        Err(AppendError::Memory) => MEMORY,
    }
}

/// The code of a server's publication.
pub fn publication_code(answer: Result<u64, PublishError>) -> u32
    ensures { result ≡ codes.publication_code answer }
{
    match answer {
        Ok(_) => OK,
        Err(PublishError::NothingToPublish) => 52,
        Err(PublishError::VersionsUsedUp) => 53,
        Err(PublishError::Memory) => MEMORY,
    }
}
