//! The commands of a client that keeps hints in a folder. A folder has no secret: each run draws a
//! seed of its own.

use crate::choosing::SchemeChoice;
use crate::failures::{folder_failure, retrieve_failure};
use crate::folder_tasks::FolderTask;
use crate::older::Older;
use crate::server::Address;
use crate::sessions::{FolderSession, RetrieveError};
use client_commands::Retrieved;
use client_state::{Folder, FolderFault, OldFolder};
use command_words::{Failed, Failure, printed, shown_bytes};
use hint_file::state_lines;
use std::alloc::AllocError;
use std::random::RandomSource;

/// How many more connections are tried when the first leads to a server of an older version: a
/// balancer may lead to another one.
const MORE_CONNECTIONS: u32 = 3;

/// Does what is asked of a folder, and prints what came of it.
pub fn done_in_folder(rt: &HostRuntime, task: FolderTask<'_>) -> Result<(), Failed> {
    match task {
        FolderTask::Get {
            state,
            server,
            least,
            no_older,
            progress,
            choice,
            indices,
        } => {
            let seed = fresh_seed(rt)?;
            let folder = Folder::open(rt, state).map_err(|fault| folder_failed(rt, state, fault))?;
            let old = taken_over(&folder)?;
            let mut session = if no_older {
                session_of_no_older(rt, folder, &server, seed, least, choice)?
            } else {
                FolderSession::begin(rt, folder, &server, seed, least, choice)?
            };
            if progress {
                session.say_progress();
            }
            let got = get_records(rt, &mut session, &server, &indices);
            // A call keeps the prover from taking apart here all that a session owns.
            drop(session);
            got?;
            warn_of_old(rt, old);
            Ok(())
        }
        FolderTask::State { state } => show_folder(rt, state),
        FolderTask::Forget { state } => forget(rt, state),
    }
}

// 32 bytes of the system's random source: no run uses a seed of another one.
fn fresh_seed(rt: &HostRuntime) -> Result<[u8; 32], Failed> {
    let mut seed = [0u8; 32];
    match rt.fill_bytes(&mut seed) {
        Ok(()) => Ok(seed),
        Err(_) => Err(Failed::from(Failure::Fault("Random"))),
    }
}

// Takes over a folder in the earlier format, if it is one. If its hint can't be kept, nothing is
// removed, and the next run tries again.
fn taken_over(folder: &Folder<'_>) -> Result<Option<OldFolder>, AllocError> {
    match folder.take_old() {
        Ok(old) => Ok(old),
        Err(FolderFault::State) => Ok(None),
        Err(FolderFault::Memory) => Err(AllocError),
    }
}

// Says that a folder in the earlier format was taken over.
fn warn_of_old(rt: &HostRuntime, old: Option<OldFolder>) {
    if old.is_some() {
        let _ = eprintln!(rt;
            "warning: the folder's seed and numbers are of no more use, and were removed"
        );
    }
}

// A session with a server of no older version than was seen before. Nothing is asked of an older
// one, and nothing of the folder changes for it.
fn session_of_no_older<'a>(
    rt: &'a HostRuntime,
    folder: Folder<'a>,
    address: &Address<'_>,
    seed: [u8; 32],
    least: usize,
    choice: SchemeChoice,
) -> Result<FolderSession<'a>, Failed> {
    for _ in 0..MORE_CONNECTIONS {
        let session = FolderSession::begin(rt, folder, address, seed, least, choice)?;
        if session.warnings().older.is_none() {
            return Ok(session);
        }
        drop(session);
    }
    let session = FolderSession::begin(rt, folder, address, seed, least, choice)?;
    match session.warnings().older {
        None => Ok(session),
        Some(older) => {
            drop(session);
            Err(older_failed(rt, older))
        }
    }
}

// How a command failed that found only servers of older versions, with the version of the last one.
fn older_failed(rt: &HostRuntime, older: Older) -> Failed {
    let connections = MORE_CONNECTIONS + 1;
    let Older { version, seen } = older;
    Failed::by(
        Failure::Fault("Older"),
        format!(in rt.alloc(); "{connections} connections: version {version} after {seen}"),
    )
}

// Retrieves records over one connection, and prints each. A damaged hint is dropped at the end
// alone: all records are asked for in the same way, whichever of them have their rows in the
// damaged part.
fn get_records(
    rt: &HostRuntime,
    session: &mut FolderSession<'_>,
    address: &Address<'_>,
    indices: &[u32],
) -> Result<(), Failed> {
    let mut unread = None;
    let mut left = indices.len();
    for index in indices {
        session.prepare(left);
        left = left.saturating_sub(1);
        match session.retrieve(*index) {
            Ok(got) => print_record(rt, &got)?,
            Err(RetrieveError::DamagedHint) => unread = Some(*index),
            Err(fault) => return Err(retrieve_failed(rt, session, address, *index, fault)),
        }
    }
    if let Some(index) = unread {
        session.discard();
        return Err(retrieve_failed(rt, session, address, index, RetrieveError::DamagedHint));
    }
    session.warnings().print(rt);
    Ok(())
}

/// Prints a record.
pub fn print_record(rt: &HostRuntime, got: &Retrieved) -> Result<(), Failed> {
    let record = shown_bytes(rt.alloc(), got.bytes.as_slice())?;
    let index = got.index;
    let version = got.version;
    printed(rt, println!(rt; "retrieved {index} {version} {record}"))
}

// How a retrieval failed, with its record in the cause.
fn retrieve_failed(
    rt: &HostRuntime,
    session: &FolderSession<'_>,
    address: &Address<'_>,
    index: u32,
    fault: RetrieveError,
) -> Failed {
    let failure = retrieve_failure(fault);
    let text = match failure {
        Failure::Unreadable { .. } => Some(
            "the kept hint may be another store's: pir_client forget drops it",
        ),
        Failure::Fault("Damaged") => Some("the kept hint was damaged and is dropped: ask again"),
        _ => None,
    };
    if let Some(text) = text {
        return Failed::by(failure, format!(in rt.alloc(); "INDEX {index}: {text}"));
    }
    let Failed { failure, cause } = session.failed(address, failure);
    let text = match cause {
        Some(cause) => format!(in rt.alloc(); "INDEX {index}: {cause}"),
        None => format!(in rt.alloc(); "INDEX {index}"),
    };
    Failed::by(failure, text)
}

// Prints which hints a folder has.
fn show_folder(rt: &HostRuntime, state: &str) -> Result<(), Failed> {
    let found = Folder::standing(rt, state)
        .and_then(|folder| folder.kept_heads())
        .map_err(|fault| folder_failed(rt, state, fault))?;
    let lines = state_lines(rt.alloc(), &found.heads)?;
    printed(rt, print!(rt; "{lines}"))?;
    if found.damaged > 0 {
        let _ = eprintln!(rt; "warning: the hint kept is damaged");
    }
    Ok(())
}

// Drops the hints of a folder.
fn forget(rt: &HostRuntime, state: &str) -> Result<(), Failed> {
    Folder::standing(rt, state)
        .and_then(|folder| folder.forget())
        .map_err(|fault| folder_failed(rt, state, fault))?;
    printed(rt, println!(rt; "forgotten"))
}

// How a command on a folder failed, with the folder in the cause.
fn folder_failed(rt: &HostRuntime, state: &str, fault: FolderFault) -> Failed {
    let cause = format!(in rt.alloc(); "{state}: {fault}");
    Failed::by(folder_failure(fault), cause)
}
