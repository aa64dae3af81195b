//! The commands `push` and `status`.

use crate::ends::{End, PushCause};
use crate::rounds::{Rounds, SILENCE};
use crate::talk::{Aim, Round};
use crate::watching::watch;
use command_words::{Failed, Failure, printed};
use publisher_files::{FolderVersion, open_folder, records_name, settled_folder};
use publisher_words::{KEY_TAKES, Peer, PushOptions, StatusOptions};
use safe_files::{FileLock, LockFault, lock};
use server_files::failed_at;
use std::alloc::{AllocError, Global};

/// How often a server is tried that may be well a moment later.
const TRIES: u32 = 3;

/// How many milliseconds it is left alone after the first try; twice as many after each other one.
const FIRST_REST: u64 = 200;

/// The failure of a folder that another command changes.
const LOCKED: Failure = Failure::Fault("Locked");

/// The failure if a server was left as it is.
const LEFT: Failure = Failure::Fault("Left");

/// The failure if a server did not tell its version.
const NO_REPLY: Failure = Failure::Fault("Connect");

/// Brings servers to a folder's version, and prints a line for each. With `watch` this goes on,
/// also after versions to come.
///
/// # Errors
///
/// Those of the key; `Locked` if another push from this folder goes on, or another command changes
/// it for long; those of the folder; `Left` if a server was left as it is, after a line for each.
/// `Write` if a line can't be printed, `Memory`.
pub fn push(rt: &HostRuntime, pushing: &PushOptions<'_>) -> Result<(), Failed> {
    let key = pushing
        .key
        .key(rt, KEY_TAKES)
        .map_err(|failure| pushing.key.failed(rt, failure))?;
    let aim = if pushing.verify {
        Aim::PushAndVerify
    } else {
        Aim::Push
    };
    // Two at once would append to the same drafts.
    let _lock = lock_pushes(rt, pushing.dir)?;
    let mut rounds = Rounds::new(rt)?;
    push_from(rt, &mut rounds, pushing, aim, key)
}

// Pushes, or watches and pushes, from a folder that is locked for it.
fn push_from(
    rt: &HostRuntime,
    rounds: &mut Rounds,
    pushing: &PushOptions<'_>,
    aim: Aim,
    key: [u8; 32],
) -> Result<(), Failed> {
    let mut folder = folder_to_push(rt, rounds, pushing.dir)?;
    if pushing.watch {
        return watch_from(rt, rounds, &mut folder, pushing, aim, key);
    }
    let round = Round {
        folder: &folder,
        aim,
        key,
    };
    push_all(rt, rounds, &round, &pushing.to)
}

// Goes on with the versions to come.
fn watch_from(
    rt: &HostRuntime,
    rounds: &mut Rounds,
    folder: &mut FolderVersion,
    pushing: &PushOptions<'_>,
    aim: Aim,
    key: [u8; 32],
) -> Result<(), Failed> {
    let records = records_name(rt.alloc(), pushing.dir)?;
    watch(rt, rounds, folder, records.as_str(), aim, key, &pushing.to)
}

// Tries servers until each is at the folder's version, or is left as it is.
fn push_all(
    rt: &HostRuntime,
    rounds: &mut Rounds,
    round: &Round<'_>,
    to: &[Peer<'_>],
) -> Result<(), Failed> {
    let mut away = copied(rt.alloc(), to)?;
    let mut left = 0u64;
    let mut rest = FIRST_REST;
    for tried in 1..=TRIES {
        let ends = rounds.push(rt, round, &away, SILENCE)?;
        let mut again = Vec::new(rt.alloc());
        for (peer, end) in away.iter().zip(ends.iter()) {
            match end {
                End::Left(cause) if cause.may_pass() && tried < TRIES => add(&mut again, *peer)?,
                End::Left(_) => {
                    left = left.saturating_add(1);
                    say_end(rt, peer, *end)?;
                }
                _ => say_end(rt, peer, *end)?,
            }
        }
        if again.is_empty() {
            break;
        }
        away = again;
        rounds.rest(rest);
        rest = rest.saturating_mul(2);
    }
    all_well(rt.alloc(), left, LEFT, "left as they are")
}

// What came of it all, if so many servers were not well.
fn all_well(alloc: Global, count: u64, failure: Failure, what: &str) -> Result<(), Failed> {
    if count == 0 {
        return Ok(());
    }
    Err(Failed::by(failure, format!(in alloc; "servers {what}: {count}")))
}

/// Prints how a server's part ended.
///
/// # Errors
///
/// `Write` if it can't be printed.
pub fn say_end(rt: &HostRuntime, peer: &Peer<'_>, end: End) -> Result<(), Failed> {
    match end {
        End::Pushed(version) => printed(rt, println!(rt; "pushed {peer} {version}")),
        End::Told(known) => {
            let version = known.version;
            printed(rt, println!(rt; "told {peer} {version}"))
        }
        End::Left(cause) => printed(rt, println!(rt; "left {peer} {cause}")),
    }
}

/// Prints a line for each server: its address, its version, how many versions it lacks, and how
/// many records it has.
///
/// # Errors
///
/// Those of the folder; `Connect` if a server did not tell, after a line for each. `Write` if a
/// line can't be printed, `Memory`.
pub fn status(rt: &HostRuntime, asking: &StatusOptions<'_>) -> Result<(), Failed> {
    let folder = read_folder(rt, asking.dir)?;
    say_all(rt, &folder, &asking.to)
}

// Prints the table of a folder's servers.
fn say_all(rt: &HostRuntime, folder: &FolderVersion, to: &[Peer<'_>]) -> Result<(), Failed> {
    let mut rounds = Rounds::new(rt)?;
    let ends = rounds.run(rt, &Round::to_ask(folder), to, SILENCE)?;
    printed(rt, println!(rt; "ADDRESS VERSION LAG RECORDS"))?;
    let mut silent = 0u64;
    for (peer, end) in to.iter().zip(ends.iter()) {
        if let End::Left(_) = end {
            silent = silent.saturating_add(1);
        }
        say_status(rt, folder.number(), peer, *end)?;
    }
    all_well(rt.alloc(), silent, NO_REPLY, "that did not tell")
}

// Prints a server's line of the table.
fn say_status(rt: &HostRuntime, current: u64, peer: &Peer<'_>, end: End) -> Result<(), Failed> {
    match end {
        End::Told(known) => {
            let version = known.version;
            let count = known.count;
            let lag = current.saturating_sub(version);
            printed(rt, println!(rt; "{peer} {version} {lag} {count}"))
        }
        End::Pushed(version) => printed(rt, println!(rt; "{peer} {version} 0 -")),
        End::Left(cause) => printed(rt, println!(rt; "{peer} - - - {cause}")),
    }
}

// The lock that a push has, so that no other one from this folder goes on beside it.
fn lock_pushes(rt: &HostRuntime, dir: &str) -> Result<FileLock, Failed> {
    let name = format!(in rt.alloc(); "{dir}/push.lock")?;
    match lock(rt, name.as_str()) {
        Ok(lock) => Ok(lock),
        Err(LockFault::Held) => Err(failed_at(rt, name.as_str(), Failure::Fault("Locked"))),
        Err(LockFault::File) => Err(failed_at(rt, name.as_str(), Failure::Fault("File"))),
        Err(LockFault::Memory) => Err(Failed::from(Failure::Memory)),
    }
}

// The folder's version, on the device. A command that changes the folder is waited for a while.
fn folder_to_push(
    rt: &HostRuntime,
    rounds: &mut Rounds,
    dir: &str,
) -> Result<FolderVersion, Failed> {
    let records = records_name(rt.alloc(), dir)?;
    let mut rest = FIRST_REST;
    for _ in 0..TRIES {
        match settled_folder(rt, records.as_str()) {
            Ok(folder) => return Ok(folder),
            Err(LOCKED) => {}
            Err(failure) => return Err(failed_at(rt, records.as_str(), failure)),
        }
        rounds.rest(rest);
        rest = rest.saturating_mul(2);
    }
    Err(failed_at(rt, records.as_str(), LOCKED))
}

// The version of a folder.
fn read_folder(rt: &HostRuntime, dir: &str) -> Result<FolderVersion, Failed> {
    let records = records_name(rt.alloc(), dir)?;
    match open_folder(rt, records.as_str()) {
        Ok(folder) => Ok(folder),
        Err(failure) => Err(failed_at(rt, records.as_str(), failure)),
    }
}

// The same servers.
fn copied<'a>(alloc: Global, peers: &[Peer<'a>]) -> Result<Vec<Peer<'a>>, AllocError> {
    let mut all = Vec::new(alloc);
    for peer in peers {
        add(&mut all, *peer)?;
    }
    Ok(all)
}

/// Adds an item.
///
/// # Errors
///
/// `AllocError` when memory was refused.
pub fn add<T: Drop>(items: &mut Vec<T>, item: T) -> Result<(), AllocError> {
    match items.push(item) {
        Ok(()) => Ok(()),
        Err(_) => Err(AllocError),
    }
}
