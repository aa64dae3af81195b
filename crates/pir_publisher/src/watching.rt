//! Servers that are kept at a folder's version.

use crate::ends::End;
use crate::pushing::{add, say_end};
use crate::rounds::{Rounds, SILENCE};
use crate::talk::{Aim, Round};
use command_words::{Failed, Failure};
use publisher_files::{FolderVersion, settled_folder};
use publisher_words::Peer;
use std::alloc::{AllocError, Global};
use std::fs;

/// How many milliseconds pass between two looks at the folder.
const LOOK: u64 = 1_000;

/// How many milliseconds a server is left alone after it was away once, and how many at most. One
/// that is well is greeted again after the most, too.
const FIRST_REST: u64 = 1_000;

const LONGEST_REST: u64 = 60_000;

/// How many milliseconds a server that was away before may say nothing, while the others wait.
const SHORT_SILENCE: u64 = 2_000;

// What is known of a server that is kept at the folder's version.
#[derive(Clone, Copy)]
struct WatchedServer {
    // When it is tried next, in milliseconds since the start.
    due: u64,
    // How long it is left alone the next time that it is away.
    rest: u64,
    // What was said of it last.
    said: Option<End>,
}

impl WatchedServer {
    // Whether it was well the last time that it was tried, or was not tried yet.
    fn is_well(&self) -> bool {
        !matches!(self.said, Some(End::Left(_)))
    }

    // Notes how its part in a round ended. Returns whether that is news.
    fn note(&mut self, end: End, now: u64) -> bool {
        let is_news = self.said != Some(end);
        self.said = Some(end);
        if self.is_well() {
            self.rest = FIRST_REST;
            self.due = now.saturating_add(LONGEST_REST);
        } else {
            self.due = now.saturating_add(self.rest);
            self.rest = self.rest.saturating_mul(2).min(LONGEST_REST);
        }
        is_news
    }
}

/// Keeps servers at a folder's version, and prints a line when one comes to it or is left as it is.
/// Ends when the process is killed.
///
/// # Errors
///
/// `Write` if a line can't be printed, `Memory` when memory was refused.
pub fn watch(
    rt: &HostRuntime,
    rounds: &mut Rounds,
    folder: &mut FolderVersion,
    records: &str,
    aim: Aim,
    key: [u8; 32],
    to: &[Peer<'_>],
) -> Result<(), Failed> {
    let mut all = watched_all(rt.alloc(), to.len())?;
    for _ in 0..u64::MAX {
        let round = Round { folder, aim, key };
        try_due(rt, rounds, &round, to, &mut all, true)?;
        try_due(rt, rounds, &round, to, &mut all, false)?;
        rounds.rest(LOOK);
        if is_old(rt, folder) && look_again(rt, folder, records)? {
            all_well_due(&mut all);
        }
    }
    Ok(())
}

// Reads the folder again, and returns whether that was possible.
fn look_again(rt: &HostRuntime, folder: &mut FolderVersion, records: &str) -> Result<bool, Failed> {
    match settled_folder(rt, records) {
        Ok(newer) => {
            *folder = newer;
            Ok(true)
        }
        Err(Failure::Memory) => Err(Failed::from(Failure::Memory)),
        // Another command changes the folder, or its files can't be read for the moment.
        Err(_) => Ok(false),
    }
}

// Whether a folder's log has another length by now: there is another version, or another snapshot
// with a log of its own.
fn is_old(rt: &HostRuntime, folder: &FolderVersion) -> bool {
    let len = match fs::symlink_metadata(rt, folder.own.name.as_str()) {
        Ok(there) => there.len(),
        Err(_) => 0,
    };
    len != folder.log_size().bytes as u64
}

// So many servers, all due at once.
fn watched_all(alloc: Global, count: usize) -> Result<Vec<WatchedServer>, AllocError> {
    let new = WatchedServer {
        due: 0,
        rest: FIRST_REST,
        said: None,
    };
    let mut all = Vec::new(alloc);
    for _ in 0..count {
        add(&mut all, new)?;
    }
    Ok(all)
}

// There is a new version: each server that is well lacks it.
fn all_well_due(all: &mut [WatchedServer]) {
    for at in 0..all.len() {
        if all[at].is_well() {
            all[at].due = 0;
        }
    }
}

// Tries the servers that are due, of those that are well or of the others, for which those don't
// wait as long.
fn try_due(
    rt: &HostRuntime,
    rounds: &mut Rounds,
    round: &Round<'_>,
    to: &[Peer<'_>],
    all: &mut [WatchedServer],
    well: bool,
) -> Result<(), Failed> {
    let now = rounds.now(rt);
    let mut due = Vec::new(rt.alloc());
    let mut peers = Vec::new(rt.alloc());
    for at in 0..all.len().min(to.len()) {
        if all[at].is_well() == well && all[at].due <= now {
            add(&mut due, at)?;
            add(&mut peers, to[at])?;
        }
    }
    if peers.is_empty() {
        return Ok(());
    }
    let silence = if well { SILENCE } else { SHORT_SILENCE };
    let ends = rounds.push(rt, round, &peers, silence)?;
    let now = rounds.now(rt);
    for (at, end) in due.iter().zip(ends.iter()) {
        if *at < all.len() && *at < to.len() && all[*at].note(*end, now) {
            say_end(rt, &to[*at], *end)?;
        }
    }
    Ok(())
}
