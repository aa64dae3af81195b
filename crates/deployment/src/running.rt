//! A whole run: so many steps with troubles, and then the end without any.

use crate::world::{Round, World};
use deployment_model::Broken;
use publisher_files::FolderVersion;

/// How many steps one push lasts at most.
const ROUND: u32 = 2_000;

/// How many pushes there are at the end, at most.
const LAST_ROUNDS: u32 = 40;

/// How many steps there are between two of them, in which servers find connections ended.
const BETWEEN: u32 = 1_000;

/// How many steps a client's last run has.
const LAST_RUN: u32 = 60_000;

/// How often a client tries to retrieve each record at the end.
const LAST_TRIES: u32 = 20;

/// Makes so many steps, and then sees to it that everything is reached.
///
/// # Errors
///
/// What is broken.
pub fn run(world: &mut World<'_>, steps: u64) -> Result<(), Broken> {
    'steps: for _ in 0..steps {
        if world.step() >= steps {
            break 'steps;
        }
        if world.wants_push() {
            push_once(world, steps)?;
        } else {
            world.act(None)?;
        }
    }
    finish(world)
}

// Pushes the folder's version, if it can be read.
fn push_once(world: &mut World<'_>, until: u64) -> Result<(), Broken> {
    match world.version_to_push()? {
        Some(version) => push(world, &version, until),
        None => world.act(None),
    }
}

// Pushes a version, until all servers have it, or the push is given up.
fn push(world: &mut World<'_>, version: &FolderVersion, until: u64) -> Result<(), Broken> {
    let mut round = world.begin_round(version)?;
    let pushed = go_on(world, &mut round, until);
    world.end_round(round);
    pushed
}

// Goes on with a push.
fn go_on(world: &mut World<'_>, round: &mut Round<'_>, until: u64) -> Result<(), Broken> {
    for _ in 0..ROUND {
        if round.talks.is_empty() || world.step() >= until {
            return Ok(());
        }
        world.act(Some(round))?;
    }
    Ok(())
}

// Without troubles, all servers come to have the last version, and each client retrieves each
// record.
fn finish(world: &mut World<'_>) -> Result<(), Broken> {
    world.calm()?;
    for _ in 0..LAST_ROUNDS {
        if world.are_up_to_date()? {
            world.check_all()?;
            return retrieve_all(world);
        }
        pass(world, BETWEEN)?;
        push_once(world, u64::MAX)?;
    }
    Err(Broken::Stuck {
        what: "not all servers have the last version",
    })
}

// Makes so many steps.
fn pass(world: &mut World<'_>, steps: u32) -> Result<(), Broken> {
    for _ in 0..steps {
        world.act(None)?;
    }
    Ok(())
}

// Each client retrieves each record.
fn retrieve_all(world: &mut World<'_>) -> Result<(), Broken> {
    for client in 0..world.client_count() {
        retrieve_by(world, client)?;
    }
    Ok(())
}

// A client retrieves each record.
fn retrieve_by(world: &mut World<'_>, client: usize) -> Result<(), Broken> {
    for _ in 0..LAST_TRIES {
        if !world.has_run(client) {
            world.ask_for_all(client)?;
        }
        end_run(world, client)?;
        if world.has_all(client) {
            return Ok(());
        }
    }
    Err(Broken::Stuck {
        what: "a client has not retrieved each record",
    })
}

// Goes on until a client's run has ended.
fn end_run(world: &mut World<'_>, client: usize) -> Result<(), Broken> {
    for _ in 0..LAST_RUN {
        if !world.has_run(client) {
            return Ok(());
        }
        world.act(None)?;
    }
    Ok(())
}
