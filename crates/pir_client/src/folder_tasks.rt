//! What a command line asks of a client's folder.

ghost use Rattle.std.specs.Prelude.{◌≡◌, Some, IfOk, codes};
ghost use Rattle.std.specs.Option.{unwrap_or};
ghost use Rattle.clap.specs.Matches.{found_of, first_value};
ghost use Rattle.pir_client.specs.FolderTasks.{ReadsFolderGet, ReadsFolder, choice_text};

use crate::choosing::SchemeChoice;
use crate::command_line::{INDEX_TAKES, least_dimension, scheme_named, server_at};
use crate::server::Address;
use clap::ArgMatches;
use command_words::{BadLine, decimal, text_at};
use std::alloc::Global;

/// How many seconds a server may take if no number is given.
const TIMEOUT: u64 = 30;

/// The least number of words that a secret has if none is given: the publication's.
const WHOLE_SECRET: usize = 1024;

const CHOICE_TAKES: &str = "--scheme takes simple, double or auto";

const STATE_TAKES: &str = "--state takes the name of a folder";

/// What is asked of a folder.
#[derive(Drop)]
pub enum FolderTask<'a> {
    /// Private retrievals with the hint that it keeps.
    Get {
        state: &'a str,
        server: Address<'a>,
        least: usize,
        // Whether a server of an older version than was seen before is refused.
        no_older: bool,
        // Whether it is said how much of a hint has come.
        progress: bool,
        choice: SchemeChoice,
        indices: Vec<u32>,
    },
    /// To print which hints it has.
    State {
        state: &'a str,
    },
    /// To drop its hints.
    Forget {
        state: &'a str,
    },
}

/// What the words of `get` ask for, if a folder is given.
pub fn folder_get_task<'a>(
    alloc: Global,
    found: &ArgMatches<'a>,
) -> Result<FolderTask<'a>, BadLine<'a>>
    ensures { IfOk result (ReadsFolderGet (found_of found.now)) }
{
    let state = text_at(found, "state", STATE_TAKES)?;
    let server = patient(server_at(found)?);
    let least = least_dimension(found)?.unwrap_or(WHOLE_SECRET);
    let indices = indices_given(alloc, found)?;
    let choice = choice_given(found, indices.len())?;
    let no_older = found.get_flag("no-older");
    let progress = found.get_flag("progress");
    Ok(FolderTask::Get {
        state,
        server,
        least,
        no_older,
        progress,
        choice,
        indices,
    })
}

// The scheme given, or the cheaper one for so many records.
#[tactic(auto, unfolding(crate::specs::FolderTasks::choice_text))]
fn choice_given<'a>(found: &ArgMatches<'a>, times: usize) -> Result<SchemeChoice, BadLine<'a>>
    ensures { IfOk result (λ choice. first_value (found_of found.now) (codes "scheme") ≡
        Some (choice_text choice)) }
{
    let name = text_at(found, "scheme", CHOICE_TAKES)?;
    if name == "auto" {
        return Ok(SchemeChoice::Cheaper(times.min(u32::MAX as usize) as u32));
    }
    match scheme_named(name) {
        Some(scheme) => Ok(SchemeChoice::One(scheme)),
        None => Err(BadLine::Given(CHOICE_TAKES, name)),
    }
}

// A server that may take half a minute if no number of seconds is given.
fn patient<'a>(server: Address<'a>) -> Address<'a>
    ensures address { (result.host ≡ server.entry.host) × (result.port ≡ server.entry.port) }
    ensures timeout { result.timeout ≡ Some (unwrap_or server.entry.timeout 30) }
{
    Address {
        timeout: Some(server.timeout.unwrap_or(TIMEOUT)),
        ..server
    }
}

// The records asked for, in their order.
fn indices_given<'a>(alloc: Global, found: &ArgMatches<'a>) -> Result<Vec<u32>, BadLine<'a>> {
    let mut indices = Vec::new(alloc);
    let Some(words) = found.get_strs("INDEX") else {
        return Err(BadLine::Value(INDEX_TAKES));
    };
    for word in words {
        let index = index_of(word)?;
        if indices.push(index).is_err() {
            return Err(BadLine::Memory);
        }
    }
    Ok(indices)
}

// The record that a word names.
fn index_of<'a>(word: &'a str) -> Result<u32, BadLine<'a>> {
    match decimal(word) {
        Some(index) if index <= u64::from(u32::MAX) => Ok(index as u32),
        _ => Err(BadLine::Given(INDEX_TAKES, word)),
    }
}

/// What the words of `state` ask for.
pub fn state_task<'a>(found: &ArgMatches<'a>) -> Result<FolderTask<'a>, BadLine<'a>>
    ensures { IfOk result (ReadsFolder (found_of found.now)) }
{
    let state = text_at(found, "state", STATE_TAKES)?;
    Ok(FolderTask::State { state })
}

/// What the words of `forget` ask for.
pub fn forget_task<'a>(found: &ArgMatches<'a>) -> Result<FolderTask<'a>, BadLine<'a>>
    ensures { IfOk result (ReadsFolder (found_of found.now)) }
{
    let state = text_at(found, "state", STATE_TAKES)?;
    Ok(FolderTask::Forget { state })
}
