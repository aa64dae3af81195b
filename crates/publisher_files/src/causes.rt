//! What caused a failure, as its second line says.

use crate::folder::{draft_name, records_name};
use command_words::{Failed, Failure};
use server_files::failed_at;
use std::alloc::AllocError;

/// How a command on a folder failed, with the file in the cause.
pub fn failed_in(rt: &HostRuntime, dir: &str, failure: Failure) -> Failed {
    if let Some(means) = cause_of(failure) {
        return Failed::by(failure, format!(in rt.alloc(); "{dir}: {means}"));
    }
    let name = match failure {
        Failure::Fault("BadDraft") => return bad_draft(rt, dir, failure),
        _ => records_name(rt.alloc(), dir),
    };
    match name {
        Ok(name) => failed_at(rt, name.as_str(), failure),
        Err(refused) => Failed::from(refused),
    }
}

// How a command on a bad draft failed.
fn bad_draft(rt: &HostRuntime, dir: &str, failure: Failure) -> Failed {
    let text: Result<String, AllocError> = match draft_name(rt.alloc(), dir) {
        Ok(name) => {
            let name = name.as_str();
            format!(in rt.alloc();
                "{name}: damaged, or a draft of another store or version; remove it to begin a new \
                    one"
            )
        }
        Err(refused) => Err(refused),
    };
    Failed::by(failure, text)
}

// What the failure of a change or a publication means; nothing if it is a file's.
fn cause_of(failure: Failure) -> Option<&'static str> {
    let Failure::Fault(name) = failure else {
        return None;
    };
    match name {
        "BadIndex" => Some("there is no record of this index"),
        "BadLength" => Some("a record of the store can't have this number of bytes"),
        "Full" => Some("the store has room for no further record"),
        "NothingToPublish" => Some("the draft changes nothing"),
        "VersionsUsedUp" => Some("there is no further version number"),
        "TooLong" => Some("no publication has room for so many changes"),
        "Read" => Some("standard input can't be read"),
        _ => None,
    }
}
