//! The command `import`.

use crate::causes::failed_in;
use crate::drafting::{Drafted, draft_changes, open_draft};
use crate::input::{MOST_INPUT, read_input};
use command_words::{Failed, Failure};
use publisher_drafts::{ImportStop, LineFault, changes_of_lines};

/// Why nothing was imported.
#[derive(Drop)]
pub enum ImportFault {
    /// A line was refused: the first one to be refused.
    Line {
        /// Its number; the first line has the number 1.
        number: u64,
        /// Why.
        fault: LineFault,
    },
    /// The import failed otherwise.
    Failed(Failed),
}

/// Appends the changes that the lines on standard input ask for to a folder's draft, one after
/// another.
///
/// # Errors
///
/// In this order: `File` if the folder has no snapshot, `Locked` if another process has it, those
/// of the snapshot, of its log (`File`, `BadLog`) and of the draft (`File`, `BadDraft`), `Read` if
/// standard input can't be read, the first line that is refused, with its number, `TooLong` if no
/// entry has room for the changes, and those of the draft's new entry (`VersionsUsedUp`, `Write`).
/// `Memory` if memory was refused. Nothing of the lines is in the draft then.
pub fn import(rt: &HostRuntime, dir: &str) -> Result<Drafted, ImportFault> {
    let open = match open_draft(rt, dir) {
        Ok(open) => open,
        Err(failure) => return Err(import_failed(rt, dir, failure)),
    };
    let input = match read_input(rt.alloc(), &mut rt.reader(), MOST_INPUT) {
        Ok(input) => input,
        Err(failure) => return Err(import_failed(rt, dir, failure)),
    };
    let plan = open.version.plan();
    let changes = match changes_of_lines(rt.alloc(), &plan, open.draft.count, &input) {
        Ok(changes) => changes,
        Err(ImportStop::Line { number, fault }) => return Err(ImportFault::Line { number, fault }),
        Err(ImportStop::Memory) => return Err(import_failed(rt, dir, Failure::Memory)),
    };
    match draft_changes(rt, open, changes) {
        Ok(drafted) => Ok(drafted),
        Err(failure) => Err(import_failed(rt, dir, failure)),
    }
}

// How an import failed otherwise than by a line.
fn import_failed(rt: &HostRuntime, dir: &str, failure: Failure) -> ImportFault {
    ImportFault::Failed(failed_in(rt, dir, failure))
}
