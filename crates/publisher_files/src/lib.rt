//! A publisher's folder: a snapshot with its log, as a server's file has them, and the draft of the
//! next version.
//!
//! `DIR/records.pir` is a snapshot, and the log beside it has the publications since, so a server
//! can be started from a copy of both. `DIR/draft` is a file in the log's own format, whose header
//! names the store by its form and its public seed and has the version that it is a draft of; zeros
//! are in place of a snapshot's digest, since a draft is of a version, whichever snapshot the
//! folder has it from. Each command that changes the draft appends one entry to it. [`publish`]
//! merges the entries into one publication, appends that to the log, and removes the draft.
//!
//! If the process is killed between these two, the draft's version is the one before the current.
//! Such a draft is done with if the current version has all that it changes: then the next command
//! that changes anything removes it, and one that reads takes it for none.
//!
//! Records alone are read, and no hint is ever made. `publisher_drafts` merges and judges the
//! changes, and proves what that keeps.
//!
//! Its tests are in `tests/publisher`.
#![tactic(auto)]

mod causes;
mod diffing;
mod drafting;
mod drafts;
mod folder;
mod importing;
mod input;
mod publishing;
mod showing;
mod version;

pub use diffing::{diff, read_folder};
pub use drafting::{Drafted, add, draft_one, set};
pub use drafts::{Draft, DraftFile};
pub use folder::{draft_name, init, records_name};
pub use importing::{ImportFault, import};
pub use publishing::{publish, publish_draft};
pub use showing::{show, show_record};
pub use version::{FolderVersion, open_folder, settled_folder};
