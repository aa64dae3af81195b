//! A client's folder: the hints that it keeps from one run to the next, and nothing else. No secret
//! is in it.
//!
//! There is one file for each scheme and store, which is replaced whole and read through one open
//! file; `hint_file` has its bytes. Beside it may be a file of changes, which is added to and moves
//! the hint on; `change_file` has its bytes. No lock is held while anything else is waited for, so
//! any number of runs may use one folder.
//!
//! Its tests are in tests/long/client_state, in `tests_session::folders` and in tests/state.
#![tactic(auto)]

mod changes;
mod content;
mod fault;
mod files;
mod folder;
mod kept;
mod names;
mod old;
mod partial;

pub use changes::{KeptChanges, most_changes};
pub use fault::FolderFault;
pub use folder::{Folder, KeptHeads};
pub use kept::KeptFile;
pub use old::OldFolder;
pub use partial::{Fetched, PartialFile};
