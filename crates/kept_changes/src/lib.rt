//! A SimplePIR hint that is kept in one file, and the changes since in another: the rows of one
//! record, or the whole hint, moved by them.
//!
//! A client that keeps the hint of a wide store reads of its file only the rows with which an
//! answer for one record is read (`hint_file::parts_for`), and moves these by the changes in the
//! file beside it (`change_file`): so it reads and writes nothing of the other 128 MiB. Entries of
//! records in other places of their columns don't touch these rows, and are passed over. What the
//! rows are then is what they would be in the whole hint, moved block after block
//! (`laws::rows_are_of_the_whole`). The whole hint is moved when the file has grown so long that it
//! is folded into the hint's.
//!
//! Its tests are in tests/long/kept_changes and `tests_session::client`.
#![tactic(auto)]

mod files;
pub mod laws;
mod moving;
mod replies;
mod whole_hint;

pub use files::rows_after;
pub use replies::{ChangesReply, changes_ask, judged};
pub use whole_hint::hint_after;
