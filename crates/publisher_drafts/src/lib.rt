//! Drafts of a publisher: the changes of their entries, merged, judged, read of lines and printed.
//!
//! `specs/Merging.antt` defines merging, and [`laws`] says what it keeps: one publication of the
//! merged changes gives the records that the entries give, one after another. `specs/Judging.antt`
//! says which change can be made.
//!
//! Its tests are in `tests/publisher`.
#![tactic(auto)]

mod changes;
mod entries;
mod importing;
mod judging;
pub mod laws;
mod lines;
mod texts;

pub use changes::{ChangeMap, publication_of, put_change};
pub use entries::{MergeFault, Merged, merge_entries, merged_of};
pub use importing::{ImportStop, LineFault, changes_of_lines};
pub use judging::{EditFault, Target, judge};
pub use texts::{appended_line, changed_line};
