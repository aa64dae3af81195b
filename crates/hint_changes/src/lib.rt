//! Hints that are moved by the records that changed.
//!
//! A SimplePIR hint is the product of a digit matrix and a public matrix that everybody can make.
//! If a record changes, each row of the hint in which the record has a digit changes by the change
//! of that digit times one row of the public matrix: that of the record's column. So the old and
//! the new bytes of a record are all that is needed to move a hint from one version to the next,
//! and the hint is then, word for word, the one made from scratch of the records after
//! (`laws::changes_move_the_hint`).
//!
//! Its tests are in `tests_scheme::changes`.
#![tactic(auto)]

mod entries;
pub mod laws;
mod moving;
mod public_row;

pub use entries::{are_entries, entry_len, move_by_entries};
pub use moving::{move_record, move_record_rows};
pub use public_row::PublicRow;
