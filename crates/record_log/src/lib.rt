//! What the newest publications changed, by the bytes that records had before.
//!
//! A store that keeps the old bytes of what each publication changed can say, for each of these
//! versions, which records differ from the current one, with their old and their new bytes:
//! `hint_changes` moves a hint by them. A log keeps the newest 16 publications at most, and so many
//! bytes at most; the oldest go first.
//!
//! Its tests are in `tests_store::old_records`.
#![tactic(auto)]

mod entries;
mod keeping;
pub mod laws;
mod log;
mod old_records;
mod since;

pub use log::RecordLog;
pub use old_records::OldRecords;
