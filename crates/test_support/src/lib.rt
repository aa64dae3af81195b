//! What tests of several crates have in common: readers and writers over memory, and the store of
//! two records.
//!
//! The groups `tests_frame`, `tests_store`, `tests_session` and `tests_world` of tests/long use it.
#![tactic(auto)]

mod stores;
mod streams;

pub use stores::{PUBLISHER, RECORDS, TWO_RECORDS};
pub use streams::{FailsOnce, Input, Output};
