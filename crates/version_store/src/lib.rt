//! Records in versions, with the hints of the current one kept in place.
//!
//! Its tests are in `tests_store::store` and `tests/long/tests_store`.
#![tactic(auto)]

mod answer_buffers;
mod columns;
mod digit_records;
mod drafts;
mod edition;
mod first_layer;
mod held_records;
pub mod laws;
mod old_bytes;
mod opening;
mod preparing;
mod publication_room;
mod row_marks;
mod rows;
mod store;
mod unopened;

pub use answer_buffers::AnswerBuffers;
pub use opening::{OpenError, plan_in};
pub use pir_schemes::{Plan, Scheme};
pub use simple_scheme::{HintWatcher, Unwatched};
pub use snapshot_file::{
    Header, MigrateError, Snapshot, SnapshotFault, WriteFault, migrate, read_snapshot,
    read_snapshot_and_digest, snapshot_digest,
};
pub use store::{AppendError, EditError, PublishError, Store, write_snapshot};
pub use unopened::Opening;
