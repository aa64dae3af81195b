//! The publications of a store in a log, and what a log makes of a store and of a snapshot.
//!
//! [`draft_publication`] makes the publication of a store's draft, which is appended to the log of
//! the store's snapshot before the store publishes. [`replay`] makes a publication of a log on a
//! store, by the store's own edits, appends and publications; [`replay_all`] makes all of a log.
//! [`replay_records`] makes one on a snapshot's records alone, so that a later snapshot is written
//! without hints; [`replay_first`] makes the first of a log, as all but the latest 16. What holds
//! the records, [`RecordHolder`], is a snapshot or what a store is opened with.
//! `specs/Replays.antt` and `specs/Records.antt` define all of these, and [`laws`] says how they
//! agree.
//!
//! Its tests are in tests/long/log_replay.
#![tactic(auto)]

mod compaction;
mod drafting;
mod held;
mod judging;
pub mod laws;
mod records;
mod replaying;

pub use compaction::{earlier_count, replay_first};
pub use drafting::{DraftFault, draft_publication};
pub use held::RecordHolder;
pub use judging::{count_after, judge_changes};
pub use records::replay_records;
pub use replaying::{ReplayFault, replay, replay_all};
