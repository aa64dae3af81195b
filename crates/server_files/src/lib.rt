//! Snapshot files with their logs: read, replaced, made shorter, opened to be served, and appended
//! to.
//!
//! A [`FileVersion`] is made here alone, and only once the file has that version.
//!
//! Its tests are in `tests/causes`, `tests/log`, `tests/making`, `tests/loopback` and
//! `tests/service`.
#![tactic(auto)]

mod causes;
mod compacting;
mod file_version;
mod files;
mod last_bytes;
mod logs;
mod opening;
mod pairs;
mod progress;
mod reading_in;
mod saving;

pub use causes::{failed_at, not_listening};
pub use compacting::{Compacted, compact_file, compact_pair, compacted_past};
pub use file_version::{FileVersion, ReadVersion, Versioned, append_version, take_back_version};
pub use files::{
    FileWithLog, OwnFile, RecordsOf, VersionOf, kept_file, migrate_failure, progress_of_file,
    snapshot_in, store_after, widen_failure, write_anew, write_read,
};
pub use logs::{BAD_LOG, OwnLog, log_failure};
pub use opening::{OpenPair, open_pair};
pub use pairs::{LogSize, ReadPair, Whole, read_pair, whole_of};
pub use progress::{InputSize, Pace, ReadProgress, WatchedReader};
pub use reading_in::{InputFault, Unwritten};
pub use saving::LogSaver;
