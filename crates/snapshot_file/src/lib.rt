//! Snapshot files: the bytes that keep a store's records, its layout and its version.
//!
//! A snapshot is a header of 91 bytes, or 92 in a wide form, the records one after another, and the
//! SHA-256 digest (FIPS 180-4) of all bytes before it. `specs/Snapshots.antt` defines these bytes,
//! `specs/Verdicts.antt` what a reader makes of an input. Numbers have their lowest byte first.
//!
//! Its tests are in `tests_frame`: `snapshots`, `slots`, `wide`, `copies`, `room`; and in
//! `tests_store::refused_memory`.
#![tactic(auto)]

mod copying;
mod header;
pub mod laws;
mod migration;
mod reading;
mod receiving;
mod snapshot;
mod streaming;
mod widening;
mod writing;

pub use copying::{CopyFault, write_snapshot_read};
pub use header::snapshot_digest;
pub use migration::{MigrateError, migrate};
pub use reading::{read_after_header, read_header, read_snapshot, read_snapshot_and_digest};
pub use receiving::{RecordSink, read_records_into};
pub use snapshot::{Header, MAX_DIMENSION, Snapshot, SnapshotFault, WriteFault};
pub use streaming::{RecordSource, write_snapshot_from};
pub use widening::{WidenError, widen};
pub use writing::write_snapshot_bytes;
