//! The log of publications: a file beside a snapshot, to which each publication after the
//! snapshot's version is appended.
//!
//! A log has a header, which ties it to its snapshot, and an entry for each publication: the length
//! of a body, the body, and a link, which is the SHA-256 digest (FIPS 180-4) of the link before it,
//! the length and the body. So no entry can be moved within a log or to another.
//! `specs/Publications.antt` defines bodies, `specs/Entries.antt` entries, `specs/Logs.antt` what a
//! reader makes of bytes, and `specs/Crashes.antt` what a crash leaves. That a file to whose end
//! was written keeps a prefix of what was written since its last sync, or bytes in which no entry
//! is, is the system's promise and nothing that is proved here.
//!
//! A log is opened by [`open_log`], which cuts a torn end off; its publications are read by
//! [`Publications`] and [`Changes`], one after another. [`PublicationBuilder`] makes the next one,
//! and [`Log::append`] appends it. [`relinked`] makes the log of a later snapshot of the last
//! publications.
//!
//! Its tests are in tests/long/publication_log, `tests_frame::publications` and tests/log.
#![tactic(auto)]

mod builder;
mod changes;
mod entries;
mod file;
mod header;
pub mod laws;
mod log;
mod opened;
mod reading;
mod relinking;

pub use builder::{ChangeFault, PublicationBuilder};
pub use changes::{BodyFault, Change, Changes, Publication};
pub use file::{LogFile, OpenFault, open_log, read_log_file, remove_log, remove_other_logs};
pub use header::{LogHeader, log_name};
pub use log::{AppendDisk, AppendFault, CutFault, Log, LogDiskFailed, LogEnd};
pub use opened::{OpenedLog, ReadLog};
pub use reading::{BadLog, Found, LogReadFault, Publications, read_log};
pub use relinking::relinked;
