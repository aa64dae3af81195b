//! Files that are replaced as a whole, at one moment, and locks between processes.
//!
//! A file is never written in place. Its new content is written to a file of its own beside it,
//! sent to the device, and then given the old one's name, so that whoever reads the name, also
//! after a crash, finds the old content or the new one, and no part of either. [`replace`] keeps
//! the order of these steps over any [`Disk`]; [`Place`] is the disk of a real file, and
//! [`replace_file`] does all of it. That a real device keeps what was synced, and that a real
//! renaming is done at one moment, is the system's promise and nothing that is proved here.
//!
//! [`Place::lock`] keeps two processes from replacing one file: its lock is on a file `NAME.lock`,
//! which is never renamed or removed, since a lock belongs to a file and not to its name.
//!
//! Its tests are in tests/long/safe_files and tests/log.
#![tactic(auto)]

mod beside;
mod content;
mod disk;
mod laws;
mod locking;
mod place;
mod replacing;
mod steady;
mod system;

pub use beside::{MARKED_DIGITS, are_hex_digits, folder_of, remove_beside};
pub use content::{BytesInMemory, Content, ContentFault};
pub use disk::{Disk, DiskFailed};
pub use laws::{done_is_new, each_moment_is_whole, refused_is_old, settled_is_new};
pub use locking::{FileLock, LockFault, lock};
pub use place::{Place, open_file, replace_file};
pub use replacing::{ReplaceFault, SettleFault, finish, replace, settle};
pub use steady::SteadyFile;
pub use system::FileSystem;
