//! The file system.

ghost use Rattle.std.specs.Io.{ReadsAtMost};

use std::fs::{Metadata, TryLockError};
use std::io;
use std::os::unix::fs::{FileExt, MetadataExt, fchown};
use std::random::RandomSource;
use std::rt::Files;

/// The bits of a mode by which others than the owner may use a file.
const OTHERS: u32 = 0o077;

/// A file system: std's [`Files`], and what is needed of open files beside that. [`HostRuntime`]
/// has that of the system; one in its place can lose, cut and refuse what it likes, and is what a
/// simulation runs the same code on.
pub trait FileSystem: Files + AllocGlobal + RandomSource + Clone + Copy + Drop {
    /// Reads some bytes at a place, and returns how many came. The place of the next read stays.
    fn read_at(&self, file: &Self::File, buffer: &mut [u8], at: u64) -> io::Result<usize>
        ensures bound { ReadsAtMost result buffer.new };

    /// Fills a buffer with the bytes at a place.
    fn read_exact_at(&self, file: &Self::File, buffer: &mut [u8], at: u64) -> io::Result<()>;

    /// Writes all of these bytes at a place.
    fn write_all_at(&self, file: &Self::File, bytes: &[u8], at: u64) -> io::Result<()>;

    /// Takes the lock that belongs to an open file, unless another process has it. The lock is
    /// given back when the file is closed.
    fn try_lock(&self, file: &Self::File) -> Result<(), TryLockError>;

    /// Gives an open file the owner and the group of another, if the system permits that.
    fn keep_owner(&self, file: &Self::File, old: &Metadata);

    /// Whether the owner alone may use a file or a folder, by what the system knows of it.
    fn is_private(&self, found: &Metadata) -> bool;
}

impl FileSystem for HostRuntime {
    fn read_at(&self, file: &Self::File, buffer: &mut [u8], at: u64) -> io::Result<usize> {
        file.read_at(buffer, at)
    }

    fn read_exact_at(&self, file: &Self::File, buffer: &mut [u8], at: u64) -> io::Result<()> {
        file.read_exact_at(buffer, at)
    }

    fn write_all_at(&self, file: &Self::File, bytes: &[u8], at: u64) -> io::Result<()> {
        file.write_all_at(bytes, at)
    }

    fn try_lock(&self, file: &Self::File) -> Result<(), TryLockError> {
        file.try_lock()
    }

    fn keep_owner(&self, file: &Self::File, old: &Metadata) {
        let _ = fchown(file, None, Some(old.gid()));
        let _ = fchown(file, Some(old.uid()), None);
    }

    fn is_private(&self, found: &Metadata) -> bool {
        found.mode() & OTHERS == 0
    }
}
