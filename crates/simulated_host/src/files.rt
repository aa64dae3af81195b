//! What a machine sees of its disk.

use crate::disk::SimulatedDisk;
use crate::file::SimulatedFile;
use crate::listing::SimulatedNames;
use safe_files::FileSystem;
use std::alloc::{Allocator, Global};
use std::cell::RefCell;
use std::fs::{Metadata, OpenOptions, TryLockError};
use std::io;
use std::io::ErrorKind;
use std::random::RandomSource;
use std::rt::Files;

/// What a machine sees of its disk: a file system.
#[derive(Clone, Copy)]
pub struct SimulatedFiles<'a> {
    pub(crate) disk: &'a RefCell<SimulatedDisk>,
    alloc: Global,
    pub(crate) machine: usize,
}

impl<'a> SimulatedFiles<'a> {
    /// What the machine of a number sees.
    pub fn new(
        disk: &'a RefCell<SimulatedDisk>,
        alloc: Global,
        machine: usize,
    ) -> SimulatedFiles<'a> {
        SimulatedFiles {
            disk,
            alloc,
            machine,
        }
    }

    /// The machine's number.
    pub fn machine(&self) -> usize {
        self.machine
    }

    /// Whether its power is off.
    pub fn is_cut(&self) -> bool {
        match self.disk.try_borrow() {
            Ok(disk) => disk.is_cut(self.machine),
            Err(_) => false,
        }
    }

    fn metadata_at(&self, path: &str) -> io::Result<Metadata> {
        let mut disk = self.disk.try_borrow_mut()?;
        disk.machine(self.machine)?.metadata_at(path)
    }
}

impl Alloc for SimulatedFiles<'_> {
    type A = Global;

    fn alloc(&self) -> Global {
        self.alloc
    }
}

impl RandomSource for SimulatedFiles<'_> {
    fn fill_bytes(&self, buf: &mut [u8]) -> io::Result<()> {
        let mut disk = self.disk.try_borrow_mut()?;
        disk.machine(self.machine)?.fill(buf);
        Ok(())
    }
}

impl<'a> Files for SimulatedFiles<'a> {
    type File = SimulatedFile<'a>;

    type Dir = SimulatedNames<'a>;

    fn open_file(&self, how: &OpenOptions, path: &str) -> io::Result<SimulatedFile<'a>> {
        let mut disk = self.disk.try_borrow_mut()?;
        let handle = disk.machine(self.machine)?.open(how, path)?;
        Ok(SimulatedFile::new(*self, handle, how))
    }

    fn open_dir(&self, path: &str) -> io::Result<SimulatedNames<'a>> {
        let mut disk = self.disk.try_borrow_mut()?;
        let names = disk.machine(self.machine)?.list(path)?;
        Ok(SimulatedNames::new(*self, names))
    }

    fn metadata(&self, path: &str) -> io::Result<Metadata> {
        self.metadata_at(path)
    }

    fn symlink_metadata(&self, path: &str) -> io::Result<Metadata> {
        self.metadata_at(path)
    }

    fn copy(&self, _from: &str, _to: &str) -> io::Result<u64> {
        Err(ErrorKind::Unsupported.into())
    }

    fn rename(&self, from: &str, to: &str) -> io::Result<()> {
        let mut disk = self.disk.try_borrow_mut()?;
        disk.machine(self.machine)?.rename(from, to)
    }

    fn remove_file(&self, path: &str) -> io::Result<()> {
        let mut disk = self.disk.try_borrow_mut()?;
        disk.machine(self.machine)?.remove(path)
    }

    fn create_dir(&self, path: &str) -> io::Result<()> {
        let mut disk = self.disk.try_borrow_mut()?;
        disk.machine(self.machine)?.create_folder(path)
    }

    fn remove_dir(&self, _path: &str) -> io::Result<()> {
        Err(ErrorKind::Unsupported.into())
    }

    fn remove_dir_all<B: Allocator>(&self, _alloc: B, _path: &str) -> io::Result<()> {
        Err(ErrorKind::Unsupported.into())
    }

    fn create_dir_with_mode(&self, path: &str, _mode: u32) -> io::Result<()> {
        let mut disk = self.disk.try_borrow_mut()?;
        disk.machine(self.machine)?.create_folder(path)
    }
}

impl FileSystem for SimulatedFiles<'_> {
    fn read_at(&self, file: &Self::File, buffer: &mut [u8], at: u64) -> io::Result<usize> {
        file.read_at(buffer, at)
    }

    fn read_exact_at(&self, file: &Self::File, buffer: &mut [u8], at: u64) -> io::Result<()> {
        file.read_exact_at(buffer, at)
    }

    fn write_all_at(&self, file: &Self::File, bytes: &[u8], at: u64) -> io::Result<()> {
        file.write_all_at(bytes, at)
    }

    fn try_lock(&self, file: &Self::File) -> Result<(), TryLockError> {
        match file.lock() {
            Ok(true) => Ok(()),
            Ok(false) => Err(TryLockError::WouldBlock),
            Err(fault) => Err(TryLockError::Error(fault)),
        }
    }

    fn keep_owner(&self, _file: &Self::File, _old: &Metadata) {}

    fn is_private(&self, _found: &Metadata) -> bool {
        true
    }
}
