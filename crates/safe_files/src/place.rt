//! A file of the system, as a disk on which it is replaced.

use crate::beside::{folder_of, remove_beside};
use crate::content::Content;
use crate::disk::{Disk, DiskFailed};
use crate::locking::{FileLock, LockFault, lock};
use crate::replacing::{ReplaceFault, replace};
use crate::steady::SteadyFile;
use crate::system::FileSystem;
use std::alloc::AllocError;
use std::fs::{File, OpenFile, OpenOptions};
use std::io::ErrorKind;
use std::os::unix::fs::{MetadataExt, OpenOptionsExt, PermissionsExt};
use std::{fs, io, mem};

/// How many names with random digits are tried for the file beside, after the first name.
const RANDOM_NAMES: u32 = 7;

/// The mode of a file if there was none: its owner reads and writes it, and nobody else.
const NEW_MODE: u32 = 0o600;

/// The bits of a mode that say who may read, write and run a file.
const MODE_BITS: u32 = 0o7777;

/// A file of the system that is to be replaced, or made.
///
/// The new file has `.new` after its name, or, if something has that name, random digits too: what
/// is there already is never opened, followed or removed. The new file gets the old one's mode, and
/// its owner if the system permits that; 0600 if there was none. A file that a killed process left
/// beside stays there, unless [`Place::lock`] removes it.
#[derive(Drop)]
pub struct Place<'a, R: FileSystem = HostRuntime> {
    rt: &'a R,
    // The name of the file itself, if the name given leads to it by links.
    name: String,
    // The name of the file beside that was made last, or that is tried first.
    beside: String,
    // Names to try if something is there. Their memory is taken before anything is done.
    others: Vec<String>,
    // The folder, open since the file was made, so that it can surely be sent to the device later.
    folder: Option<R::File>,
    // A descriptor that is kept for the new file, so that there is one for it whatever else is
    // open.
    spare: Option<R::File>,
}

impl<'a, R: FileSystem> Place<'a, R> {
    /// The place of a file of this name. Nothing is opened.
    ///
    /// # Errors
    ///
    /// `AllocError` if memory for the names was refused.
    pub fn of(rt: &'a R, name: &str) -> Result<Place<'a, R>, AllocError> {
        let name = real_name(rt, name)?;
        let beside = format!(in rt.alloc(); "{name}.new")?;
        let others = random_names(rt, name.as_str())?;
        Ok(Place {
            rt,
            name,
            beside,
            others,
            folder: None,
            spare: None,
        })
    }

    /// Whether something is there that is no file, such as a terminal or a pipe: it can't be
    /// replaced, only written to.
    pub fn is_no_file(&self) -> bool {
        match fs::metadata(self.rt, self.name.as_str()) {
            Ok(found) => !found.is_file(),
            Err(_) => false,
        }
    }

    /// The name of the file itself, if the name given led to it by links.
    pub fn name(&self) -> &str {
        self.name.as_str()
    }

    /// Whether anything is at the name, even a link that leads nowhere.
    pub fn is_taken(&self) -> bool {
        match fs::symlink_metadata(self.rt, self.name.as_str()) {
            Ok(_) => true,
            Err(fault) => fault.kind() != ErrorKind::NotFound,
        }
    }

    /// Takes the lock of the file, on `NAME.lock` beside it, whether there is such a file or not.
    /// Then files that killed processes left beside it are removed, `NAME.new-` and 16 hex digits,
    /// and each file that is made beside it from then on has such a name. What a replacement needs
    /// is kept open.
    ///
    /// # Errors
    ///
    /// As [`lock`], and `Memory`.
    pub fn lock(&mut self) -> Result<FileLock<R>, LockFault> {
        let beside = format!(in self.rt.alloc(); "{}.lock", self.name)?;
        let taken = lock(self.rt, beside.as_str())?;
        if let Ok(old) = fs::metadata(self.rt, self.name.as_str()) {
            taken.keep_owner_of(self.rt, &old);
        }
        remove_beside(self.rt, self.name.as_str(), ".new-", "");
        if let Some(other) = self.others.get_mut(0) {
            mem::swap(&mut self.beside, other);
        }
        if let Ok(folder) = File::open(self.rt, folder_of(self.name.as_str())) {
            self.folder = Some(folder);
        }
        self.keep_spare();
        Ok(taken)
    }

    /// Opens the file to read it.
    ///
    /// # Errors
    ///
    /// As [`open_file`].
    pub fn open(&self) -> io::Result<SteadyFile<R::File>> {
        open_file(self.rt, self.name.as_str())
    }

    // Keeps a descriptor, if there is one.
    fn keep_spare(&mut self) {
        if let Some(folder) = &self.folder {
            self.spare = folder.try_clone().ok();
        }
    }

    // Makes a new file under the first of some names that nothing has.
    fn make_beside(&mut self) -> io::Result<R::File> {
        if self.folder.is_none() {
            self.folder = Some(File::open(self.rt, folder_of(self.name.as_str()))?);
        }
        self.spare = None;
        for at in 0..=self.others.len() {
            match new_file(self.rt, self.beside.as_str()) {
                Err(fault) if fault.kind() == ErrorKind::AlreadyExists => {}
                made => return made,
            }
            if let Some(other) = self.others.get_mut(at) {
                mem::swap(&mut self.beside, other);
            }
        }
        Err(ErrorKind::AlreadyExists.into())
    }

    // Gives the new file what the old one has, but its bytes.
    fn keep_access(&self, file: &R::File) -> io::Result<()> {
        match fs::symlink_metadata(self.rt, self.name.as_str()) {
            Ok(old) if !old.is_file() => Ok(()),
            Ok(old) => {
                self.rt.keep_owner(file, &old);
                let mut access = old.permissions();
                access.set_mode(old.mode() & MODE_BITS);
                file.set_permissions(access)
            }
            Err(fault) if fault.kind() == ErrorKind::NotFound => Ok(()),
            Err(fault) => Err(fault),
        }
    }
}

impl<R: FileSystem> Disk for Place<'_, R> {
    type File = SteadyFile<R::File>;

    fn make(&mut self) -> Result<SteadyFile<R::File>, DiskFailed> {
        let Ok(file) = self.make_beside() else {
            return Err(DiskFailed);
        };
        match self.keep_access(&file) {
            Ok(()) => Ok(SteadyFile::new(file)),
            Err(_) => {
                self.remove();
                Err(DiskFailed)
            }
        }
    }

    fn sync(&mut self, file: &SteadyFile<R::File>) -> Result<(), DiskFailed> {
        match file.file().sync_all() {
            Ok(()) => Ok(()),
            Err(_) => Err(DiskFailed),
        }
    }

    fn rename(&mut self, file: SteadyFile<R::File>) -> Result<(), DiskFailed> {
        drop(file);
        self.keep_spare();
        match fs::rename(self.rt, self.beside.as_str(), self.name.as_str()) {
            Ok(()) => Ok(()),
            Err(_) => Err(DiskFailed),
        }
    }

    fn sync_folder(&mut self) -> Result<(), DiskFailed> {
        let Some(folder) = &self.folder else {
            return Err(DiskFailed);
        };
        match folder.sync_all() {
            Ok(()) => Ok(()),
            // A file system on which a folder can't be synced: nothing more can be done.
            Err(fault) if fault.kind() == ErrorKind::InvalidInput => Ok(()),
            Err(_) => Err(DiskFailed),
        }
    }

    fn remove(&mut self) {
        // Nothing better can be done if that fails: the file stays, and the next one gets another
        // name.
        let _ = fs::remove_file(self.rt, self.beside.as_str());
    }
}

/// Replaces the file of this name by one with this content, or makes it, by a [`Place`].
///
/// # Errors
///
/// As [`replace`], and `Memory` if memory for the names was refused.
pub fn replace_file<R: FileSystem, C: Content>(
    rt: &R,
    name: &str,
    content: &C,
) -> Result<(), ReplaceFault> {
    let Ok(mut place) = Place::of(rt, name) else {
        return Err(ReplaceFault::Memory);
    };
    replace(rt.alloc(), &mut place, content)
}

/// The name of the file that a name leads to by links, if there is a file and its name is text;
/// else the name itself.
pub(crate) fn real_name<R: FileSystem>(rt: &R, name: &str) -> Result<String, AllocError> {
    match fs::canonicalize(rt, name) {
        Ok(path) => String::from_str(rt.alloc(), path.to_str().unwrap_or(name)),
        Err(fault) if fault.kind() == ErrorKind::OutOfMemory => Err(AllocError),
        Err(_) => String::from_str(rt.alloc(), name),
    }
}

/// Opens a file to read it.
///
/// # Errors
///
/// If it can't be opened, or is not a file (but a folder, for example). A pipe is not waited for.
pub fn open_file<R: FileSystem>(rt: &R, name: &str) -> io::Result<SteadyFile<R::File>> {
    if !fs::metadata(rt, name)?.is_file() {
        return Err(ErrorKind::InvalidInput.into());
    }
    let file = File::open(rt, name)?;
    if !file.metadata()?.is_file() {
        return Err(ErrorKind::InvalidInput.into());
    }
    Ok(SteadyFile::new(file))
}

// Names beside a file that nobody can guess; none if there is no randomness.
fn random_names<R: FileSystem>(rt: &R, name: &str) -> Result<Vec<String>, AllocError> {
    let mut names = Vec::new(rt.alloc());
    for _ in 0..RANDOM_NAMES {
        let mut digits = [0u8; 8];
        if rt.fill_bytes(&mut digits).is_err() {
            return Ok(names);
        }
        let digits = u64::from_le_bytes(digits);
        names.push(format!(in rt.alloc(); "{name}.new-{digits:016x}")?)?;
    }
    Ok(names)
}

// Makes a file if nothing has the name.
fn new_file<R: FileSystem>(rt: &R, name: &str) -> io::Result<R::File> {
    OpenOptions::new()
        .write(true)
        .create_new(true)
        .mode(NEW_MODE)
        .open(rt, name)
}
