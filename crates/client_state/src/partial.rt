//! The file of a hint of which only the first parts are there: what a fetch that was cut leaves.

use crate::fault::{FolderFault, read_fault};
use crate::files::{is_free, lock_beside, unless_held};
use crate::folder::Folder;
use crate::kept::KeptFile;
use client_core::{Scheme, ServerInfo};
use hint_file::{
    HintError, KeptHead, PartSpan, are_parts, empty_part, file_name, head_to_fetch, part_ask,
    part_digest, partial_front, place_of, whole_head,
};
use safe_files::{Disk, FileLock, FileSystem, Place};
use std::alloc::AllocError;
use std::fs;
use std::fs::{OpenFile, OpenOptions};
use std::os::unix::fs::OpenOptionsExt;

/// The mode of a file that is made: its owner alone may use it.
const FILE_MODE: u32 = 0o600;

/// How many bytes a part's digest has.
const DIGEST_LEN: usize = 32;

/// How many bytes come before the digests.
const FRONT_LEN: usize = 86;

/// The file of a hint that is fetched part by part, open. While this value lives no other run adds
/// to it.
#[derive(Drop)]
pub struct PartialFile<'a, R: FileSystem = HostRuntime> {
    folder: Folder<'a, R>,
    held: HeldFile<R>,
    paths: PartPaths,
    head: KeptHead,
    taken: u32,
}

// A partial file, open.
#[derive(Drop)]
struct HeldFile<R: FileSystem> {
    file: R::File,
    // Given back when the value is dropped.
    _lock: FileLock<R>,
}

// The names of the file of a hint and of its partial file.
#[derive(Drop)]
struct PartPaths {
    whole: String,
    partial: String,
}

/// A hint that was fetched.
#[derive(Drop)]
pub struct Fetched<'a, R: FileSystem = HostRuntime> {
    pub file: KeptFile<'a, R>,
    /// Whether it could be kept for the next run.
    pub could_keep: bool,
}

impl<'a, R: FileSystem> Folder<'a, R> {
    /// The partial file of the hint of the version known: the one that is there, with its first
    /// whole parts, or a new one in place of that of another version. None when another run adds to
    /// it, or when there is no such hint.
    ///
    /// # Errors
    ///
    /// `State` when the file can't be made or read, `Memory` when memory was refused.
    pub fn partial(
        &self,
        known: &ServerInfo,
        scheme: Scheme,
    ) -> Result<Option<PartialFile<'a, R>>, FolderFault> {
        let Some(head) = head_to_fetch(self.rt().alloc(), known, scheme)? else {
            return Ok(None);
        };
        let paths = self.part_paths(known, scheme)?;
        let Some(held) = held_file(self.rt(), paths.partial.as_str(), &head)? else {
            return Ok(None);
        };
        let found = PartialFile {
            folder: *self,
            held,
            paths,
            head,
            taken: 0,
        };
        Ok(Some(found.counted()?))
    }

    /// Drops the partial file of a scheme and a store, when there is one and no other run adds to
    /// it.
    ///
    /// # Errors
    ///
    /// `State` when it can't be removed, `Memory` when memory was refused.
    pub fn drop_partial(&self, known: &ServerInfo, scheme: Scheme) -> Result<(), FolderFault> {
        let PartPaths { partial, .. } = self.part_paths(known, scheme)?;
        if fs::symlink_metadata(self.rt(), partial.as_str()).is_err() {
            return Ok(());
        }
        if let Some(_taken) = lock_beside(self.rt(), partial.as_str())? {
            fs::remove_file(self.rt(), partial.as_str())?;
        }
        Ok(())
    }

    // The names of the file of a hint and of its partial file.
    fn part_paths(&self, known: &ServerInfo, scheme: Scheme) -> Result<PartPaths, FolderFault> {
        let alloc = self.rt().alloc();
        let name = file_name(alloc, scheme, &known.plan)?;
        let folder = self.path();
        let whole = format!(in alloc; "{folder}/{name}")?;
        let partial = format!(in alloc; "{whole}.part")?;
        Ok(PartPaths { whole, partial })
    }
}

impl<'a, R: FileSystem> PartialFile<'a, R> {
    /// How many parts the hint has.
    pub fn parts(&self) -> usize {
        self.head.digests.len() / DIGEST_LEN
    }

    /// How many parts are there, from the first one on. The next one to be fetched has this number.
    pub fn taken(&self) -> usize {
        self.taken as usize
    }

    /// How many bytes the next part has; none when all are there.
    pub fn next_len(&self) -> Option<usize> {
        let (_, len) = place_of(&self.head, self.next())?;
        Some(len)
    }

    /// The frame that asks for the next part.
    ///
    /// # Errors
    ///
    /// `AllocError` when memory was refused.
    pub fn ask(&self) -> Result<Vec<u8>, AllocError> {
        part_ask(self.folder.rt().alloc(), &self.head, self.taken)
    }

    /// The frame of the next part, if it had no words.
    ///
    /// # Errors
    ///
    /// `AllocError` when memory was refused.
    pub fn reply_head(&self) -> Result<Vec<u8>, AllocError> {
        empty_part(self.folder.rt().alloc(), &self.head, self.taken)
    }

    /// Adds the next part. Its bytes are written before their digest, so that a file that was cut
    /// between has one part less.
    ///
    /// # Errors
    ///
    /// `State` when they are not as many bytes as the next part has, or can't be written.
    pub fn add(&mut self, bytes: &[u8]) -> Result<(), FolderFault> {
        match place_of(&self.head, self.next()) {
            Some((start, len)) if len == bytes.len() => {
                let rt = self.folder.rt();
                rt.write_all_at(&self.held.file, bytes, start)?
            }
            _ => return Err(FolderFault::State),
        }
        let digest = part_digest(bytes);
        let rt = self.folder.rt();
        rt.write_all_at(&self.held.file, &digest, digest_place(self.taken()))?;
        self.note(digest);
        self.taken = self.taken.saturating_add(1);
        Ok(())
    }

    /// Makes the file, in which all parts are, the hint's file: sends it to the device, with the
    /// whole head then, gives it the name and sends the folder to the device. What is read of it
    /// goes through the file that is open, whatever becomes of its names.
    ///
    /// # Errors
    ///
    /// `Read` when it can't be written, `Damaged` when parts are missing, `Memory` when memory was
    /// refused.
    pub fn finish(self) -> Result<Fetched<'a, R>, HintError> {
        if self.taken() < self.parts() {
            return Err(HintError::Damaged);
        }
        self.seal().map_err(read_fault)?;
        let could_keep = self.take_place().is_ok();
        let PartialFile { folder, held, .. } = self;
        let HeldFile { file, .. } = held;
        let file = KeptFile::of(folder.rt(), file)?;
        Ok(Fetched { file, could_keep })
    }

    /// Removes the file.
    pub fn discard(self) {
        // One that stays is judged again by the next run.
        let _ = fs::remove_file(self.folder.rt(), self.paths.partial.as_str());
    }

    // The next part.
    fn next(&self) -> PartSpan {
        PartSpan {
            first: self.taken(),
            end: self.taken().saturating_add(1),
        }
    }

    // The same, with its parts counted.
    fn counted(mut self) -> Result<PartialFile<'a, R>, FolderFault> {
        self.count()?;
        Ok(self)
    }

    // Counts the parts from the first one on that are whole, with their digests.
    fn count(&mut self) -> Result<(), FolderFault> {
        for _ in 0..self.parts() {
            if !self.has_next()? {
                return Ok(());
            }
            self.taken = self.taken.saturating_add(1);
        }
        Ok(())
    }

    // Whether the next part is in the file.
    fn has_next(&mut self) -> Result<bool, FolderFault> {
        let alloc = self.folder.rt().alloc();
        let Some((start, len)) = place_of(&self.head, self.next()) else {
            return Ok(false);
        };
        let mut digest = [0u8; DIGEST_LEN];
        let mut bytes = vec![in alloc; 0u8; len]?;
        let rt = self.folder.rt();
        if rt
            .read_exact_at(&self.held.file, &mut digest, digest_place(self.taken()))
            .is_err()
            || rt
                .read_exact_at(&self.held.file, &mut bytes, start)
                .is_err()
        {
            return Ok(false);
        }
        self.note(digest);
        Ok(are_parts(alloc, &self.head, self.next(), &bytes)?)
    }

    // Notes the digest of the next part in the head.
    fn note(&mut self, digest: [u8; DIGEST_LEN]) {
        let start = self.taken().saturating_mul(DIGEST_LEN);
        let digests = self.head.digests.as_mut_slice();
        if start > digests.len() {
            return;
        }
        let (_, rest) = digests.split_at_mut(start);
        if rest.len() < DIGEST_LEN {
            return;
        }
        let (place, _) = rest.split_at_mut(DIGEST_LEN);
        place.copy_from_slice(&digest);
    }

    // Writes the whole head, once all parts are on the device: a run that is killed meanwhile
    // leaves them as parts.
    fn seal(&self) -> Result<(), FolderFault> {
        let file = &self.held.file;
        file.sync_all()?;
        let head = whole_head(self.folder.rt().alloc(), &self.head)?;
        self.folder.rt().write_all_at(file, &head, 0)?;
        file.set_len(self.whole_len())?;
        file.sync_all()?;
        Ok(())
    }

    // How many bytes the whole file has.
    fn whole_len(&self) -> u64 {
        let end = self.parts();
        let last = PartSpan {
            first: end.saturating_sub(1),
            end,
        };
        match place_of(&self.head, last) {
            Some((start, len)) => start.saturating_add(len as u64),
            None => 0,
        }
    }

    // Gives the file the hint's name, unless another run writes that, or has kept a newer one: then
    // it is removed.
    fn take_place(&self) -> Result<(), FolderFault> {
        let rt = self.folder.rt();
        let taken = self.rename();
        if !matches!(taken, Ok(true)) {
            let _ = fs::remove_file(rt, self.paths.partial.as_str());
        }
        match taken {
            Ok(_) => Ok(()),
            Err(fault) => Err(fault),
        }
    }

    // Gives the file the hint's name. Returns whether it has it then.
    fn rename(&self) -> Result<bool, FolderFault> {
        let mut place = self.folder.place_at(self.paths.whole.as_str())?;
        let Some(_lock) = unless_held(place.lock())? else {
            return Ok(false);
        };
        let fields = &self.head.fields;
        if !self
            .folder
            .may_replace(&fields.known, fields.scheme, fields.version)?
        {
            return Ok(false);
        }
        self.rename_to(&mut place)
    }

    // Gives the file the name of a place that is locked.
    fn rename_to(&self, place: &mut Place<'_, R>) -> Result<bool, FolderFault> {
        let (from, to) = (self.paths.partial.as_str(), self.paths.whole.as_str());
        fs::rename(self.folder.rt(), from, to)?;
        let fields = &self.head.fields;
        // Those that stay name the hint before.
        let _ = self.folder.drop_changes(fields.scheme, &fields.known.plan);
        match place.sync_folder() {
            Ok(()) => Ok(true),
            Err(_) => Err(FolderFault::State),
        }
    }
}

// Where the digest of a part is.
fn digest_place(part: usize) -> u64 {
    FRONT_LEN.saturating_add(part.saturating_mul(DIGEST_LEN)) as u64
}

// The partial file of a hint, locked: the one that is there, or a new one. None when another run
// has it.
fn held_file<R: FileSystem>(
    rt: &R,
    path: &str,
    head: &KeptHead,
) -> Result<Option<HeldFile<R>>, FolderFault> {
    let Some(taken) = lock_beside(rt, path)? else {
        return Ok(None);
    };
    let file = standing_or_new(rt, path, head)?;
    Ok(Some(HeldFile { file, _lock: taken }))
}

// The partial file that is there, if it is of this hint, or a new one.
fn standing_or_new<R: FileSystem>(
    rt: &R,
    path: &str,
    head: &KeptHead,
) -> Result<R::File, FolderFault> {
    let front = partial_front(rt.alloc(), head)?;
    match standing(rt, path, &front)? {
        Some(file) => Ok(file),
        None => made(rt, path, &front),
    }
}

// The partial file that is there, if it begins so.
fn standing<R: FileSystem>(
    rt: &R,
    path: &str,
    front: &[u8],
) -> Result<Option<R::File>, FolderFault> {
    if !is_free(rt, path) {
        return Err(FolderFault::State);
    }
    let Ok(file) = OpenOptions::new().read(true).write(true).open(rt, path) else {
        return Ok(None);
    };
    let mut begins = [0u8; FRONT_LEN];
    if rt.read_exact_at(&file, &mut begins, 0).is_err() || begins.as_slice() != front {
        return Ok(None);
    }
    Ok(Some(file))
}

// A new partial file, in place of another.
fn made<R: FileSystem>(rt: &R, path: &str, front: &[u8]) -> Result<R::File, FolderFault> {
    let _ = fs::remove_file(rt, path);
    let file = OpenOptions::new()
        .read(true)
        .write(true)
        .create_new(true)
        .mode(FILE_MODE)
        .open(rt, path)?;
    rt.write_all_at(&file, front, 0)?;
    Ok(file)
}
