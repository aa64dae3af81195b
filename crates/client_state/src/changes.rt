//! The file of changes beside the file of a hint: what moves the hint on, so that it needn't be
//! written anew.

use crate::fault::FolderFault;
use crate::files::{is_free, lock_beside, open_file, remove_file};
use crate::folder::Folder;
use crate::kept::KeptFile;
use change_file::{Block, ChangesEnd, HEAD_LEN, block_bytes, empty_end, end_in, head_bytes};
use client_core::{Plan, Scheme};
use hint_file::{HintError, HintFields, KeptHead, file_name};
use safe_files::FileSystem;
use std::alloc::{AllocError, Global};
use std::fs::{OpenFile, OpenOptions};
use std::os::unix::fs::OpenOptionsExt;

/// The mode of a file that is made: its owner alone may use it.
const FILE_MODE: u32 = 0o600;

/// The changes that are kept beside a hint's file: the bytes of the head and of all whole blocks,
/// and where they end.
#[derive(Drop)]
pub struct KeptChanges {
    bytes: Vec<u8>,
    end: ChangesEnd,
}

impl KeptChanges {
    /// The head and the blocks.
    pub fn bytes(&self) -> &[u8] {
        &self.bytes
    }

    /// The version to which they move the hint: that of the hint, if there are none.
    pub fn version(&self) -> u64 {
        self.end.version
    }

    /// Whether there are none.
    pub fn is_empty(&self) -> bool {
        self.bytes.len() <= HEAD_LEN
    }

    /// Which hint the file has once the changes have moved it, by the head of the file. The server
    /// had reported this version, or a later one.
    pub fn moved_fields(&self, head: &KeptHead) -> HintFields {
        let mut fields = head.fields;
        fields.version = self.end.version;
        if fields.known.version <= self.end.version {
            fields.known.version = self.end.version;
            fields.known.count = self.end.count;
        }
        fields
    }

    // None yet: the head alone.
    fn none<R: FileSystem>(
        alloc: Global,
        kept: &KeptFile<'_, R>,
    ) -> Result<KeptChanges, AllocError> {
        let fields = &kept.head().fields;
        let bytes = head_bytes(kept.digest()).to_vec(alloc)?;
        let end = empty_end(kept.digest(), fields.version, fields.known.count);
        Ok(KeptChanges { bytes, end })
    }

    // Those in the bytes of a file, whose end is ignored; none if it is of another hint's file.
    fn of<R: FileSystem>(
        alloc: Global,
        kept: &KeptFile<'_, R>,
        mut bytes: Vec<u8>,
    ) -> Result<KeptChanges, AllocError> {
        match end_of(kept, &bytes) {
            Some(end) => {
                bytes.truncate(end.len);
                Ok(KeptChanges { bytes, end })
            }
            None => KeptChanges::none(alloc, kept),
        }
    }

    // Adds a block of so many bytes, after which the whole blocks end there.
    fn add(&mut self, bytes: &[u8], end: ChangesEnd) -> Result<(), AllocError> {
        self.bytes.extend_from_slice(bytes)?;
        self.end = end;
        Ok(())
    }
}

// Where the whole blocks of a file end, if they are of this hint's file.
fn end_of<R: FileSystem>(kept: &KeptFile<'_, R>, bytes: &[u8]) -> Option<ChangesEnd> {
    let fields = &kept.head().fields;
    end_in(bytes, kept.digest(), fields.version, fields.known.count)
}

/// How many bytes of changes are kept beside a hint at most: an eighth of its bytes. Once there
/// would be more, the hint is written anew.
pub fn most_changes(fields: &HintFields) -> usize {
    fields.rows.saturating_mul(fields.cols) / 2
}

impl<'a, R: FileSystem> Folder<'a, R> {
    /// The changes that are kept beside an open hint's file. A file of another hint, one of more
    /// bytes than there may be, and one that can't be read are none: the hint is sound without
    /// them.
    ///
    /// # Errors
    ///
    /// `AllocError` when memory was refused.
    pub fn changes(&self, kept: &KeptFile<'_, R>) -> Result<KeptChanges, AllocError> {
        let alloc = self.rt().alloc();
        let fields = &kept.head().fields;
        let name = changes_name(alloc, fields.scheme, &fields.known.plan)?;
        match open_file(self.rt(), self.path(), name.as_str()) {
            Ok(Some(file)) => match bytes_of(self.rt(), &file, most_bytes(fields))? {
                Some(bytes) => KeptChanges::of(alloc, kept, bytes),
                None => KeptChanges::none(alloc, kept),
            },
            Ok(None) | Err(FolderFault::State) => KeptChanges::none(alloc, kept),
            Err(FolderFault::Memory) => Err(AllocError),
        }
    }

    /// Adds a block to the changes that were read, and to those that are kept beside a hint's file
    /// if there is room. Returns whether there was: if not, the hint is to be written anew. Nothing
    /// is written when another run writes the hint's file or its changes, or has written them since
    /// these were read.
    ///
    /// # Errors
    ///
    /// `State` when the file can't be written, or there is no block of so many entries, which alone
    /// is not added to those read; `Memory` when memory was refused: then nothing was.
    pub fn add_changes(
        &self,
        kept: &KeptFile<'_, R>,
        changes: &mut KeptChanges,
        block: &Block<'_>,
    ) -> Result<bool, FolderFault> {
        if block.entries.len() > u32::MAX as usize {
            return Err(FolderFault::State);
        }
        let added = block_bytes(self.rt().alloc(), &changes.end.link, block)?;
        let end = ChangesEnd {
            len: changes.bytes.len().saturating_add(added.bytes.len()),
            link: added.link,
            version: block.version,
            count: block.count,
        };
        let has_room = end.len <= most_bytes(&kept.head().fields);
        let written = if has_room {
            self.write_changes(kept, changes, &added.bytes)
        } else {
            Ok(())
        };
        changes.add(&added.bytes, end)?;
        written?;
        Ok(has_room)
    }

    // Writes a block after those read, or, if the file has none of this hint's, the head and these
    // before it.
    fn write_changes(
        &self,
        kept: &KeptFile<'_, R>,
        changes: &KeptChanges,
        block: &[u8],
    ) -> Result<(), FolderFault> {
        let path = self.changes_path(kept)?;
        if !is_free(self.rt(), path.as_str()) {
            return Err(FolderFault::State);
        }
        let Some(_lock) = lock_beside(self.rt(), path.as_str())? else {
            return Ok(());
        };
        if self.still_has(kept, changes)? {
            write_block(self.rt(), path.as_str(), changes, block)
        } else {
            Ok(())
        }
    }

    // The name of the file of changes beside a hint's file, with the folder's.
    fn changes_path(&self, kept: &KeptFile<'_, R>) -> Result<String, AllocError> {
        let alloc = self.rt().alloc();
        let fields = &kept.head().fields;
        let folder = self.path();
        let name = changes_name(alloc, fields.scheme, &fields.known.plan)?;
        format!(in alloc; "{folder}/{name}")
    }

    // Whether the folder has this hint still, and these changes beside it.
    fn still_has(
        &self,
        kept: &KeptFile<'_, R>,
        changes: &KeptChanges,
    ) -> Result<bool, FolderFault> {
        let fields = &kept.head().fields;
        match self.kept(fields.scheme, &fields.known.plan) {
            Ok(Some(now)) if now.digest() == kept.digest() => {}
            Err(HintError::Memory) => return Err(FolderFault::Memory),
            _ => return Ok(false),
        }
        Ok(self.changes(kept)?.end.link == changes.end.link)
    }

    /// Removes the changes that are kept beside the hint of a scheme and a store, when there are
    /// any.
    ///
    /// # Errors
    ///
    /// `State` when the file can't be removed, `Memory` when memory was refused.
    pub(crate) fn drop_changes(&self, scheme: Scheme, plan: &Plan) -> Result<(), FolderFault> {
        let name = changes_name(self.rt().alloc(), scheme, plan)?;
        remove_file(self.rt(), self.path(), name.as_str())
    }
}

// The name of the file of changes beside the hint of a scheme and a store.
fn changes_name(alloc: Global, scheme: Scheme, plan: &Plan) -> Result<String, AllocError> {
    let name = file_name(alloc, scheme, plan)?;
    format!(in alloc; "{name}.changes")
}

// Writes a block after the changes that were read, or, if there are none, the head before it.
fn write_block<R: FileSystem>(
    rt: &R,
    path: &str,
    changes: &KeptChanges,
    block: &[u8],
) -> Result<(), FolderFault> {
    let file = OpenOptions::new()
        .write(true)
        .create(true)
        .truncate(false)
        .mode(FILE_MODE)
        .open(rt, path)?;
    let at = changes.bytes.len() as u64;
    if changes.is_empty() {
        rt.write_all_at(&file, &changes.bytes, 0)?;
    }
    rt.write_all_at(&file, block, at)?;
    file.set_len(at.saturating_add(block.len() as u64))?;
    Ok(())
}

// How many bytes a file of changes may have.
fn most_bytes(fields: &HintFields) -> usize {
    most_changes(fields).saturating_add(HEAD_LEN)
}

// The bytes of a file, if they are so many at most and can be read.
fn bytes_of<R: FileSystem>(
    rt: &R,
    file: &R::File,
    most: usize,
) -> Result<Option<Vec<u8>>, AllocError> {
    let len = match file.metadata() {
        Ok(found) if found.len() <= most as u64 => found.len() as usize,
        _ => return Ok(None),
    };
    let mut bytes = vec![in rt.alloc(); 0u8; len]?;
    match rt.read_exact_at(file, &mut bytes, 0) {
        Ok(()) => Ok(Some(bytes)),
        Err(_) => Ok(None),
    }
}
