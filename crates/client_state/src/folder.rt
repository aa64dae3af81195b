//! A client's folder.

use crate::content::HintContent;
use crate::fault::{FolderFault, read_fault};
use crate::files::{add, is_free, names_in, open_file, remove_file, unless_held};
use crate::kept::KeptFile;
use crate::names::{is_hint_name, is_name_of_ours};
use client_core::{Hint, Plan, Scheme, ServerInfo};
use hint_file::{HintError, HintFields, KeptHead, file_name, hint_file, is_no_newer};
use safe_files::{FileSystem, Place, replace};
use std::alloc::Global;
use std::fs;
use std::fs::DirBuilder;
use std::io::ErrorKind;
use std::os::unix::fs::DirBuilderExt;

/// The mode of a folder that is made: its owner alone may use it.
const FOLDER_MODE: u32 = 0o700;

/// A client's folder, which is not locked: any number of runs may use it.
#[derive(Clone, Copy)]
pub struct Folder<'a, R: FileSystem = HostRuntime> {
    rt: &'a R,
    path: &'a str,
}

/// The heads of the hints in a folder, in the order of the names of their files.
#[derive(Drop)]
pub struct KeptHeads {
    pub heads: Vec<KeptHead>,
    /// How many files have a hint's name, and are damaged or can't be read.
    pub damaged: usize,
}

impl<'a, R: FileSystem> Folder<'a, R> {
    /// Opens a folder, and makes it when there is none.
    ///
    /// # Errors
    ///
    /// `State` when the folder can't be made, when others than its owner may use it, and when what
    /// is there is no folder.
    pub fn open(rt: &'a R, path: &'a str) -> Result<Folder<'a, R>, FolderFault> {
        match DirBuilder::new().mode(FOLDER_MODE).create(rt, path) {
            Err(fault) if fault.kind() != ErrorKind::AlreadyExists => Err(FolderFault::State),
            _ => Folder::standing(rt, path),
        }
    }

    /// Opens an existing folder.
    ///
    /// # Errors
    ///
    /// `State` when there is no folder, or others than its owner may use it.
    pub fn standing(rt: &'a R, path: &'a str) -> Result<Folder<'a, R>, FolderFault> {
        match fs::metadata(rt, path) {
            Ok(found) if found.is_dir() && rt.is_private(&found) => Ok(Folder { rt, path }),
            _ => Err(FolderFault::State),
        }
    }

    /// The hint that is kept of a scheme and a store, when there is one. Its file is opened once,
    /// and its head is read.
    ///
    /// # Errors
    ///
    /// `Damaged` when its file begins with no head of such a hint, or is longer or shorter than
    /// that head says; `Read` when it can't be read; `Memory` when memory was refused.
    pub fn kept(&self, scheme: Scheme, plan: &Plan) -> Result<Option<KeptFile<'a, R>>, HintError> {
        let name = file_name(self.rt.alloc(), scheme, plan)?;
        let Some(kept) = self.opened(name.as_str())? else {
            return Ok(None);
        };
        let fields = &kept.head().fields;
        if fields.scheme != scheme || fields.known.plan != *plan {
            return Err(HintError::Damaged);
        }
        Ok(Some(kept))
    }

    /// Keeps a hint, with what the server has reported, in place of the one of its scheme and store
    /// that was kept before. Nothing is written when another run writes that file, or when it is of
    /// a later version, or says that one was reported.
    ///
    /// # Errors
    ///
    /// `State` when the file can't be written: the one before it is left, or the new one. `Memory`
    /// when memory was refused.
    pub fn keep(&self, known: &ServerInfo, hint: &Hint) -> Result<(), FolderFault> {
        let mut place = self.place_of(hint.scheme, &known.plan)?;
        let Some(_lock) = unless_held(place.lock())? else {
            return Ok(());
        };
        if !self.may_replace(known, hint.scheme, hint.version)? {
            return Ok(());
        }
        write_hint(self.rt.alloc(), &mut place, known, hint)?;
        // One that stays is judged by its version, or by the hint that it names, when it is wanted.
        let _ = self.drop_partial(known, hint.scheme);
        let _ = self.drop_changes(hint.scheme, &known.plan);
        Ok(())
    }

    /// Drops the hint of a scheme and a store, when there is one, and the changes beside it.
    ///
    /// # Errors
    ///
    /// `State` when their files can't be removed, `Memory` when memory was refused.
    pub fn discard(&self, scheme: Scheme, plan: &Plan) -> Result<(), FolderFault> {
        let name = file_name(self.rt.alloc(), scheme, plan)?;
        remove_file(self.rt, self.path, name.as_str())?;
        self.drop_changes(scheme, plan)
    }

    /// The heads of all hints that are kept, with the versions to which their changes have moved
    /// them.
    ///
    /// # Errors
    ///
    /// `State` when the folder can't be read, `Memory` when memory was refused.
    pub fn kept_heads(&self) -> Result<KeptHeads, FolderFault> {
        let mut heads = Vec::new(self.rt.alloc());
        let mut damaged = 0usize;
        for name in names_in(self.rt, self.path)? {
            if !is_hint_name(name.as_str()) {
                continue;
            }
            match self.head_of(name.as_str()) {
                Ok(Some(head)) => add(&mut heads, head)?,
                Ok(None) => {}
                Err(HintError::Memory) => return Err(FolderFault::Memory),
                Err(HintError::Damaged | HintError::Read) => damaged = damaged.saturating_add(1),
            }
        }
        Ok(KeptHeads { heads, damaged })
    }

    /// Drops all hints, with the locks of their files and what was left of writing them. Other
    /// files are left alone.
    ///
    /// # Errors
    ///
    /// `State` when a file can't be removed, `Memory` when memory was refused.
    pub fn forget(&self) -> Result<(), FolderFault> {
        for name in names_in(self.rt, self.path)? {
            if is_name_of_ours(name.as_str()) {
                remove_file(self.rt, self.path, name.as_str())?;
            }
        }
        Ok(())
    }

    /// The runtime.
    pub(crate) fn rt(&self) -> &'a R {
        self.rt
    }

    /// The folder's path.
    pub(crate) fn path(&self) -> &'a str {
        self.path
    }

    /// Where the file of this name is replaced.
    ///
    /// # Errors
    ///
    /// `State` when no file of its own is there, `Memory` when memory was refused.
    pub(crate) fn place_at(&self, path: &str) -> Result<Place<'a, R>, FolderFault> {
        if !is_free(self.rt, path) {
            return Err(FolderFault::State);
        }
        Ok(Place::of(self.rt, path)?)
    }

    // Where the file of a scheme and a store is replaced.
    fn place_of(&self, scheme: Scheme, plan: &Plan) -> Result<Place<'a, R>, FolderFault> {
        let alloc = self.rt.alloc();
        let folder = self.path;
        let name = file_name(alloc, scheme, plan)?;
        let path = format!(in alloc; "{folder}/{name}")?;
        self.place_at(path.as_str())
    }

    // The file of a hint, open.
    fn opened(&self, name: &str) -> Result<Option<KeptFile<'a, R>>, HintError> {
        match open_file(self.rt, self.path, name) {
            Ok(Some(file)) => Ok(Some(KeptFile::of(self.rt, file)?)),
            Ok(None) => Ok(None),
            Err(fault) => Err(read_fault(fault)),
        }
    }

    // The head of the file of a hint, which has the name that belongs to it.
    fn head_of(&self, name: &str) -> Result<Option<KeptHead>, HintError> {
        let Some(kept) = self.opened(name)? else {
            return Ok(None);
        };
        let fields = self.fields_of(&kept, name)?;
        let KeptHead { digests, .. } = kept.into_head();
        Ok(Some(KeptHead { fields, digests }))
    }

    // Which hint a file of this name has once its changes have moved it, if the name belongs to it.
    fn fields_of(&self, kept: &KeptFile<'_, R>, name: &str) -> Result<HintFields, HintError> {
        let fields = &kept.head().fields;
        let named = file_name(self.rt.alloc(), fields.scheme, &fields.known.plan)?;
        if named.as_str() != name {
            return Err(HintError::Damaged);
        }
        Ok(self.changes(kept)?.moved_fields(kept.head()))
    }

    /// Whether a hint of a version may take the place of the one that is kept: of one that is
    /// damaged or can't be read, too.
    pub(crate) fn may_replace(
        &self,
        known: &ServerInfo,
        scheme: Scheme,
        version: u64,
    ) -> Result<bool, FolderFault> {
        match self.kept(scheme, &known.plan) {
            Ok(Some(kept)) if is_no_newer(kept.head(), known, version) => {
                Ok(self.changes(&kept)?.version() <= version)
            }
            Ok(Some(_)) => Ok(false),
            Ok(None) | Err(HintError::Damaged | HintError::Read) => Ok(true),
            Err(HintError::Memory) => Err(FolderFault::Memory),
        }
    }
}

// Puts a hint's file in place of the one before it.
fn write_hint<R: FileSystem>(
    alloc: Global,
    place: &mut Place<'_, R>,
    known: &ServerInfo,
    hint: &Hint,
) -> Result<(), FolderFault> {
    let content = HintContent(hint_file(alloc, known, hint)?);
    replace(alloc, place, &content)?;
    Ok(())
}
