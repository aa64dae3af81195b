//! A hint that a folder keeps, with the changes beside it that move it on: of a SimplePIR hint the
//! rows of one record are read, and moved, when it is asked for.

ghost use Rattle.std.specs.Prelude.{◌≡◌, ◌≤◌, IsTrue};
ghost use Rattle.digit_pack.specs.Layout.{digit_rows};
ghost use Rattle.pir_schemes.specs.Plans.{shape_at};

use change_file::Block;
use client_core::{Hint, Plan, Scheme, ServerInfo};
use client_state::{Folder, FolderFault, KeptChanges, KeptFile};
use digit_pack::is_wide;
use hint_file::{HintError, HintFields, KeptHead, KeptHint, PartSpan, parts_for};
use kept_changes::{hint_after, rows_after};
use lane_kernels::Lanes;
use safe_files::FileSystem;
use std::alloc::{AllocError, Global};

/// The most words that a secret has.
const MOST_DIMENSION: usize = 1024;

/// The hint of a scheme and a store, with the changes beside its file.
#[derive(Drop)]
pub struct MovedHint<'a, R: FileSystem> {
    alloc: Global,
    file: KeptFile<'a, R>,
    changes: KeptChanges,
}

/// How far a hint that is kept was moved.
#[derive(Clone, Copy, Debug, PartialEq, Eq)]
pub enum Moved {
    /// As far as could be: to the version known, if the server said what had changed until then.
    On,
    /// Likewise, but what was added isn't kept for the next run.
    NotKept,
    /// Likewise, but there was no room for what was added: the hint is to be written anew.
    Full,
}

impl<'a, R: FileSystem> MovedHint<'a, R> {
    /// The hint that is kept, if there is one. The head of its file is read, and the changes.
    ///
    /// # Errors
    ///
    /// As those of [`Folder::kept`].
    pub fn of(
        alloc: Global,
        folder: &Folder<'a, R>,
        scheme: Scheme,
        plan: &Plan,
    ) -> Result<Option<MovedHint<'a, R>>, HintError> {
        let Some(file) = folder.kept(scheme, plan)? else {
            return Ok(None);
        };
        let changes = folder.changes(&file)?;
        Ok(Some(MovedHint {
            alloc,
            file,
            changes,
        }))
    }

    /// Which hint it is, once the changes have moved it.
    pub fn fields(&self) -> HintFields {
        self.changes.moved_fields(self.file.head())
    }

    /// The parts with the rows of a record, if the hint is one of SimplePIR and, moved, of the
    /// version known.
    pub fn parts_for(&self, now: &ServerInfo, index: u32) -> Option<PartSpan> {
        let head = KeptHead {
            fields: self.fields(),
            digests: Vec::new(self.alloc),
        };
        parts_for(&head, now, index)
    }

    /// The rows of a record, moved to the version known; the hint's other rows are zeros, or of no
    /// version.
    ///
    /// # Errors
    ///
    /// `Damaged` when the parts have other bytes than the head of the file says, or the changes are
    /// of no use; `Read` when they can't be read; `Memory` when memory was refused.
    pub fn rows(&self, now: &ServerInfo, span: PartSpan, index: u32) -> Result<Hint, HintError> {
        let rows = self.file.parts(span)?;
        if self.changes.is_empty() {
            return Ok(rows);
        }
        let bytes = self.changes.bytes();
        let digest = self.file.digest();
        match rows_moved(self.alloc, &now.plan, digest, bytes, rows, index)? {
            Some(moved) => Ok(moved),
            None => Err(HintError::Damaged),
        }
    }

    /// Zeros in place of the rows, of the version known.
    ///
    /// # Errors
    ///
    /// As those of [`KeptFile::parts`].
    pub fn zeros(&self, now: &ServerInfo) -> Result<Hint, HintError> {
        let zeros = self.file.parts(PartSpan { first: 0, end: 0 })?;
        Ok(Hint {
            version: now.version,
            ..zeros
        })
    }

    /// The whole hint, moved, with what the server had reported last.
    ///
    /// # Errors
    ///
    /// As those of [`MovedHint::rows`].
    pub fn whole(&self) -> Result<KeptHint, HintError> {
        let whole = self.file.whole()?;
        if self.changes.is_empty() {
            return Ok(whole);
        }
        let known = self.fields().known;
        let bytes = self.changes.bytes();
        let digest = self.file.digest();
        match whole_moved(self.alloc, &known.plan, digest, bytes, whole.hint)? {
            Some(hint) => Ok(KeptHint { known, hint }),
            None => Err(HintError::Damaged),
        }
    }

    /// The version since which it is asked which records have changed: that of the hint, if this is
    /// one of SimplePIR of a wide store, and earlier than the one known.
    pub fn asked_since(&self, now: &ServerInfo) -> Option<u64> {
        let fields = self.fields();
        if fields.scheme != Scheme::Simple
            || !is_wide(now.plan.form)
            || fields.version >= now.version
        {
            return None;
        }
        Some(fields.version)
    }

    /// Adds a block to the changes, if it leads to the version known. If another was published
    /// meanwhile, the next sync says so.
    pub fn add(
        &mut self,
        folder: &Folder<'a, R>,
        now: &ServerInfo,
        block: &Block<'_>,
    ) -> Result<Moved, AllocError> {
        if block.version != now.version || block.count != now.count {
            return Ok(Moved::On);
        }
        match folder.add_changes(&self.file, &mut self.changes, block) {
            Ok(true) => Ok(Moved::On),
            Ok(false) => Ok(Moved::Full),
            Err(FolderFault::State) => Ok(Moved::NotKept),
            Err(FolderFault::Memory) => Err(AllocError),
        }
    }
}

// Whether a hint has the rows and columns of a plan, of which so many records have a layout.
fn is_of_plan(plan: &Plan, hint: &Hint, count: usize) -> bool
    ensures dimension { IsTrue result →
        (1 ≤ plan.now.dimension) × (plan.now.dimension ≤ 1024) }
    ensures rows { IsTrue result →
        hint.now.matrix.rows ≡ digit_rows (shape_at plan.now count) }
    ensures cols { IsTrue result → hint.now.matrix.cols ≡ plan.now.dimension }
{
    let Ok(layout) = plan.layout(count) else {
        return false;
    };
    let dimension = usize::from(plan.dimension);
    hint.matrix.rows() == layout.rows()
        && hint.matrix.cols() == dimension
        && 1 <= dimension
        && dimension <= MOST_DIMENSION
}

// The rows of a record, moved by a file of changes. None if this is of no use.
fn rows_moved(
    alloc: Global,
    plan: &Plan,
    digest: &[u8; 32],
    bytes: &[u8],
    rows: Hint,
    index: u32,
) -> Result<Option<Hint>, AllocError> {
    let index = index as usize;
    if !is_of_plan(plan, &rows, index + 1) {
        return Ok(None);
    }
    rows_after(alloc, Lanes, plan, digest, bytes, rows, index)
}

// The whole hint, moved by a file of changes. None if this is of no use.
fn whole_moved(
    alloc: Global,
    plan: &Plan,
    digest: &[u8; 32],
    bytes: &[u8],
    hint: Hint,
) -> Result<Option<Hint>, AllocError> {
    if !is_of_plan(plan, &hint, 1) {
        return Ok(None);
    }
    hint_after(alloc, Lanes, plan, digest, bytes, hint)
}
