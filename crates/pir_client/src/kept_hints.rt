//! A hint that a folder keeps, with the changes beside it that move it on: of a SimplePIR hint the
//! rows of one record are read, and moved, when it is asked for.

ghost use Rattle.std.specs.Prelude.{◌≡◌, ◌≤◌, IsTrue};
ghost use Rattle.digit_pack.specs.Layout.{digit_rows};
ghost use Rattle.pir_schemes.specs.Plans.{shape_at};

use crate::failures::{BAD_REPLY, MEMORY};
use crate::server::Server;
use change_file::Block;
use client_commands::CommandError;
use client_state::{Folder, FolderFault, KeptChanges, KeptFile};
use connection_io::piece_buffer;
use digit_pack::is_wide;
use frame_codec::{Frame, FrameRead, ReadFault, Reader};
use hint_file::{HintError, HintFields, KeptHead, KeptHint, PartSpan, parts_for};
use kept_changes::{ChangesReply, changes_ask, hint_after, judged, rows_after};
use session_core::{ConverseFault, Hint, Lanes, Plan, Scheme, ServerInfo};
use std::alloc::{AllocError, Global};
use std::io::{Read, Write};

/// The most words that a secret has.
const MOST_DIMENSION: usize = 1024;

/// The most reads for one reply.
const TURNS: u64 = 1_000_000;

/// The hint of a scheme and a store, with the changes beside its file.
#[derive(Drop)]
pub struct MovedHint<'a> {
    rt: &'a HostRuntime,
    file: KeptFile<'a>,
    changes: KeptChanges,
}

/// How far a hint that is kept was moved.
#[derive(Clone, Copy, Debug, PartialEq, Eq)]
pub enum Moved {
    /// As far as could be: to the version known, if the server said what had changed until then.
    On,
    /// Likewise, but what was added isn't kept for the next run.
    NotKept,
    /// Likewise, but there was no room for what was added: the hint is to be written anew.
    Full,
    /// Nowhere: the server doesn't have the changes since its version, which are too many, or too
    /// long ago.
    Nowhere,
}

impl<'a> MovedHint<'a> {
    /// The hint that is kept, if there is one. The head of its file is read, and the changes.
    ///
    /// # Errors
    ///
    /// As those of [`Folder::kept`].
    pub fn of(
        rt: &'a HostRuntime,
        folder: &Folder<'a>,
        scheme: Scheme,
        plan: &Plan,
    ) -> Result<Option<MovedHint<'a>>, HintError> {
        let Some(file) = folder.kept(scheme, plan)? else {
            return Ok(None);
        };
        let changes = folder.changes(&file)?;
        Ok(Some(MovedHint { rt, file, changes }))
    }

    /// Which hint it is, once the changes have moved it.
    pub fn fields(&self) -> HintFields {
        self.changes.moved_fields(self.file.head())
    }

    /// The parts with the rows of a record, if the hint is one of SimplePIR and, moved, of the
    /// version known.
    pub fn parts_for(&self, now: &ServerInfo, index: u32) -> Option<PartSpan> {
        let head = KeptHead {
            fields: self.fields(),
            digests: Vec::new(self.rt.alloc()),
        };
        parts_for(&head, now, index)
    }

    /// The rows of a record, moved to the version known; the hint's other rows are zeros, or of no
    /// version.
    ///
    /// # Errors
    ///
    /// `Damaged` when the parts have other bytes than the head of the file says, or the changes are
    /// of no use; `Read` when they can't be read; `Memory` when memory was refused.
    pub fn rows(&self, now: &ServerInfo, span: PartSpan, index: u32) -> Result<Hint, HintError> {
        let rows = self.file.parts(span)?;
        if self.changes.is_empty() {
            return Ok(rows);
        }
        let bytes = self.changes.bytes();
        let digest = self.file.digest();
        match rows_moved(self.rt.alloc(), &now.plan, digest, bytes, rows, index)? {
            Some(moved) => Ok(moved),
            None => Err(HintError::Damaged),
        }
    }

    /// Zeros in place of the rows, of the version known.
    ///
    /// # Errors
    ///
    /// As those of [`KeptFile::parts`].
    pub fn zeros(&self, now: &ServerInfo) -> Result<Hint, HintError> {
        let zeros = self.file.parts(PartSpan { first: 0, end: 0 })?;
        Ok(Hint {
            version: now.version,
            ..zeros
        })
    }

    /// The whole hint, moved, with what the server had reported last.
    ///
    /// # Errors
    ///
    /// As those of [`MovedHint::rows`].
    pub fn whole(&self) -> Result<KeptHint, HintError> {
        let whole = self.file.whole()?;
        if self.changes.is_empty() {
            return Ok(whole);
        }
        let known = self.fields().known;
        let bytes = self.changes.bytes();
        let digest = self.file.digest();
        match whole_moved(self.rt.alloc(), &known.plan, digest, bytes, whole.hint)? {
            Some(hint) => Ok(KeptHint { known, hint }),
            None => Err(HintError::Damaged),
        }
    }

    /// Asks which records have changed, if the hint is one of SimplePIR of a wide store and of an
    /// earlier version than the one known, and adds them to the changes beside it. Of these frames
    /// nothing depends on a record.
    ///
    /// # Errors
    ///
    /// `Refused` when the server refused it, `Conversation` when it came to no reply, `Call` when
    /// memory was refused.
    pub fn move_on(
        &mut self,
        folder: &Folder<'a>,
        server: &Server,
        now: &ServerInfo,
    ) -> Result<Moved, CommandError> {
        let fields = self.fields();
        if fields.scheme != Scheme::Simple
            || !is_wide(now.plan.form)
            || fields.version >= now.version
        {
            return Ok(Moved::On);
        }
        let ask = changes_ask(self.rt.alloc(), fields.version).map_err(|_| MEMORY)?;
        let reply = reply_to(self.rt.alloc(), server, &ask)?;
        if let Frame::Refused { code } = reply {
            return Err(CommandError::Refused(code));
        }
        match judged(now, fields.version, &reply) {
            ChangesReply::Moves(block) => self.add(folder, now, &block),
            ChangesReply::NoChanges => Ok(Moved::Nowhere),
            ChangesReply::Other => Err(BAD_REPLY),
        }
    }

    // Adds a block to the changes, if it leads to the version known. If another was published
    // meanwhile, the next sync says so.
    fn add(
        &mut self,
        folder: &Folder<'a>,
        now: &ServerInfo,
        block: &Block<'_>,
    ) -> Result<Moved, CommandError> {
        if block.version != now.version || block.count != now.count {
            return Ok(Moved::On);
        }
        match folder.add_changes(&self.file, &mut self.changes, block) {
            Ok(true) => Ok(Moved::On),
            Ok(false) => Ok(Moved::Full),
            Err(FolderFault::State) => Ok(Moved::NotKept),
            Err(FolderFault::Memory) => Err(MEMORY),
        }
    }
}

// Whether a hint has the rows and columns of a plan, of which so many records have a layout.
fn is_of_plan(plan: &Plan, hint: &Hint, count: usize) -> bool
    ensures dimension { IsTrue result →
        (1 ≤ plan.now.dimension) × (plan.now.dimension ≤ 1024) }
    ensures rows { IsTrue result →
        hint.now.matrix.rows ≡ digit_rows (shape_at plan.now count) }
    ensures cols { IsTrue result → hint.now.matrix.cols ≡ plan.now.dimension }
{
    let Ok(layout) = plan.layout(count) else {
        return false;
    };
    let dimension = usize::from(plan.dimension);
    hint.matrix.rows() == layout.rows()
        && hint.matrix.cols() == dimension
        && 1 <= dimension
        && dimension <= MOST_DIMENSION
}

// The rows of a record, moved by a file of changes. None if this is of no use.
fn rows_moved(
    alloc: Global,
    plan: &Plan,
    digest: &[u8; 32],
    bytes: &[u8],
    rows: Hint,
    index: u32,
) -> Result<Option<Hint>, AllocError> {
    let index = index as usize;
    if !is_of_plan(plan, &rows, index + 1) {
        return Ok(None);
    }
    rows_after(alloc, Lanes, plan, digest, bytes, rows, index)
}

// The whole hint, moved by a file of changes. None if this is of no use.
fn whole_moved(
    alloc: Global,
    plan: &Plan,
    digest: &[u8; 32],
    bytes: &[u8],
    hint: Hint,
) -> Result<Option<Hint>, AllocError> {
    if !is_of_plan(plan, &hint, 1) {
        return Ok(None);
    }
    hint_after(alloc, Lanes, plan, digest, bytes, hint)
}

// The reply of a wide store to an ask. Nothing comes after it before the next ask.
fn reply_to(alloc: Global, server: &Server, ask: &[u8]) -> Result<Frame, CommandError> {
    if (&mut &*server).write_all(ask).is_err() {
        return Err(CommandError::Conversation(ConverseFault::Write));
    }
    let mut buffer = piece_buffer(alloc).map_err(|_| MEMORY)?;
    let mut reader = Reader::new(alloc);
    for _ in 0..TURNS {
        let n = match (&mut &*server).read(&mut buffer) {
            Ok(0) => return Err(CommandError::Conversation(ConverseFault::Ended)),
            Ok(n) => n,
            Err(_) => return Err(CommandError::Conversation(ConverseFault::Read)),
        };
        match reader.feed_frame(true, &buffer[..n]) {
            Ok(
                FrameRead {
                    count,
                    frame: Some(frame),
                },
            ) if count == n => return Ok(frame),
            Ok(FrameRead { frame: None, .. }) => {}
            Err(ReadFault::Memory) => return Err(MEMORY),
            _ => return Err(BAD_REPLY),
        }
    }
    Err(CommandError::Conversation(ConverseFault::TurnsUsedUp))
}
