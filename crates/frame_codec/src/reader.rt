//! Frames out of a stream that comes in pieces.

ghost use Rattle.std.specs.Prelude.{◌≡◌, ◌≤◌, ◌↔◌, ◌-◌, IsTrue, true, ℕ, List, [], ◌∷◌, ◌++◌};
ghost use Rattle.std.specs.Prelude.{length, take, drop, None, Some, IfOk, IfErr, IfSome, IfNone};
ghost use Rattle.std.specs.Prelude.{OnOk, OnErr, vec_capacity};
ghost use Rattle.frame_codec.specs.declared.frame.Frame.{Frame};
ghost use Rattle.frame_codec.specs.declared.ahead.QueryHead.{QueryHead};
ghost use Rattle.frame_codec.specs.Frames.{encoding};
ghost use Rattle.frame_codec.specs.Streams.{Feeds, FeedsFrame, TakesFrame, HasPublishNext};
ghost use Rattle.frame_codec.specs.Streams.{HasQueryNext, IsFrameOf, IsPartial, SeesFrame, StopsAt};
ghost use Rattle.frame_codec.specs.Streams.{unfinished_size};

use crate::ahead::{QueryHead, query_head};
use crate::frame::Frame;
use crate::prefix::{begins_with_publish, frame_at, split_frame_len};
use std::alloc::{AllocError, AllocFailed, Global};
use std::marker::Model;
use thiserror::Error;

/// Why a reader stopped.
#[derive(Clone, Copy, Debug, PartialEq, Eq, Error)]
pub enum ReadFault {
    /// A payload of more than 16,777,216 bytes, judged at the fourth byte of the frame.
    #[error("a payload of more than 16777216 bytes")]
    TooLong,
    /// An unknown kind, judged at the fifth byte of the frame; 0a and 8a are kinds of a wide store
    /// alone.
    #[error("an unknown kind of frame")]
    UnknownKind,
    /// A payload that no frame of its kind has, judged at the last byte of the payload.
    #[error("a bad payload")]
    BadPayload,
    /// Memory was refused.
    #[error("out of memory")]
    Memory,
    /// An earlier feed had a fault.
    #[error("the stream had failed")]
    Failed,
}

impl From<AllocError> for ReadFault {
    ghost use Rattle.frame_codec.specs.declared.reader.ReadFault.TheVariants.{Memory};

    ghost from_gives = { λ _ fault. fault ≡ Memory };

    fn from(_refused: AllocError) -> Self {
        ReadFault::Memory
    }
}

impl<T: Drop> From<AllocFailed<T>> for ReadFault {
    ghost use Rattle.frame_codec.specs.declared.reader.ReadFault.TheVariants.{Memory};

    ghost from_gives = { λ _ fault. fault ≡ Memory };

    fn from(_refused: AllocFailed<T>) -> Self {
        ReadFault::Memory
    }
}

/// What a reader took of a piece: nothing after the first frame that the piece completes.
#[derive(Drop)]
pub struct FrameRead {
    /// How many bytes of the piece, from its start on.
    pub count: usize,
    /// The frame that they complete. Without one the whole piece was taken.
    pub frame: Option<Frame>,
}

/// The bytes of an unfinished frame, or the fact that the stream has failed: then no bytes are
/// kept, and no room for any. Whether the stream is one of a wide store, which has two more
/// kinds of frames, is said at each call.
#[derive(Drop)]
pub struct Reader {
    alloc: Global,
    pending: Vec<u8>,
    failed: bool,
}

impl Model for Reader {
    ghost use Rattle.std.specs.Prelude.{◌≡◌, List, ℕ, Option, None, Some, cond, true, false};
    ghost use Rattle.std.specs.Prelude.{vec_capacity};
    ghost use Rattle.frame_codec.specs.Streams.{IsPartial};

    ghost Value = { Option (List ℕ) };

    ghost view = { λ r. cond r.failed None (Some r.pending.items) };

    ghost invariant = { λ r. (r.failed ≡ false → IsPartial true r.pending.items)
        × (r.failed ≡ true → vec_capacity r.pending ≡ 0) };
}

impl Reader {
    /// A reader at the start of a stream.
    pub fn new(alloc: Global) -> Reader
        ensures { result ≡ Some [] }
    {
        Reader {
            alloc,
            pending: Vec::new(alloc),
            failed: false,
        }
    }

    /// Whether the stream so far is whole frames and nothing after them.
    pub fn is_between_frames(&self) -> bool
        ensures { IsTrue result ↔ (self.now ≡ Some []) }
    {
        !self.failed && self.pending.is_empty()
    }

    /// How many bytes of an unfinished frame are kept.
    pub fn unfinished_len(&self) -> usize
        ensures { result ≡ unfinished_size self.now }
    {
        if self.failed { 0 } else { self.pending.len() }
    }

    /// Whether the kept bytes of an unfinished frame, followed by a piece, begin with the frame
    /// Publish, so that feeding the piece gives this frame first. Takes no memory, and changes
    /// nothing.
    pub fn publishes_next(&self, piece: &[u8]) -> bool
        ensures { IsTrue result ↔ HasPublishNext self.now piece.now }
    {
        !self.failed && begins_with_publish(&self.pending, piece)
    }

    /// What the next frame says before its words, if the kept bytes of an unfinished frame,
    /// followed by a piece, begin with a whole query, so that feeding the piece gives this query
    /// first, unless memory is refused. Takes no memory, and changes nothing.
    pub fn query_next(&self, piece: &[u8]) -> Option<QueryHead>
        ensures some { IfSome result (HasQueryNext self.now piece.now) }
        ensures none { IfNone result
            ((head : QueryHead) → HasQueryNext self.now piece.now head → ⊥) }
    {
        if self.failed {
            return None;
        }
        query_head(&self.pending, piece)
    }

    /// The frame that feeding the piece would give first, if one is whole then. Changes nothing,
    /// and takes memory for the frame and for its bytes.
    ///
    /// # Errors
    ///
    /// The fault that feeding the piece would return in the place of the first frame.
    pub fn next_frame(&self, wide: bool, piece: &[u8]) -> Result<Option<Frame>, ReadFault>
        ensures { SeesFrame wide self.now piece.now result }
    {
        if self.failed {
            Err(ReadFault::Failed)
        } else {
            see_frame(self.alloc, wide, &self.pending, piece)
        }
    }

    /// Takes the next piece of the stream, and adds each frame that is whole now to `out`.
    ///
    /// A fault comes with the piece that has the byte by which it is judged. The whole frames
    /// before it are added, what had come of the bad one is given up with its room, and every later
    /// feed returns `Failed`. At `Memory` too the frames added are whole frames of the stream, in
    /// order, and no `TooLong` or `UnknownKind` comes after them, nor a whole payload of a length
    /// that no frame of its kind has: these are judged before memory is taken. Only the rows of a
    /// Delta can't be judged, if memory to put its payload together is refused.
    pub fn feed(&mut self, wide: bool, piece: &[u8], out: &mut Vec<Frame>) -> Result<(), ReadFault>
        ensures { (frames : List Frame) × (out.new.items ≡ out.old.items ++ frames) ×
            Feeds wide self.old piece.now result frames self.new }
    {
        let mut rest = piece;
        'frames: loop {
            let FrameRead { count, frame } = self.feed_frame(wide, rest)?;
            let Some(frame) = frame else {
                return Ok(());
            };
            let Ok(()) = add(frame, out) else {
                self.fail();
                return Err(ReadFault::Memory);
            };
            let (_, beyond) = rest.split_at(count);
            rest = beyond;
        }
    }

    /// Takes the next piece of the stream up to the end of the first frame that is whole then, and
    /// returns that frame and how many bytes were taken. If no frame is whole, the whole piece was
    /// taken.
    ///
    /// # Errors
    ///
    /// As [`Reader::feed`], with the fault in the place of the first frame. What had come of that
    /// one is given up with its room, and every later feed returns `Failed`.
    pub fn feed_frame(&mut self, wide: bool, piece: &[u8]) -> Result<FrameRead, ReadFault>
        ensures { FeedsFrame wide self.old piece.now result self.new }
    {
        if self.failed {
            return Err(ReadFault::Failed);
        }
        let answer = advance(self.alloc, wide, &mut self.pending, piece);
        if answer.is_err() {
            // What had come of the bad one is of no more use.
            self.pending = Vec::new(self.alloc);
            self.failed = true;
        }
        answer
    }

    /// Stops for good. What had come of an unfinished frame is of no more use.
    fn fail(&mut self)
        ensures { self.new ≡ None }
    {
        self.pending = Vec::new(self.alloc);
        self.failed = true;
    }
}

/// Adds a frame.
fn add(frame: Frame, out: &mut Vec<Frame>) -> Result<(), AllocError>
    ensures ok { OnOk result (out.new.items ≡ out.old.items ++ frame ∷ []) }
    ensures err { OnErr result (out.new.items ≡ out.old.items) }
{
    out.push(frame)?;
    Ok(())
}

/// Reads a piece after an unfinished frame, up to the end of the first frame that is whole then,
/// and keeps what has come of an unfinished one.
fn advance(
    alloc: Global,
    wide: bool,
    pending: &mut Vec<u8>,
    piece: &[u8],
) -> Result<FrameRead, ReadFault>
    requires { IsPartial true pending.old.items }
    ensures ok { IfOk result (λ taken. TakesFrame wide (Some pending.old.items) piece.now taken
        (Some pending.new.items)) }
    ensures err { IfErr result (λ fault. StopsAt wide fault (pending.old.items ++ piece.now)) }
{
    if pending.is_empty() {
        return start(alloc, wide, pending, piece);
    }
    match finish(alloc, wide, pending, piece)? {
        None => Ok(FrameRead {
            count: piece.len(),
            frame: None,
        }),
        Some((frame, rest)) => Ok(FrameRead {
            count: piece.len() - rest.len(),
            frame: Some(frame),
        }),
    }
}

/// Reads a piece when no frame is unfinished.
fn start(
    alloc: Global,
    wide: bool,
    pending: &mut Vec<u8>,
    piece: &[u8],
) -> Result<FrameRead, ReadFault>
    requires { pending.old.items ≡ [] }
    ensures ok { IfOk result (λ taken. TakesFrame wide (Some []) piece.now taken
        (Some pending.new.items)) }
    ensures err { IfErr result (λ fault. StopsAt wide fault piece.now) }
{
    match frame_at(alloc, wide, piece)? {
        None => {
            pending.extend_from_slice(piece)?;
            Ok(FrameRead {
                count: piece.len(),
                frame: None,
            })
        }
        Some((frame, rest)) => Ok(FrameRead {
            count: piece.len() - rest.len(),
            frame: Some(frame),
        }),
    }
}

/// The frame at the beginning of an unfinished frame and then a piece, if it is whole then.
fn see_frame(
    alloc: Global,
    wide: bool,
    pending: &[u8],
    piece: &[u8],
) -> Result<Option<Frame>, ReadFault>
    requires { IsPartial true pending.now }
    ensures { SeesFrame wide (Some pending.now) piece.now result }
{
    // Judged before memory is taken.
    let enough = split_frame_len(wide, pending, piece)?;
    if pending.len().saturating_add(piece.len()) < enough {
        return Ok(None);
    }
    // A copy: the reader's own bytes stay as they are.
    let Ok(mut bytes) = copy_bytes(alloc, pending, enough) else {
        return Err(ReadFault::Memory);
    };
    finish_frame(alloc, wide, &mut bytes, piece)
}

/// Copies bytes to where there is room for so many in all.
fn copy_bytes(alloc: Global, bytes: &[u8], room: usize) -> Result<Vec<u8>, AllocError>
    ensures { IfOk result (λ copy. copy.items ≡ bytes.now) }
{
    let mut copy = Vec::with_capacity(alloc, room)?;
    copy.extend_from_slice(bytes)?;
    Ok(copy)
}

/// Gives an unfinished frame what it lacks, and returns it if it is whole then.
fn finish_frame(
    alloc: Global,
    wide: bool,
    pending: &mut Vec<u8>,
    piece: &[u8],
) -> Result<Option<Frame>, ReadFault>
    requires { IsPartial true pending.old.items }
    ensures { SeesFrame wide (Some pending.old.items) piece.now result }
{
    match finish(alloc, wide, pending, piece)? {
        None => Ok(None),
        Some((frame, _)) => Ok(Some(frame)),
    }
}

/// Gives an unfinished frame what it lacks. If it is whole then, its room is given back, and it is
/// returned with what is left of the piece.
fn finish<'a>(
    alloc: Global,
    wide: bool,
    pending: &mut Vec<u8>,
    piece: &'a [u8],
) -> Result<Option<(Frame, &'a [u8])>, ReadFault>
    requires { IsPartial true pending.old.items }
    ensures whole { IfOk result (λ o. IfSome o (λ found. IsFrameOf wide found.0
        × (pending.old.items ++ piece.now ≡ encoding found.0 ++ found.1.now)
        × (length found.1.now ≤ length piece.now) × (pending.new.items ≡ []))) }
    ensures room { IfOk result (λ o. IfSome o (λ _. vec_capacity pending.new ≡ 0)) }
    ensures partial { IfOk result (λ o. IfNone o
        ((pending.new.items ≡ pending.old.items ++ piece.now) × IsPartial wide pending.new.items)) }
    ensures err { IfErr result (λ fault. StopsAt wide fault (pending.old.items ++ piece.now)) }
{
    let rest = fill(wide, pending, piece)?;
    let Some((frame, _)) = frame_at(alloc, wide, pending)? else {
        return Ok(None);
    };
    // A long frame's room is given back.
    *pending = Vec::new(alloc);
    Ok(Some((frame, rest)))
}

/// Gives an unfinished frame what it lacks: its header and its payload. Returns the rest of the
/// piece. The header is judged before memory is taken, and so is the length of a payload that is
/// whole now, so that a fault of these is never returned as `Memory`.
fn fill<'a>(wide: bool, pending: &mut Vec<u8>, piece: &'a [u8]) -> Result<&'a [u8], ReadFault>
    requires { IsPartial true pending.old.items }
    ensures whole { IfOk result (λ rest. pending.new.items ++ rest.now
        ≡ pending.old.items ++ piece.now) }
    ensures alone { OnOk result ((f : Frame) (more : List ℕ) → IsFrameOf wide f →
        pending.new.items ≡ encoding f ++ more → more ≡ []) }
    ensures until { IfOk result (λ rest. IsPartial wide pending.new.items → rest.now ≡ []) }
    ensures rest { IfOk result (λ rest. length rest.now ≤ length piece.now) }
    ensures err { IfErr result (λ fault. StopsAt wide fault (pending.old.items ++ piece.now)) }
{
    let size = split_frame_len(wide, pending, piece)?;
    top_up(pending, piece, size)
}

/// Moves bytes from the beginning of a piece after the pending ones, until these are enough or the
/// piece is used up.
fn top_up<'a>(pending: &mut Vec<u8>, piece: &'a [u8], enough: usize) -> Result<&'a [u8], ReadFault>
    ensures moved { OnOk result (pending.new.items
        ≡ pending.old.items ++ take (enough - length pending.old.items) piece.now) }
    ensures rest { IfOk result
        (λ rest. rest.now ≡ drop (enough - length pending.old.items) piece.now) }
    ensures err { IfErr result (λ fault. fault ≡ ReadFault.Memory) }
{
    let lacking = enough.saturating_sub(pending.len());
    let (moved, rest) = piece.split_at(lacking.min(piece.len()));
    pending.extend_from_slice(moved)?;
    Ok(rest)
}
