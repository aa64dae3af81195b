//! One session.

ghost use Rattle.std.specs.Prelude.{◌≡◌, ◌≤◌, ◌<◌, ◌⊎◌, ◌↔◌, ◌++◌, length, ℕ, List, [], ◌∷◌};
ghost use Rattle.std.specs.Prelude.{IsTrue, IfOk, IfSome, IsErr, IsOk, OnErr, OnOk, false};
ghost use Rattle.frame_codec.specs.declared.frame.Frame.TheVariants.{Publish};
ghost use Rattle.frame_codec.specs.Streams.{unfinished_size};
ghost use Rattle.frame_codec.specs.Refusals.{refused};
ghost use Rattle.frame_codec.specs.Frames.{IsFrame, encoding};
ghost use Rattle.version_store.specs.Histories.{History, StandsFor};
ghost use Rattle.server_core.specs.Serving.{setting_of, is_closed, IsFull, MayPublish, PublishesIf};
ghost use Rattle.server_core.specs.Sessions.{new_session, frames_taken, bytes_used, reading_end};
ghost use Rattle.server_core.specs.Sessions.{HasTaken, Ended, FeedsStore, FeedsStoreFirst};
ghost use Rattle.server_core.specs.Sessions.{ServedFrames};
ghost use Rattle.server_core.specs.Sessions.{ServedOpen, StoppedFrames, IsUnjudged, HasWordsNext};
ghost use Rattle.server_core.specs.Sessions.{IsComing, IsUnread, IsFirstUnread, WouldAnswer};
ghost use Rattle.server_core.specs.Sessions.{WouldPublish};

use crate::replies::{SHORT_REPLY, put_refused};
use crate::serve::{has_wide_frames, serve_frame, serve_frames};
use crate::standing::Standing;
use frame_codec::{Frame, FrameRead, ReadFault, Reader, Refusal, Words};
use matrix_u32::Kernel;
use pir_schemes::Scheme;
use std::alloc::{AllocError, Global};
use std::marker::Model;
use version_store::Store;

/// What feeding a piece of a session's stream would do first.
#[derive(Clone, Copy, Debug, PartialEq, Eq)]
pub enum Coming {
    /// Nothing that takes long.
    Short,
    /// Answering a query in this scheme, whose answer can be made in steps before.
    LongAnswer(Scheme),
    /// Publishing, unless memory is refused.
    Publication,
}

/// Who a session speaks for, and what has come of its next frame. The stream of an open one has not
/// failed.
#[derive(Drop)]
pub struct Session {
    standing: Standing,
    reader: Reader,
}

impl Model for Session {
    ghost use Rattle.server_core.specs.Sessions as sessions;

    ghost Value = { sessions.Session };

    ghost view = { λ s. record { standing = s.standing; unfinished = s.reader } };

    ghost invariant = { λ s. sessions.IsLive s.standing s.reader };
}

impl Session {
    /// A session at the start of its stream.
    pub fn new(alloc: Global) -> Session
        ensures { result ≡ new_session }
    {
        Session {
            standing: Standing::Stranger,
            reader: Reader::new(alloc),
        }
    }

    /// Whether nothing more is served.
    pub fn is_closed(&self) -> bool
        ensures { result ≡ is_closed self.now.standing }
    {
        self.standing.is_closed()
    }

    /// How many bytes of an unfinished frame it keeps.
    pub fn unfinished_len(&self) -> usize
        ensures { result ≡ unfinished_size self.now.unfinished }
    {
        self.reader.unfinished_len()
    }

    /// Whether the next frame of the stream, which a piece completes, is a publication that is made
    /// unless memory is refused. This takes no memory.
    pub fn publishes_next<K: Kernel>(&self, store: &Store<K>, piece: &[u8]) -> bool
        ensures { IsTrue result ↔ WouldPublish self.now piece.now store.now }
    {
        self.standing.is_publisher()
            && self.reader.publishes_next(piece)
            && store.is_marked()
            && store.version() < u64::MAX
    }

    /// What feeding a piece would do first. This takes no memory.
    pub fn coming<K: Kernel>(&self, store: &Store<K>, piece: &[u8]) -> Coming
        ensures { IsComing result self.now piece.now store.now }
    {
        if self.publishes_next(store, piece) {
            return Coming::Publication;
        }
        match self.long_answer_next(store, piece) {
            Some(scheme) => Coming::LongAnswer(scheme),
            None => Coming::Short,
        }
    }

    /// The scheme of the next frame of the stream, which a piece completes, if that is a query to
    /// be answered and its answer is made in more than one step.
    fn long_answer_next<K: Kernel>(&self, store: &Store<K>, piece: &[u8]) -> Option<Scheme>
        ensures { IfSome result (λ scheme. WouldAnswer self.now piece.now store.now scheme) }
    {
        if !self.standing.is_welcome() {
            return None;
        }
        let head = self.reader.query_next(piece)?;
        let scheme = Scheme::of_byte(head.scheme)?;
        if head.version != store.version() || head.count != store.query_words(scheme) {
            return None;
        }
        if store.has_steps(scheme) {
            Some(scheme)
        } else {
            None
        }
    }

    /// The words of the next frame of the stream, which a piece completes, if that is a query of so
    /// many words. There is none if memory is refused, too.
    pub fn next_words(&self, wide: bool, piece: &[u8], count: usize) -> Option<Vec<u32>>
        ensures words { IfSome result (λ words. HasWordsNext wide self.now piece.now words.items) }
        ensures count { IfSome result (λ words. length words.items ≡ count) }
    {
        match self.reader.next_frame(wide, piece) {
            Ok(Some(Frame::Query { words, .. })) => words_of_count(words, count),
            _ => None,
        }
    }

    /// Takes the next piece of the stream, and adds the replies to the frames that are whole now. A
    /// closed session takes it and adds nothing. At an `Err` memory was refused: the session is
    /// closed, and `out` has the replies to the frames before.
    pub fn feed<K: Kernel>(
        &mut self,
        alloc: Global,
        store: &mut Store<K>,
        piece: &[u8],
        out: &mut Vec<u8>,
    ) -> Result<(), AllocError>
        ensures fed { (h : History) → StandsFor store.old h →
            FeedsStore (setting_of store.old) h self.old piece.now result store.new self.new
            out.old.items out.new.items }
        ensures full { (h : History) → StandsFor store.old h → OnErr result (IsFull out.new ⊎
            IsUnread (setting_of store.old) h self.old piece.now store.new self.new out.old.items
            out.new.items) }
    {
        if self.standing.is_closed() {
            return Ok(());
        }
        let mut frames = Vec::new(alloc);
        let read = self.reader.feed(has_wide_frames(store), piece, &mut frames);
        match serve_completed(alloc, store, self.standing, &frames, read, out) {
            Ok(standing) => {
                self.standing = standing;
                Ok(())
            }
            Err(fault) => {
                self.standing = Standing::Closed;
                Err(fault)
            }
        }
    }

    /// Takes the next piece of the stream up to the end of the first frame that is whole then, adds
    /// the reply to it, and returns how many bytes it took. If no frame is whole it takes all,
    /// also if a fault stands in the frame's place. A closed session takes all and adds nothing.
    /// At an `Err` memory was refused: the session is closed, and nothing was served.
    pub fn feed_frame<K: Kernel>(
        &mut self,
        alloc: Global,
        store: &mut Store<K>,
        piece: &[u8],
        out: &mut Vec<u8>,
    ) -> Result<usize, AllocError>
        ensures fed { (h : History) → StandsFor store.old h →
            FeedsStoreFirst (setting_of store.old) h self.old piece.now result store.new self.new
            out.old.items out.new.items }
        ensures within { IfOk result (λ count. count ≤ length piece.now) }
        ensures some { IfOk result (λ count. 0 < length piece.now → 0 < count) }
        ensures refused { OnErr result ((store.new ≡ store.old) ×
            (out.new.items ≡ out.old.items)) }
        ensures full { OnErr result (IsFull out.new ⊎
            IsFirstUnread (setting_of store.old) self.old.unfinished piece.now
            self.new.unfinished) }
        ensures version { PublishesIf (WouldPublish self.old piece.now store.old)
            store.old.version store.new.version }
    {
        if self.standing.is_closed() {
            return Ok(piece.len());
        }
        let read = self.reader.feed_frame(has_wide_frames(store), piece);
        let count = bytes_consumed(&read, piece.len());
        let Ok(standing) = serve_read(alloc, store, self.standing, read, out) else {
            self.standing = Standing::Closed;
            return Err(AllocError);
        };
        self.standing = standing;
        Ok(count)
    }
}

/// These words, if they are so many.
fn words_of_count(words: Words, count: usize) -> Option<Vec<u32>>
    ensures words { IfSome result (λ found. found.items ≡ words) }
    ensures count { IfSome result (λ found. length found.items ≡ count) }
{
    if words.as_slice().len() != count {
        return None;
    }
    Some(words.into_vec())
}

/// How many bytes of a piece, which has so many, are used up: those that were read, and after a
/// fault all.
fn bytes_consumed(read: &Result<FrameRead, ReadFault>, len: usize) -> usize
    ensures { (piece : List ℕ) → length piece ≡ len → result ≡ bytes_used piece read.now }
{
    match read {
        Ok(taken) => taken.count,
        Err(_) => len,
    }
}

/// Serves the frame that was read to an open session, if there is one, or reports the fault in its
/// place. Returns the standing after it. At an `Err` memory was refused, and nothing was served.
fn serve_read<K: Kernel>(
    alloc: Global,
    store: &mut Store<K>,
    standing: Standing,
    read: Result<FrameRead, ReadFault>,
    out: &mut Vec<u8>,
) -> Result<Standing, AllocError>
    requires { is_closed standing ≡ false }
    ensures ok { IfOk result (λ after. (h : History) → StandsFor store.old h →
        ServedFrames (setting_of store.old) h standing (frames_taken read) (reading_end read)
        store.new after out.old.items out.new.items) }
    ensures same { OnErr result (store.new ≡ store.old) }
    ensures none { OnErr result (out.new.items ≡ out.old.items) }
    ensures stop { OnErr result (HasTaken read) }
    ensures live { IfOk result (λ after. (is_closed after ≡ false) → IsOk (reading_end read)) }
    ensures full { OnErr result (IsFull out.new ⊎ IsUnjudged (reading_end read)) }
    ensures version { PublishesIf ((frames_taken read ≡ Publish ∷ []) × MayPublish standing
        store.old) store.old.version store.new.version }
{
    match read {
        Ok(taken) => match taken.frame {
            None => Ok(standing),
            Some(frame) => serve_frame(alloc, store, standing, &frame, out),
        },
        Err(fault) => end_piece(standing, Err(fault), out),
    }
}

/// Serves the frames that a piece completes, and then reports how the reading ended. Returns the
/// standing after it. At an `Err` memory was refused.
fn serve_completed<K: Kernel>(
    alloc: Global,
    store: &mut Store<K>,
    standing: Standing,
    frames: &[Frame],
    read: Result<(), ReadFault>,
    out: &mut Vec<u8>,
) -> Result<Standing, AllocError>
    ensures ok { IfOk result (λ after. (h : History) → StandsFor store.old h →
        ServedFrames (setting_of store.old) h standing frames.now read store.new after
        out.old.items out.new.items) }
    ensures err { OnErr result ((h : History) → StandsFor store.old h →
        StoppedFrames (setting_of store.old) h standing frames.now read store.new out.old.items
        out.new.items) }
    ensures live { IfOk result (λ after. (is_closed after ≡ false) → IsOk read) }
    ensures full { OnErr result (IsFull out.new ⊎ (IsUnjudged read × ((h : History) →
        StandsFor store.old h → ServedOpen (setting_of store.old) h standing frames.now store.new
        out.old.items out.new.items))) }
{
    let middle = match serve_frames(alloc, store, standing, frames, out) {
        Ok(middle) => middle,
        Err(fault) => return Err(fault),
    };
    if middle.is_closed() {
        return Ok(middle);
    }
    end_piece(middle, read, out)
}

/// What the end of a piece does to a session that is open. At an `Err` memory was refused, and
/// nothing was added.
fn end_piece(
    middle: Standing,
    read: Result<(), ReadFault>,
    out: &mut Vec<u8>,
) -> Result<Standing, AllocError>
    ensures ok { IfOk result (λ after. Ended read middle after out.old.items out.new.items) }
    ensures err { OnErr result (IsErr read × (out.new.items ≡ out.old.items)) }
    ensures live { IfOk result (λ after. (is_closed after ≡ false) → IsOk read) }
    ensures full { OnErr result (IsFull out.new ⊎ IsUnjudged read) }
{
    match read {
        Ok(()) => Ok(middle),
        Err(ReadFault::TooLong) => refuse(out),
        Err(ReadFault::UnknownKind) => refuse(out),
        Err(ReadFault::BadPayload) => refuse(out),
        // an open session's stream has not failed
        Err(ReadFault::Memory | ReadFault::Failed) => Err(AllocError),
    }
}

/// Refuses what can't be read, and closes the session. At an `Err` memory was refused, and nothing
/// was added.
fn refuse(out: &mut Vec<u8>) -> Result<Standing, AllocError>
    ensures closed { IfOk result (λ after. after ≡ Standing.Closed) }
    ensures items { OnOk result (out.new.items ≡ out.old.items ++ encoding
        (refused Refusal.BadFrame)) }
    ensures fits { OnOk result (IsFrame (refused Refusal.BadFrame)) }
    ensures err { OnErr result (out.new.items ≡ out.old.items) }
    ensures full { OnErr result (IsFull out.new) }
{
    out.reserve(SHORT_REPLY)?;
    put_refused(Refusal::BadFrame, out);
    Ok(Standing::Closed)
}
