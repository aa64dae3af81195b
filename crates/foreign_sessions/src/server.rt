//! A server of sessions together with the replies that wait to be sent, for programs that take them
//! when it suits them.
//!
//! [`ServerCore`] adds its replies to a buffer of the caller's. A [`ServerSession`] keeps those to
//! the last piece until they are taken, and refuses the next piece until then.

ghost use Rattle.std.specs.Prelude.{◌≡◌, ◌≢◌, ◌≤◌, ℕ, [], None, IfOk, IfErr, OnOk, OnErr, is_some};
ghost use Rattle.std.specs.Prelude.{length};
ghost use Rattle.snapshot_file.specs.Snapshots.{form_bytes};
ghost use Rattle.snapshot_file.specs.Verdicts.{MayRefuse};
ghost use Rattle.version_store.specs.Openings.{snapshot_of};
ghost use Rattle.server_core.specs.Cores.{session_of, is_open};
ghost use Rattle.foreign_sessions.specs.Servers.{OpensServer, OpensSession, FeedsServerSession};
ghost use Rattle.foreign_sessions.specs.Servers.{FeedsServerFirst, EditsDraft};
ghost use Rattle.foreign_sessions.specs.Servers.{AppendsToDraft, PublishesDraft};

use digit_pack::is_wide;
use lane_kernels::Lanes;
use server_core::{FeedError, ServerCore, SessionError};
use snapshot_file::{SnapshotFault, read_snapshot};
use std::alloc::{AllocError, Global};
use thiserror::Error;
use version_store::{AppendError, EditError, PublishError, Store, write_snapshot};

// How many bytes a snapshot file's magic and numbers have.
const NUMBERS_LEN: usize = 27;

// How many bytes its digest has.
const DIGEST_LEN: usize = 32;

/// Why a piece was not served, or not to its end.
#[derive(Clone, Copy, Debug, PartialEq, Eq, Error)]
pub enum PieceFault {
    /// The replies to an earlier piece wait.
    #[error("replies to an earlier piece wait to be taken")]
    Untaken,
    /// The server refuses it.
    #[error("the server refuses the piece")]
    Server(FeedError),
}

/// A server over lanes, and the replies that wait to be sent.
#[derive(Drop)]
pub struct ServerSession {
    pub core: ServerCore<Lanes>,
    pub replies: Vec<u8>,
}

impl ServerSession {
    /// A server of the records of a snapshot file, of which these are all bytes, with no session.
    ///
    /// The faults are those of [`read_snapshot`], in its order; `Memory` also if memory for the
    /// server is refused.
    pub fn open(alloc: Global, bytes: &[u8]) -> Result<ServerSession, SnapshotFault>
        ensures opened { IfOk result (OpensServer bytes.now) }
        ensures refused { IfErr result (λ fault. MayRefuse fault bytes.now) }
    {
        let mut left = bytes;
        let snapshot = read_snapshot(alloc, &mut left)?;
        // What was read is within the limits: memory alone is left to be refused.
        let Ok(store) = Store::open(alloc, Lanes, snapshot) else {
            return Err(SnapshotFault::Memory);
        };
        Ok(ServerSession {
            core: ServerCore::new(alloc, store),
            replies: Vec::new(alloc),
        })
    }

    /// [`ServerCore::open_session`].
    pub fn open_session(&mut self, id: u64) -> Result<(), SessionError>
        ensures { OpensSession self.old id result self.new }
    {
        self.core.open_session(id)
    }

    /// [`ServerCore::close_session`].
    pub fn close_session(&mut self, id: u64) -> bool
        ensures was { result ≡ is_some (session_of self.old.core.sessions id) }
        ensures gone { session_of self.new.core.sessions id ≡ None }
        ensures others { (other : ℕ) → other ≢ id →
            session_of self.new.core.sessions other ≡ session_of self.old.core.sessions other }
        ensures store { self.new.core.store ≡ self.old.core.store }
        ensures replies { self.new.replies ≡ self.old.replies }
    {
        self.core.close_session(id)
    }

    /// Whether there is a session of this number that is not closed.
    pub fn is_open(&self, id: u64) -> bool
        ensures { result ≡ is_open (session_of self.now.core.sessions id) }
    {
        self.core.is_open(id)
    }

    /// [`ServerCore::feed`], whose replies wait from then on. `Untaken` exactly if replies wait
    /// already, and then nothing changes; else what the server returns.
    pub fn feed(&mut self, id: u64, piece: &[u8]) -> Result<(), PieceFault>
        ensures { FeedsServerSession self.old id piece.now result self.new }
    {
        if !self.replies.is_empty() {
            return Err(PieceFault::Untaken);
        }
        match self.core.feed(id, piece, &mut self.replies) {
            Ok(()) => Ok(()),
            Err(fault) => Err(PieceFault::Server(fault)),
        }
    }

    /// [`ServerCore::feed_frame`], whose reply waits from then on: serves one frame at most, and
    /// returns how many bytes of the piece it took: all, or those up to the end of the first frame
    /// that they make whole; the rest is for a later call. So no more than one reply waits at a
    /// time, whatever a piece asks for. `Untaken` exactly when replies wait already, and then
    /// nothing changes; else what the server returns.
    pub fn feed_frame(&mut self, id: u64, piece: &[u8]) -> Result<usize, PieceFault>
        ensures { FeedsServerFirst self.old id piece.now result self.new }
    {
        if !self.replies.is_empty() {
            return Err(PieceFault::Untaken);
        }
        match self.core.feed_frame(id, piece, &mut self.replies) {
            Ok(taken) => Ok(taken),
            Err(fault) => Err(PieceFault::Server(fault)),
        }
    }

    /// How many bytes of replies wait to be sent.
    pub fn replies_len(&self) -> usize
        ensures { result ≡ length self.now.replies.items }
    {
        self.replies.len()
    }

    /// Copies the replies that wait to be sent, and forgets them.
    pub fn take_replies(&mut self, out: &mut [u8])
        requires { length out.old ≡ length self.old.replies.items }
        ensures bytes { out.new ≡ self.old.replies.items }
        ensures none { self.new.replies.items ≡ [] }
        ensures core { self.new.core ≡ self.old.core }
    {
        out.copy_from_slice(&self.replies);
        self.replies.clear();
    }

    /// [`ServerCore::edit`].
    pub fn edit(&mut self, i: usize, bytes: &[u8]) -> Result<(), EditError>
        ensures { EditsDraft self.old i bytes.now result self.new }
    {
        self.core.edit(i, bytes)
    }

    /// [`ServerCore::append`].
    pub fn append(&mut self, bytes: &[u8]) -> Result<(), AppendError>
        ensures { AppendsToDraft self.old bytes.now result self.new }
    {
        self.core.append(bytes)
    }

    /// [`ServerCore::publish`].
    pub fn publish(&mut self) -> Result<u64, PublishError>
        ensures { PublishesDraft self.old result self.new }
    {
        self.core.publish()
    }

    /// The number of the current version.
    pub fn version(&self) -> u64
        ensures { result ≡ self.now.core.store.version }
    {
        self.core.store().version()
    }

    /// How many bytes the snapshot file of the current version has.
    pub fn snapshot_len(&self) -> usize
        ensures { result ≡ length (snapshot_of self.now.core.store) }
    {
        let store = self.core.store();
        NUMBERS_LEN
            + form_len(store.form())
            + key_len(store.seed())
            + key_len(store.publisher())
            + store.bytes_len()
            + DIGEST_LEN
    }

    /// Writes the snapshot file of the current version. Only refused memory gives an `Err`, and
    /// then nothing is written.
    pub fn copy_snapshot(&self, alloc: Global, out: &mut [u8]) -> Result<(), AllocError>
        requires { length out.old ≡ length (snapshot_of self.now.core.store) }
        ensures written { OnOk result (out.new ≡ snapshot_of self.now.core.store) }
        ensures refused { OnErr result (out.new ≡ out.old) }
    {
        let mut bytes = Vec::with_capacity(alloc, out.len())?;
        if write_snapshot(alloc, self.core.store(), &mut bytes).is_err() {
            return Err(AllocError);
        }
        out.copy_from_slice(&bytes);
        Ok(())
    }
}

// How many bytes name the form after a snapshot file's magic: one if the store is a wide one.
#[tactic(auto, unfolding(snapshot_file::specs::Snapshots::form_bytes))]
fn form_len(form: u8) -> usize
    ensures few { result ≤ 1 }
    ensures value { result ≡ length (form_bytes form) }
{
    if is_wide(u16::from(form)) { 1 } else { 0 }
}

// How many bytes a key has.
fn key_len(key: &[u8]) -> usize
    requires { length key.now ≡ 32 }
    ensures count { result ≡ 32 }
    ensures len { length key.now ≡ 32 }
{
    key.len()
}
