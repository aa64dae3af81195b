//! What a server keeps for one connection.

ghost use Rattle.std.specs.Prelude.{◌≡◌, ◌≢◌, ◌≤◌, ◌<◌, ◌+◌, ◌-◌, ◌^◌, ◌↔◌, min, cond, List, ℕ};
ghost use Rattle.std.specs.Prelude.{None, [], length, IsTrue, OnOk, OnErr, false};
ghost use Rattle.server_core.specs.Cores.{session_of, MayWait, PublishesNext};
ghost use Rattle.server_core.specs.Serving.{PublishesIf};
ghost use Rattle.connection_turns.specs.Connections.{accepted, after_end, after_receipt, after_write};
ghost use Rattle.connection_turns.specs.Connections.{is_progress, IsDone, MayRead, MayServe};
ghost use Rattle.connection_turns.specs.Runs.{OthersStay};
ghost use Rattle.connection_turns.specs.Turns.{AtEach, ServesNext, StopsNext};

use crate::byte_queue::ByteQueue;
use matrix_u32::Kernel;
use server_core::ServerCore;
use std::alloc::{AllocError, Global};
use std::marker::Model;

/// The most bytes that one read brings.
pub const PIECE_LEN: usize = 65_536;

/// If so many bytes are owed no further frame is served, and nothing more is read.
const OWED_LIMIT: usize = 65_536;

/// A connection: what was received and not yet served, what is owed and not yet written.
#[derive(Drop)]
pub struct ConnectionState {
    unserved: ByteQueue,
    owed: ByteQueue,
    // The session is open.
    live: bool,
    // A read found the end of the input.
    ended: bool,
    last: LastProgress,
}

// The last progress of a connection.
#[derive(Clone, Copy)]
struct LastProgress {
    // Its moment.
    moment: u64,
    // How many bytes of what was owed then have to be taken until the next.
    awaited: usize,
}

impl Model for ConnectionState {
    ghost use Rattle.std.specs.Prelude.{◌≤◌, length};
    ghost use Rattle.connection_turns.specs.Sizes.{piece_size};
    ghost use Rattle.connection_turns.specs.Connections.{ConnectionSeen};

    ghost Value = { ConnectionSeen };

    ghost view = { λ l. record {
      unserved = l.unserved;
      owed = l.owed;
      live = l.live;
      ended = l.ended;
      progress = l.last.moment;
      awaited = l.last.awaited;
    } };

    ghost invariant = { λ l. length l.unserved ≤ piece_size };
}

impl ConnectionState {
    /// A connection that was accepted just now, at a moment in milliseconds.
    pub fn new(alloc: Global, now: u64) -> ConnectionState
        ensures { result ≡ accepted now }
    {
        ConnectionState {
            unserved: ByteQueue::new(alloc),
            owed: ByteQueue::new(alloc),
            live: true,
            ended: false,
            last: LastProgress {
                moment: now,
                awaited: 0,
            },
        }
    }

    /// Whether more may be read: the session is open, all that came was served, and little is owed.
    pub fn may_read(&self) -> bool
        ensures { IsTrue result ↔ MayRead self.now }
    {
        self.live && !self.ended && self.unserved.is_empty() && self.owed.len() < OWED_LIMIT
    }

    /// Whether a frame may be served: the session is open, something came, and little is owed.
    pub fn may_serve(&self) -> bool
        ensures { IsTrue result ↔ MayServe self.now }
    {
        self.live && self.unserved.len() > 0 && self.owed.len() < OWED_LIMIT
    }

    /// Whether something is owed.
    pub fn owes(&self) -> bool
        ensures { IsTrue result ↔ (0 < length self.now.owed) }
    {
        self.owed.len() > 0
    }

    /// Whether there is nothing more to do: all was written, and the session is closed, or all that
    /// will ever come was served.
    pub fn is_done(&self) -> bool
        ensures { IsTrue result ↔ IsDone self.now }
    {
        self.owed.is_empty() && (!self.live || self.ended && self.unserved.is_empty())
    }

    /// The moment from which on it is expired, unless there is progress before.
    pub fn expires_at(&self, idle: u64) -> u64
        ensures { result ≡ min (self.now.progress + idle) (2 ^ 64 - 1) }
    {
        self.last.moment.saturating_add(idle)
    }

    /// Whether there was no progress for so many milliseconds: its session was not closed, no frame
    /// was replied to while nothing was owed, and what was owed at the last progress was not taken
    /// whole. Bytes of a frame that is unfinished are no progress, and neither is a part of what is
    /// awaited.
    pub fn is_expired(&self, now: u64, idle: u64) -> bool
        ensures { IsTrue result ↔ (idle ≤ now - self.now.progress) }
    {
        now.saturating_sub(self.last.moment) >= idle
    }

    /// A read brought bytes.
    ///
    /// # Errors
    ///
    /// If memory was refused: nothing changes, and the bytes are lost, so the connection is to
    /// be closed.
    pub fn receive(&mut self, bytes: &[u8]) -> Result<(), AllocError>
        requires all_served { self.old.unserved ≡ [] }
        requires piece { length bytes.now ≤ 65536 }
        ensures ok { OnOk result (self.new ≡ after_receipt bytes.now self.old) }
        ensures err { OnErr result (self.new ≡ self.old) }
    {
        self.unserved.fill(bytes)
    }

    /// A read found the end of the input.
    pub fn end(&mut self)
        ensures { self.new ≡ after_end self.old }
    {
        self.ended = true;
    }

    /// Whether the next frame of what was received is a publication, which is made unless memory is
    /// refused.
    pub fn publishes_next<K: Kernel>(&self, core: &ServerCore<K>, id: u64) -> bool
        ensures { IsTrue result ↔ PublishesNext core.now id self.now.unserved }
    {
        core.publishes_next(id, self.unserved.as_slice())
    }

    /// Whether the next frame of what was received may be served now, to the session of a number.
    /// While it may not, each call does a part of what is to be done before: the same bytes are to
    /// come here again.
    pub fn prepare_next<K: Kernel>(&self, core: &mut ServerCore<K>, id: u64) -> bool
        ensures same { core.new ≡ core.old }
        ensures only { result ≡ false → MayWait core.old id self.now.unserved }
    {
        core.prepare(id, self.unserved.as_slice())
    }

    /// Serves one frame at most of what was received, to the session of a number.
    ///
    /// # Errors
    ///
    /// If memory was refused: nothing was served, the session is closed, and the connection is
    /// to be closed.
    pub fn serve_next<K: Kernel>(
        &mut self,
        core: &mut ServerCore<K>,
        id: u64,
        now: u64,
    ) -> Result<(), AllocError>
        requires may { MayServe self.old }
        requires there { session_of core.old.sessions id ≢ None }
        ensures served { OnOk result (AtEach core.old id (λ x h s.
            ServesNext x h s id now self.old self.new core.new)) }
        ensures stopped { OnErr result (AtEach core.old id (λ x h s.
            StopsNext x h s id self.old self.new core.new)) }
        ensures same { OnErr result (core.new.store ≡ core.old.store) }
        ensures version { PublishesIf (PublishesNext core.old id self.old.unserved)
            core.old.store.version core.new.store.version }
        ensures others { OthersStay id core.old core.new }
    {
        let owed = self.owed.len();
        let mut out = self.owed.take_out();
        match core.feed_frame(id, self.unserved.as_slice(), &mut out) {
            Ok(count) => {
                self.owed.put_back(out);
                let replied = self.owed.len().saturating_sub(owed);
                self.unserved.skip(count);
                self.live = core.is_open(id);
                let awaited = self.owed.len();
                self.last = progress_after(self.last, replied, self.live, now, awaited);
                Ok(())
            }
            Err(_) => {
                self.owed.put_back(out);
                Err(AllocError)
            }
        }
    }

    /// What is owed.
    pub fn owed(&self) -> &[u8]
        ensures { result.now ≡ self.now.owed }
    {
        self.owed.as_slice()
    }

    /// A write took the first `n` bytes of what is owed.
    pub fn wrote(&mut self, n: usize, now: u64)
        requires { n ≤ length self.old.owed }
        ensures { self.new ≡ after_write n now self.old }
    {
        self.owed.skip(n);
        if n < self.last.awaited {
            self.last.awaited -= n;
        } else {
            self.last = LastProgress {
                moment: now,
                awaited: self.owed.len(),
            };
        }
    }
}

// The last progress after a step that replied so many bytes, with so many owed then: this one, if
// the session was closed, or if there are replies and nothing was awaited.
fn progress_after(
    before: LastProgress,
    replied: usize,
    live: bool,
    now: u64,
    owed: usize,
) -> LastProgress
    ensures { result ≡ cond (is_progress before.awaited replied live)
        (record { moment = now; awaited = owed }) before }
{
    if !live || before.awaited == 0 && replied > 0 {
        LastProgress {
            moment: now,
            awaited: owed,
        }
    } else {
        before
    }
}
