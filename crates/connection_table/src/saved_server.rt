//! What is served, while its version is there after a crash.

ghost use Rattle.std.specs.Prelude.{◌≡◌, ◌↔◌, IsErrOf, IsSome, OnOk, OnErr};
ghost use Rattle.server_core.specs.Cores.{session_of};
ghost use Rattle.connection_turns.specs.Runs.{DoesToCore, Opens, Closes, Undrafts};

use crate::device::Saver;
use crate::tallies::Tallies;
use lane_kernels::Lanes;
use server_core::{ServerCore, SessionError};

/// A server whose current version is there after a crash, and what writes its publications down. A
/// turn takes it and gives it back, unless a publication may be there in part or without having
/// been made: then there is none with which another turn could be made, and nothing is written any
/// more.
#[derive(Drop)]
pub struct SavedServer<S: Saver> {
    /// The server.
    pub core: ServerCore<Lanes>,
    /// What writes its publications down.
    pub saver: S,
    /// What was counted of its connections, and how long its turns took.
    pub counters: Tallies,
    ghost is_saved: { S.saved saver ≡ core.store.version },
}

impl<S: Saver> SavedServer<S> {
    /// A server whose version was written down by this saver, or was there to begin with.
    pub fn opened(core: ServerCore<Lanes>, saver: S) -> SavedServer<S>
        requires saved { S.saved saver ≡ core.store.version }
        ensures core { result.core ≡ core }
        ensures saver { result.saver ≡ saver }
    {
        SavedServer {
            core,
            saver,
            counters: Tallies::new(),
        }
    }

    /// Opens the session of a connection.
    ///
    /// # Errors
    ///
    /// Those of [`ServerCore::open_session`].
    pub fn open_session(&mut self, id: u64) -> Result<(), SessionError>
        ensures opened { OnOk result (DoesToCore self.old.core (Opens id) self.new.core) }
        ensures in_use { IsErrOf result SessionError.IdInUse ↔ IsSome
            (session_of self.old.core.sessions id) }
        ensures refused { OnErr result (self.new.core ≡ self.old.core) }
    {
        self.core.open_session(id)
    }

    /// The same server without its draft.
    pub fn without_draft(self) -> SavedServer<S>
        ensures { DoesToCore self.core Undrafts result.core }
    {
        let SavedServer {
            mut core,
            saver,
            counters,
        } = self;
        core.drop_draft();
        SavedServer {
            core,
            saver,
            counters,
        }
    }

    /// Takes the session of a connection away, if it has one, and no other.
    pub fn close_session(&mut self, id: u64)
        ensures { DoesToCore self.old.core (Closes id) self.new.core }
    {
        self.core.close_session(id);
    }
}
