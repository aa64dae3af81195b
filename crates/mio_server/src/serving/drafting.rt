//! The draft, if it ends with the sessions that edited it.

ghost use Rattle.std.specs.Prelude.{◌≡◌};

use super::Service;
use connection_table::{SavedServer, Saver};
use service_watch::DraftLife;

impl Service {
    ghost use Rattle.mio_server.specs.Drafting.{EndsDraft, is_over};

    // Drops the draft if it ends with the sessions that edited it, and no connection is left of one
    // that did. The check comes before each turn, so that no frame is served on a draft whose
    // editors are gone.
    pub(super) fn end_draft<S: Saver>(&self, server: SavedServer<S>) -> SavedServer<S>
        ensures ends { EndsDraft self.now.limits.draft self.now.places.connections.items server.core
            result.core }
        ensures sessions { result.core.sessions ≡ server.core.sessions }
    {
        if self.is_draft_over(&server) {
            server.without_draft()
        } else {
            server
        }
    }

    // Whether the draft is over.
    fn is_draft_over<S: Saver>(&self, server: &SavedServer<S>) -> bool
        ensures { result ≡ is_over self.now.limits.draft server.now.core.store.marked
            self.now.places.connections.items server.now.core.store.version }
    {
        let store = server.core.store();
        match self.limits.draft {
            DraftLife::Publication => false,
            DraftLife::Session => { store.is_marked() && self.places.editors(store.version()) == 0 }
        }
    }
}
