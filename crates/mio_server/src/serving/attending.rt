//! Those who ask how the service does, after the turns of a round.

use super::Service;
use connection_table::{RunFault, SavedServer, Saver};
use mio::Events;
use service_status::{Status, micros_since};
use service_watch::Figures;
use std::net::SocketAddr;

impl Service {
    // Prints where it listens, and returns that.
    pub(super) fn print(&self, rt: &HostRuntime) -> Result<SocketAddr, RunFault> {
        let Some(listener) = &self.listener else {
            return Err(RunFault::Connect);
        };
        let address = match listener.local_addr() {
            Ok(address) => address,
            Err(e) => return Err(RunFault::of_system(&e)),
        };
        match println!(rt; "listening {address}") {
            Ok(()) => Ok(address),
            Err(_) => Err(RunFault::Write),
        }
    }

    // Gives those who ask their part of a round, which changes nothing of what is served. Returns
    // the moment at which something is to be done for one of them, even if no event comes.
    pub(super) fn attend<S: Saver>(
        &self,
        rt: &HostRuntime,
        events: &Events,
        status: &mut Option<Status>,
        server: &SavedServer<S>,
    ) -> Result<u64, RunFault> {
        let Some(status) = status else {
            return Ok(u64::MAX);
        };
        let now = self.now(rt)?;
        status.note_all(events);
        status.accept_all(rt.alloc(), self.poll.registry(), now);
        if status.read_all(now) {
            status.answer_all(rt.alloc(), &self.figures(server));
        }
        status.write_all(now);
        Ok(status.due())
    }

    // What there is to say of the service.
    fn figures<S: Saver>(&self, server: &SavedServer<S>) -> Figures {
        let store = server.core.store();
        let tallies = &server.counters;
        let owed = self.places.owed();
        let held = self.places.held() as u64;
        Figures {
            counters: tallies.counts,
            answered: tallies.answered,
            waited: tallies.waited,
            open: self.places.open() as u64,
            version: store.version(),
            records: store.layout().count() as u64,
            draft: self.limits.draft,
            stopping: self.phase.is_stopping(),
            published_at: tallies.published_at,
            prepared: tallies.prepared,
            saved: tallies.saved,
            unfinished: held.saturating_sub(owed),
            owed,
            left_out: self.log.all_left_out(),
        }
    }

    // Microseconds since the start; 0 if the clock can't be read.
    pub(super) fn micros(&self, rt: &HostRuntime) -> u64 {
        micros_since(rt, Some(self.start))
    }
}
