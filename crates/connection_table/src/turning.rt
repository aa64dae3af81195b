//! The turn of one connection, with what is counted of it.

ghost use Rattle.std.specs.Prelude.{◌≡◌, ◌++◌, ◌∷◌, [], List, None, IfOk, IfSome, false};
ghost use Rattle.server_core.specs.Cores.{session_of};
ghost use Rattle.connection_turns.specs.Runs.{OthersStay};
ghost use Rattle.service_watch.specs.Counts.{Amount, IsTally, counter_slot};
ghost use Rattle.connection_table.specs.Holding.{held_by};
ghost use Rattle.connection_table.specs.Judging.{GoesOn, IsIdle};
ghost use Rattle.connection_table.specs.Watching.{published_between};

use crate::connection::{ServedConnection, TurnResult};
use crate::device::Saver;
use crate::report::RunFault;
use crate::saved_server::SavedServer;
use crate::tallies::{Tallies, TurnTimes};
use crate::watch::Watch;
use service_status::{micros_since, unix_millis};
use service_watch::Counted;
use std::time::Instant;

impl ServedConnection {
    /// Makes a turn, counts it, and notes what was seen of it. Its moments are those since the
    /// start.
    ///
    /// # Errors
    ///
    /// Those of [`ServedConnection::take_turn`].
    pub fn take_counted_turn<S: Saver + Drop>(
        &mut self,
        rt: &HostRuntime,
        start: Instant,
        now: u64,
        server: SavedServer<S>,
        buffer: &mut [u8],
    ) -> Result<(SavedServer<S>, TurnResult), RunFault>
        ensures id { self.new.id ≡ self.old.id }
        ensures others { IfOk result (λ it. OthersStay self.old.id server.core it.0.core) }
        ensures queued { self.new.queued ≡ false }
        ensures published { IfOk result (λ it. self.new.watch.published ≡
            published_between server.core.store.version it.0.core.store.version) }
    {
        let before = server.core.store().version();
        let began = micros_since(rt, Some(start));
        let (mut server, outcome) = self.take_turn(rt, now, server, buffer)?;
        let ended = micros_since(rt, Some(start));
        let turn = self.watch.times(server.counters.polled, began, ended);
        self.watch.published = published_between(before, server.core.store().version());
        self.watch.note_edit(before);
        count_turn(rt, &mut server.counters, &self.watch, turn);
        self.watch.note_end(turn, outcome);
        Ok((server, outcome))
    }

    /// Notes after a turn how much is held for it, and returns what is to be done with it: one that
    /// would go on is closed if it is idle, and its writing is ended if the service stops and
    /// nothing of it is left to be served.
    pub fn end_turn<S: Saver>(
        &mut self,
        now: u64,
        stops: bool,
        idle: u64,
        server: &SavedServer<S>,
        outcome: TurnResult,
    ) -> TurnResult
        ensures id { self.new.id ≡ self.old.id }
        ensures held { self.new.held ≡
            held_by (session_of server.now.core.sessions self.new.id) self.new.state }
        ensures queued { self.new.queued ≡ self.old.queued }
        ensures active { GoesOn result → IsIdle self.new now idle → ⊥ }
        ensures over { (GoesOn outcome → ⊥) → result ≡ outcome }
    {
        self.note_held(server);
        let outcome = self.retired(now, stops, outcome);
        self.close_if_idle(now, idle, outcome)
    }
}

// Counts a turn of these times: the reply that it made, and its publication.
fn count_turn(rt: &HostRuntime, tallies: &mut Tallies, watch: &Watch, turn: TurnTimes)
    ensures none { watch.now.reply ≡ None → watch.now.published ≡ None →
        tallies.new ≡ tallies.old }
    ensures counts { IfSome watch.now.reply (λ r. (events : List Amount) →
        IsTally tallies.old.counts.counts events → IsTally tallies.new.counts.counts
        (events ++ record { slot = counter_slot (Counted.Reply r.kind r.first); much = 1 } ∷ [])) }
{
    tallies.note_turn(turn, watch.reply);
    if watch.published.is_some() {
        tallies.note_publication(turn, watch.saved, unix_millis(rt) / 1000);
    }
}

// The version that a turn published, from those before and after it.
fn published_between(before: u64, after: u64) -> Option<u64>
    ensures { result ≡ published_between before after }
{
    if before == after { None } else { Some(after) }
}
