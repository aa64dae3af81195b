//! The turns of connections, and what becomes of them.

ghost use Rattle.std.specs.Prelude.{◌≡◌, ◌≤◌, ◌<◌, ℕ, slice_get, None, IfOk, IfSome, OnOk, length};
ghost use Rattle.std.specs.Prelude.{true, false};

use super::{Service, note_closing};
use connection_table::{Closing, RunFault, SavedServer, Saver, ServedConnection, TurnResult};
use service_watch::{Cause, Counted, ServiceEvent};
use std::mem;

impl Service {
    ghost use Rattle.connection_turns.specs.Runs.{DoesToCore, Closes};
    ghost use Rattle.connection_table.specs.Judging.{GoesOn};
    ghost use Rattle.connection_table.specs.Places.{all_held, connection_at};
    ghost use Rattle.mio_server.specs.Turns.{AreMarkedNoted, HasNoIdle, HasTurn, HasTurnIfMarked};
    ghost use Rattle.mio_server.specs.Turns.{OthersStayOrGo};
    ghost use Rattle.mio_server.specs.Sessions.{AreNoted, PutsOrEvicts, SessionsStayOrGo};

    // Gives a turn to each connection that is to have one.
    pub(super) fn take_turns<S: Saver + Drop>(
        &mut self,
        rt: &HostRuntime,
        server: SavedServer<S>,
    ) -> Result<SavedServer<S>, RunFault>
        requires noted { AreNoted self.old.places.connections.items server.core self.old.next_id }
        ensures noted { IfOk result (λ server.
            AreNoted self.new.places.connections.items server.core self.new.next_id) }
        ensures idle { OnOk result ((i : ℕ) → HasTurn self.old.schedule.visits_all
            self.old.schedule.ready.items i
            → HasNoIdle self.new.places.connections.items i
            self.old.schedule.scanned self.old.limits.idle) }
        ensures limits { OnOk result (self.new.limits ≡ self.old.limits) }
        ensures scanned { OnOk result (self.new.schedule.scanned ≡ self.old.schedule.scanned) }
        ensures stays { OnOk result ((i : ℕ) → HasNoIdle self.old.places.connections.items i
            self.old.schedule.scanned self.old.limits.idle → HasNoIdle
            self.new.places.connections.items i
            self.old.schedule.scanned self.old.limits.idle) }
        ensures marked { AreMarkedNoted self.old.places.connections.items
            self.old.schedule.visits_all
            self.old.schedule.ready.items → OnOk result (AreMarkedNoted
            self.new.places.connections.items self.new.schedule.visits_all
            self.new.schedule.ready.items) }
    {
        let server = self.visit_all(rt, server)?;
        self.visit_ready(rt, server)
    }

    // Gives a turn to each connection that is noted.
    pub(super) fn visit_ready<S: Saver + Drop>(
        &mut self,
        rt: &HostRuntime,
        mut server: SavedServer<S>,
    ) -> Result<SavedServer<S>, RunFault>
        requires noted { AreNoted self.old.places.connections.items server.core self.old.next_id }
        ensures noted { IfOk result (λ server.
            AreNoted self.new.places.connections.items server.core self.new.next_id) }
        ensures idle { OnOk result ((k : ℕ) → IfSome (slice_get self.old.schedule.ready.items k)
            (λ i. HasNoIdle self.new.places.connections.items i
            self.old.schedule.scanned self.old.limits.idle)) }
        ensures stays { OnOk result ((i : ℕ) → HasNoIdle self.old.places.connections.items i
            self.old.schedule.scanned self.old.limits.idle → HasNoIdle
            self.new.places.connections.items i
            self.old.schedule.scanned self.old.limits.idle) }
        ensures limits { OnOk result (self.new.limits ≡ self.old.limits) }
        ensures scanned { OnOk result (self.new.schedule.scanned ≡ self.old.schedule.scanned) }
        ensures marked { AreMarkedNoted self.old.places.connections.items
            self.old.schedule.visits_all
            self.old.schedule.ready.items → OnOk result (AreMarkedNoted
            self.new.places.connections.items self.new.schedule.visits_all
            self.new.schedule.ready.items) }
    {
        mem::swap(&mut self.schedule.ready, &mut self.schedule.turns);
        self.schedule.ready.clear();
        for at in 0..self.schedule.turns.len() {
            let place = self.schedule.turns[at];
            server = self.visit(rt, place, server)?;
        }
        Ok(server)
    }

    // Gives each connection a turn, if one could not be noted.
    pub(super) fn visit_all<S: Saver + Drop>(
        &mut self,
        rt: &HostRuntime,
        mut server: SavedServer<S>,
    ) -> Result<SavedServer<S>, RunFault>
        requires noted { AreNoted self.old.places.connections.items server.core self.old.next_id }
        ensures noted { IfOk result (λ server.
            AreNoted self.new.places.connections.items server.core self.new.next_id) }
        ensures idle { self.old.schedule.visits_all ≡ true → OnOk result ((i : ℕ) →
            HasNoIdle self.new.places.connections.items i self.old.schedule.scanned
            self.old.limits.idle) }
        ensures none { self.old.schedule.visits_all ≡ false → OnOk result (self.new ≡ self.old) }
        ensures limits { OnOk result (self.new.limits ≡ self.old.limits) }
        ensures scanned { OnOk result (self.new.schedule.scanned ≡ self.old.schedule.scanned) }
        ensures marked { self.old.schedule.visits_all ≡ true → OnOk result (AreMarkedNoted
            self.new.places.connections.items self.new.schedule.visits_all
            self.new.schedule.ready.items) }
    {
        if !self.schedule.visits_all {
            return Ok(server);
        }
        self.schedule.visits_all = false;
        // What was noted has its turn among all, and none a second one.
        self.schedule.ready.clear();
        for place in 0..self.places.len() {
            server = self.visit(rt, place, server)?;
        }
        Ok(server)
    }

    // Gives the connection at a place a turn, if there is one, and lets it have another if it has
    // more to do at once.
    pub(super) fn visit<S: Saver + Drop>(
        &mut self,
        rt: &HostRuntime,
        place: usize,
        server: SavedServer<S>,
    ) -> Result<SavedServer<S>, RunFault>
        requires noted { AreNoted self.old.places.connections.items server.core self.old.next_id }
        ensures noted { IfOk result (λ server.
            AreNoted self.new.places.connections.items server.core self.new.next_id) }
        ensures idle { OnOk result (HasNoIdle self.new.places.connections.items place
            self.old.schedule.scanned self.old.limits.idle) }
        ensures stays { OnOk result ((i : ℕ) → HasNoIdle self.old.places.connections.items i
            self.old.schedule.scanned self.old.limits.idle → HasNoIdle
            self.new.places.connections.items i
            self.old.schedule.scanned self.old.limits.idle) }
        ensures limits { OnOk result (self.new.limits ≡ self.old.limits) }
        ensures scanned { OnOk result (self.new.schedule.scanned ≡ self.old.schedule.scanned) }
        ensures turns { OnOk result (self.new.schedule.turns ≡ self.old.schedule.turns) }
        ensures marked { OnOk result (HasTurnIfMarked self.new.places.connections.items
            self.new.schedule.visits_all self.new.schedule.ready.items place) }
        ensures marks_stay { OnOk result ((i : ℕ) → HasTurnIfMarked
            self.old.places.connections.items self.old.schedule.visits_all
            self.old.schedule.ready.items i
            → HasTurnIfMarked self.new.places.connections.items
            self.new.schedule.visits_all self.new.schedule.ready.items i) }
    {
        let server = self.end_draft(server);
        let (server, more) = self.take_turn_at(rt, place, server)?;
        self.note_next_at(place);
        self.queue_again(place, more);
        Ok(server)
    }

    // Gives the connection at a place a turn, if there is one, and closes what is over. Returns
    // whether there is more to do at once.
    pub(super) fn take_turn_at<S: Saver + Drop>(
        &mut self,
        rt: &HostRuntime,
        place: usize,
        server: SavedServer<S>,
    ) -> Result<(SavedServer<S>, bool), RunFault>
        requires noted { AreNoted self.old.places.connections.items server.core self.old.next_id }
        ensures noted { IfOk result (λ it.
            AreNoted self.new.places.connections.items it.0.core self.new.next_id) }
        ensures idle { OnOk result (HasNoIdle self.new.places.connections.items place
            self.old.schedule.scanned self.old.limits.idle) }
        ensures limits { OnOk result (self.new.limits ≡ self.old.limits) }
        ensures schedule { OnOk result (self.new.schedule ≡ self.old.schedule) }
        ensures bounded { OnOk result
            (all_held self.new.places.connections.items ≤ self.new.limits.memory) }
        ensures free { connection_at self.old.places.connections.items place ≡ None →
            IfOk result (λ it. (it.0.core ≡ server.core) × (it.1 ≡ false)
            × (self.new.places.connections.items ≡ self.old.places.connections.items)) }
        ensures others { OnOk result (OthersStayOrGo place
            self.old.places.connections.items self.new.places.connections.items) }
        ensures sessions { IfOk result (λ it.
            IfSome (connection_at self.old.places.connections.items place)
            (λ c. SessionsStayOrGo c.id server.core it.0.core)) }
        ensures unmarked { OnOk result (IfSome
            (connection_at self.new.places.connections.items place) (λ c. c.queued ≡ false)) }
    {
        if self.places.is_free(place) {
            return Ok((server, false));
        }
        let now = match self.now_of_turn(rt) {
            Ok(now) => now,
            Err(fault) => {
                // A call keeps the prover from taking apart here all that a server owns.
                drop(server);
                return Err(fault);
            }
        };
        let Some(mut connection) = self.places.take(place) else {
            return Ok((server, false));
        };
        let taken = connection.take_counted_turn(rt, self.start, now, server, &mut self.buffer);
        let (mut server, outcome) = match taken {
            Ok(both) => both,
            Err(fault) => {
                drop(connection);
                return Err(fault);
            }
        };
        self.log.note_turn(
            rt,
            connection.id,
            connection.address,
            connection.watch.reply,
            connection.watch.published,
        );
        let stops = self.phase.is_stopping();
        let outcome = connection.end_turn(now, stops, self.limits.idle, &server, outcome);
        let more = self.finish_turn(rt, &mut server, place, connection, outcome);
        Ok((server, more))
    }

    // Puts a connection back into its place after a turn, or closes it. Returns whether there is
    // more to do at once: if it is closed, whether another may be accepted in its place.
    pub(super) fn finish_turn<S: Saver>(
        &mut self,
        rt: &HostRuntime,
        server: &mut SavedServer<S>,
        place: usize,
        connection: ServedConnection,
        outcome: TurnResult,
    ) -> bool
        requires within { place < length self.old.places.connections.items }
        requires free { connection_at self.old.places.connections.items place ≡ None }
        ensures goes_on { GoesOn outcome → PutsOrEvicts place connection
            self.old.places.connections.items server.old.core
            self.new.places.connections.items server.new.core }
        ensures over { (GoesOn outcome → ⊥) →
            (self.new.places.connections.items ≡ self.old.places.connections.items)
            × DoesToCore server.old.core (Closes connection.id) server.new.core }
        ensures busy { outcome ≡ TurnResult.Busy → result ≡ true }
        ensures put_off { outcome ≡ TurnResult.PutOff → result ≡ true }
        ensures waits { outcome ≡ TurnResult.Waits → result ≡ false }
        ensures again { (GoesOn outcome → ⊥) → result ≡ self.old.acceptable }
        ensures limits { self.new.limits ≡ self.old.limits }
        ensures schedule { self.new.schedule ≡ self.old.schedule }
        ensures number { self.new.next_id ≡ self.old.next_id }
    {
        if outcome.goes_on() {
            self.put_or_evict(rt, server, place, connection);
            return outcome.has_more();
        }
        let (id, address) = (connection.id, connection.address);
        match outcome {
            TurnResult::Closed(closing) => {
                note_closing(
                    rt,
                    &mut self.log,
                    &mut server.counters,
                    closing,
                    Some(id),
                    Some(address),
                );
            }
            _ => {
                self.log
                    .note_connection(rt, ServiceEvent::Closed, id, address, None);
                server.counters.add(Counted::Closed(Cause::End), 1);
            }
        }
        self.full = false;
        server.close_session(connection.id);
        self.acceptable
    }

    // Puts a connection into a free place. If too many bytes are held for all then, the one for
    // which most are held is closed.
    pub(super) fn put_or_evict<S: Saver>(
        &mut self,
        rt: &HostRuntime,
        server: &mut SavedServer<S>,
        place: usize,
        connection: ServedConnection,
    )
        requires within { place < length self.old.places.connections.items }
        requires free { connection_at self.old.places.connections.items place ≡ None }
        ensures settles { PutsOrEvicts place connection self.old.places.connections.items
            server.old.core
            self.new.places.connections.items server.new.core }
        ensures limits { self.new.limits ≡ self.old.limits }
        ensures schedule { self.new.schedule ≡ self.old.schedule }
        ensures number { self.new.next_id ≡ self.old.next_id }
    {
        if let Some(lost) = self.places.put(place, connection) {
            note_closing(
                rt,
                &mut self.log,
                &mut server.counters,
                Closing::Crowded,
                Some(lost.id),
                Some(lost.address),
            );
            self.full = false;
            server.close_session(lost.id);
        }
    }

    // Milliseconds since the start, no fewer than when all connections were looked at.
    pub(super) fn now_of_turn(&self, rt: &HostRuntime) -> Result<u64, RunFault>
        ensures { IfOk result (λ now. self.now.schedule.scanned ≤ now) }
    {
        let now = self.now(rt)?;
        Ok(if now < self.schedule.scanned {
            self.schedule.scanned
        } else {
            now
        })
    }
}
