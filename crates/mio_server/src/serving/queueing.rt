//! What gives a connection its turn: an event, something that is due, or more to do.

ghost use Rattle.std.specs.Prelude.{◌≡◌, ◌≤◌, ◌<◌, ℕ, slice_set};

use super::{LISTENER, LONGEST_WAIT, Service};
use mio::Events;
use service_status::INPUT;

impl Service {
    ghost use Rattle.connection_table.specs.Places.{connection_at, noted};
    ghost use Rattle.mio_server.specs.Turns.{AreQueued, HasTurn, HasTurnIfMarked};
    ghost use Rattle.mio_server.specs.Turns.{OnlyFlagsChange};

    // Lets the connection at a place have its turn, if there is one.
    pub(super) fn queue(&mut self, place: usize, readable: bool, writable: bool)
        ensures places { self.new.places.connections.items ≡
            slice_set self.old.places.connections.items place
            (noted readable writable (connection_at self.old.places.connections.items place)) }
        ensures limits { self.new.limits ≡ self.old.limits }
        ensures scanned { self.new.schedule.scanned ≡ self.old.schedule.scanned }
        ensures flags { OnlyFlagsChange self.old.places.connections.items
            self.new.places.connections.items }
        ensures number { self.new.next_id ≡ self.old.next_id }
        ensures turns { self.new.schedule.turns ≡ self.old.schedule.turns }
        ensures marked { (i : ℕ) → HasTurnIfMarked self.old.places.connections.items
            self.old.schedule.visits_all self.old.schedule.ready.items i
            → HasTurnIfMarked self.new.places.connections.items
            self.new.schedule.visits_all self.new.schedule.ready.items i }
    {
        if self.places.note(place, readable, writable) {
            self.schedule.push_ready(place);
        }
    }

    // Marks each connection for which something is due, so that it has its turn, and notes when to
    // look again. All connections are looked at, so this is not done in each round.
    pub(super) fn note_due(&mut self, now: u64)
        ensures looks { self.old.schedule.scan_at ≤ now → (self.new.schedule.scanned ≡ now)
            × AreQueued self.new.places.connections.items self.new.limits.idle now }
        ensures limits { self.new.limits ≡ self.old.limits }
        ensures flags { OnlyFlagsChange self.old.places.connections.items
            self.new.places.connections.items }
        ensures number { self.new.next_id ≡ self.old.next_id }
        ensures marked { (i : ℕ) → HasTurnIfMarked self.old.places.connections.items
            self.old.schedule.visits_all self.old.schedule.ready.items i
            → HasTurnIfMarked self.new.places.connections.items
            self.new.schedule.visits_all self.new.schedule.ready.items i }
        ensures waits { now < self.old.schedule.scan_at → self.new ≡ self.old }
    {
        if now < self.schedule.scan_at {
            return;
        }
        self.schedule.scanned = now;
        self.schedule.scan_at = now.saturating_add(LONGEST_WAIT);
        self.queue_due(now);
    }

    // Marks each connection for which something is due, so that it has its turn.
    pub(super) fn queue_due(&mut self, now: u64)
        ensures due { AreQueued self.new.places.connections.items self.new.limits.idle now }
        ensures limits { self.new.limits ≡ self.old.limits }
        ensures scanned { self.new.schedule.scanned ≡ self.old.schedule.scanned }
        ensures flags { OnlyFlagsChange self.old.places.connections.items
            self.new.places.connections.items }
        ensures number { self.new.next_id ≡ self.old.next_id }
        ensures marked { (i : ℕ) → HasTurnIfMarked self.old.places.connections.items
            self.old.schedule.visits_all self.old.schedule.ready.items i
            → HasTurnIfMarked self.new.places.connections.items
            self.new.schedule.visits_all self.new.schedule.ready.items i }
    {
        for place in 0..self.places.len() {
            match self.places.due_at(place, self.limits.idle) {
                Some(due) if due <= now => self.queue(place, false, false),
                Some(due) => self.schedule.note_next(due),
                None => {}
            }
        }
    }

    // Notes what the events say. One of a connection that is gone does no harm: the next call would
    // wait. Nor does one of those who ask how the service does: their numbers are those of no
    // place.
    pub(super) fn note_all(&mut self, events: &Events)
        ensures flags { OnlyFlagsChange self.old.places.connections.items
            self.new.places.connections.items }
        ensures number { self.new.next_id ≡ self.old.next_id }
        ensures marked { (i : ℕ) → HasTurnIfMarked self.old.places.connections.items
            self.old.schedule.visits_all self.old.schedule.ready.items i
            → HasTurnIfMarked self.new.places.connections.items
            self.new.schedule.visits_all self.new.schedule.ready.items i }
        ensures limits { self.new.limits ≡ self.old.limits }
        ensures scanned { self.new.schedule.scanned ≡ self.old.schedule.scanned }
    {
        for event in events {
            let token = event.token();
            if token == LISTENER {
                self.acceptable = true;
            } else if token == INPUT {
                self.input_ready = true;
            } else {
                self.queue(
                    token.0,
                    event.is_readable(),
                    event.is_writable() || event.is_error(),
                );
            }
        }
    }

    // Notes when something is due for the connection at a place, if there is one.
    pub(super) fn note_next_at(&mut self, place: usize)
        ensures places { self.new.places ≡ self.old.places }
        ensures number { self.new.next_id ≡ self.old.next_id }
        ensures turns { self.new.schedule.turns ≡ self.old.schedule.turns }
        ensures limits { self.new.limits ≡ self.old.limits }
        ensures scanned { self.new.schedule.scanned ≡ self.old.schedule.scanned }
        ensures all { self.new.schedule.visits_all ≡ self.old.schedule.visits_all }
        ensures ready { self.new.schedule.ready ≡ self.old.schedule.ready }
    {
        if let Some(due) = self.places.due_at(place, self.limits.idle) {
            self.schedule.note_next(due);
        }
    }

    // Lets the connection at a place have another turn, if it has more to do.
    pub(super) fn queue_again(&mut self, place: usize, more: bool)
        ensures flags { OnlyFlagsChange self.old.places.connections.items
            self.new.places.connections.items }
        ensures number { self.new.next_id ≡ self.old.next_id }
        ensures turns { self.new.schedule.turns ≡ self.old.schedule.turns }
        ensures limits { self.new.limits ≡ self.old.limits }
        ensures scanned { self.new.schedule.scanned ≡ self.old.schedule.scanned }
        ensures marked { (i : ℕ) → HasTurnIfMarked self.old.places.connections.items
            self.old.schedule.visits_all self.old.schedule.ready.items i
            → HasTurnIfMarked self.new.places.connections.items
            self.new.schedule.visits_all self.new.schedule.ready.items i }
    {
        if more {
            self.queue(place, false, false);
        }
    }
}
