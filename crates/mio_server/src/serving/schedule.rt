//! The lists of places whose turn it is, and the moments of the looks at all connections.

ghost use Rattle.std.specs.Prelude.{◌≡◌, ℕ};

use std::alloc::Global;

/// How many milliseconds at least lie between two looks at all connections for what is due.
const RESCAN: u64 = 100;

/// Whose turn it is, and when something is due.
#[derive(Drop)]
pub struct Schedule {
    /// The places whose connections have their turn in this round, or the next one.
    pub ready: Vec<usize>,
    /// Those that have it now.
    pub turns: Vec<usize>,
    /// Memory to note a place was refused: each one has a turn.
    pub visits_all: bool,
    /// When all connections are looked at for what is due.
    pub scan_at: u64,
    /// When they were last.
    pub scanned: u64,
}

impl Schedule {
    ghost use Rattle.mio_server.specs.Turns.{HasTurn};

    /// Nobody's turn, and nothing was looked at.
    pub fn new(alloc: Global) -> Schedule {
        Schedule {
            ready: Vec::new(alloc),
            turns: Vec::new(alloc),
            visits_all: false,
            scan_at: 0,
            scanned: 0,
        }
    }

    /// Notes a place whose connection is to have its turn.
    pub fn push_ready(&mut self, place: usize)
        ensures scanned { self.new.scanned ≡ self.old.scanned }
        ensures turns { self.new.turns ≡ self.old.turns }
        ensures noted { HasTurn self.new.visits_all self.new.ready.items place }
        ensures others { (i : ℕ) → HasTurn self.old.visits_all self.old.ready.items i
            → HasTurn self.new.visits_all self.new.ready.items i }
    {
        if self.ready.push(place).is_err() {
            self.visits_all = true;
        }
    }

    /// Notes when something is due for a connection.
    pub fn note_next(&mut self, due: u64)
        ensures turns { self.new.turns ≡ self.old.turns }
        ensures scanned { self.new.scanned ≡ self.old.scanned }
        ensures all { self.new.visits_all ≡ self.old.visits_all }
        ensures ready { self.new.ready ≡ self.old.ready }
    {
        let due = due.max(self.scanned.saturating_add(RESCAN));
        self.scan_at = self.scan_at.min(due);
    }
}
