//! A process that serves.

ghost use Rattle.std.specs.Prelude.{◌≡◌, ◌≢◌, None, length};
ghost use Rattle.server_core.specs.Cores.{session_of};

use crate::outside::Surroundings;
use crate::server::Limits;
use crate::serving::Serving;
use connection_turns::{ConnectionState, Fault, PIECE_LEN, Served, turn};
use server_files::OwnFile;
use session_core::{Lanes, Store};
use simulated_host::{Dice, End, Moved, Network, SimulatedFile, SimulatedFiles};
use std::alloc::Global;
use std::fs::OpenFile;
use std::io::Write;

/// How many milliseconds a connection that is over is read from.
const LINGER: u64 = 2_000;

/// Why a connection was closed before its end.
#[derive(Clone, Copy, Debug, PartialEq, Eq)]
pub enum Closing {
    /// A turn ended early.
    Turn(Fault),
    /// There was no progress for too long.
    Idle,
    /// More bytes were held for all connections than are allowed, and most of them for this one.
    Memory,
}

/// What a step of a server came to.
#[derive(Clone, Copy, Debug, PartialEq, Eq)]
pub enum Turned {
    /// There was nothing to do, or there is no process.
    Nothing,
    /// A connection was accepted.
    Accepted,
    /// A frame was served, or bytes came or went.
    Served,
    /// A version was published.
    Published(u64),
    /// A connection came to its end.
    Over,
    /// A connection was closed before that.
    Closed(Closing),
    /// A version could not be saved: the process has ended.
    Ended,
}

// A connection that was accepted.
#[derive(Drop)]
struct Held {
    end: End,
    id: u64,
    state: ConnectionState,
    // Whether a turn of it began a draft. Pushes come one after another, so no two connections edit
    // one draft, and this is simpler than what `Watch::note_edit` notes.
    edits: bool,
    // All was written: until this moment what still comes is read and forgotten.
    lingers: Option<u64>,
}

impl Held {
    // Whether there is something to do.
    fn is_ready(&self, network: &Network) -> bool {
        self.state.may_serve() || self.state.owes() || network.is_ready(self.end)
    }
}

/// A process that serves a file.
#[derive(Drop)]
pub struct Process<'a> {
    // Its lock is kept until the process ends.
    _file: OwnFile<'a, SimulatedFiles<'a>>,
    // None once a version could not be saved.
    serving: Option<Serving<SimulatedFile<'a>>>,
    connections: Vec<Held>,
    next_id: u64,
}

/// What a step of a process has at hand.
#[derive(Drop)]
pub struct Around<'w, 'a> {
    /// The machine.
    pub files: &'w SimulatedFiles<'a>,
    /// The connections.
    pub network: &'w mut Network,
    /// What decides.
    pub dice: &'w mut Dice,
    /// The moment in milliseconds.
    pub now: u64,
    /// What the process allows.
    pub limits: Limits,
    /// Where memory comes from.
    pub alloc: Global,
    /// Where reads bring bytes.
    pub buffer: &'w mut [u8],
}

impl<'a> Process<'a> {
    /// A process that has opened a file.
    pub fn new(
        alloc: Global,
        file: OwnFile<'a, SimulatedFiles<'a>>,
        serving: Serving<SimulatedFile<'a>>,
    ) -> Process<'a> {
        Process {
            _file: file,
            serving: Some(serving),
            connections: Vec::new(alloc),
            next_id: 0,
        }
    }

    /// The store that is served, unless a version of it could not be saved.
    pub fn store(&self) -> Option<&Store<Lanes>> {
        match &self.serving {
            Some(serving) => Some(serving.core.store()),
            None => None,
        }
    }

    /// How many connections it has.
    pub fn open(&self) -> usize {
        self.connections.len()
    }

    /// How many bytes are held for all connections.
    pub fn held(&self) -> usize {
        let mut held = 0usize;
        for connection in self.connections.iter() {
            held = held.saturating_add(self.held_for(connection));
        }
        held
    }

    // How many bytes are held for a connection: of an unfinished frame, and of replies that are
    // owed.
    fn held_for(&self, held: &Held) -> usize {
        let unfinished = match &self.serving {
            Some(serving) => serving.core.unfinished_len(held.id),
            None => 0,
        };
        unfinished.saturating_add(held.state.owed().len())
    }

    /// Accepts a connection, or makes a turn of one for which there is something to do, chosen at
    /// random; now and then of any. After `Ended` no other step is to be made.
    pub fn step(&mut self, around: &mut Around<'_, 'a>) -> Turned {
        if self.connections.len() < around.limits.most && around.dice.one_in(4) {
            return self.accept(around);
        }
        let start = around.dice.below(self.connections.len());
        let place = if around.dice.one_in(16) {
            start
        } else {
            self.ready_from(start, around.network)
        };
        self.turn_at(place, around)
    }

    /// Whether there is something to do.
    pub fn is_ready(&self, network: &Network) -> bool {
        self.connections.iter().any(|held| held.is_ready(network))
    }

    // The first place from one on whose connection has something to do, or the first of all; the
    // one given if there is none.
    fn ready_from(&self, start: usize, network: &Network) -> usize {
        let count = self.connections.len();
        for place in (start..count).chain(0..start) {
            if matches!(self.connections.get(place), Some(held) if held.is_ready(network)) {
                return place;
            }
        }
        start
    }

    // Accepts a connection that waits.
    fn accept(&mut self, around: &mut Around<'_, 'a>) -> Turned {
        let Some(end) = around.network.accept(around.files.machine()) else {
            return Turned::Nothing;
        };
        let id = self.next_id;
        self.next_id = self.next_id.wrapping_add(1);
        let held = Held {
            end,
            id,
            state: ConnectionState::new(around.alloc, around.now),
            edits: false,
            lingers: None,
        };
        if !self.opens_session(id) || self.connections.push(held).is_err() {
            around.network.close(end);
            return Turned::Over;
        }
        Turned::Accepted
    }

    // Opens the session of a connection. Returns whether it is open.
    fn opens_session(&mut self, id: u64) -> bool {
        match &mut self.serving {
            Some(serving) => serving.open_session(id).is_ok(),
            None => false,
        }
    }

    // Makes a turn of the connection at a place.
    fn turn_at(&mut self, place: usize, around: &mut Around<'_, 'a>) -> Turned {
        if place >= self.connections.len() {
            return Turned::Nothing;
        }
        let mut held = self.connections.swap_remove(place);
        let before = self.version();
        let outcome = self.take_turn(&mut held, around);
        let after = self.version();
        if after.is_none() {
            return Turned::Ended;
        }
        let turned = self.after_turn(held, outcome, around);
        match after {
            Some(version) if before != after => Turned::Published(version),
            _ => turned,
        }
    }

    // The version that is served.
    fn version(&self) -> Option<u64> {
        match &self.serving {
            Some(serving) => Some(serving.core.store().version()),
            None => None,
        }
    }

    // Makes a turn of a connection. Nothing is served any more if a version could not be saved.
    fn take_turn(&mut self, held: &mut Held, around: &mut Around<'_, 'a>) -> Outcome {
        if let Some(until) = held.lingers {
            return linger(held, until, around);
        }
        let Some(serving) = self.serving.take() else {
            return Outcome::Ends(Turned::Ended);
        };
        let (serving, outcome) = turn_over(serving, held, around);
        self.serving = serving;
        outcome
    }

    // Puts a connection back, or lets it go.
    fn after_turn(&mut self, held: Held, outcome: Outcome, around: &mut Around<'_, 'a>) -> Turned {
        match outcome {
            Outcome::GoesOn(turned) => {
                let end = held.end;
                if self.connections.push(held).is_err() {
                    around.network.close(end);
                    return Turned::Over;
                }
                self.within_memory(turned, around)
            }
            Outcome::Ends(turned) => {
                self.let_go(&held, around);
                turned
            }
        }
    }

    // Closes the connection for which most bytes are held, if there are more than are allowed for
    // all.
    fn within_memory(&mut self, turned: Turned, around: &mut Around<'_, 'a>) -> Turned {
        if self.held() <= around.limits.memory {
            return turned;
        }
        let largest = self.largest();
        if largest >= self.connections.len() {
            return turned;
        }
        let held = self.connections.swap_remove(largest);
        self.let_go(&held, around);
        Turned::Closed(Closing::Memory)
    }

    // The place of the connection for which most bytes are held.
    fn largest(&self) -> usize {
        let mut largest = 0;
        let mut most = 0;
        for (place, connection) in self.connections.iter().enumerate() {
            let held = self.held_for(connection);
            if held > most {
                largest = place;
                most = held;
            }
        }
        largest
    }

    // Lets a connection go, and drops the draft if nobody is left who edited it.
    fn let_go(&mut self, held: &Held, around: &mut Around<'_, 'a>) {
        around.network.close(held.end);
        let drops = held.edits && !self.connections.iter().any(|other| other.edits);
        if let Some(serving) = &mut self.serving {
            serving.close_session(held.id);
            if drops {
                serving.drop_draft();
            }
        }
    }
}

// What a turn came to.
#[derive(Clone, Copy)]
enum Outcome {
    // The connection goes on.
    GoesOn(Turned),
    // The connection is let go.
    Ends(Turned),
}

// Makes a turn of a connection over what is served. Nothing is given back if a version could not be
// saved.
fn turn_over<'a>(
    serving: Serving<SimulatedFile<'a>>,
    held: &mut Held,
    around: &mut Around<'_, 'a>,
) -> (Option<Serving<SimulatedFile<'a>>>, Outcome) {
    if !serving.core.has_session(held.id) || around.buffer.len() != PIECE_LEN {
        return (Some(serving), Outcome::Ends(Turned::Over));
    }
    let was_marked = serving.core.store().is_marked();
    let Some((serving, served)) = serve(serving, held, around) else {
        return (None, Outcome::Ends(Turned::Ended));
    };
    held.edits = held.edits || !was_marked && serving.core.store().is_marked();
    let outcome = match served {
        Err(fault) => Outcome::Ends(Turned::Closed(Closing::Turn(fault))),
        Ok(moved) => next(held, moved, around),
    };
    (Some(serving), outcome)
}

// Makes a turn of a connection that has a session. What is served is given back with what came of
// the turn; nothing if a version could not be saved.
fn serve<'a>(
    serving: Serving<SimulatedFile<'a>>,
    held: &mut Held,
    around: &mut Around<'_, 'a>,
) -> Option<(Serving<SimulatedFile<'a>>, Result<Turned, Fault>)>
    requires there { session_of serving.core.sessions held.old.id ≢ None }
    requires room { length around.old.buffer.now ≡ 65536 }
{
    let Serving { mut core, saver } = serving;
    let mut outside = Surroundings {
        saver,
        files: around.files,
        network: around.network,
        dice: around.dice,
        end: held.end,
        alloc: around.alloc,
        written: 0,
    };
    let ended = turn(
        &mut held.state,
        &mut core,
        &mut outside,
        held.id,
        around.now,
        around.buffer,
    );
    let Surroundings { saver, .. } = outside;
    match ended {
        Ok(Served::Done | Served::PutOff) => Some((Serving { core, saver }, Ok(Turned::Served))),
        Err(Fault::Save) => None,
        Err(fault) => Some((Serving { core, saver }, Err(fault))),
    }
}

// What is next after a turn.
fn next(held: &mut Held, turned: Turned, around: &mut Around<'_, '_>) -> Outcome {
    if held.state.is_done() {
        around.network.end_writing(held.end);
        held.lingers = Some(around.now.saturating_add(LINGER));
        return Outcome::GoesOn(Turned::Over);
    }
    let idle = around.limits.idle;
    if !held.state.may_serve() && held.state.is_expired(around.now, idle) {
        return Outcome::Ends(Turned::Closed(Closing::Idle));
    }
    Outcome::GoesOn(turned)
}

// Reads and forgets, until the other end has ended too, or has had its time.
fn linger(held: &mut Held, until: u64, around: &mut Around<'_, '_>) -> Outcome {
    if around.now >= until {
        return Outcome::Ends(Turned::Over);
    }
    match around.network.read(held.end, around.buffer, around.dice) {
        Moved::Bytes(0) | Moved::Broken => Outcome::Ends(Turned::Over),
        Moved::Bytes(_) => Outcome::GoesOn(Turned::Served),
        Moved::Later => Outcome::GoesOn(Turned::Nothing),
    }
}
