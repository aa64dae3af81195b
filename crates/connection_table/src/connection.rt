//! A connection, and its turns.

ghost use Rattle.std.specs.Prelude.{◌≡◌, ◌≢◌, ◌↔◌, None, Err, IfOk, IsTrue, is_ok, length};
ghost use Rattle.std.specs.Prelude.{true, false};
ghost use Rattle.server_core.specs.Cores.{session_of};
ghost use Rattle.connection_turns.specs.Runs.{OthersStay};
ghost use Rattle.connection_table.specs.Holding.{held_by};
ghost use Rattle.connection_table.specs.Judging.{GoesOn, HasMore, IsIdle, due_of};
ghost use Rattle.connection_table.specs.Ending.{EndsWriting, IsServedOut};

use crate::device::{Device, Saver};
use crate::report::{Closing, RunFault};
use crate::saved_server::SavedServer;
use crate::tallies::Tallies;
use crate::watch::Watch;
use connection_turns::{ConnectionState, Fault, PIECE_LEN, Served, turn};
use lane_kernels::Lanes;
use mio::net::TcpStream;
use server_core::ServerCore;
use std::io::{ErrorKind, Read};
use std::net::{Shutdown, SocketAddr};

/// How many milliseconds a connection that is over is still read from, so that the last reply is
/// not lost with it.
const LINGER: u64 = 2_000;

/// A socket, and what is kept for it. A flag is put out when a call would have waited, and set by
/// an event.
#[derive(Drop)]
pub struct ServedConnection {
    /// The socket.
    pub stream: TcpStream,
    /// The peer's address.
    pub address: SocketAddr,
    /// The peer's IP address, as one of IPv6.
    pub peer: [u8; 16],
    /// The number of its session.
    pub id: u64,
    /// What is kept for it.
    pub state: ConnectionState,
    /// There may be something to read.
    pub readable: bool,
    /// There may be room to write.
    pub writable: bool,
    /// All was written, and the writing was ended: until this moment what still comes is read and
    /// forgotten.
    pub lingers: Option<u64>,
    /// How many bytes its session keeps of an unfinished frame, and how many are owed.
    pub held: usize,
    /// Whether this connection has its turn in this round or the next one.
    pub queued: bool,
    /// What was seen of it.
    pub watch: Watch,
}

/// What a turn came to.
#[derive(Clone, Copy, PartialEq, Eq)]
pub enum TurnResult {
    /// There is more to do at once.
    Busy,
    /// Its frame was put off: there is more to do at once, and the frame goes on waiting.
    PutOff,
    /// The connection waits for its socket.
    Waits,
    /// The connection came to its end.
    Over,
    /// The connection is to be closed before its end.
    Closed(Closing),
}

impl TurnResult {
    /// Whether the connection would go on.
    pub fn goes_on(self) -> bool
        ensures { IsTrue result ↔ GoesOn self }
    {
        match self {
            TurnResult::Busy | TurnResult::PutOff | TurnResult::Waits => true,
            TurnResult::Over | TurnResult::Closed(_) => false,
        }
    }

    /// Whether there is more to do at once.
    pub fn has_more(self) -> bool
        ensures { IsTrue result ↔ HasMore self }
    {
        match self {
            TurnResult::Busy | TurnResult::PutOff => true,
            TurnResult::Waits | TurnResult::Over | TurnResult::Closed(_) => false,
        }
    }
}

impl ServedConnection {
    /// A connection that was accepted, has a session of this number, and will have its turn.
    pub fn opened(
        stream: TcpStream,
        address: SocketAddr,
        peer: [u8; 16],
        id: u64,
        state: ConnectionState,
    ) -> ServedConnection
        ensures { result ≡ record {
          stream = stream;
          address = address;
          peer = peer;
          id = id;
          state = state;
          readable = true;
          writable = true;
          lingers = None;
          held = 0;
          queued = true;
          watch = result.watch;
        } }
    {
        ServedConnection {
            stream,
            address,
            peer,
            id,
            state,
            readable: true,
            writable: true,
            lingers: None,
            held: 0,
            queued: true,
            watch: Watch::new(),
        }
    }

    /// The moment at which something is to be done even if no event comes.
    pub fn due(&self, idle: u64) -> u64
        ensures { result ≡ due_of idle self.now }
    {
        match self.lingers {
            Some(until) => until,
            None => self.state.expires_at(idle),
        }
    }

    /// Makes a turn: one read at most, one frame, unless it is put off, and one write, or, if
    /// all was written, a read that is forgotten. No other connection's session changes.
    ///
    /// # Errors
    ///
    /// If a version could not be saved: no other turn can be made.
    pub fn take_turn<S: Saver + Drop>(
        &mut self,
        rt: &HostRuntime,
        now: u64,
        server: SavedServer<S>,
        buffer: &mut [u8],
    ) -> Result<(SavedServer<S>, TurnResult), RunFault>
        ensures id { self.new.id ≡ self.old.id }
        ensures held { self.new.held ≡ self.old.held }
        ensures others { IfOk result (λ it. OthersStay self.old.id server.core it.0.core) }
        ensures queued { self.new.queued ≡ false }
    {
        self.queued = false;
        self.watch.reply = None;
        self.watch.saved = 0;
        if let Some(until) = self.lingers {
            return Ok((server, self.linger(now, until, buffer)));
        }
        if !server.core.has_session(self.id) || buffer.len() != PIECE_LEN {
            return Ok((server, TurnResult::Over));
        }
        let (server, ended) = self.serve(rt, now, server, buffer)?;
        match ended {
            Ok(Served::Done) => Ok((server, self.next(now))),
            Ok(Served::PutOff) => Ok((server, TurnResult::PutOff)),
            Err(fault) => Ok((server, TurnResult::Closed(Closing::Turn(fault)))),
        }
    }

    /// What is to be done with it after a turn: one that would go on is closed exactly if it is
    /// idle.
    pub fn close_if_idle(&self, now: u64, idle: u64, outcome: TurnResult) -> TurnResult
        ensures idle { GoesOn outcome → IsIdle self.now now idle →
            result ≡ TurnResult.Closed Closing.Idle }
        ensures over { (GoesOn outcome → ⊥) → result ≡ outcome }
        ensures active { (IsIdle self.now now idle → ⊥) → result ≡ outcome }
    {
        if outcome.goes_on() && self.is_idle(now, idle) {
            TurnResult::Closed(Closing::Idle)
        } else {
            outcome
        }
    }

    /// Ends the writing after a turn if the service stops and nothing of the connection is left to
    /// be served.
    pub fn retired(&mut self, now: u64, stops: bool, outcome: TurnResult) -> TurnResult
        ensures serves { stops ≡ false → (self.new ≡ self.old) × (result ≡ outcome) }
        ensures over { (GoesOn outcome → ⊥) → (self.new ≡ self.old) × (result ≡ outcome) }
        ensures begun { (IsServedOut self.old → ⊥) → (self.new ≡ self.old) × (result ≡ outcome) }
        ensures ends { stops ≡ true → GoesOn outcome → IsServedOut self.old →
            EndsWriting now self.old self.new result }
        ensures id { self.new.id ≡ self.old.id }
        ensures state { self.new.state ≡ self.old.state }
        ensures held { self.new.held ≡ self.old.held }
        ensures queued { self.new.queued ≡ self.old.queued }
    {
        if stops && outcome.goes_on() && self.is_quiet() {
            self.end(now)
        } else {
            outcome
        }
    }

    // Whether nothing of it is left to be served.
    fn is_quiet(&self) -> bool
        ensures { IsTrue result ↔ IsServedOut self.now }
    {
        self.lingers.is_none() && !self.readable && self.state.may_read() && self.held == 0
    }

    // Whether it has nothing to serve, and made no progress for too long.
    fn is_idle(&self, now: u64, idle: u64) -> bool
        ensures { IsTrue result ↔ IsIdle self.now now idle }
    {
        self.lingers.is_none() && !self.state.may_serve() && self.state.is_expired(now, idle)
    }

    /// Notes how many bytes its session keeps of an unfinished frame, and how many are owed.
    pub fn note_held<S: Saver>(&mut self, server: &SavedServer<S>)
        ensures { self.new ≡ record self.old {
          held = held_by (session_of server.now.core.sessions self.old.id) self.old.state;
        } }
    {
        let unfinished = server.core.unfinished_len(self.id);
        self.held = unfinished.saturating_add(self.state.owed().len());
    }

    // The turn of a connection that is not over.
    fn serve<S: Saver + Drop>(
        &mut self,
        rt: &HostRuntime,
        now: u64,
        server: SavedServer<S>,
        buffer: &mut [u8],
    ) -> Result<(SavedServer<S>, Result<Served, Fault>), RunFault>
        requires there { session_of server.core.sessions self.old.id ≢ None }
        requires room { length buffer.old ≡ 65536 }
        ensures id { self.new.id ≡ self.old.id }
        ensures held { self.new.held ≡ self.old.held }
        ensures others { IfOk result (λ it. OthersStay self.old.id server.core it.0.core) }
        ensures queued { self.new.queued ≡ self.old.queued }
    {
        let SavedServer {
            mut core,
            saver,
            counters,
        } = server;
        let mut device = Device {
            rt,
            saver,
            stream: &self.stream,
            readable: self.readable,
            writable: self.writable,
            watch: self.watch,
            counters,
        };
        let ended = turn(
            &mut self.state,
            &mut core,
            &mut device,
            self.id,
            now,
            buffer,
        );
        let Device {
            saver,
            readable,
            writable,
            watch,
            counters,
            ..
        } = device;
        self.watch = watch;
        self.readable = readable;
        self.writable = writable;
        server_after(core, saver, counters, ended)
    }

    // What is next after a turn.
    fn next(&mut self, now: u64) -> TurnResult
        ensures id { self.new.id ≡ self.old.id }
        ensures held { self.new.held ≡ self.old.held }
        ensures queued { self.new.queued ≡ self.old.queued }
    {
        if self.state.is_done() {
            return self.end(now);
        }
        if self.readable && self.state.may_read()
            || self.writable && self.state.owes()
            || self.state.may_serve()
        {
            TurnResult::Busy
        } else {
            TurnResult::Waits
        }
    }

    // Ends the writing.
    fn end(&mut self, now: u64) -> TurnResult
        ensures id { self.new.id ≡ self.old.id }
        ensures state { self.new.state ≡ self.old.state }
        ensures held { self.new.held ≡ self.old.held }
        ensures queued { self.new.queued ≡ self.old.queued }
        ensures ends { self.old.readable ≡ false → EndsWriting now self.old self.new result }
    {
        if self.stream.shutdown(Shutdown::Write).is_err() {
            return TurnResult::Over;
        }
        self.lingers = Some(now.saturating_add(LINGER));
        if self.readable {
            TurnResult::Busy
        } else {
            TurnResult::Waits
        }
    }

    // Reads and forgets, until the peer has ended too, or has had its time.
    fn linger(&mut self, now: u64, until: u64, buffer: &mut [u8]) -> TurnResult
        ensures id { self.new.id ≡ self.old.id }
        ensures held { self.new.held ≡ self.old.held }
        ensures queued { self.new.queued ≡ self.old.queued }
    {
        if now >= until {
            return TurnResult::Over;
        }
        if !self.readable {
            return TurnResult::Waits;
        }
        let mut stream = &self.stream;
        match stream.read(buffer) {
            Ok(0) => TurnResult::Over,
            Ok(_) => TurnResult::Busy,
            Err(e) if e.kind() == ErrorKind::WouldBlock => {
                self.readable = false;
                TurnResult::Waits
            }
            Err(_) => TurnResult::Over,
        }
    }
}

/// What goes on after a turn that ended so: a server of these parts, and how the turn ended.
///
/// # Errors
///
/// `Write` exactly if a publication could not be saved: the parts are let go.
fn server_after<S: Saver + Drop>(
    core: ServerCore<Lanes>,
    saver: S,
    counters: Tallies,
    ended: Result<Served, Fault>,
) -> Result<(SavedServer<S>, Result<Served, Fault>), RunFault>
    requires saved { ended ≢ Err Fault.Save → S.saved saver ≡ core.store.version }
    ensures unsaved { ended ≡ Err Fault.Save → result ≡ Err RunFault.Write }
    ensures goes_on { ended ≢ Err Fault.Save → IsTrue (is_ok result) }
    ensures core { IfOk result (λ it. it.0.core ≡ core) }
    ensures saver { IfOk result (λ it. it.0.saver ≡ saver) }
    ensures counters { IfOk result (λ it. it.0.counters ≡ counters) }
    ensures ended { IfOk result (λ it. it.1 ≡ ended) }
{
    if let Err(Fault::Save) = ended {
        return Err(RunFault::Write);
    }
    let server = SavedServer {
        core,
        saver,
        counters,
    };
    Ok((server, ended))
}
