//! The loop.

ghost use Rattle.std.specs.Prelude.{◌≡◌, ◌↔◌, ◌⊎◌, ℕ, None, Ok, IfOk, IfSome, IsTrue, OnOk, true};
ghost use Rattle.std.specs.Prelude.{false, replicate};

mod accepting;
mod attending;
mod drafting;
mod queueing;
mod schedule;
mod turns;

use connection_table::{Closing, ConnectionTable, RunFault, SavedServer, Saver, Tallies};
use connection_turns::PIECE_LEN;
use lane_kernels::Lanes;
use mio::net::TcpListener;
use mio::{Events, Interest, Poll, Token};
use schedule::Schedule;
use server_core::ServerCore;
use service_status::{EventLog, InputState, Phase, Status, StatusFault, read_input, watch_input};
use service_watch::{Counted, DraftLife, Entry, LogFormat, ServiceEvent};
use std::io;
use std::net::SocketAddr;
use std::time::{Duration, Instant};

const LISTENER: Token = Token(usize::MAX);

/// The longest wait of the loop, in milliseconds.
const LONGEST_WAIT: u64 = 60_000;

/// How many events one wait reports at most.
const EVENTS: usize = 256;

/// What a service allows.
#[derive(Clone, Copy, Debug, PartialEq, Eq)]
pub struct Limits {
    /// How many connections there are at once; the others wait in the system's queue.
    pub most: usize,
    /// How many milliseconds a connection may make no progress.
    pub idle: u64,
    /// How many bytes may be held for all connections together, of unfinished frames and of replies
    /// that are owed.
    pub memory: usize,
    /// How many connections one peer may have at once, if that is bounded.
    pub most_per_peer: Option<usize>,
    /// Nothing is said of connections.
    pub quiet: bool,
    /// How lines are written. Without a format there are only those on connections that are closed.
    pub format: Option<LogFormat>,
    /// How many milliseconds what was begun has after the end of standard input. If there is no
    /// number, standard input is not watched.
    pub grace: Option<u64>,
    /// With what a draft ends.
    pub draft: DraftLife,
}

#[derive(Drop)]
struct Service {
    limits: Limits,
    poll: Poll,
    // None once the service stops.
    listener: Option<TcpListener>,
    acceptable: bool,
    // Standard input may be read.
    input_ready: bool,
    phase: Phase,
    accepts_from: u64,
    places: ConnectionTable,
    // There is no free place.
    full: bool,
    // Where a free place is looked for first.
    place_from: usize,
    schedule: Schedule,
    log: EventLog,
    // The number of the next session: none is used twice.
    next_id: u64,
    buffer: Vec<u8>,
    start: Instant,
    ghost limited: { places.memory ≡ limits.memory },
}

/// Serves a store over connections, in one thread, until the process is killed, or, if there is a
/// time of grace, until standard input has ended and then nothing that was begun is left, or that
/// time is over. The service prints `listening ADDR:PORT`, and a line for each connection that is
/// closed before the end of its session. With a status address those who ask there get its health
/// and its metrics until its end; it prints `status ADDR:PORT` then, too.
///
/// The store's version is one that `saver` saved, or that was there to begin with. Each later one
/// is saved by it before any connection gets a reply that it was published.
///
/// # Errors
///
/// `Input` if standard input is to be watched and can't be, `Connect` if the address can't be
/// listened on, `Status` if that is so of the status address, `Write` if a version can't be saved
/// or the address not be printed, `Memory` if memory is refused to begin with. After a `Write`
/// nothing was sent of the version that was not saved.
pub fn run_service<S: Saver + Drop>(
    rt: &HostRuntime,
    core: ServerCore<Lanes>,
    address: SocketAddr,
    limits: Limits,
    status: Option<SocketAddr>,
    saver: S,
) -> Result<(), RunFault>
    requires saved { S.saved saver ≡ core.store.version }
{
    match begin(rt, address, limits, status) {
        Ok(mut begun) => begun.service.run(
            rt,
            &mut begun.events,
            SavedServer::opened(core, saver),
            &mut begun.status,
        ),
        Err(fault) => Err(fault),
    }
}

// A service that listens, the room for its events, and those who ask for its health, if that is
// wanted.
#[derive(Drop)]
struct Begun {
    service: Service,
    events: Events,
    status: Option<Status>,
}

// Listens, and says where.
fn begin(
    rt: &HostRuntime,
    address: SocketAddr,
    limits: Limits,
    status: Option<SocketAddr>,
) -> Result<Begun, RunFault>
    ensures limits { IfOk result (λ begun. begun.service.limits ≡ limits) }
    ensures free { IfOk result (λ begun.
        begun.service.places.connections.items ≡ replicate limits.most None) }
    ensures number { IfOk result (λ begun. begun.service.next_id ≡ 0) }
    ensures serving { IfOk result (λ begun. begun.service.phase ≡ Phase.Serving) }
{
    let events = match Events::with_capacity(rt.alloc(), EVENTS) {
        Ok(events) => events,
        Err(_) => return Err(RunFault::Memory),
    };
    let mut service = open_service(rt, address, limits)?;
    let status = match listen_for_status(rt, &service.poll, status) {
        Ok(status) => status,
        Err(fault) => {
            // A call keeps the prover from taking apart here all that a service owns.
            drop(service);
            return Err(fault);
        }
    };
    let address = match print_addresses(rt, &service, &status) {
        Ok(address) => address,
        Err(fault) => {
            drop(service);
            return Err(fault);
        }
    };
    service
        .log
        .note(rt, &service_entry(ServiceEvent::Listening, Some(address)));
    Ok(Begun {
        service,
        events,
        status,
    })
}

// Listens for those who ask, if that is wanted.
fn listen_for_status(
    rt: &HostRuntime,
    poll: &Poll,
    address: Option<SocketAddr>,
) -> Result<Option<Status>, RunFault> {
    let Some(address) = address else {
        return Ok(None);
    };
    match Status::listen(rt, poll, address) {
        Ok(status) => Ok(Some(status)),
        Err(fault) => Err(fault_of_status(fault)),
    }
}

// Prints where the service listens, and returns that, and where those who ask are listened for.
fn print_addresses(
    rt: &HostRuntime,
    service: &Service,
    status: &Option<Status>,
) -> Result<SocketAddr, RunFault> {
    let address = service.print(rt)?;
    match status {
        Some(status) => match status.print(rt) {
            Ok(()) => Ok(address),
            Err(fault) => Err(fault_of_status(fault)),
        },
        None => Ok(address),
    }
}

// Says why a connection is closed, and counts it.
fn note_closing(
    rt: &HostRuntime,
    log: &mut EventLog,
    counters: &mut Tallies,
    closing: Closing,
    session: Option<u64>,
    address: Option<SocketAddr>,
) {
    log.report(rt, closing.name(), session, address);
    counters.add(Counted::Closed(closing.cause()), 1);
}

// How a service ends whose status has this fault.
fn fault_of_status(fault: StatusFault) -> RunFault {
    match fault {
        StatusFault::Listen => RunFault::Status,
        StatusFault::Write => RunFault::Write,
        StatusFault::Memory => RunFault::Memory,
    }
}

// A service that listens on an address, with its buffer, its clock and its free places.
fn open_service(rt: &HostRuntime, address: SocketAddr, limits: Limits) -> Result<Service, RunFault>
    ensures limits { IfOk result (λ service. service.limits ≡ limits) }
    ensures free { IfOk result (λ service.
        service.places.connections.items ≡ replicate limits.most None) }
    ensures number { IfOk result (λ service. service.next_id ≡ 0) }
    ensures serving { IfOk result (λ service. service.phase ≡ Phase.Serving) }
{
    let Ok(buffer) = Vec::from_elem(rt.alloc(), 0u8, PIECE_LEN) else {
        return Err(RunFault::Memory);
    };
    let Ok(start) = Instant::now(rt) else {
        return Err(RunFault::Connect);
    };
    let (poll, listener) = listen(rt, address, limits.grace.is_some())?;
    // Last, so that no other way out drops it.
    let places = match ConnectionTable::new(rt.alloc(), limits.most, limits.memory) {
        Ok(places) => places,
        Err(_) => return Err(RunFault::Memory),
    };
    Ok(Service {
        limits,
        poll,
        listener: Some(listener),
        acceptable: true,
        input_ready: limits.grace.is_some(),
        phase: Phase::Serving,
        accepts_from: 0,
        places,
        full: false,
        place_from: 0,
        schedule: Schedule::new(rt.alloc()),
        log: EventLog::new(start, limits.quiet, limits.format),
        next_id: 0,
        buffer,
        start,
    })
}

// What is said of the whole service.
fn service_entry(event: ServiceEvent, address: Option<SocketAddr>) -> Entry {
    Entry {
        event,
        session: None,
        address,
        what: None,
        code: None,
    }
}

// Listens on an address. Standard input is watched if that is wanted.
fn listen(
    rt: &HostRuntime,
    address: SocketAddr,
    watches: bool,
) -> Result<(Poll, TcpListener), RunFault> {
    let poll = match Poll::new(rt) {
        Ok(poll) => poll,
        Err(e) => return Err(RunFault::of_system(&e)),
    };
    if watches && watch_input(&poll).is_err() {
        return Err(RunFault::Input);
    }
    match bind(rt, &poll, address) {
        Ok(listener) => Ok((poll, listener)),
        Err(e) => Err(RunFault::of_system(&e)),
    }
}

// A listener, whose events are reported.
fn bind(rt: &HostRuntime, poll: &Poll, address: SocketAddr) -> io::Result<TcpListener> {
    let mut listener = TcpListener::bind(rt, address)?;
    poll.registry()
        .register(&mut listener, LISTENER, Interest::READABLE)?;
    Ok(listener)
}

// Waits so many milliseconds at most for events. Returns the time then, in milliseconds since the
// start.
fn await_events(
    rt: &HostRuntime,
    poll: &mut Poll,
    start: Instant,
    events: &mut Events,
    wait: u64,
) -> Result<u64, RunFault> {
    match poll.poll(events, Some(Duration::from_millis(wait))) {
        Ok(()) => millis_since(rt, start),
        Err(e) => Err(RunFault::of_system(&e)),
    }
}

// Milliseconds since a moment.
fn millis_since(rt: &HostRuntime, start: Instant) -> Result<u64, RunFault> {
    match start.elapsed(rt) {
        Ok(elapsed) => Ok(u64::try_from(elapsed.as_millis()).unwrap_or(u64::MAX)),
        Err(e) => Err(RunFault::of_system(&e)),
    }
}

impl Service {
    ghost use Rattle.mio_server.specs.Turns.{AreMarkedNoted, HasNoIdle};
    ghost use Rattle.service_status.specs.Stopping.{IsOver, is_stopping, stopping_from};
    ghost use Rattle.connection_table.specs.Places.{open_count};
    ghost use Rattle.mio_server.specs.Sessions.{AreNoted};

    // One round after another.
    fn run<S: Saver + Drop>(
        &mut self,
        rt: &HostRuntime,
        events: &mut Events,
        mut server: SavedServer<S>,
        status: &mut Option<Status>,
    ) -> Result<(), RunFault>
        requires noted { AreNoted self.old.places.connections.items server.core self.old.next_id }
        requires marked { AreMarkedNoted self.old.places.connections.items
            self.old.schedule.visits_all self.old.schedule.ready.items }
        requires idle { (i : ℕ) → HasNoIdle self.old.places.connections.items i
            self.old.schedule.scanned self.old.limits.idle }
    {
        let mut wait = 0;
        // No service has so many rounds: the bound is there so that the loop has an end.
        for _ in 0..u64::MAX {
            server = self.round(rt, events, wait, server)?;
            match self.end_round(rt, events, status, &server) {
                Ok(Some(next)) => wait = next,
                Ok(None) => break,
                Err(fault) => {
                    // A call keeps the prover from taking apart here all that a server owns.
                    drop(server);
                    return Err(fault);
                }
            }
        }
        drop(server);
        Ok(())
    }

    // What comes after the turns of a round: those who ask have their part, and the service stops
    // if its input has ended. Returns how long the next round waits for events; nothing if the
    // service is over.
    fn end_round<S: Saver>(
        &mut self,
        rt: &HostRuntime,
        events: &Events,
        status: &mut Option<Status>,
        server: &SavedServer<S>,
    ) -> Result<Option<u64>, RunFault>
        ensures places { self.new.places ≡ self.old.places }
        ensures limits { self.new.limits ≡ self.old.limits }
        ensures scanned { self.new.schedule.scanned ≡ self.old.schedule.scanned }
        ensures number { self.new.next_id ≡ self.old.next_id }
        ensures ready { self.new.schedule.ready ≡ self.old.schedule.ready }
        ensures all { self.old.schedule.visits_all ≡ true → self.new.schedule.visits_all ≡ true }
    {
        let until = self.attend(rt, events, status, server)?;
        self.stop_at_end(rt)?;
        if self.is_over(rt)? {
            self.log
                .note(rt, &service_entry(ServiceEvent::Stopped, None));
            return Ok(None);
        }
        Ok(Some(self.wait(rt, until)?))
    }

    // Stops if standard input has ended: nothing more is accepted, and each connection has a turn.
    fn stop_at_end(&mut self, rt: &HostRuntime) -> Result<(), RunFault>
        ensures places { self.new.places ≡ self.old.places }
        ensures limits { self.new.limits ≡ self.old.limits }
        ensures scanned { self.new.schedule.scanned ≡ self.old.schedule.scanned }
        ensures number { self.new.next_id ≡ self.old.next_id }
        ensures ready { self.new.schedule.ready ≡ self.old.schedule.ready }
        ensures all { self.old.schedule.visits_all ≡ true → self.new.schedule.visits_all ≡ true }
        ensures phase { (self.new.phase ≡ self.old.phase)
            ⊎ ((now : ℕ) × IfSome self.old.limits.grace (λ grace.
            self.new.phase ≡ stopping_from now grace self.old.phase)) }
        ensures stops { is_stopping self.old.phase ≡ false → is_stopping self.new.phase ≡ true →
            (self.new.schedule.visits_all ≡ true) × (self.new.listener ≡ None) }
    {
        if !self.input_ready {
            return Ok(());
        }
        let Some(grace) = self.limits.grace else {
            return Ok(());
        };
        match read_input() {
            InputState::More => {}
            InputState::Waits => self.input_ready = false,
            InputState::Ended => {
                let now = self.now(rt)?;
                self.log
                    .note(rt, &service_entry(ServiceEvent::Stopping, None));
                self.stop(now, grace);
            }
        }
        Ok(())
    }

    // Accepts nothing more from a moment on, and lets each connection have a turn.
    fn stop(&mut self, now: u64, grace: u64)
        ensures places { self.new.places ≡ self.old.places }
        ensures limits { self.new.limits ≡ self.old.limits }
        ensures scanned { self.new.schedule.scanned ≡ self.old.schedule.scanned }
        ensures number { self.new.next_id ≡ self.old.next_id }
        ensures ready { self.new.schedule.ready ≡ self.old.schedule.ready }
        ensures all { self.new.schedule.visits_all ≡ true }
        ensures closed { self.new.listener ≡ None }
        ensures phase { self.new.phase ≡ stopping_from now grace self.old.phase }
    {
        self.phase = self.phase.stopped(now, grace);
        self.listener = None;
        self.acceptable = false;
        self.input_ready = false;
        self.schedule.visits_all = true;
    }

    // Whether the service is over.
    fn is_over(&self, rt: &HostRuntime) -> Result<bool, RunFault>
        ensures serving { is_stopping self.now.phase ≡ false → result ≡ Ok false }
        ensures over { is_stopping self.now.phase ≡ true → IfOk result (λ over. (now : ℕ)
            × (IsTrue over ↔ IsOver self.now.phase now
            (open_count self.now.places.connections.items))) }
    {
        match self.phase {
            Phase::Serving => Ok(false),
            Phase::Stopping(_) => Ok(self.phase.is_over(self.now(rt)?, self.places.open())),
        }
    }

    // Waits so many milliseconds for events, accepts, and gives each connection a turn that has
    // something to do.
    fn round<S: Saver + Drop>(
        &mut self,
        rt: &HostRuntime,
        events: &mut Events,
        wait: u64,
        mut server: SavedServer<S>,
    ) -> Result<SavedServer<S>, RunFault>
        requires noted { AreNoted self.old.places.connections.items server.core self.old.next_id }
        requires marked { AreMarkedNoted self.old.places.connections.items
            self.old.schedule.visits_all self.old.schedule.ready.items }
        requires idle { (i : ℕ) → HasNoIdle self.old.places.connections.items i
            self.old.schedule.scanned self.old.limits.idle }
        ensures noted { IfOk result (λ server.
            AreNoted self.new.places.connections.items server.core self.new.next_id) }
        ensures marked { OnOk result (AreMarkedNoted self.new.places.connections.items
            self.new.schedule.visits_all self.new.schedule.ready.items) }
        ensures idle { OnOk result ((i : ℕ) → HasNoIdle self.new.places.connections.items i
            self.new.schedule.scanned self.new.limits.idle) }
    {
        let now = match await_events(rt, &mut self.poll, self.start, events, wait) {
            Ok(now) => now,
            Err(fault) => {
                drop(server);
                return Err(fault);
            }
        };
        server.counters.polled = self.micros(rt);
        self.note_all(events);
        if let Err(fault) = self.accept_all(rt, &mut server) {
            drop(server);
            return Err(fault);
        }
        self.note_due(now);
        self.take_turns(rt, server)
    }

    // Milliseconds since the start.
    fn now(&self, rt: &HostRuntime) -> Result<u64, RunFault> {
        millis_since(rt, self.start)
    }

    // How long nothing needs to be done, until a moment at most, unless an event comes.
    fn wait(&self, rt: &HostRuntime, until: u64) -> Result<u64, RunFault> {
        if self.schedule.visits_all || self.input_ready || !self.schedule.ready.is_empty() {
            return Ok(0);
        }
        let now = self.now(rt)?;
        let mut until = until
            .min(self.schedule.scan_at)
            .min(now.saturating_add(LONGEST_WAIT));
        if self.acceptable && !self.full {
            until = until.min(self.accepts_from);
        }
        if let Phase::Stopping(end) = self.phase {
            until = until.min(end);
        }
        Ok(until.saturating_sub(now))
    }
}
