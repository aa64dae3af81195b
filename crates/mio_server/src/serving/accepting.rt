//! Connections that are accepted.

ghost use Rattle.std.specs.Prelude.{◌≡◌, ◌<◌, ◌↔◌, ℕ, None, IsTrue, length};
ghost use Rattle.mio_server.specs.Accepting.{HasEnough};

use super::{Service, note_closing};
use connection_table::{Closing, RunFault, SavedServer, Saver, ServedConnection};
use connection_turns::ConnectionState;
use mio::net::TcpStream;
use mio::{Interest, Token};
use service_status::EventLog;
use service_watch::{Counted, ServiceEvent};
use std::io;
use std::io::ErrorKind;
use std::net::{IpAddr, SocketAddr};

/// How many milliseconds no connection is accepted after the system had no descriptor for one.
const PAUSE: u64 = 100;

/// How many connections are accepted in one round at most.
const ACCEPTS: u32 = 64;

/// The system's number of the error that it has no more open files.
const ENFILE: i32 = 23;

impl Service {
    ghost use Rattle.connection_table.specs.Places.{connection_at};
    ghost use Rattle.mio_server.specs.Turns.{ComesWithTurn, HasTurn, OthersStayOrGo};
    ghost use Rattle.mio_server.specs.Sessions.{AreNoted, SessionsStayOrGo};

    // Accepts what waits, while there is a free place, so many at most.
    pub(super) fn accept_all<S: Saver>(
        &mut self,
        rt: &HostRuntime,
        server: &mut SavedServer<S>,
    ) -> Result<(), RunFault>
        requires noted { AreNoted self.old.places.connections.items server.old.core
            self.old.next_id }
        ensures noted { AreNoted self.new.places.connections.items server.new.core
            self.new.next_id }
        ensures turns { (i : ℕ) → HasTurn self.old.schedule.visits_all
            self.old.schedule.ready.items i
            → HasTurn self.new.schedule.visits_all self.new.schedule.ready.items i }
        ensures comes { (i : ℕ) → ComesWithTurn self.old.places.connections.items
            self.new.places.connections.items self.new.schedule.visits_all
            self.new.schedule.ready.items i }
        ensures limits { self.new.limits ≡ self.old.limits }
        ensures scanned { self.new.schedule.scanned ≡ self.old.schedule.scanned }
    {
        let now = self.now(rt)?;
        if !self.acceptable || now < self.accepts_from {
            return Ok(());
        }
        for _ in 0..ACCEPTS {
            let Some(place) = self.places.free_from(self.place_from) else {
                self.full = true;
                return Ok(());
            };
            match self.accept_next() {
                Ok((stream, address)) => self.open(rt, server, now, place, stream, address),
                Err(e) if e.kind() == ErrorKind::WouldBlock => {
                    self.acceptable = false;
                    return Ok(());
                }
                Err(e) => {
                    note_closing(
                        rt,
                        &mut self.log,
                        &mut server.counters,
                        Closing::Connect,
                        None,
                        None,
                    );
                    if has_no_descriptor(&e) {
                        self.accepts_from = now.saturating_add(PAUSE);
                        return Ok(());
                    }
                }
            }
        }
        Ok(())
    }

    // The next connection that waits; none if the service stops.
    fn accept_next(&self) -> io::Result<(TcpStream, SocketAddr)> {
        match &self.listener {
            Some(listener) => listener.accept(),
            None => Err(io::Error::from(ErrorKind::WouldBlock)),
        }
    }

    // Opens a session for a connection that was accepted, and gives it a free place.
    pub(super) fn open<S: Saver>(
        &mut self,
        rt: &HostRuntime,
        server: &mut SavedServer<S>,
        now: u64,
        place: usize,
        mut stream: TcpStream,
        address: SocketAddr,
    )
        requires within { place < length self.old.places.connections.items }
        requires free { connection_at self.old.places.connections.items place ≡ None }
        requires noted { AreNoted self.old.places.connections.items server.old.core
            self.old.next_id }
        ensures noted { AreNoted self.new.places.connections.items server.new.core
            self.new.next_id }
        ensures others { OthersStayOrGo place self.old.places.connections.items
            self.new.places.connections.items }
        ensures sessions { SessionsStayOrGo self.old.next_id server.old.core server.new.core }
        ensures store { server.new.core.store ≡ server.old.core.store }
        ensures turns { (i : ℕ) → HasTurn self.old.schedule.visits_all
            self.old.schedule.ready.items i
            → HasTurn self.new.schedule.visits_all self.new.schedule.ready.items i }
        ensures comes { (i : ℕ) → ComesWithTurn self.old.places.connections.items
            self.new.places.connections.items self.new.schedule.visits_all
            self.new.schedule.ready.items i }
        ensures limits { self.new.limits ≡ self.old.limits }
        ensures scanned { self.new.schedule.scanned ≡ self.old.schedule.scanned }
    {
        let peer = octets_of(address.ip());
        if has_enough(self.limits.most_per_peer, self.places.open_of(&peer)) {
            note_unopened(rt, &mut self.log, server, Closing::TooMany, address);
            return;
        }
        let id = self.next_id;
        let Some(next_id) = id.checked_add(1) else {
            note_unopened(rt, &mut self.log, server, Closing::Connect, address);
            return;
        };
        let both = Interest::READABLE | Interest::WRITABLE;
        let registered = self
            .poll
            .registry()
            .register(&mut stream, Token(place), both);
        if registered.is_err() || server.open_session(id).is_err() {
            note_unopened(rt, &mut self.log, server, Closing::Connect, address);
            return;
        }
        self.next_id = next_id;
        self.place_from = place + 1;
        self.log
            .note_connection(rt, ServiceEvent::Accepted, id, address, None);
        server.counters.add(Counted::Accepted, 1);
        // A reply is one write: it is not to wait for more.
        let _ = stream.set_nodelay(true);
        let connection = ServedConnection::opened(
            stream,
            address,
            peer,
            id,
            ConnectionState::new(rt.alloc(), now),
        );
        self.schedule.push_ready(place);
        self.put_or_evict(rt, server, place, connection);
    }
}

/// Says why a connection that was accepted from this address is closed before it has a session, and
/// counts it. Nothing of the server but its counts changes.
fn note_unopened<S: Saver>(
    rt: &HostRuntime,
    log: &mut EventLog,
    server: &mut SavedServer<S>,
    why: Closing,
    address: SocketAddr,
)
    ensures core { server.new.core ≡ server.old.core }
    ensures saver { server.new.saver ≡ server.old.saver }
{
    note_closing(rt, log, &mut server.counters, why, None, Some(address));
}

// Whether a peer with so many connections may have no more.
fn has_enough(bound: Option<usize>, count: usize) -> bool
    ensures { IsTrue result ↔ HasEnough bound count }
{
    match bound {
        Some(most) => most <= count,
        None => false,
    }
}

// The bytes of an address; of one of IPv4 those of the same address in IPv6.
fn octets_of(address: IpAddr) -> [u8; 16] {
    match address {
        IpAddr::V4(address) => address.to_ipv6_mapped().octets(),
        IpAddr::V6(address) => address.octets(),
    }
}

// Whether the process, or the system, has no descriptor left for a connection. Any other error of
// an accept is that of the connection which was accepted, and the next one may succeed.
fn has_no_descriptor(e: &io::Error) -> bool {
    matches!(e.raw_os_error(), Some(libc::EMFILE | ENFILE))
}
