//! The listener for those who ask how a service does.
//!
//! In each round of the loop it has its part after the turns of all connections, and that part is
//! bounded: one accept, one read, one page and one write for each of its few places. Nothing of it
//! changes what is served.

ghost use Rattle.std.specs.Prelude.{◌≡◌, None, IfOk, length, replicate};

mod visitor;

use mio::net::TcpListener;
use mio::{Events, Interest, Poll, Registry, Token};
use service_watch::Figures;
use std::alloc::{AllocError, Global};
use std::io::ErrorKind;
use std::net::SocketAddr;
use thiserror::Error;
pub use visitor::Visitor;

/// What tells events of the listener from others.
const STATUS: Token = Token(usize::MAX - 2);

/// What tells events of the place 0 from others; those of the next places count down from there.
const FIRST_VISITOR: usize = usize::MAX - 3;

/// How many there may be at once.
const VISITORS: usize = 8;

/// How many milliseconds none is accepted after an accept failed.
const PAUSE: u64 = 100;

/// Why there is no listener, or no line that says where it listens.
#[derive(Clone, Copy, Debug, PartialEq, Eq, Error)]
pub enum StatusFault {
    /// The address can't be listened on.
    #[error("the status address can't be listened on")]
    Listen,
    /// The address could not be printed.
    #[error("a write failed")]
    Write,
    /// Memory was refused.
    #[error("out of memory")]
    Memory,
}

/// A listener, and a place for each of those who ask at once.
#[derive(Drop)]
pub struct Status {
    listener: TcpListener,
    acceptable: bool,
    accepts_from: u64,
    /// Those who ask, each at its place.
    pub visitors: Vec<Option<Visitor>>,
    ghost eight: { length visitors.items ≡ 8 },
}

impl Status {
    /// Listens on an address.
    ///
    /// # Errors
    ///
    /// `Listen` if the address can't be listened on, `Memory` if memory is refused.
    pub fn listen(rt: &HostRuntime, poll: &Poll, address: SocketAddr) -> Result<Status, StatusFault>
        ensures free { IfOk result (λ status. status.visitors.items ≡ replicate 8 None) }
    {
        let Ok(visitors) = free_places(rt.alloc(), VISITORS) else {
            return Err(StatusFault::Memory);
        };
        let Ok(mut listener) = TcpListener::bind(rt, address) else {
            return Err(StatusFault::Listen);
        };
        let registry = poll.registry();
        match registry.register(&mut listener, STATUS, Interest::READABLE) {
            Ok(()) => Ok(Status {
                listener,
                acceptable: true,
                accepts_from: 0,
                visitors,
            }),
            Err(_) => Err(StatusFault::Listen),
        }
    }

    /// Prints at which address it listens.
    ///
    /// # Errors
    ///
    /// `Listen` if the system does not say it, `Write` if it can't be printed.
    pub fn print(&self, rt: &HostRuntime) -> Result<(), StatusFault> {
        let Ok(address) = self.listener.local_addr() else {
            return Err(StatusFault::Listen);
        };
        match println!(rt; "status {address}") {
            Ok(()) => Ok(()),
            Err(_) => Err(StatusFault::Write),
        }
    }

    /// Notes what the events say of it.
    pub fn note_all(&mut self, events: &Events) {
        for event in events {
            let token = event.token();
            if token == STATUS {
                self.acceptable = true;
            } else if token.0 <= FIRST_VISITOR {
                self.note(
                    FIRST_VISITOR - token.0,
                    event.is_readable(),
                    event.is_writable() || event.is_error(),
                );
            }
        }
    }

    // Notes that the socket at a place may be read or written, if there is one.
    fn note(&mut self, place: usize, readable: bool, writable: bool) {
        if place >= self.visitors.len() {
            return;
        }
        if let Some(visitor) = &mut self.visitors[place] {
            visitor.note(readable, writable);
        }
    }

    /// Accepts what waits, while there is a free place.
    pub fn accept_all(&mut self, alloc: Global, registry: &Registry, now: u64) {
        for place in 0..VISITORS {
            self.accept_at(alloc, registry, place, now);
        }
    }

    // Accepts what waits, if a place is free.
    fn accept_at(&mut self, alloc: Global, registry: &Registry, place: usize, now: u64) {
        if !self.accepts(now) || place >= VISITORS || self.visitors[place].is_some() {
            return;
        }
        match self.listener.accept() {
            Ok((mut stream, _)) => {
                let token = Token(FIRST_VISITOR - place);
                let both = Interest::READABLE | Interest::WRITABLE;
                if registry.register(&mut stream, token, both).is_ok() {
                    self.visitors[place] = Some(Visitor::opened(alloc, stream, now));
                }
            }
            Err(e) if e.kind() == ErrorKind::WouldBlock => self.acceptable = false,
            Err(_) => self.accepts_from = now.saturating_add(PAUSE),
        }
    }

    // Whether one may be accepted.
    fn accepts(&self, now: u64) -> bool {
        self.acceptable && self.accepts_from <= now
    }

    /// Reads from each once, and closes those that are over. Returns whether one of them wants a
    /// response.
    pub fn read_all(&mut self, now: u64) -> bool {
        let mut wanted = false;
        for place in 0..VISITORS {
            wanted = self.read_at(place, now) || wanted;
        }
        wanted
    }

    // Reads once from the one at a place, if there is one, and closes it if it is over. Returns
    // whether it wants a response.
    fn read_at(&mut self, place: usize, now: u64) -> bool {
        if place >= VISITORS {
            return false;
        }
        let Some(mut visitor) = self.visitors[place].take() else {
            return false;
        };
        let stays = visitor.read(now);
        let wants = visitor.wants();
        if stays {
            self.visitors[place] = Some(visitor);
        }
        stays && wants
    }

    /// Makes the response of each one that wants it.
    pub fn answer_all(&mut self, alloc: Global, figures: &Figures) {
        for place in 0..VISITORS {
            self.answer_at(alloc, place, figures);
        }
    }

    // Makes the response of the one at a place, if there is one that wants it.
    fn answer_at(&mut self, alloc: Global, place: usize, figures: &Figures) {
        if place >= VISITORS {
            return;
        }
        let Some(mut visitor) = self.visitors[place].take() else {
            return;
        };
        if visitor.answer(alloc, figures) {
            self.visitors[place] = Some(visitor);
        }
    }

    /// Writes to each once, and closes those that are over.
    pub fn write_all(&mut self, now: u64) {
        for place in 0..VISITORS {
            self.write_at(place, now);
        }
    }

    // Writes once to the one at a place, if there is one, and closes it if it is over.
    fn write_at(&mut self, place: usize, now: u64) {
        if place >= VISITORS {
            return;
        }
        let Some(mut visitor) = self.visitors[place].take() else {
            return;
        };
        if visitor.write(now) {
            self.visitors[place] = Some(visitor);
        }
    }

    /// The moment at which something is to be done for one of them, even if no event comes.
    pub fn due(&self) -> u64 {
        let mut due = u64::MAX;
        for visitor in &self.visitors {
            due = due.min(match visitor {
                Some(visitor) => visitor.due(),
                None if self.acceptable => self.accepts_from,
                None => u64::MAX,
            });
        }
        due
    }
}

// So many places, all free.
fn free_places(alloc: Global, count: usize) -> Result<Vec<Option<Visitor>>, AllocError>
    ensures { IfOk result (λ places. places.items ≡ replicate count None) }
{
    let mut places = Vec::new(alloc);
    for _ in 0..count {
        places.push(None)?;
    }
    Ok(places)
}
