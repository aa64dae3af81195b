//! When a service stops, and the input at whose end it does.

ghost use Rattle.std.specs.Prelude.{◌≡◌, ◌↔◌, IsTrue};
ghost use Rattle.service_status.specs.Stopping.{IsOver, is_stopping, stopping_from};

use mio::unix::SourceFd;
use mio::{Interest, Poll, Token};
use std::io;

/// What tells events of standard input from others.
pub const INPUT: Token = Token(usize::MAX - 1);

/// How many bytes of standard input are read at once, and forgotten.
const INPUT_PIECE: usize = 4_096;

/// Whether a service accepts connections.
#[derive(Clone, Copy, Debug, PartialEq, Eq)]
pub enum Phase {
    /// Connections are accepted.
    Serving,
    /// None is accepted, and what was begun is served until this moment at most.
    Stopping(u64),
}

impl Phase {
    /// The phase after the input ended at a moment, with so many milliseconds for what was begun.
    /// The time of a service that stops already is not made longer.
    pub fn stopped(self, now: u64, grace: u64) -> Phase
        ensures { result ≡ stopping_from now grace self }
    {
        match self {
            Phase::Serving => Phase::Stopping(now.saturating_add(grace)),
            Phase::Stopping(until) => Phase::Stopping(until),
        }
    }

    /// Whether the service stops.
    pub fn is_stopping(self) -> bool
        ensures { result ≡ is_stopping self }
    {
        matches!(self, Phase::Stopping(_))
    }

    /// Whether a service with so many connections is over at a moment.
    pub fn is_over(self, now: u64, connections: usize) -> bool
        ensures { IsTrue result ↔ IsOver self now connections }
    {
        match self {
            Phase::Serving => false,
            Phase::Stopping(until) => connections == 0 || until <= now,
        }
    }
}

/// What a read of the input found.
#[derive(Clone, Copy, Debug, PartialEq, Eq)]
pub enum InputState {
    /// Nothing has come, and the next event is waited for.
    Waits,
    /// There may be more.
    More,
    /// The input has ended, or can't be read.
    Ended,
}

/// Has the events of standard input reported.
///
/// # Errors
///
/// That of the system if it reports no events, as for a file.
pub fn watch_input(poll: &Poll) -> io::Result<()> {
    poll.registry().register(
        &mut SourceFd(&libc::STDIN_FILENO),
        INPUT,
        Interest::READABLE,
    )
}

/// Reads from standard input what is there at once, and forgets it.
pub fn read_input() -> InputState {
    let mut fds = [libc::types::pollfd {
        fd: libc::STDIN_FILENO,
        events: libc::net::POLLIN,
        revents: 0,
    }];
    if libc::net::poll(&mut fds, 0) <= 0 {
        return InputState::Waits;
    }
    if libc::read(libc::STDIN_FILENO, &mut [0u8; INPUT_PIECE]) > 0 {
        InputState::More
    } else {
        InputState::Ended
    }
}
