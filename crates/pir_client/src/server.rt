//! The connection to a server, with a deadline for each of its replies.

use crate::causes::cause_of;
use command_words::{Failed, Failure};
use std::cell::Cell;
use std::io;
use std::io::{ErrorKind, Read, Write};
use std::net::{TcpStream, ToSocketAddrs};
use std::time::{Duration, Instant};

/// Where a server is, how long it may take, and of which kind its store is.
#[derive(Clone, Copy)]
pub struct Address<'a> {
    /// The name or the number of its host.
    pub host: &'a str,
    /// Its port.
    pub port: u16,
    /// How many seconds connecting may take, and each whole reply. Without it they may take any
    /// time.
    pub timeout: Option<u64>,
    /// Whether it is greeted as the server of a wide store.
    pub wide: bool,
}

/// A connection to a server. A call that is sent after a reply begins a new deadline, which is that
/// of its whole reply: a server that sends a byte now and then doesn't put it off.
#[derive(Drop)]
pub struct Server {
    rt: HostRuntime,
    // How many seconds a whole reply may take, if that is bounded.
    timeout: Option<u64>,
    stream: TcpStream,
    // When the call at hand began.
    began: Cell<Option<Instant>>,
    has_read: Cell<bool>,
    is_late: Cell<bool>,
}

impl Server {
    /// Connects to a server.
    ///
    /// # Errors
    ///
    /// `Fault` with `Timeout` if the time was up before, and else with `Connect` if no address of
    /// the host takes the connection.
    pub fn connect(rt: &HostRuntime, address: &Address<'_>) -> Result<Server, Failed> {
        match connected(rt, address) {
            Ok(stream) => Ok(Server {
                rt: *rt,
                timeout: address.timeout,
                stream,
                began: Cell::new(None),
                has_read: Cell::new(true),
                is_late: Cell::new(false),
            }),
            Err(fault) => Err(connect_failed(rt, address, &fault)),
        }
    }

    /// How a command over this connection failed: by `Timeout` if a reply was not there in time,
    /// whatever the engine made of it.
    pub fn failed(&self, address: &Address<'_>, failure: Failure) -> Failed {
        let alloc = self.rt.alloc();
        let host = address.host;
        let port = address.port;
        if self.is_late.get() {
            let seconds = address.timeout.unwrap_or(0);
            let cause = format!(in alloc; "{host}:{port}: no whole reply within {seconds} seconds");
            return Failed::by(Failure::Fault("Timeout"), cause);
        }
        match cause_of(failure) {
            Some(text) => Failed::by(failure, format!(in alloc; "{host}:{port}: {text}")),
            None => Failed::from(failure),
        }
    }

    // The time that the call at hand has left; none if there is no deadline.
    fn left(&self) -> io::Result<Option<Duration>> {
        let Some(seconds) = self.timeout else {
            return Ok(None);
        };
        let began = match self.began.get() {
            Some(began) => began,
            None => Instant::now(&self.rt)?,
        };
        self.began.set(Some(began));
        match time_left(&self.rt, began, seconds) {
            Ok(left) => Ok(Some(left)),
            Err(fault) => {
                self.note(&fault);
                Err(fault)
            }
        }
    }

    // Notes that a read or a write came too late.
    fn note(&self, fault: &io::Error) {
        if self.timeout.is_some() && is_timeout(fault.kind()) {
            self.is_late.set(true);
        }
    }
}

impl Read for &Server {
    fn read(&mut self, buf: &mut [u8]) -> io::Result<usize> {
        self.has_read.set(true);
        if let Some(left) = self.left()? {
            self.stream.set_read_timeout(Some(left))?;
        }
        match (&mut &self.stream).read(buf) {
            Ok(n) => Ok(n),
            Err(fault) => {
                self.note(&fault);
                Err(fault)
            }
        }
    }
}

impl Write for &Server {
    fn write(&mut self, buf: &[u8]) -> io::Result<usize> {
        if self.has_read.replace(false) {
            self.began.set(None);
        }
        if let Some(left) = self.left()? {
            self.stream.set_write_timeout(Some(left))?;
        }
        match (&mut &self.stream).write(buf) {
            Ok(n) => Ok(n),
            Err(fault) => {
                self.note(&fault);
                Err(fault)
            }
        }
    }

    fn flush(&mut self) -> io::Result<()> {
        Ok(())
    }
}

// The first connection that an address of the host takes.
fn connected(rt: &HostRuntime, address: &Address<'_>) -> io::Result<TcpStream> {
    let at = (address.host, address.port);
    let Some(seconds) = address.timeout else {
        return TcpStream::connect(rt, at);
    };
    let began = Instant::now(rt)?;
    let mut last = io::Error::from(ErrorKind::NotFound);
    for found in at.to_socket_addrs(rt)? {
        let left = time_left(rt, began, seconds)?;
        match TcpStream::connect_timeout(rt, &found, left) {
            Ok(stream) => return Ok(stream),
            Err(fault) => last = fault,
        }
    }
    Err(last)
}

// How long it is until so many seconds have passed since then.
fn time_left(rt: &HostRuntime, began: Instant, seconds: u64) -> io::Result<Duration> {
    let passed = began.elapsed(rt)?;
    match Duration::from_secs(seconds).checked_sub(passed) {
        Some(left) if !left.is_zero() => Ok(left),
        _ => Err(io::Error::from(ErrorKind::TimedOut)),
    }
}

// Whether a call ended because its time was up.
fn is_timeout(kind: ErrorKind) -> bool {
    kind == ErrorKind::WouldBlock || kind == ErrorKind::TimedOut
}

// How a command that can't connect failed.
fn connect_failed(rt: &HostRuntime, address: &Address<'_>, fault: &io::Error) -> Failed {
    let name = if address.timeout.is_some() && is_timeout(fault.kind()) {
        "Timeout"
    } else {
        "Connect"
    };
    let host = address.host;
    let port = address.port;
    Failed::by(
        Failure::Fault(name),
        format!(in rt.alloc(); "{host}:{port}: {fault}"),
    )
}
