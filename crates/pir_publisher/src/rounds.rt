//! Rounds, in each of which servers have their part side by side.

use crate::ends::{End, PushCause};
use crate::pushing::add;
use crate::talk::{Round, Talk};
use client_core::ClientCore;
use command_words::Failure;
use digit_pack::is_wide;
use mio::net::TcpStream;
use mio::{Events, Interest, Poll, Token};
use publisher_words::Peer;
use session_core::Lanes;
use std::alloc::AllocError;
use std::io;
use std::io::ErrorKind;
use std::net::ToSocketAddrs;
use std::random::RandomSource;
use std::time::{Duration, Instant};

/// How many bytes are read at once.
const PIECE_LEN: usize = 65_536;

/// How many events one wait reports at most.
const EVENTS: usize = 64;

/// How many milliseconds a server may usually say nothing.
pub const SILENCE: u64 = 10_000;

/// The longest wait, in milliseconds.
const LONGEST_WAIT: u64 = 250;

/// What rounds are made with: what waits for sockets, and a clock.
#[derive(Drop)]
pub struct Rounds {
    poll: Poll,
    events: Events,
    buffer: Vec<u8>,
    start: Instant,
    // How many milliseconds a server may say nothing in this round.
    silence: u64,
}

impl Rounds {
    /// What rounds are made with.
    ///
    /// # Errors
    ///
    /// `Connect` if the system has nothing to wait for sockets with, `Memory` when memory was
    /// refused.
    pub fn new(rt: &HostRuntime) -> Result<Rounds, Failure> {
        let Ok(events) = Events::with_capacity(rt.alloc(), EVENTS) else {
            return Err(Failure::Memory);
        };
        let Ok(buffer) = Vec::from_elem(rt.alloc(), 0u8, PIECE_LEN) else {
            return Err(Failure::Memory);
        };
        let (Ok(poll), Ok(start)) = (Poll::new(rt), Instant::now(rt)) else {
            return Err(Failure::Fault("Connect"));
        };
        Ok(Rounds {
            poll,
            events,
            buffer,
            start,
            silence: SILENCE,
        })
    }

    /// Milliseconds since the start; a clock that can't be read stays at one time.
    pub fn now(&self, rt: &HostRuntime) -> u64 {
        match self.start.elapsed(rt) {
            Ok(elapsed) => u64::try_from(elapsed.as_millis()).unwrap_or(u64::MAX),
            Err(_) => 0,
        }
    }

    /// Waits so many milliseconds.
    pub fn rest(&mut self, millis: u64) {
        let _ = self
            .poll
            .poll(&mut self.events, Some(Duration::from_millis(millis)));
    }

    /// Brings these servers to a folder's version, as [`Rounds::run`] does, and then greets anew
    /// those that are there, to see that they have as many records as the folder: what an earlier
    /// session had appended, whose end a server has not seen yet, would be in their version, too.
    ///
    /// # Errors
    ///
    /// `AllocError` when memory was refused.
    pub fn push(
        &mut self,
        rt: &HostRuntime,
        round: &Round<'_>,
        peers: &[Peer<'_>],
        silence: u64,
    ) -> Result<Vec<End>, AllocError> {
        let mut ends = self.run(rt, round, peers, silence)?;
        let mut there = Vec::new(rt.alloc());
        let mut places = Vec::new(rt.alloc());
        for at in 0..peers.len().min(ends.len()) {
            if let End::Pushed(_) = ends[at] {
                add(&mut there, peers[at])?;
                add(&mut places, at)?;
            }
        }
        let told = self.run(rt, &round.asking(), &there, silence)?;
        for (at, end) in places.iter().zip(told.iter()) {
            if *at < ends.len() {
                ends[*at] = confirmed(round, *end);
            }
        }
        Ok(ends)
    }

    /// Gives these servers their part side by side, each of which may say nothing for so many
    /// milliseconds, and returns how it ended with each, in their order.
    ///
    /// # Errors
    ///
    /// `AllocError` when memory was refused.
    pub fn run(
        &mut self,
        rt: &HostRuntime,
        round: &Round<'_>,
        peers: &[Peer<'_>],
        silence: u64,
    ) -> Result<Vec<End>, AllocError> {
        let mut talks = Vec::new(rt.alloc());
        let mut ends = Vec::new(rt.alloc());
        let begun = self.begin_all(rt, round, peers, &mut talks, &mut ends);
        if begun.is_ok() {
            self.silence = silence;
            self.go_on(rt, round, &mut talks, &mut ends);
        }
        // A call keeps the prover from taking apart here all that connections own.
        drop(talks);
        begun?;
        Ok(ends)
    }

    // Begins to connect to each of these servers.
    fn begin_all<'a>(
        &mut self,
        rt: &HostRuntime,
        round: &Round<'a>,
        peers: &[Peer<'_>],
        talks: &mut Vec<Option<Talk<'a>>>,
        ends: &mut Vec<End>,
    ) -> Result<(), AllocError> {
        for at in 0..peers.len() {
            let (talk, end) = match self.begin(rt, round, &peers[at], at) {
                Ok(talk) => (Some(talk), End::Left(PushCause::Timeout)),
                Err(cause) => (None, End::Left(cause)),
            };
            add(talks, talk)?;
            add(ends, end)?;
        }
        Ok(())
    }

    // Goes on until each server's part has ended.
    fn go_on<'a>(
        &mut self,
        rt: &HostRuntime,
        round: &Round<'a>,
        talks: &mut [Option<Talk<'a>>],
        ends: &mut [End],
    ) {
        for _ in 0..u64::MAX {
            let now = self.now(rt);
            let (open, busy) = self.turns(round, talks, ends, now);
            if !open {
                return;
            }
            if !busy {
                self.wait(talks);
            }
        }
    }

    // Gives each server's connection a turn. Returns whether one is left, and whether one has more
    // to do at once.
    fn turns<'a>(
        &mut self,
        round: &Round<'a>,
        talks: &mut [Option<Talk<'a>>],
        ends: &mut [End],
        now: u64,
    ) -> (bool, bool) {
        let mut open = false;
        let mut busy = false;
        for at in 0..talks.len().min(ends.len()) {
            match self.turn(round, &mut talks[at], now) {
                Some(end) => ends[at] = end,
                None => {
                    open = open || talks[at].is_some();
                    busy = busy || has_more(&talks[at]);
                }
            }
        }
        (open, busy)
    }

    // Gives a connection a turn, if there is one, and takes it away when its part has ended.
    // Returns how it ended.
    fn turn<'a>(
        &mut self,
        round: &Round<'a>,
        place: &mut Option<Talk<'a>>,
        now: u64,
    ) -> Option<End> {
        let Some(talk) = place else {
            return None;
        };
        let end = match talk.turn(round, now, &mut self.buffer) {
            None if now.saturating_sub(talk.moment) >= self.silence => End::Left(
                PushCause::Timeout,
            ),
            None => return None,
            Some(end) => end,
        };
        *place = None;
        Some(end)
    }

    // Waits for sockets, and notes which are ready.
    fn wait(&mut self, talks: &mut [Option<Talk<'_>>]) {
        let wait = Duration::from_millis(LONGEST_WAIT);
        if self.poll.poll(&mut self.events, Some(wait)).is_err() {
            return;
        }
        for event in &self.events {
            let ended = event.is_error() || event.is_read_closed();
            let at = event.token().0;
            note(
                talks,
                at,
                event.is_readable() || ended,
                event.is_writable() || ended,
            );
        }
    }

    // Begins to connect to a server.
    fn begin<'a>(
        &mut self,
        rt: &HostRuntime,
        round: &Round<'a>,
        peer: &Peer<'_>,
        at: usize,
    ) -> Result<Talk<'a>, PushCause> {
        let Ok(mut stream) = connect(rt, peer) else {
            return Err(PushCause::Connect);
        };
        let _ = stream.set_nodelay(true);
        let both = Interest::READABLE | Interest::WRITABLE;
        if self
            .poll
            .registry()
            .register(&mut stream, Token(at), both)
            .is_err()
        {
            return Err(PushCause::Connect);
        }
        let client = client_for(rt, round)?;
        Talk::begin(rt.alloc(), stream, client, round.key, self.now(rt))
    }
}

// How the part of a server ended that was brought to a folder's version, by what it told after
// that.
fn confirmed(round: &Round<'_>, told: End) -> End {
    let version = round.folder;
    match told {
        End::Told(known)
            if known.version == version.number() && known.count as usize == version.count() => {
            End::Pushed(known.version)
        }
        End::Told(_) => End::Left(PushCause::OtherCount),
        end => end,
    }
}

// A client with a secret seed of its own, for the store of a round's folder.
fn client_for(rt: &HostRuntime, round: &Round<'_>) -> Result<ClientCore<Lanes>, PushCause> {
    let mut seed = [0u8; 32];
    if rt.fill_bytes(&mut seed).is_err() {
        return Err(PushCause::Unverified);
    }
    let plan = round.folder.plan();
    if is_wide(plan.form) {
        Ok(ClientCore::wide(rt.alloc(), Lanes, seed, 0))
    } else {
        Ok(ClientCore::new(rt.alloc(), Lanes, seed, 0))
    }
}

// The connection to the first address of a server that begins to be made.
fn connect(rt: &HostRuntime, peer: &Peer<'_>) -> io::Result<TcpStream> {
    let mut last = io::Error::from(ErrorKind::NotFound);
    for address in (peer.host, peer.port).to_socket_addrs(rt)? {
        match TcpStream::connect(rt, address) {
            Ok(stream) => return Ok(stream),
            Err(fault) => last = fault,
        }
    }
    Err(last)
}

// Whether there is a connection that has more to do at once.
fn has_more(place: &Option<Talk<'_>>) -> bool {
    match place {
        Some(talk) => talk.has_more(),
        None => false,
    }
}

// Notes what the socket at a place is ready for, if there is one.
fn note(talks: &mut [Option<Talk<'_>>], at: usize, readable: bool, writable: bool) {
    if at < talks.len() {
        if let Some(talk) = &mut talks[at] {
            talk.note(readable, writable);
        }
    }
}
