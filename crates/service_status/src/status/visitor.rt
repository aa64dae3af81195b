//! One who asks how a service does.

ghost use Rattle.std.specs.Prelude.{◌≡◌, ◌≤◌, ◌<◌, ◌↔◌, ℕ, List, length, IfNone, IfOk, IsTrue};
ghost use Rattle.std.specs.Prelude.{Some, false, string_bytes};
ghost use Rattle.httparse.specs.Grammar.{HasNoRequest, MayBecomeRequest, ReadsRequest, RequestHead};
ghost use Rattle.service_watch.specs.Requests.{page_for};
ghost use Rattle.service_status.specs.Visiting.{EndsVisit, IsResponse, leaving_until};

use mio::net::TcpStream;
use service_watch::{Figures, Page, health, metrics_text, page_of, page_when, response};
use std::alloc::{AllocError, Global};
use std::io;
use std::io::{ErrorKind, Read, Write};
use std::net::Shutdown;

/// How many bytes the head of a request may have.
const MOST_HEAD: usize = 4_096;

/// How many milliseconds a visitor may stay.
const STAY: u64 = 5_000;

/// How many milliseconds a visitor whose response is written is still read from, so that the
/// response is not lost with what was not read.
const LEAVE: u64 = 500;

/// What a call on a socket came to.
#[derive(Clone, Copy, PartialEq, Eq)]
pub enum SocketCall {
    /// The call would have waited.
    Waited,
    /// So many bytes were read or written.
    Moved(usize),
    /// There is nothing more to come, or nothing was taken.
    Ended,
    /// The call failed.
    Failed,
}

// What a visitor does.
#[derive(Clone, Copy, PartialEq, Eq)]
enum VisitStage {
    // Its request is not whole.
    Asks,
    // Its request is whole, and there is no response.
    Wants(Page),
    // Its response is being written.
    Gets,
    // Its response was written: what still comes is read and forgotten.
    Leaves,
}

/// A connection with one request. A flag is put out when a call would have waited, and set by an
/// event.
#[derive(Drop)]
pub struct Visitor {
    stream: TcpStream,
    stage: VisitStage,
    // What came of its request.
    head: Vec<u8>,
    response: String,
    // How many bytes of the response were written.
    written: usize,
    // The moment at which it is closed at the latest.
    until: u64,
    readable: bool,
    writable: bool,
    ghost bounded: { length head.items ≤ 4096 },
}

impl SocketCall {
    /// Whether a visitor is over after it.
    pub fn ends(self) -> bool
        ensures { IsTrue result ↔ EndsVisit self }
    {
        match self {
            SocketCall::Ended | SocketCall::Failed => true,
            SocketCall::Waited | SocketCall::Moved(_) => false,
        }
    }

    // That of a result.
    fn of(done: io::Result<usize>) -> SocketCall {
        match done {
            Ok(0) => SocketCall::Ended,
            Ok(count) => SocketCall::Moved(count),
            Err(e) if e.kind() == ErrorKind::WouldBlock => SocketCall::Waited,
            Err(e) if e.kind() == ErrorKind::Interrupted => SocketCall::Moved(0),
            Err(_) => SocketCall::Failed,
        }
    }
}

impl Visitor {
    /// One that was accepted at a moment.
    pub fn opened(alloc: Global, stream: TcpStream, now: u64) -> Visitor {
        Visitor {
            stream,
            stage: VisitStage::Asks,
            head: Vec::new(alloc),
            response: String::new(alloc),
            written: 0,
            until: now.saturating_add(STAY),
            readable: true,
            writable: true,
        }
    }

    /// Notes that its socket may be read or written.
    pub fn note(&mut self, readable: bool, writable: bool)
        ensures { self.new.until ≡ self.old.until }
    {
        self.readable = self.readable || readable;
        self.writable = self.writable || writable;
    }

    /// Whether its request is whole, and there is no response.
    pub fn wants(&self) -> bool {
        matches!(self.stage, VisitStage::Wants(_))
    }

    /// The moment at which something is to be done for it, even if no event comes.
    pub fn due(&self) -> u64
        ensures { result ≤ self.now.until }
    {
        let busy = match self.stage {
            VisitStage::Asks | VisitStage::Leaves => self.readable,
            VisitStage::Wants(_) => true,
            VisitStage::Gets => self.writable,
        };
        if busy { 0 } else { self.until }
    }

    /// Reads once, if there is something to be read. Returns whether it stays.
    pub fn read(&mut self, now: u64) -> bool
        ensures late { self.old.until ≤ now → result ≡ false }
        ensures bound { self.new.until ≡ self.old.until }
    {
        if self.until <= now {
            return false;
        }
        if !self.readable {
            return true;
        }
        let call = match self.stage {
            VisitStage::Asks => self.read_head(),
            VisitStage::Leaves => self.forget(),
            VisitStage::Wants(_) | VisitStage::Gets => return true,
        };
        self.readable = call != SocketCall::Waited;
        !call.ends()
    }

    // Reads a part of the request.
    fn read_head(&mut self) -> SocketCall
        ensures { self.new.until ≡ self.old.until }
    {
        let mut room = [0u8; MOST_HEAD];
        let free = MOST_HEAD - self.head.len();
        let mut stream = &self.stream;
        let call = SocketCall::of(stream.read(&mut room[..free]));
        let SocketCall::Moved(count) = call else {
            return call;
        };
        if count > free || self.head.extend_from_slice(&room[..count]).is_err() {
            return SocketCall::Failed;
        }
        if let Some(page) = page_within(&self.head) {
            self.stage = VisitStage::Wants(page);
        }
        call
    }

    // Reads what still comes.
    fn forget(&mut self) -> SocketCall
        ensures { self.new.until ≡ self.old.until }
    {
        let mut stream = &self.stream;
        SocketCall::of(stream.read(&mut [0u8; MOST_HEAD]))
    }

    /// Makes the response, if the request is whole. Returns whether it stays.
    pub fn answer(&mut self, alloc: Global, figures: &Figures) -> bool
        ensures { self.new.until ≡ self.old.until }
    {
        let VisitStage::Wants(page) = self.stage else {
            return true;
        };
        match response_for(alloc, page, figures) {
            Ok(text) => {
                self.response = text;
                self.stage = VisitStage::Gets;
                true
            }
            Err(_) => false,
        }
    }

    /// Writes once, if there is a response. Returns whether it stays: its time is over soon after
    /// the whole response was written.
    pub fn write(&mut self, now: u64) -> bool
        ensures late { self.old.until ≤ now → result ≡ false }
        ensures bound { self.new.until ≤ self.old.until }
    {
        if self.until <= now {
            return false;
        }
        if self.stage != VisitStage::Gets || !self.writable {
            return true;
        }
        let call = self.write_rest();
        self.writable = call != SocketCall::Waited;
        if let SocketCall::Moved(count) = call {
            self.written = self.written.saturating_add(count);
        }
        if self.written >= self.response.len() {
            return self.leave(now);
        }
        !call.ends()
    }

    // Writes what is left of the response.
    fn write_rest(&self) -> SocketCall {
        let bytes = self.response.as_bytes();
        if self.written >= bytes.len() {
            return SocketCall::Ended;
        }
        let mut stream = &self.stream;
        SocketCall::of(stream.write(&bytes[self.written..]))
    }

    // Ends the writing. Returns whether it stays.
    fn leave(&mut self, now: u64) -> bool
        ensures { self.new.until ≡ leaving_until now self.old.until }
    {
        self.stage = VisitStage::Leaves;
        self.until = self.until.min(now.saturating_add(LEAVE));
        self.stream.shutdown(Shutdown::Write).is_ok()
    }
}

// The page for the head of a request, once it is whole or can't become so; none while more of it is
// waited for.
fn page_within(head: &[u8]) -> Option<Page>
    ensures whole { (h : RequestHead) (rest : List ℕ) → ReadsRequest head.now h rest →
        length h.fields ≤ 64 → result ≡ Some (page_for h.method h.target) }
    ensures waits { IfNone result (HasNoRequest head.now × MayBecomeRequest head.now
        × (length head.now < 4096)) }
{
    let page = page_of(head);
    if page.is_none() && head.len() >= MOST_HEAD {
        return Some(Page::BadRequest);
    }
    page
}

// The whole response for a page.
fn response_for(alloc: Global, page: Page, figures: &Figures) -> Result<String, AllocError>
    ensures { IfOk result (λ text. IsResponse page figures.now (string_bytes text)) }
{
    match page {
        Page::Health | Page::Stopping => {
            let content = health(alloc, figures.version, figures.records, figures.draft)?;
            response(alloc, page_when(figures.stopping, page), content.as_str())
        }
        Page::Metrics => {
            let content = metrics_text(alloc, figures)?;
            response(alloc, page, content.as_str())
        }
        Page::NotFound | Page::BadMethod | Page::BadRequest => response(alloc, page, ""),
    }
}
