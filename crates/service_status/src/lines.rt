//! The lines that a service says on standard error.
//!
//! Whatever is at the other end of standard error may not hold a service up, so a line is said only
//! if there is room for it at once. How many were left out is said in a later one.

ghost use Rattle.std.specs.Prelude.{◌≡◌, IfOk};
ghost use Rattle.service_status.specs.Lines.{after_line, has_line, is_said, line_text, plain_text};
ghost use Rattle.service_status.specs.Lines.{quota_at};

use crate::clock::unix_millis;
use service_watch::{Entry, LogFormat, ReplyHead, ServiceEvent, entry_line, moment_text};
use std::alloc::{AllocError, Global};
use std::net::SocketAddr;
use std::time::Instant;

/// The most bytes of a line. A pipe that has room has room for so many.
const LONGEST_LINE: usize = 4_096;

/// How many milliseconds a second has.
const SECOND: u64 = 1_000;

/// The kind of the reply that refuses a frame.
const REFUSED: u8 = 0x8f;

/// How many lines are said in a second.
const MOST_LINES: u32 = 20;

// How many lines may still be said.
#[derive(Clone, Copy)]
struct Quota {
    // When the second began.
    since: u64,
    // How many lines were said in it.
    said: u32,
}

impl Quota {
    // Takes a line from the quota. Returns whether there is one, at a moment in milliseconds.
    fn take(&mut self, now: u64) -> bool
        ensures one { result ≡ has_line (quota_at now self.old) }
        ensures less { self.new ≡ after_line (quota_at now self.old) }
    {
        if now.saturating_sub(self.since) >= SECOND {
            *self = Quota {
                since: now,
                said: 0,
            };
        }
        if self.said < MOST_LINES {
            self.said += 1;
            true
        } else {
            false
        }
    }
}

/// What says why connections are closed, and, in a format, what else happens.
#[derive(Drop)]
pub struct EventLog {
    // Nothing is said of connections.
    quiet: bool,
    format: Option<LogFormat>,
    start: Instant,
    quota: Quota,
    // How many lines were left out since the last that was said.
    left_out: u64,
    /// How many were left out in all.
    pub all_left_out: u64,
}

impl EventLog {
    /// One that has said nothing yet.
    pub fn new(start: Instant, quiet: bool, format: Option<LogFormat>) -> EventLog {
        EventLog {
            quiet,
            format,
            start,
            quota: Quota { since: 0, said: 0 },
            left_out: 0,
            all_left_out: 0,
        }
    }

    /// How many lines were left out in all.
    pub fn all_left_out(&self) -> u64
        ensures { result ≡ self.now.all_left_out }
    {
        self.all_left_out
    }

    /// Says why a connection was closed: by the name of its cause.
    pub fn report(
        &mut self,
        rt: &HostRuntime,
        cause: &'static str,
        session: Option<u64>,
        address: Option<SocketAddr>,
    ) {
        self.note(
            rt,
            &Entry {
                event: ServiceEvent::Closed,
                session,
                address,
                what: Some(cause),
                code: None,
            },
        );
    }

    /// Says what happened to a connection.
    pub fn note_connection(
        &mut self,
        rt: &HostRuntime,
        event: ServiceEvent,
        session: u64,
        address: SocketAddr,
        code: Option<u64>,
    ) {
        self.note(
            rt,
            &Entry {
                event,
                session: Some(session),
                address: Some(address),
                what: None,
                code,
            },
        );
    }

    /// Says what a turn of a connection came to: what it was refused, and the version that it
    /// published.
    pub fn note_turn(
        &mut self,
        rt: &HostRuntime,
        session: u64,
        address: SocketAddr,
        reply: Option<ReplyHead>,
        published: Option<u64>,
    ) {
        if let Some(
            ReplyHead {
                kind: REFUSED,
                first,
            },
        ) = reply
        {
            let code = Some(u64::from(first));
            self.note_connection(rt, ServiceEvent::Refused, session, address, code);
        }
        if published.is_some() {
            self.note_connection(rt, ServiceEvent::Published, session, address, published);
        }
    }

    /// Says what happened, if it is to be said, and before that how many lines were left out.
    pub fn note(&mut self, rt: &HostRuntime, entry: &Entry) {
        if !says(self.quiet, self.format, entry) {
            return;
        }
        let now = self.now(rt);
        if self.left_out > 0 && self.say_entry(rt, now, &left_out_entry(self.left_out)) {
            self.left_out = 0;
        }
        if !self.say_entry(rt, now, entry) {
            self.left_out = self.left_out.saturating_add(1);
            self.all_left_out = self.all_left_out.saturating_add(1);
        }
    }

    // Says an entry, if there is memory for its line, and the quota and standard error have room
    // for it.
    fn say_entry(&mut self, rt: &HostRuntime, now: u64, entry: &Entry) -> bool {
        let Some(time) = moment_text(unix_millis(rt)) else {
            return false;
        };
        match line_of(rt.alloc(), self.format, &time, entry) {
            Ok(line) => self.say(now, &line),
            Err(_) => false,
        }
    }

    // Says a line, if the quota and standard error have room for it.
    fn say(&mut self, now: u64, line: &[u8]) -> bool {
        self.quota.take(now) && say_bytes(line)
    }

    // Milliseconds since the start. A clock that can't be read stays at one time.
    fn now(&self, rt: &HostRuntime) -> u64 {
        match self.start.elapsed(rt) {
            Ok(elapsed) => u64::try_from(elapsed.as_millis()).unwrap_or(u64::MAX),
            Err(_) => self.quota.since,
        }
    }
}

// Whether an entry is said: of connections nothing if it is quiet, and without a format only why
// one was closed.
fn says(quiet: bool, format: Option<LogFormat>, entry: &Entry) -> bool
    ensures { result ≡ is_said quiet format entry.now }
{
    match entry.event {
        ServiceEvent::Accepted | ServiceEvent::Refused => !quiet && format.is_some(),
        ServiceEvent::Closed => !quiet && (format.is_some() || entry.what.is_some()),
        _ => format.is_some(),
    }
}

// The entry that counts the lines that were left out.
fn left_out_entry(count: u64) -> Entry {
    Entry {
        event: ServiceEvent::LeftOut,
        session: None,
        address: None,
        what: None,
        code: Some(count),
    }
}

// The line of an entry: in a format, or as it is without one.
fn line_of(
    alloc: Global,
    format: Option<LogFormat>,
    time: &[u8],
    entry: &Entry,
) -> Result<Vec<u8>, AllocError>
    ensures { IfOk result (λ line. line.items ≡ line_text format time.now entry.now) }
{
    match format {
        Some(format) => entry_line(alloc, format, time, entry),
        None => plain_line(alloc, entry.what.unwrap_or(""), entry.code),
    }
}

// The line without a format: of a count of lines that were left out, or of a cause.
fn plain_line(alloc: Global, what: &str, count: Option<u64>) -> Result<Vec<u8>, AllocError>
    ensures { IfOk result (λ line. line.items ≡ plain_text what.now count) }
{
    let text = match count {
        Some(count) => format!(in alloc; "connections: {count} lines left out\n")?,
        None => format!(in alloc; "connection: {what}\n")?,
    };
    let mut line = Vec::new(alloc);
    line.extend_from_slice(text.as_bytes())?;
    Ok(line)
}

/// Writes a line on standard error, if there is room for it at once, and returns whether all of it
/// went out. One that is longer than 4,096 bytes is cut off.
pub fn say_line(line: &str) -> bool {
    say_bytes(line.as_bytes())
}

// Writes the bytes of a line.
fn say_bytes(bytes: &[u8]) -> bool {
    let bytes = &bytes[..bytes.len().min(LONGEST_LINE)];
    if !has_room() {
        return false;
    }
    let written = os::write_no_sigpipe(libc::STDERR_FILENO, bytes);
    written >= 0 && written.cast_unsigned() == bytes.len()
}

// Whether standard error takes bytes at once.
fn has_room() -> bool {
    let mut fds = [libc::types::pollfd {
        fd: libc::STDERR_FILENO,
        events: libc::net::POLLOUT,
        revents: 0,
    }];
    libc::net::poll(&mut fds, 0) > 0 && fds[0].revents & libc::net::POLLOUT != 0
}
