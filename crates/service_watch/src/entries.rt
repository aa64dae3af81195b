//! The lines of a log.

ghost use Rattle.std.specs.Prelude.{◌≡◌, ◌++◌, IfOk, OnOk, option_copied};
ghost use Rattle.service_watch.specs.Entries.{entry_text, event_name, head_text, is_warning};
ghost use Rattle.service_watch.specs.Entries.{level_name, number_field, peer_field, tail_text};
ghost use Rattle.service_watch.specs.Entries.{text_field};

use std::alloc::{AllocError, Global};
use std::net::SocketAddr;

/// How a log's lines are written.
#[derive(Clone, Copy, Debug, PartialEq, Eq)]
pub enum LogFormat {
    /// Words, and then fields as `name=value`.
    Text,
    /// An object of JSON.
    Json,
}

/// What happened.
#[derive(Clone, Copy, Debug, PartialEq, Eq)]
pub enum ServiceEvent {
    /// The service listens.
    Listening,
    /// A connection was accepted.
    Accepted,
    /// A connection is over.
    Closed,
    /// A frame was refused.
    Refused,
    /// A version was published.
    Published,
    /// Nothing more is accepted, and what was begun is served.
    Stopping,
    /// The service is over.
    Stopped,
    /// Lines of the log were left out.
    LeftOut,
}

/// A line's content.
#[derive(Clone, Copy)]
pub struct Entry {
    /// What happened.
    pub event: ServiceEvent,
    /// The number of the session that it happened to.
    pub session: Option<u64>,
    /// The peer's address, or the address that is listened on.
    pub address: Option<SocketAddr>,
    /// The name of a cause.
    pub what: Option<&'static str>,
    /// A refusal's code, a version, or a count.
    pub code: Option<u64>,
}

impl ServiceEvent {
    /// Its name in a line.
    pub fn name(self) -> &'static str
        ensures { result.now ≡ event_name self }
    {
        match self {
            ServiceEvent::Listening => "listening",
            ServiceEvent::Accepted => "accepted",
            ServiceEvent::Closed => "closed",
            ServiceEvent::Refused => "refused",
            ServiceEvent::Published => "published",
            ServiceEvent::Stopping => "stopping",
            ServiceEvent::Stopped => "stopped",
            ServiceEvent::LeftOut => "left_out",
        }
    }
}

/// The line of an entry, with its end, at a moment whose text is given.
///
/// # Errors
///
/// `AllocError` if memory was refused.
pub fn entry_line(
    alloc: Global,
    format: LogFormat,
    time: &[u8],
    entry: &Entry,
) -> Result<Vec<u8>, AllocError>
    ensures { IfOk result (λ line. line.items ≡ entry_text format time.now entry.now) }
{
    let mut line = Vec::new(alloc);
    push_head(alloc, &mut line, format, time, entry)?;
    push_number(alloc, &mut line, format, "session", entry.session)?;
    push_address(alloc, &mut line, format, entry.address)?;
    push_text(alloc, &mut line, format, "what", entry.what)?;
    push_number(alloc, &mut line, format, "code", entry.code)?;
    push_tail(&mut line, format)?;
    Ok(line)
}

// Whether a line warns.
fn warns(entry: &Entry) -> bool
    ensures { result ≡ is_warning entry.now }
{
    match entry.event {
        ServiceEvent::Refused | ServiceEvent::LeftOut => true,
        ServiceEvent::Closed => entry.what.is_some(),
        _ => false,
    }
}

// A line's level.
fn level_of(entry: &Entry) -> &'static str
    ensures { result.now ≡ level_name entry.now }
{
    if warns(entry) { "warn" } else { "info" }
}

// Begins a line with its time, level and event.
fn push_head(
    alloc: Global,
    line: &mut Vec<u8>,
    format: LogFormat,
    time: &[u8],
    entry: &Entry,
) -> Result<(), AllocError>
    ensures { OnOk result (line.new.items ≡ line.old.items ++ head_text format time.now entry.now) }
{
    let level = level_of(entry);
    let event = entry.event.name();
    match format {
        LogFormat::Text => {
            let rest = format!(in alloc; " {level} {event}")?;
            line.extend_from_slice(time)?;
            line.extend_from_slice(rest.as_bytes())
        }
        LogFormat::Json => {
            let rest = format!(in alloc; "\",\"level\":\"{level}\",\"event\":\"{event}\"")?;
            push_three(line, b"{\"time\":\"", time, rest.as_bytes())
        }
    }
}

// Adds three parts.
fn push_three(
    line: &mut Vec<u8>,
    first: &[u8],
    second: &[u8],
    third: &[u8],
) -> Result<(), AllocError>
    ensures { OnOk result (line.new.items ≡ line.old.items
        ++ (first.now ++ (second.now ++ third.now))) }
{
    line.extend_from_slice(first)?;
    line.extend_from_slice(second)?;
    line.extend_from_slice(third)
}

// Ends a line.
fn push_tail(line: &mut Vec<u8>, format: LogFormat) -> Result<(), AllocError>
    ensures { OnOk result (line.new.items ≡ line.old.items ++ tail_text format) }
{
    match format {
        LogFormat::Text => line.extend_from_slice(b"\n"),
        LogFormat::Json => line.extend_from_slice(b"}\n"),
    }
}

// Adds a number under a name, if there is one.
fn push_number(
    alloc: Global,
    line: &mut Vec<u8>,
    format: LogFormat,
    name: &str,
    number: Option<u64>,
) -> Result<(), AllocError>
    ensures { OnOk result (line.new.items ≡ line.old.items ++ number_field format name.now number) }
{
    let Some(number) = number else {
        return Ok(());
    };
    let field = match format {
        LogFormat::Text => format!(in alloc; " {name}={number}")?,
        LogFormat::Json => format!(in alloc; ",\"{name}\":{number}")?,
    };
    line.extend_from_slice(field.as_bytes())
}

// Adds a text under a name, if there is one.
fn push_text(
    alloc: Global,
    line: &mut Vec<u8>,
    format: LogFormat,
    name: &str,
    text: Option<&str>,
) -> Result<(), AllocError>
    ensures { OnOk result (line.new.items ≡ line.old.items
        ++ text_field format name.now (option_copied text.entry)) }
{
    let Some(text) = text else {
        return Ok(());
    };
    let field = match format {
        LogFormat::Text => format!(in alloc; " {name}={text}")?,
        LogFormat::Json => format!(in alloc; ",\"{name}\":\"{text}\"")?,
    };
    line.extend_from_slice(field.as_bytes())
}

// Adds an address, if there is one.
fn push_address(
    alloc: Global,
    line: &mut Vec<u8>,
    format: LogFormat,
    address: Option<SocketAddr>,
) -> Result<(), AllocError>
    ensures { OnOk result (line.new.items ≡ line.old.items ++ peer_field format address) }
{
    let Some(address) = address else {
        return Ok(());
    };
    let field = match format {
        LogFormat::Text => format!(in alloc; " peer={address}")?,
        LogFormat::Json => format!(in alloc; ",\"peer\":\"{address}\"")?,
    };
    line.extend_from_slice(field.as_bytes())
}
