//! The words of the command `run`.

ghost use Rattle.std.specs.Prelude.{◌≤◌, IfOk, IfSome};
ghost use Rattle.clap.specs.Matches.{found_of};
ghost use Rattle.command_words.specs.Given.{IsNumberIfGiven};
ghost use Rattle.server_words.specs.Tasks.{IsNumberOr, ReadsDraft, ReadsFormat};
ghost use Rattle.server_words.specs.Tasks.{ReadsGrace, ReadsMost, ReadsMostPerPeer, ReadsRun};

use clap::ArgMatches;
use command_words::{Argument, BadLine, CommandText, number_at, text_at};
use service_watch::{DraftLife, LogFormat};
use std::net::SocketAddr;

const FILE_TAKES: &str = "--file takes a file's name";

const LISTEN_TAKES: &str = "--listen takes an address and a port, as 127.0.0.1:7000 or [::1]:7000";

const STATUS_TAKES: &str = "--status takes an address and a port, as 127.0.0.1:9100 or [::1]:9100";

const MOST_TAKES: &str = "--most takes a number from 1 to 65535";

const MAX_CONNECTIONS_TAKES: &str = "--max-connections takes a number from 1 to 65535";

const IDLE_TAKES: &str = "--idle takes a number of seconds from 1 to 86400";

const MEMORY_TAKES: &str = "--memory takes a number of MiB from 1 to 1048576";

const LOG_LIMIT_TAKES: &str = "--log-limit takes a number of MiB from 1 to 1048576";

const MOST_PER_PEER_TAKES: &str = "--most-per-peer takes a number from 1 to 65535";

const MAX_PER_PEER_TAKES: &str = "--max-connections-per-peer takes a number from 1 to 65535";

const DRAFT_TAKES: &str = "--draft takes publication or session";

const LOG_TAKES: &str = "--log takes text or json";

const GRACE_TAKES: &str =
    "--grace takes a number of seconds from 1 to 3600, and is for --until-eof alone";

/// How many seconds what was begun has after the end of standard input if `--grace` is not given.
const GRACE: u64 = 10;

/// How many MiB the log may have when a server starts, before it is made shorter, if `--log-limit`
/// is not given.
const LOG_LIMIT: u64 = 64;

/// How many connections there may be at once if neither `--max-connections` nor `--most` is given.
const MOST: u64 = 256;

/// After how many seconds without progress a connection is closed if `--idle` is not given.
const IDLE: u64 = 60;

/// How many MiB the unfinished frames of all connections, and the replies owed to them, may have
/// together if `--memory` is not given.
const MEMORY: u64 = 256;

/// What `run` is to serve.
#[derive(Clone, Copy)]
pub struct RunOptions<'a> {
    /// The snapshot file.
    pub file: &'a str,
    /// Where it listens; port 0 is any that is free.
    pub listen: SocketAddr,
    /// How many connections there may be at once: 1 to 65535.
    pub most: usize,
    /// After how many seconds without progress a connection is closed: 1 to 86400.
    pub idle: u64,
    /// How many MiB the unfinished frames of all connections, and the replies owed to them, may
    /// have together: 1 to 1048576.
    pub memory: u64,
    /// How many MiB the log may have at the start before it is made shorter: 1 to 1048576.
    pub log_limit: u64,
    /// How many seconds what was begun has after the end of standard input: 1 to 3600. If there is
    /// no number, the server is not to stop there.
    pub grace: Option<u64>,
    /// How many connections one IP address may have at once, if that is bounded: 1 to 65535.
    pub most_per_peer: Option<u64>,
    /// Where those are answered who ask how it does, if anywhere; port 0 is any that is free.
    pub status: Option<SocketAddr>,
    /// How the lines of the log are written, if it is not only the faults of connections.
    pub log: Option<LogFormat>,
    /// With what a draft ends.
    pub draft: DraftLife,
    /// Whether the faults of connections are left out on standard error.
    pub quiet: bool,
    /// Whether it is said there how much of the file has been read, and how many rows of the hints
    /// are made.
    pub progress: bool,
}

/// The command `run`.
pub const RUN: CommandText = CommandText {
    name: "run",
    about: "Serves a snapshot file, many connections side by side, until it is killed or, with \
        --until-eof, standard input ends",
    example: "Prints 'listening ADDR:PORT' once it listens, and 'status ADDR:PORT' after that\n\
        with --status. Before that it makes the hints, first SimplePIR's and then DoublePIR's:\n\
        with --progress standard error has lines 'input: BYTES bytes, SECONDS s left' of the\n\
        file, and 'hint: K of ALL rows, SECONDS s left' of either hint. A connection that ends\n\
        with a fault is reported on standard error, as 'connection: NAME', and the others go on.\n\
        A publication is acknowledged only once its log has it on the disk; if it can't be\n\
        appended the connection is closed, and the version before is served on. What is sent is\n\
        not encrypted: listen on 127.0.0.1 or [::1] unless a tunnel or a proxy stands before the\n\
        port.\n\n\
        Example: pir_server run --file two.pir --listen 127.0.0.1:7000\n\n\
        With --verbose a fault has a second line, 'cause: TEXT', that says what failed and where.",
    arguments: &[
        Argument::Verbose,
        Argument::Required {
            name: "file",
            value: "FILE",
            help: "The snapshot file; a publication is appended to a log beside it, FILE.log- and \
                16 hex digits, before it is acknowledged",
        },
        Argument::Required {
            name: "listen",
            value: "ADDR:PORT",
            help: "The address and the port to listen on, as 127.0.0.1:7000 or [::1]:7000; port 0 \
                takes any that is free",
        },
        Argument::Optional {
            name: "most",
            value: "N",
            help: "How many connections there may be at once, 1 to 65535, and 16 fewer than the \
                process may have descriptors; others wait until one ends (256 if not given)",
        },
        Argument::ClearerName {
            of: "most",
            name: "max-connections",
            value: "N",
            help: "The same as --most, which may not be given beside it",
        },
        Argument::Optional {
            name: "idle",
            value: "SECONDS",
            help: "After how many seconds without progress a connection is closed, 1 to 86400 (60 \
                if not given): of a whole frame that came, or of all that was owed to it taken",
        },
        Argument::Optional {
            name: "memory",
            value: "MIB",
            help: "How many MiB the unfinished frames of all connections, and the replies that \
                they have not taken, may have together, 1 to 1048576; past that the connection \
                with the most is closed (256 if not given)",
        },
        Argument::Optional {
            name: "log-limit",
            value: "MIB",
            help: "If the log has more MiB than this at the start, 1 to 1048576, all but its last \
                16 publications are put into the file first (64 if not given)",
        },
        Argument::Optional {
            name: "most-per-peer",
            value: "N",
            help: "How many connections one IP address may have at once, 1 to 65535; one more is \
                closed at once (not bounded if not given)",
        },
        Argument::ClearerName {
            of: "most-per-peer",
            name: "max-connections-per-peer",
            value: "N",
            help: "The same as --most-per-peer, which may not be given beside it",
        },
        Argument::Optional {
            name: "status",
            value: "ADDR:PORT",
            help: "A second address and port to listen on, for GET /health and GET /metrics over \
                HTTP; port 0 takes any that is free (none if not given)",
        },
        Argument::Optional {
            name: "log",
            value: "FORMAT",
            help: "Writes a line on standard error for each event, with its time, as text or as \
                json (only the faults of connections if not given)",
        },
        Argument::Flag {
            name: "until-eof",
            help: "Stops at the end of standard input, which must be a pipe, a socket or a \
                terminal: accepts nothing more, serves what was begun, and ends with status 0",
        },
        Argument::Optional {
            name: "grace",
            value: "SECONDS",
            help: "How many seconds at most what was begun is served after the end of standard \
                input, 1 to 3600 (10 if not given)",
        },
        Argument::Optional {
            name: "draft",
            value: "END",
            help: "When a draft ends: with publication only when it is published; with session \
                also when the last session that edited it ends, so that what a push that was cut \
                short left is not published with the next one (publication if not given)",
        },
        Argument::Flag {
            name: "quiet",
            help: "Leaves out the lines on standard error about faults of connections",
        },
        Argument::Flag {
            name: "progress",
            help: "Says on standard error, each second until it listens, how much of the file has \
                been read, and then how many rows of the hints are made, and how many seconds are \
                left",
        },
    ],
};

/// What the words of `run` ask for.
pub fn options_of_run<'a>(found: &ArgMatches<'a>) -> Result<RunOptions<'a>, BadLine<'a>>
    ensures most { IfOk result (λ running. (1 ≤ running.most) × (running.most ≤ 65535)) }
    ensures idle { IfOk result (λ running. (1 ≤ running.idle) × (running.idle ≤ 86400)) }
    ensures memory { IfOk result (λ running. (1 ≤ running.memory) × (running.memory ≤ 1048576)) }
    ensures log_limit { IfOk result
        (λ running. (1 ≤ running.log_limit) × (running.log_limit ≤ 1048576)) }
    ensures most_per_peer { IfOk result (λ running. IfSome running.most_per_peer
        (λ most. (1 ≤ most) × (most ≤ 65535))) }
    ensures grace { IfOk result (λ running. IfSome running.grace
        (λ seconds. (1 ≤ seconds) × (seconds ≤ 3600))) }
    ensures read { IfOk result (ReadsRun (found_of found.now)) }
{
    Ok(RunOptions {
        file: text_at(found, "file", FILE_TAKES)?,
        listen: address_at(found)?,
        most: most_at(found)? as usize,
        idle: number_or(found, "idle", IDLE, 86_400, IDLE_TAKES)?,
        memory: number_or(found, "memory", MEMORY, 1_048_576, MEMORY_TAKES)?,
        log_limit: number_or(found, "log-limit", LOG_LIMIT, 1_048_576, LOG_LIMIT_TAKES)?,
        grace: grace_at(found)?,
        most_per_peer: most_per_peer_at(found)?,
        status: status_at(found)?,
        log: format_at(found)?,
        draft: draft_at(found)?,
        quiet: found.get_flag("quiet"),
        progress: found.get_flag("progress"),
    })
}

// How many connections there may be at once, by either name of the option.
fn most_at<'a>(found: &ArgMatches<'a>) -> Result<u64, BadLine<'a>>
    ensures within { IfOk result (λ most. (1 ≤ most) × (most ≤ 65535)) }
    ensures read { IfOk result (ReadsMost (found_of found.now)) }
{
    match found.get_str("max-connections") {
        None => number_or(found, "most", MOST, 65_535, MOST_TAKES),
        Some(_) => number_or(
            found,
            "max-connections",
            MOST,
            65_535,
            MAX_CONNECTIONS_TAKES,
        ),
    }
}

// How many connections one address may have, by either name of the option, if that is bounded.
fn most_per_peer_at<'a>(found: &ArgMatches<'a>) -> Result<Option<u64>, BadLine<'a>>
    ensures within { IfOk result (λ most. IfSome most (λ n. (1 ≤ n) × (n ≤ 65535))) }
    ensures read { IfOk result (ReadsMostPerPeer (found_of found.now)) }
{
    match found.get_str("max-connections-per-peer") {
        None => number_if(found, "most-per-peer", 65_535, MOST_PER_PEER_TAKES),
        Some(_) => number_if(
            found,
            "max-connections-per-peer",
            65_535,
            MAX_PER_PEER_TAKES,
        ),
    }
}

// How the lines of the log are written, if that is given.
fn format_at<'a>(found: &ArgMatches<'a>) -> Result<Option<LogFormat>, BadLine<'a>>
    ensures read { IfOk result (ReadsFormat (found_of found.now)) }
{
    match found.get_str("log") {
        None => Ok(None),
        Some("text") => Ok(Some(LogFormat::Text)),
        Some("json") => Ok(Some(LogFormat::Json)),
        Some(text) => Err(BadLine::Given(LOG_TAKES, text)),
    }
}

// With what a draft ends: with its publication alone, unless another word is given.
fn draft_at<'a>(found: &ArgMatches<'a>) -> Result<DraftLife, BadLine<'a>>
    ensures read { IfOk result (ReadsDraft (found_of found.now)) }
{
    match found.get_str("draft") {
        None | Some("publication") => Ok(DraftLife::Publication),
        Some("session") => Ok(DraftLife::Session),
        Some(text) => Err(BadLine::Given(DRAFT_TAKES, text)),
    }
}

/// The number given for an option, from 1 to the most, if there is one.
///
/// # Errors
///
/// `Given` if it is no such number.
pub fn number_if<'a>(
    found: &ArgMatches<'a>,
    name: &str,
    most: u64,
    takes: &'static str,
) -> Result<Option<u64>, BadLine<'a>>
    ensures within { IfOk result (λ number. IfSome number (λ n. (1 ≤ n) × (n ≤ most))) }
    ensures read { IfOk result (IsNumberIfGiven (found_of found.now) name.now) }
{
    let Some(text) = found.get_str(name) else {
        return Ok(None);
    };
    match number_at(found, name, most, takes)? {
        0 => Err(BadLine::Given(takes, text)),
        number => Ok(Some(number)),
    }
}

// How many seconds what was begun has after the end of standard input, if the server is to stop
// there.
fn grace_at<'a>(found: &ArgMatches<'a>) -> Result<Option<u64>, BadLine<'a>>
    ensures within { IfOk result (λ grace. IfSome grace
        (λ seconds. (1 ≤ seconds) × (seconds ≤ 3600))) }
    ensures read { IfOk result (ReadsGrace (found_of found.now)) }
{
    if found.get_flag("until-eof") {
        let seconds = number_or(found, "grace", GRACE, 3_600, GRACE_TAKES)?;
        return Ok(Some(seconds));
    }
    match found.get_str("grace") {
        None => Ok(None),
        Some(text) => Err(BadLine::Given(GRACE_TAKES, text)),
    }
}

// The address and the port to listen on.
fn address_at<'a>(found: &ArgMatches<'a>) -> Result<SocketAddr, BadLine<'a>> {
    address_of(text_at(found, "listen", LISTEN_TAKES)?, LISTEN_TAKES)
}

// The address and the port for those who ask how the server does, if they are given.
fn status_at<'a>(found: &ArgMatches<'a>) -> Result<Option<SocketAddr>, BadLine<'a>> {
    match found.get_str("status") {
        Some(text) => Ok(Some(address_of(text, STATUS_TAKES)?)),
        None => Ok(None),
    }
}

// The address and the port of a text.
fn address_of<'a>(text: &'a str, takes: &'static str) -> Result<SocketAddr, BadLine<'a>> {
    match text.parse::<SocketAddr>() {
        Ok(address) => Ok(address),
        Err(_) => Err(BadLine::Given(takes, text)),
    }
}

/// The number given for an option, from 1 to the most, or the usual one if none is given.
///
/// # Errors
///
/// `Given` if it is no such number.
pub fn number_or<'a>(
    found: &ArgMatches<'a>,
    name: &str,
    usual: u64,
    most: u64,
    takes: &'static str,
) -> Result<u64, BadLine<'a>>
    requires usual { 1 ≤ usual }
    requires most { usual ≤ most }
    ensures least { IfOk result (λ n. 1 ≤ n) }
    ensures most { IfOk result (λ n. n ≤ most) }
    ensures read { IfOk result (IsNumberOr usual (found_of found.now) name.now) }
{
    let Some(text) = found.get_str(name) else {
        return Ok(usual);
    };
    match number_at(found, name, most, takes)? {
        0 => Err(BadLine::Given(takes, text)),
        number => Ok(number),
    }
}
