//! The servers that a command line names.

use clap::ArgMatches;
use command_words::{BadLine, decimal};
use std::alloc::Global;
use std::fmt;
use std::fmt::{Display, Formatter};

const TO_TAKES: &str =
    "--to takes HOST:PORT, PORT being a number from 1 to 65535; an IPv6 address is in brackets";

/// A server.
#[derive(Clone, Copy, Debug, PartialEq, Eq)]
pub struct Peer<'a> {
    /// Its name or address.
    pub host: &'a str,
    /// Its port.
    pub port: u16,
}

/// The servers given for `--to`, in their order.
pub fn peers_at<'a>(alloc: Global, found: &ArgMatches<'a>) -> Result<Vec<Peer<'a>>, BadLine<'a>> {
    let Some(texts) = found.get_strs("to") else {
        return Err(BadLine::Value(TO_TAKES));
    };
    let mut peers = Vec::new(alloc);
    for text in texts {
        let Some(peer) = peer_in(text) else {
            return Err(BadLine::Given(TO_TAKES, text));
        };
        if peers.push(peer).is_err() {
            return Err(BadLine::Memory);
        }
    }
    Ok(peers)
}

impl Display for Peer<'_> {
    fn fmt<W: fmt::Write>(&self, f: &mut Formatter<W>) -> fmt::Result {
        let Peer { host, port } = self;
        if host.contains(':') {
            write!(f, "[{host}]:{port}")
        } else {
            write!(f, "{host}:{port}")
        }
    }
}

// The server that a text names.
fn peer_in<'a>(text: &'a str) -> Option<Peer<'a>> {
    let (host, port) = text.rsplit_once(':')?;
    let host = match host.strip_prefix('[') {
        Some(rest) => rest.strip_suffix(']')?,
        None if host.contains(':') => return None,
        None => host,
    };
    if host.is_empty() {
        return None;
    }
    match decimal(port) {
        Some(port) if 0 < port && port <= u64::from(u16::MAX) => Some(Peer {
            host,
            port: port as u16,
        }),
        _ => None,
    }
}
