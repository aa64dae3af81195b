//! A hint fetched part by part into its partial file, from the first part on that is not there.

use crate::failures::{BAD_REPLY, MEMORY};
use crate::progress::FetchProgress;
use crate::server::Server;
use client_commands::CommandError;
use client_state::{Fetched, Folder, FolderFault, PartialFile};
use hint_file::HintError;
use pir_schemes::PART_WORDS;
use session_core::{ConverseFault, Scheme, ServerInfo};
use std::io::{ErrorKind, Read, Write};

/// How many bytes come before the words of a part: the frame's length, its kind, the scheme, the
/// version and the part.
const HEAD_LEN: usize = 18;

/// How many of them are not counted by the frame's length.
const PREFIX_LEN: usize = 5;

/// The kinds of the replies that a part's ask may get beside the part: Stale and Refused, and how
/// many bytes they have.
const OTHERS: [(u8, u32); 2] = [(0x86, 12), (0x8f, 1)];

// What came of an ask for a part.
enum Reply {
    // The part, which is in the buffer.
    Part,
    // Another version, or a refusal. Whoever asks again gets the same again.
    Other,
}

/// Fetches the hint of the version known, and keeps it. None when that can't be done over the
/// folder, or when the server has another version by now or refuses a part: then a sync says so, or
/// fetches the hint without the folder.
pub fn fetch<'a>(
    rt: &HostRuntime,
    server: &Server,
    folder: &Folder<'a>,
    known: &ServerInfo,
    scheme: Scheme,
    says: bool,
) -> Result<Option<Fetched<'a>>, CommandError> {
    let Some(mut partial) = partial_in(folder, known, scheme)? else {
        return Ok(None);
    };
    match fetch_rest(rt, server, &mut partial, says) {
        Ok(Rest::Fetched) => finished(partial),
        Ok(Rest::Stays) => Ok(None),
        Ok(Rest::Unwritten) => {
            partial.discard();
            Ok(None)
        }
        Err(fault) => Err(fault),
    }
}

// What became of the parts that were not there.
enum Rest {
    // All of them are there now.
    Fetched,
    // The server has another version by now, or refuses a part.
    Stays,
    // A part could not be written.
    Unwritten,
}

// Fetches the parts that are not there, one after another.
fn fetch_rest(
    rt: &HostRuntime,
    server: &Server,
    partial: &mut PartialFile<'_>,
    says: bool,
) -> Result<Rest, CommandError> {
    let Ok(mut buffer) = vec![in rt.alloc(); 0u8; 4 * PART_WORDS] else {
        return Err(MEMORY);
    };
    let mut progress = FetchProgress::new(rt, says, partial.taken(), partial.parts());
    for _ in partial.taken()..partial.parts() {
        match fetch_next(server, partial, &mut buffer)? {
            Rest::Fetched => progress.say(partial.taken()),
            other => return Ok(other),
        }
    }
    Ok(Rest::Fetched)
}

// Fetches the next part.
fn fetch_next(
    server: &Server,
    partial: &mut PartialFile<'_>,
    buffer: &mut [u8],
) -> Result<Rest, CommandError> {
    let Some(len) = partial.next_len() else {
        return Ok(Rest::Stays);
    };
    if len > buffer.len() {
        return Ok(Rest::Stays);
    }
    let (room, _) = buffer.split_at_mut(len);
    match ask_for_part(server, partial, room)? {
        Reply::Part => {}
        Reply::Other => return Ok(Rest::Stays),
    }
    match partial.add(room) {
        Ok(()) => Ok(Rest::Fetched),
        Err(_) => Ok(Rest::Unwritten),
    }
}

// The hint, once all parts are there.
fn finished(partial: PartialFile<'_>) -> Result<Option<Fetched<'_>>, CommandError> {
    match partial.finish() {
        Ok(fetched) => Ok(Some(fetched)),
        Err(HintError::Memory) => Err(MEMORY),
        Err(HintError::Damaged | HintError::Read) => Ok(None),
    }
}

// The partial file of the hint; none when the folder can't have one now.
fn partial_in<'a>(
    folder: &Folder<'a>,
    known: &ServerInfo,
    scheme: Scheme,
) -> Result<Option<PartialFile<'a>>, CommandError> {
    match folder.partial(known, scheme) {
        Ok(found) => Ok(found),
        Err(FolderFault::State) => Ok(None),
        Err(FolderFault::Memory) => Err(MEMORY),
    }
}

// Asks for the next part, and reads the reply.
fn ask_for_part(
    server: &Server,
    partial: &PartialFile<'_>,
    room: &mut [u8],
) -> Result<Reply, CommandError> {
    let (Ok(ask), Ok(wanted)) = (partial.ask(), partial.reply_head()) else {
        return Err(MEMORY);
    };
    if (&mut &*server).write_all(&ask).is_err() {
        return Err(CommandError::Conversation(ConverseFault::Write));
    }
    let mut prefix = [0u8; PREFIX_LEN];
    fill(server, &mut prefix)?;
    let [a, b, c, d, kind] = prefix;
    let len = u32::from_le_bytes([a, b, c, d]);
    if OTHERS.contains(&(kind, len)) {
        return skipped(server, len);
    }
    let mut head = [0u8; HEAD_LEN];
    let (before, after) = head.split_at_mut(PREFIX_LEN);
    before.copy_from_slice(&prefix);
    if len as usize != after.len().saturating_add(room.len()) {
        return Err(BAD_REPLY);
    }
    fill(server, after)?;
    // Both say which part it is, after a length.
    if head.get(4..) != wanted.get(4..) {
        return Err(BAD_REPLY);
    }
    fill(server, room)?;
    Ok(Reply::Part)
}

// Reads and drops what a reply has that is no part: a few bytes.
fn skipped(server: &Server, len: u32) -> Result<Reply, CommandError> {
    let mut next = [0u8; 1];
    for _ in 0..len {
        fill(server, &mut next)?;
    }
    Ok(Reply::Other)
}

// As many bytes as there is room for.
fn fill(server: &Server, out: &mut [u8]) -> Result<(), CommandError> {
    match (&mut &*server).read_exact(out) {
        Ok(()) => Ok(()),
        Err(fault) if fault.kind() == ErrorKind::UnexpectedEof => {
            Err(CommandError::Conversation(ConverseFault::Ended))
        }
        Err(_) => Err(CommandError::Conversation(ConverseFault::Read)),
    }
}
