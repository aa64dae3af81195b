//! What a server returns from a call, as a code.

ghost use Rattle.vulandrai_c.specs.ServerCalls as calls;

use crate::codes::{BAD_LENGTH, MEMORY, NO_SESSION, OK};
use crate::server_codes::{append_code, edit_code, opening_code, piece_code, publication_code};
use foreign_sessions::ServerSession;
use std::alloc::Global;

/// The opening of a session.
pub fn open_session(server: &mut ServerSession, id: u64) -> u32
    ensures { calls.OpensSessionWithCode server.old id server.new result }
{
    let answer = server.open_session(id);
    opening_code(answer)
}

/// The end of a session.
pub fn close_session(server: &mut ServerSession, id: u64) -> u32
    ensures { calls.ClosesSession server.old id server.new result }
{
    if server.close_session(id) {
        OK
    } else {
        NO_SESSION
    }
}

/// A piece of a session's stream.
pub fn serve(server: &mut ServerSession, id: u64, piece: &[u8]) -> u32
    ensures { calls.TakesPieceWithCode server.old id piece.now server.new result }
{
    let answer = server.feed(id, piece);
    piece_code(answer)
}

/// The first frame of a piece of a session's stream, and how many bytes of the piece it took.
pub fn serve_frame(server: &mut ServerSession, id: u64, piece: &[u8], taken: &mut usize) -> u32
    ensures { calls.TakesFrameWithCode server.old id piece.now taken.new server.new result }
{
    match server.feed_frame(id, piece) {
        Ok(count) => {
            *taken = count;
            OK
        }
        Err(fault) => {
            *taken = 0;
            piece_code(Err(fault))
        }
    }
}

/// The replies that wait to be sent.
pub fn take_replies(server: &mut ServerSession, out: &mut [u8]) -> u32
    ensures { calls.TakesReplies server.old server.new out.old out.new result }
{
    if out.len() != server.replies_len() {
        return BAD_LENGTH;
    }
    server.take_replies(out);
    OK
}

/// A server's edit.
pub fn edit_draft(server: &mut ServerSession, index: u32, bytes: &[u8]) -> u32
    ensures { calls.EditsWithCode server.old index bytes.now server.new result }
{
    let answer = server.edit(index as usize, bytes);
    edit_code(answer)
}

/// A server's append.
pub fn append_draft(server: &mut ServerSession, bytes: &[u8]) -> u32
    ensures { calls.AppendsWithCode server.old bytes.now server.new result }
{
    let answer = server.append(bytes);
    append_code(answer)
}

/// A server's publication.
pub fn publish_draft(server: &mut ServerSession) -> u32
    ensures { calls.PublishesWithCode server.old server.new result }
{
    let answer = server.publish();
    publication_code(answer)
}

/// The snapshot file of the current version.
pub fn copy_snapshot(server: &ServerSession, alloc: Global, out: &mut [u8]) -> u32
    ensures { calls.CopiesSnapshot server.now out.old out.new result }
{
    if out.len() != server.snapshot_len() {
        return BAD_LENGTH;
    }
    match server.copy_snapshot(alloc, out) {
        Ok(()) => OK,
        Err(_) => MEMORY,
    }
}
