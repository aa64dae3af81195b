//! A server for programs in C.

ghost use Rattle.std.specs.Prelude.{◌≡◌, ◌≢◌, ◌≤◌, None, length, if◌then◌else◌};
ghost use Rattle.server_core.specs.Cores.{session_of, is_open};
ghost use Rattle.vulandrai_c.specs.Handles.{CallsOn};
ghost use Rattle.vulandrai_c.specs.ServerCalls.{OpensServerWithCode, OpensSessionWithCode};
ghost use Rattle.vulandrai_c.specs.ServerCalls.{ClosesSession, TakesPieceWithCode};
ghost use Rattle.vulandrai_c.specs.ServerCalls.{TakesFrameWithCode, TakesReplies, EditsWithCode};
ghost use Rattle.vulandrai_c.specs.ServerCalls.{AppendsWithCode};
ghost use Rattle.vulandrai_c.specs.ServerCalls.{PublishesWithCode, CopiesSnapshot, replies_of};
ghost use Rattle.vulandrai_c.specs.ServerCalls.{snapshot_bytes_of};

use crate::codes::{CLOSED, MEMORY, OK};
use crate::server_answers::{
    append_draft, close_session, copy_snapshot, edit_draft, open_session, publish_draft, serve,
    serve_frame, take_replies,
};
use crate::server_codes::snapshot_code;
use crate::server_handle::ServerHandle;
use foreign_sessions::ServerSession;
use std::alloc::Global;
use std::mem::replace;

/// Makes a server of the records of a snapshot file in a handle; what the handle held is freed. The
/// snapshot's codes, in their order, or 5.
#[unsafe(no_mangle)]
pub extern "C" fn vul_server_open_bytes(
    server: &mut ServerHandle,
    alloc: Global,
    snapshot: &[u8],
) -> u32
    ensures { OpensServerWithCode server.old.held.session snapshot.now server.new.held.session
        result }
{
    match ServerSession::open(alloc, snapshot) {
        Err(fault) => snapshot_code(fault),
        Ok(session) => {
            let Ok(session) = Box::new(alloc, session) else {
                return MEMORY;
            };
            *server = ServerHandle::of(session);
            OK
        }
    }
}

/// Frees the server of a handle, if there is one.
#[unsafe(no_mangle)]
pub extern "C" fn vul_server_close(server: &mut ServerHandle, alloc: Global)
    ensures { server.new.held.session ≡ None }
{
    *server = ServerHandle::closed(alloc);
}

/// Opens a session. 32; 49 exactly if there is one of this number; else it is opened, or 5.
#[unsafe(no_mangle)]
pub extern "C" fn vul_server_session_open(server: &mut ServerHandle, alloc: Global, id: u64) -> u32
    ensures { CallsOn server.old.held.session server.new.held.session result
        (λ old new. OpensSessionWithCode old id new result) }
{
    let Some(mut session) = replace(server, ServerHandle::closed(alloc)).into_box() else {
        return CLOSED;
    };
    let code = open_session(&mut session, id);
    *server = ServerHandle::of(session);
    code
}

/// Ends a session. 32; 48 exactly if there is none of this number.
#[unsafe(no_mangle)]
pub extern "C" fn vul_server_session_close(server: &mut ServerHandle, alloc: Global, id: u64) -> u32
    ensures { CallsOn server.old.held.session server.new.held.session result
        (λ old new. ClosesSession old id new result) }
{
    let Some(mut session) = replace(server, ServerHandle::closed(alloc)).into_box() else {
        return CLOSED;
    };
    let code = close_session(&mut session, id);
    *server = ServerHandle::of(session);
    code
}

/// Whether there is a session of this number that takes more bytes: 1, or 0. 32.
#[unsafe(no_mangle)]
pub extern "C" fn vul_server_session_is_open(
    server: &mut ServerHandle,
    alloc: Global,
    id: u64,
    answer: &mut u32,
) -> u32
    ensures { CallsOn server.old.held.session server.new.held.session result
        (λ old new. (result ≡ 0) × (new ≡ old)
        × (answer.new ≡ (if is_open (session_of old.core.sessions id) then 1 else 0))) }
{
    let Some(session) = replace(server, ServerHandle::closed(alloc)).into_box() else {
        return CLOSED;
    };
    *answer = u32::from(session.is_open(id));
    *server = ServerHandle::of(session);
    OK
}

/// Takes a piece of a session's stream. 32, 36; 48 exactly if there is no session of this
/// number; else it is served, or 5.
#[unsafe(no_mangle)]
pub extern "C" fn vul_server_feed_bytes(
    server: &mut ServerHandle,
    alloc: Global,
    id: u64,
    piece: &[u8],
) -> u32
    ensures { CallsOn server.old.held.session server.new.held.session result
        (λ old new. TakesPieceWithCode old id piece.now new result) }
{
    let Some(mut session) = replace(server, ServerHandle::closed(alloc)).into_box() else {
        return CLOSED;
    };
    let code = serve(&mut session, id, piece);
    *server = ServerHandle::of(session);
    code
}

/// Takes a piece of a session's stream up to the end of its first frame: `taken` is how many bytes
/// of it, and the rest is for a later call. 32, 36; 48 exactly when there is no session of this
/// number; else it is served, or 5. With each of these codes no byte is taken.
#[unsafe(no_mangle)]
pub extern "C" fn vul_server_feed_frame_bytes(
    server: &mut ServerHandle,
    alloc: Global,
    id: u64,
    piece: &[u8],
    taken: &mut usize,
) -> u32
    ensures served { CallsOn server.old.held.session server.new.held.session result
        (λ old new. TakesFrameWithCode old id piece.now taken.new new result) }
    ensures within { taken.new ≤ length piece.now }
    ensures refused { result ≢ 0 → taken.new ≡ 0 }
{
    *taken = 0;
    let Some(mut session) = replace(server, ServerHandle::closed(alloc)).into_box() else {
        return CLOSED;
    };
    let code = serve_frame(&mut session, id, piece, taken);
    *server = ServerHandle::of(session);
    code
}

/// How many bytes of replies wait to be sent, 0 if the handle is closed.
#[unsafe(no_mangle)]
pub extern "C" fn vul_server_waiting(server: &mut ServerHandle, alloc: Global) -> usize
    ensures kept { server.new.held.session ≡ server.old.held.session }
    ensures len { result ≡ length (replies_of server.old.held.session) }
{
    let Some(session) = replace(server, ServerHandle::closed(alloc)).into_box() else {
        return 0;
    };
    let len = session.replies_len();
    *server = ServerHandle::of(session);
    len
}

/// Copies the replies that wait to be sent, and forgets them. 32; 35 exactly if `out` has
/// another length than they have.
#[unsafe(no_mangle)]
pub extern "C" fn vul_server_take_bytes(
    server: &mut ServerHandle,
    alloc: Global,
    out: &mut [u8],
) -> u32
    ensures { CallsOn server.old.held.session server.new.held.session result
        (λ old new. TakesReplies old new out.old out.new result) }
{
    let Some(mut session) = replace(server, ServerHandle::closed(alloc)).into_box() else {
        return CLOSED;
    };
    let code = take_replies(&mut session, out);
    *server = ServerHandle::of(session);
    code
}

/// Replaces a record of the draft. 32; 50 exactly if there is no such record; else 51 exactly
/// if the bytes can't be a record; else it is replaced, or 5.
#[unsafe(no_mangle)]
pub extern "C" fn vul_server_edit_bytes(
    server: &mut ServerHandle,
    alloc: Global,
    index: u32,
    record_bytes: &[u8],
) -> u32
    ensures { CallsOn server.old.held.session server.new.held.session result
        (λ old new. EditsWithCode old index record_bytes.now new result) }
{
    let Some(mut session) = replace(server, ServerHandle::closed(alloc)).into_box() else {
        return CLOSED;
    };
    let code = edit_draft(&mut session, index, record_bytes);
    *server = ServerHandle::of(session);
    code
}

/// Puts a record after those of the draft. 32; 51 exactly if the bytes can't be a record; else 54
/// exactly if there is no layout of one record more; else it is there, or 5.
#[unsafe(no_mangle)]
pub extern "C" fn vul_server_append_bytes(
    server: &mut ServerHandle,
    alloc: Global,
    record_bytes: &[u8],
) -> u32
    ensures { CallsOn server.old.held.session server.new.held.session result
        (λ old new. AppendsWithCode old record_bytes.now new result) }
{
    let Some(mut session) = replace(server, ServerHandle::closed(alloc)).into_box() else {
        return CLOSED;
    };
    let code = append_draft(&mut session, record_bytes);
    *server = ServerHandle::of(session);
    code
}

/// Publishes the draft. 32; 52 exactly if nothing was edited or appended since the last
/// publication; else 53 exactly if the version is the last possible one; else it is published, or
/// 5.
#[unsafe(no_mangle)]
pub extern "C" fn vul_server_publish(server: &mut ServerHandle, alloc: Global) -> u32
    ensures { CallsOn server.old.held.session server.new.held.session result
        (λ old new. PublishesWithCode old new result) }
{
    let Some(mut session) = replace(server, ServerHandle::closed(alloc)).into_box() else {
        return CLOSED;
    };
    let code = publish_draft(&mut session);
    *server = ServerHandle::of(session);
    code
}

/// The number of the current version. 32.
#[unsafe(no_mangle)]
pub extern "C" fn vul_server_version(server: &mut ServerHandle, alloc: Global, out: &mut u64) -> u32
    ensures { CallsOn server.old.held.session server.new.held.session result
        (λ old new. (result ≡ 0) × (new ≡ old) × (out.new ≡ old.core.store.version)) }
{
    let Some(session) = replace(server, ServerHandle::closed(alloc)).into_box() else {
        return CLOSED;
    };
    *out = session.version();
    *server = ServerHandle::of(session);
    OK
}

/// How many bytes the snapshot file of the current version has, 0 if the handle is closed.
#[unsafe(no_mangle)]
pub extern "C" fn vul_server_snapshot_len(server: &mut ServerHandle, alloc: Global) -> usize
    ensures kept { server.new.held.session ≡ server.old.held.session }
    ensures len { result ≡ length (snapshot_bytes_of server.old.held.session) }
{
    let Some(session) = replace(server, ServerHandle::closed(alloc)).into_box() else {
        return 0;
    };
    let len = session.snapshot_len();
    *server = ServerHandle::of(session);
    len
}

/// Copies the snapshot file of the current version. 32; 35 exactly if `out` has another length
/// than it has; else it is copied, or 5.
#[unsafe(no_mangle)]
pub extern "C" fn vul_server_snapshot_bytes(
    server: &mut ServerHandle,
    alloc: Global,
    out: &mut [u8],
) -> u32
    ensures { CallsOn server.old.held.session server.new.held.session result
        (λ old new. (new ≡ old) × CopiesSnapshot old out.old out.new result) }
{
    let Some(session) = replace(server, ServerHandle::closed(alloc)).into_box() else {
        return CLOSED;
    };
    let code = copy_snapshot(&session, alloc, out);
    *server = ServerHandle::of(session);
    code
}
