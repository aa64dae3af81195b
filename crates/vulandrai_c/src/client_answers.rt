//! What a client returns from a call, as a code.

ghost use Rattle.std.specs.Prelude.{◌≤◌, length};
ghost use Rattle.client_core.specs.Calls.{ClientCall};
ghost use Rattle.vulandrai_c.specs.ClientCalls.{CallsClientWithCode, CopiesHint, CopiesPlan};
ghost use Rattle.vulandrai_c.specs.ClientCalls.{ResumesWithCode};
ghost use Rattle.vulandrai_c.specs.ClientCalls.{FeedsClientWithCode};
ghost use Rattle.vulandrai_c.specs.ClientCalls.{TakesWaiting, TakesEvent};

use crate::client_codes::{feed_code, resume_code, session_code};
use crate::codes::{BAD_LENGTH, MEMORY, NOT_READY, OK};
use foreign_sessions::{ClientSession, STORE_LEN, Scheme};
use std::alloc::Global;

/// A greeting.
pub fn hello(client: &mut ClientSession, key: [u8; 32]) -> u32
    ensures { CallsClientWithCode client.old (ClientCall.Hello key) client.new result }
{
    let answer = client.hello(key);
    session_code(answer)
}

/// A sync.
pub fn sync(client: &mut ClientSession, scheme: Scheme) -> u32
    ensures { CallsClientWithCode client.old (ClientCall.Sync scheme) client.new result }
{
    let answer = client.sync(scheme);
    session_code(answer)
}

/// A query.
pub fn ask(client: &mut ClientSession, index: u32) -> u32
    ensures { CallsClientWithCode client.old (ClientCall.Ask index) client.new result }
{
    let answer = client.ask(index);
    session_code(answer)
}

/// An edit.
pub fn edit(client: &mut ClientSession, index: u32, bytes: &[u8]) -> u32
    requires { length bytes.now ≤ 65535 }
    ensures { CallsClientWithCode client.old (ClientCall.Edit index bytes.now) client.new result }
{
    let answer = client.edit(index, bytes);
    session_code(answer)
}

/// An append.
pub fn append(client: &mut ClientSession, bytes: &[u8]) -> u32
    requires { length bytes.now ≤ 65535 }
    ensures { CallsClientWithCode client.old (ClientCall.Append bytes.now) client.new result }
{
    let answer = client.append(bytes);
    session_code(answer)
}

/// A publication.
pub fn publish(client: &mut ClientSession) -> u32
    ensures { CallsClientWithCode client.old ClientCall.Publish client.new result }
{
    let answer = client.publish();
    session_code(answer)
}

/// A piece of the server's stream.
pub fn feed(client: &mut ClientSession, piece: &[u8]) -> u32
    ensures { FeedsClientWithCode client.old piece.now client.new result }
{
    let answer = client.feed(piece);
    feed_code(answer)
}

/// The bytes that wait to be sent.
pub fn take(client: &mut ClientSession, out: &mut [u8]) -> u32
    ensures { TakesWaiting client.old client.new out.old out.new result }
{
    if out.len() != client.waiting_len() {
        return BAD_LENGTH;
    }
    client.take_waiting(out);
    OK
}

/// The record of the first event.
pub fn next(client: &mut ClientSession, out: &mut [u8]) -> u32
    ensures { TakesEvent client.old client.new out.old out.new result }
{
    if out.len() != client.first_record_len() {
        return BAD_LENGTH;
    }
    client.copy_first_record(out);
    client.forget_first_event();
    OK
}

/// The file of the hint held.
pub fn save(client: &ClientSession, alloc: Global, out: &mut [u8]) -> u32
    ensures { CopiesHint client.now out.old out.new result }
{
    if out.len() != client.hint_len() {
        return BAD_LENGTH;
    }
    match client.copy_hint(alloc, out) {
        Ok(()) => OK,
        Err(_) => MEMORY,
    }
}

/// The bytes that say which store the server's is.
pub fn plan(client: &ClientSession, out: &mut [u8]) -> u32
    ensures { CopiesPlan client.now.core.state.known out.old out.new result }
{
    let Some(store) = client.store() else {
        return NOT_READY;
    };
    if out.len() != STORE_LEN {
        return BAD_LENGTH;
    }
    out.copy_from_slice(&store);
    OK
}

/// A resumption.
pub fn resume(client: &mut ClientSession, alloc: Global, bytes: &[u8]) -> u32
    ensures { ResumesWithCode client.old bytes.now client.new result }
{
    let answer = client.resume(alloc, bytes);
    resume_code(answer)
}
