//! A client for programs in C.

ghost use Rattle.std.specs.Prelude.{◌≡◌, false, true, ◌≤◌, ◌<◌, None, length};
ghost use Rattle.client_core.specs.Calls.{ClientCall};
ghost use Rattle.pir_schemes.specs.declared.scheme.Scheme.TheVariants.{Simple, Double};
ghost use Rattle.vulandrai_c.specs.Handles.{CallsOn};
ghost use Rattle.vulandrai_c.specs.ClientCalls.{OpensClientWithCode, CallsClientWithCode};
ghost use Rattle.vulandrai_c.specs.ClientCalls.{CopiesHint, CopiesPlan};
ghost use Rattle.vulandrai_c.specs.ClientCalls.{ResumesWithCode};
ghost use Rattle.vulandrai_c.specs.ClientCalls.{FeedsClientWithCode, TakesWaiting, TakesEvent};
ghost use Rattle.vulandrai_c.specs.ClientCalls.{IsFirstEventInC};
ghost use Rattle.vulandrai_c.specs.ClientCalls.{hint_file_in, waiting_of, reported_server};

use crate::client_answers::{
    append, ask, edit, feed, hello, next, plan, publish, resume, save, sync, take,
};
use crate::client_handle::ClientHandle;
use crate::codes::{BAD_LENGTH, BAD_NUMBER, BAD_SCHEME, CLOSED, MEMORY, OK};
use crate::reported::{ReportedEvent, ReportedServer, first_reported, server_reported};
use foreign_sessions::{ClientSession, Scheme};
use std::alloc::Global;
use std::mem::replace;

const NUMBER_LIMIT: u64 = 1 << 62;

const RECORD_LIMIT: usize = 65_535;

/// Makes a client in a handle, whose secrets and noise come from the seed; what the handle held is
/// freed. 33 exactly if the first number is above 2^62; else it is made, or 5.
#[unsafe(no_mangle)]
pub extern "C" fn vul_client_open(
    client: &mut ClientHandle,
    alloc: Global,
    seed: &[u8; 32],
    first_number: u64,
) -> u32
    ensures { OpensClientWithCode false client.old.held.session seed.now first_number
        client.new.held.session result }
{
    if first_number > NUMBER_LIMIT {
        return BAD_NUMBER;
    }
    let Ok(session) = Box::new(alloc, ClientSession::new(alloc, *seed, first_number)) else {
        return MEMORY;
    };
    *client = ClientHandle::of(session);
    OK
}

/// The same, for a client of wide stores: each kind of store refuses the other kind's client with
/// code 3.
#[unsafe(no_mangle)]
pub extern "C" fn vul_client_open_wide(
    client: &mut ClientHandle,
    alloc: Global,
    seed: &[u8; 32],
    first_number: u64,
) -> u32
    ensures { OpensClientWithCode true client.old.held.session seed.now first_number
        client.new.held.session result }
{
    if first_number > NUMBER_LIMIT {
        return BAD_NUMBER;
    }
    let Ok(session) = Box::new(alloc, ClientSession::wide(alloc, *seed, first_number)) else {
        return MEMORY;
    };
    *client = ClientHandle::of(session);
    OK
}

/// Frees the client of a handle, if there is one.
#[unsafe(no_mangle)]
pub extern "C" fn vul_client_close(client: &mut ClientHandle, alloc: Global)
    ensures { client.new.held.session ≡ None }
{
    *client = ClientHandle::closed(alloc);
}

/// Asks to be let in: with a key of 32 zero bytes as a reader, with the publisher's as the
/// publisher. 32, 36, then the client's refusals.
#[unsafe(no_mangle)]
pub extern "C" fn vul_client_hello(client: &mut ClientHandle, alloc: Global, key: &[u8; 32]) -> u32
    ensures { CallsOn client.old.held.session client.new.held.session result
        (λ old new. CallsClientWithCode old (ClientCall.Hello key.now) new result) }
{
    let Some(mut session) = replace(client, ClientHandle::closed(alloc)).into_box() else {
        return CLOSED;
    };
    let code = hello(&mut session, *key);
    *client = ClientHandle::of(session);
    code
}

/// Asks for the hint of the last version known: of SimplePIR for 0, of DoublePIR for 1. 34 for any
/// other number, and then nothing changes; 32, 36, then the client's refusals.
#[unsafe(no_mangle)]
pub extern "C" fn vul_client_sync(client: &mut ClientHandle, alloc: Global, scheme: u32) -> u32
    ensures simple { (scheme ≡ 0) → CallsOn client.old.held.session client.new.held.session result
        (λ old new. CallsClientWithCode old (ClientCall.Sync Simple) new result) }
    ensures double { (scheme ≡ 1) → CallsOn client.old.held.session client.new.held.session result
        (λ old new. CallsClientWithCode old (ClientCall.Sync Double) new result) }
    ensures other { (1 < scheme) →
        (result ≡ 34) × (client.new.held.session ≡ client.old.held.session) }
{
    let scheme = match scheme {
        0 => Scheme::Simple,
        1 => Scheme::Double,
        _ => return BAD_SCHEME,
    };
    let Some(mut session) = replace(client, ClientHandle::closed(alloc)).into_box() else {
        return CLOSED;
    };
    let code = sync(&mut session, scheme);
    *client = ClientHandle::of(session);
    code
}

/// Asks for a record by a query that hides which. 32, 36, then the client's refusals.
#[unsafe(no_mangle)]
pub extern "C" fn vul_client_ask(client: &mut ClientHandle, alloc: Global, index: u32) -> u32
    ensures { CallsOn client.old.held.session client.new.held.session result
        (λ old new. CallsClientWithCode old (ClientCall.Ask index) new result) }
{
    let Some(mut session) = replace(client, ClientHandle::closed(alloc)).into_box() else {
        return CLOSED;
    };
    let code = ask(&mut session, index);
    *client = ClientHandle::of(session);
    code
}

/// Gives the server these bytes for a record of the draft. 35 exactly if there are more than
/// 65,535, and then nothing changes; 32, 36, then the client's refusals.
#[unsafe(no_mangle)]
pub extern "C" fn vul_client_edit_bytes(
    client: &mut ClientHandle,
    alloc: Global,
    index: u32,
    record_bytes: &[u8],
) -> u32
    ensures long { (65535 < length record_bytes.now) →
        (result ≡ 35) × (client.new.held.session ≡ client.old.held.session) }
    ensures short { (length record_bytes.now ≤ 65535) →
        CallsOn client.old.held.session client.new.held.session result
        (λ old new. CallsClientWithCode old (ClientCall.Edit index record_bytes.now) new result) }
{
    if record_bytes.len() > RECORD_LIMIT {
        return BAD_LENGTH;
    }
    let Some(mut session) = replace(client, ClientHandle::closed(alloc)).into_box() else {
        return CLOSED;
    };
    let code = edit(&mut session, index, record_bytes);
    *client = ClientHandle::of(session);
    code
}

/// Gives the server these bytes for a record after those of the draft. 35 exactly if there are
/// more than 65,535, and then nothing changes; 32, 36, then the client's refusals.
#[unsafe(no_mangle)]
pub extern "C" fn vul_client_append_bytes(
    client: &mut ClientHandle,
    alloc: Global,
    record_bytes: &[u8],
) -> u32
    ensures long { (65535 < length record_bytes.now) →
        (result ≡ 35) × (client.new.held.session ≡ client.old.held.session) }
    ensures short { (length record_bytes.now ≤ 65535) →
        CallsOn client.old.held.session client.new.held.session result
        (λ old new. CallsClientWithCode old (ClientCall.Append record_bytes.now) new result) }
{
    if record_bytes.len() > RECORD_LIMIT {
        return BAD_LENGTH;
    }
    let Some(mut session) = replace(client, ClientHandle::closed(alloc)).into_box() else {
        return CLOSED;
    };
    let code = append(&mut session, record_bytes);
    *client = ClientHandle::of(session);
    code
}

/// Asks the server to publish its draft. 32, 36, then the client's refusals.
#[unsafe(no_mangle)]
pub extern "C" fn vul_client_publish(client: &mut ClientHandle, alloc: Global) -> u32
    ensures { CallsOn client.old.held.session client.new.held.session result
        (λ old new. CallsClientWithCode old ClientCall.Publish new result) }
{
    let Some(mut session) = replace(client, ClientHandle::closed(alloc)).into_box() else {
        return CLOSED;
    };
    let code = publish(&mut session);
    *client = ClientHandle::of(session);
    code
}

/// Takes a piece of the server's stream. 32, 36, then what ends the client.
#[unsafe(no_mangle)]
pub extern "C" fn vul_client_feed_bytes(
    client: &mut ClientHandle,
    alloc: Global,
    piece: &[u8],
) -> u32
    ensures { CallsOn client.old.held.session client.new.held.session result
        (λ old new. FeedsClientWithCode old piece.now new result) }
{
    let Some(mut session) = replace(client, ClientHandle::closed(alloc)).into_box() else {
        return CLOSED;
    };
    let code = feed(&mut session, piece);
    *client = ClientHandle::of(session);
    code
}

/// How many bytes wait to be sent, 0 if the handle is closed.
#[unsafe(no_mangle)]
pub extern "C" fn vul_client_waiting(client: &mut ClientHandle, alloc: Global) -> usize
    ensures kept { client.new.held.session ≡ client.old.held.session }
    ensures len { result ≡ length (waiting_of client.old.held.session) }
{
    let Some(session) = replace(client, ClientHandle::closed(alloc)).into_box() else {
        return 0;
    };
    let len = session.waiting_len();
    *client = ClientHandle::of(session);
    len
}

/// Copies the bytes that wait to be sent, and forgets them. 32; 35 exactly if `out` has another
/// length than they have.
#[unsafe(no_mangle)]
pub extern "C" fn vul_client_take_bytes(
    client: &mut ClientHandle,
    alloc: Global,
    out: &mut [u8],
) -> u32
    ensures { CallsOn client.old.held.session client.new.held.session result
        (λ old new. TakesWaiting old new out.old out.new result) }
{
    let Some(mut session) = replace(client, ClientHandle::closed(alloc)).into_box() else {
        return CLOSED;
    };
    let code = take(&mut session, out);
    *client = ClientHandle::of(session);
    code
}

/// The first event that waits, of kind 0 if there is none. 32.
#[unsafe(no_mangle)]
pub extern "C" fn vul_client_event(
    client: &mut ClientHandle,
    alloc: Global,
    out: &mut ReportedEvent,
) -> u32
    ensures { CallsOn client.old.held.session client.new.held.session result
        (λ old new. (result ≡ 0) × (new ≡ old) × IsFirstEventInC old.events.items out.new) }
{
    let Some(session) = replace(client, ClientHandle::closed(alloc)).into_box() else {
        return CLOSED;
    };
    *out = first_reported(&session);
    *client = ClientHandle::of(session);
    OK
}

/// Copies the record that the first event gives, and forgets the event. 32; 35 exactly if `out`
/// has another length than the record.
#[unsafe(no_mangle)]
pub extern "C" fn vul_client_next_bytes(
    client: &mut ClientHandle,
    alloc: Global,
    out: &mut [u8],
) -> u32
    ensures { CallsOn client.old.held.session client.new.held.session result
        (λ old new. TakesEvent old new out.old out.new result) }
{
    let Some(mut session) = replace(client, ClientHandle::closed(alloc)).into_box() else {
        return CLOSED;
    };
    let code = next(&mut session, out);
    *client = ClientHandle::of(session);
    code
}

/// The number of the next retrieval. 32.
#[unsafe(no_mangle)]
pub extern "C" fn vul_client_number(client: &mut ClientHandle, alloc: Global, out: &mut u64) -> u32
    ensures { CallsOn client.old.held.session client.new.held.session result
        (λ old new. (result ≡ 0) × (new ≡ old) × (out.new ≡ old.core.state.number)) }
{
    let Some(session) = replace(client, ClientHandle::closed(alloc)).into_box() else {
        return CLOSED;
    };
    *out = session.next_number();
    *client = ClientHandle::of(session);
    OK
}

/// What the server reported of its store, all 0 before it let the client in. 32.
#[unsafe(no_mangle)]
pub extern "C" fn vul_client_known(
    client: &mut ClientHandle,
    alloc: Global,
    out: &mut ReportedServer,
) -> u32
    ensures { CallsOn client.old.held.session client.new.held.session result
        (λ old new. (result ≡ 0) × (new ≡ old) × (out.new ≡ reported_server old.core.state.known)) }
{
    let Some(session) = replace(client, ClientHandle::closed(alloc)).into_box() else {
        return CLOSED;
    };
    *out = server_reported(&session);
    *client = ClientHandle::of(session);
    OK
}

/// Copies the 41 bytes that say which store the server's is. 32; 1 exactly before the server let
/// the client in; 35 exactly when `out` has another length.
#[unsafe(no_mangle)]
pub extern "C" fn vul_client_plan_bytes(
    client: &mut ClientHandle,
    alloc: Global,
    out: &mut [u8],
) -> u32
    ensures { CallsOn client.old.held.session client.new.held.session result
        (λ old new. (new ≡ old) × CopiesPlan old.core.state.known out.old out.new result) }
{
    let Some(session) = replace(client, ClientHandle::closed(alloc)).into_box() else {
        return CLOSED;
    };
    let code = plan(&session, out);
    *client = ClientHandle::of(session);
    code
}

/// How many bytes the file of the hint held has, 0 when there is no hint or the handle is closed.
#[unsafe(no_mangle)]
pub extern "C" fn vul_client_hint_len(client: &mut ClientHandle, alloc: Global) -> usize
    ensures kept { client.new.held.session ≡ client.old.held.session }
    ensures len { result ≡ length (hint_file_in client.old.held.session) }
{
    let Some(session) = replace(client, ClientHandle::closed(alloc)).into_box() else {
        return 0;
    };
    let len = session.hint_len();
    *client = ClientHandle::of(session);
    len
}

/// Copies the file of the hint held. 32; 35 exactly when `out` has another length than it has; else
/// it is copied, or 5.
#[unsafe(no_mangle)]
pub extern "C" fn vul_client_save_bytes(
    client: &mut ClientHandle,
    alloc: Global,
    out: &mut [u8],
) -> u32
    ensures { CallsOn client.old.held.session client.new.held.session result
        (λ old new. (new ≡ old) × CopiesHint old out.old out.new result) }
{
    let Some(session) = replace(client, ClientHandle::closed(alloc)).into_box() else {
        return CLOSED;
    };
    let code = save(&session, alloc, out);
    *client = ClientHandle::of(session);
    code
}

/// Goes on with the hint of a file: the client holds it then, or 81 when it is of another store or
/// of a later version, and then the client is as it was. 32; 80 exactly when the bytes are no file
/// of a hint; 5; then the client's refusals.
#[unsafe(no_mangle)]
pub extern "C" fn vul_client_resume_bytes(
    client: &mut ClientHandle,
    alloc: Global,
    bytes: &[u8],
) -> u32
    ensures { CallsOn client.old.held.session client.new.held.session result
        (λ old new. ResumesWithCode old bytes.now new result) }
{
    let Some(mut session) = replace(client, ClientHandle::closed(alloc)).into_box() else {
        return CLOSED;
    };
    let code = resume(&mut session, alloc, bytes);
    *client = ClientHandle::of(session);
    code
}
