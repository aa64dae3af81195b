//! The commands.

ghost use Rattle.std.specs.Prelude.{◌≡◌, ◌≤◌, ◌+◌, ◌⊎◌, List, ℕ, length, replicate, IfOk, IfErr};
ghost use Rattle.std.specs.Prelude.{OnOk, None};
ghost use Rattle.std.specs.Io.KnownBytes.{Appends, Consumes};
ghost use Rattle.pir_schemes.specs.Schemes.{scheme_byte};
ghost use Rattle.frame_codec.specs.declared.frame.Frame.TheVariants as frame;
ghost use Rattle.client_commands.specs.Transcripts.{
  Transacts,
  IsRecordAsked,
  IsDoneVersion,
  get_steps,
  edit_steps,
  append_steps,
  publish_steps,
  as_retrieved,
  as_done,
};
ghost use Rattle.client_commands.specs.Sent.{SendsCommand};

use crate::connection::{check_dimension, exchange};
use crate::fault::CommandError;
use client_core::{ClientCore, Event, Scheme};
use frame_codec::Bytes;
use matrix_u32::Kernel;
use std::alloc::Global;
use std::io::{Read, Write};

/// The key of a reader.
pub(crate) const READER: [u8; 32] = [0; 32];

/// A record that was retrieved.
#[derive(Drop)]
pub struct Retrieved {
    /// Which record it is.
    pub index: u32,
    /// The version that it is of.
    pub version: u64,
    /// Its bytes.
    pub bytes: Bytes,
}

/// Retrieves record `index` privately: hello as a reader, sync, ask. What is read and written is
/// that of these calls, in their order, and of no other. A secret has `least` words at least by the
/// server's Welcome, or nothing is sent after the hello. One number of the client is spent with a
/// record, and one at most with a failure, whatever the server says. With a record, what was sent
/// begins with a reader's hello, and has the ask for the first part of the scheme's hint after it.
///
/// # Errors
///
/// The first failure ends it: `Refused`, `Stale` or `Unreadable` exactly if the event that came
/// of a call's reply says so, `ShortSecrets` if the Welcome names a smaller dimension than
/// `least`, `Call` if the client refused a call, and `Conversation` if that over a call came
/// to no event.
pub fn get<K: Kernel, R: Read, W: Write>(
    alloc: Global,
    client: &mut ClientCore<K>,
    reader: &mut R,
    writer: &mut W,
    least: usize,
    scheme: Scheme,
    index: u32,
) -> Result<Retrieved, CommandError>
    ensures transcript { (read : List ℕ) × (out : List ℕ)
        × Consumes (R.remaining reader.old) (R.remaining reader.new) read
        × Appends (W.contents writer.old) (W.contents writer.new) out
        × Transacts client.old (get_steps least scheme index) (as_retrieved result) read out
        (R.remaining reader.new) client.new }
    ensures record { IfOk result (λ r. r.index ≡ index) }
    ensures sends { OnOk result ((version : ℕ) ×
        SendsCommand (W.contents writer.old) (W.contents writer.new)
        (frame.Hello client.old.state.profile (replicate 32 0))
        (frame.HintAsk (scheme_byte scheme) version 0)) }
    ensures spends { IfOk result (λ _. client.new.state.number ≡ client.old.state.number + 1) }
    ensures spends_no_more { IfErr result
        (λ _. (client.new.state.number ≡ client.old.state.number) ⊎
        (client.new.state.number ≡ client.old.state.number + 1)) }
{
    match retrieve(alloc, client, reader, writer, least, scheme, index) {
        Ok(
            Event::Retrieved {
                index,
                version,
                bytes,
            },
        ) => Ok(Retrieved {
            index,
            version,
            bytes,
        }),
        Ok(_) => unreachable!(),
        Err(failure) => Err(failure),
    }
}

// The steps of a retrieval, to the event of the last.
fn retrieve<K: Kernel, R: Read, W: Write>(
    alloc: Global,
    client: &mut ClientCore<K>,
    reader: &mut R,
    writer: &mut W,
    least: usize,
    scheme: Scheme,
    index: u32,
) -> Result<Event, CommandError>
    ensures transcript { (read : List ℕ) × (out : List ℕ)
        × Consumes (R.remaining reader.old) (R.remaining reader.new) read
        × Appends (W.contents writer.old) (W.contents writer.new) out
        × Transacts client.old (get_steps least scheme index) result read out
        (R.remaining reader.new) client.new }
    ensures record { IfOk result (λ event. IsRecordAsked index event) }
    ensures bare { IfOk result (λ _. client.old.state.hint ≡ None) }
{
    let sent = client.hello(READER);
    exchange(alloc, client, sent, reader, writer)?;
    check_dimension(client, least)?;
    let sent = client.sync(scheme);
    exchange(alloc, client, sent, reader, writer)?;
    let sent = client.ask(index);
    exchange(alloc, client, sent, reader, writer)
}

/// Gives the server these bytes for record `index` of the next version: the publisher's hello,
/// edit. Returns the current version, and spends no number. What is read and written is that of
/// these calls, in their order, and of no other.
///
/// # Errors
///
/// As those of [`get`], but for `ShortSecrets`.
pub fn put<K: Kernel, R: Read, W: Write>(
    alloc: Global,
    client: &mut ClientCore<K>,
    reader: &mut R,
    writer: &mut W,
    key: [u8; 32],
    index: u32,
    bytes: &[u8],
) -> Result<u64, CommandError>
    requires { length bytes.now ≤ 65535 }
    ensures transcript { (read : List ℕ) × (out : List ℕ)
        × Consumes (R.remaining reader.old) (R.remaining reader.new) read
        × Appends (W.contents writer.old) (W.contents writer.new) out
        × Transacts client.old (edit_steps key index bytes.now) (as_done result) read out
        (R.remaining reader.new) client.new }
    ensures number { client.new.state.number ≡ client.old.state.number }
{
    match edit_record(alloc, client, reader, writer, key, index, bytes) {
        Ok(Event::Done(version)) => Ok(version),
        Ok(_) => unreachable!(),
        Err(failure) => Err(failure),
    }
}

// The steps of an edit, to the event of the last.
fn edit_record<K: Kernel, R: Read, W: Write>(
    alloc: Global,
    client: &mut ClientCore<K>,
    reader: &mut R,
    writer: &mut W,
    key: [u8; 32],
    index: u32,
    bytes: &[u8],
) -> Result<Event, CommandError>
    requires { length bytes.now ≤ 65535 }
    ensures transcript { (read : List ℕ) × (out : List ℕ)
        × Consumes (R.remaining reader.old) (R.remaining reader.new) read
        × Appends (W.contents writer.old) (W.contents writer.new) out
        × Transacts client.old (edit_steps key index bytes.now) result read out
        (R.remaining reader.new) client.new }
    ensures done { IfOk result IsDoneVersion }
{
    let sent = client.hello(key);
    exchange(alloc, client, sent, reader, writer)?;
    let sent = client.edit(index, bytes);
    exchange(alloc, client, sent, reader, writer)
}

/// Gives the server these bytes as one record more of the next version: the publisher's hello,
/// append. Returns the current version, and spends no number. What is read and written is that of
/// these calls, in their order, and of no other.
///
/// # Errors
///
/// As those of [`put`].
pub fn append<K: Kernel, R: Read, W: Write>(
    alloc: Global,
    client: &mut ClientCore<K>,
    reader: &mut R,
    writer: &mut W,
    key: [u8; 32],
    bytes: &[u8],
) -> Result<u64, CommandError>
    requires { length bytes.now ≤ 65535 }
    ensures transcript { (read : List ℕ) × (out : List ℕ)
        × Consumes (R.remaining reader.old) (R.remaining reader.new) read
        × Appends (W.contents writer.old) (W.contents writer.new) out
        × Transacts client.old (append_steps key bytes.now) (as_done result) read out
        (R.remaining reader.new) client.new }
    ensures number { client.new.state.number ≡ client.old.state.number }
{
    match append_record(alloc, client, reader, writer, key, bytes) {
        Ok(Event::Done(current)) => Ok(current),
        Ok(_) => unreachable!(),
        Err(failure) => Err(failure),
    }
}

// The steps of an append, to the event of the last.
fn append_record<K: Kernel, R: Read, W: Write>(
    alloc: Global,
    client: &mut ClientCore<K>,
    reader: &mut R,
    writer: &mut W,
    key: [u8; 32],
    bytes: &[u8],
) -> Result<Event, CommandError>
    requires { length bytes.now ≤ 65535 }
    ensures transcript { (read : List ℕ) × (out : List ℕ)
        × Consumes (R.remaining reader.old) (R.remaining reader.new) read
        × Appends (W.contents writer.old) (W.contents writer.new) out
        × Transacts client.old (append_steps key bytes.now) result read out
        (R.remaining reader.new) client.new }
    ensures done { IfOk result IsDoneVersion }
{
    let sent = client.hello(key);
    exchange(alloc, client, sent, reader, writer)?;
    let sent = client.append(bytes);
    exchange(alloc, client, sent, reader, writer)
}

/// Makes the draft the next version: the publisher's hello, publish. Returns the new version, and
/// spends no number. What is read and written is that of these calls, in their order, and of no
/// other.
///
/// # Errors
///
/// As those of [`put`].
pub fn publish<K: Kernel, R: Read, W: Write>(
    alloc: Global,
    client: &mut ClientCore<K>,
    reader: &mut R,
    writer: &mut W,
    key: [u8; 32],
) -> Result<u64, CommandError>
    ensures transcript { (read : List ℕ) × (out : List ℕ)
        × Consumes (R.remaining reader.old) (R.remaining reader.new) read
        × Appends (W.contents writer.old) (W.contents writer.new) out
        × Transacts client.old (publish_steps key) (as_done result) read out
        (R.remaining reader.new) client.new }
    ensures number { client.new.state.number ≡ client.old.state.number }
{
    match publish_draft(alloc, client, reader, writer, key) {
        Ok(Event::Done(published)) => Ok(published),
        Ok(_) => unreachable!(),
        Err(failure) => Err(failure),
    }
}

// The steps of a publication, to the event of the last.
fn publish_draft<K: Kernel, R: Read, W: Write>(
    alloc: Global,
    client: &mut ClientCore<K>,
    reader: &mut R,
    writer: &mut W,
    key: [u8; 32],
) -> Result<Event, CommandError>
    ensures transcript { (read : List ℕ) × (out : List ℕ)
        × Consumes (R.remaining reader.old) (R.remaining reader.new) read
        × Appends (W.contents writer.old) (W.contents writer.new) out
        × Transacts client.old (publish_steps key) result read out
        (R.remaining reader.new) client.new }
    ensures done { IfOk result IsDoneVersion }
{
    let sent = client.hello(key);
    exchange(alloc, client, sent, reader, writer)?;
    let sent = client.publish();
    exchange(alloc, client, sent, reader, writer)
}
