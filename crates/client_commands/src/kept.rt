//! The calls of a client that keeps its hint from one run to the next, each on its own.

ghost use Rattle.std.specs.Prelude.{◌≡◌, ◌↔◌, ◌≤◌, ◌+◌, ◌⊎◌, List, ℕ, Ok, Err, None, replicate};
ghost use Rattle.std.specs.Prelude.{IfOk, IfSome, IsTrue, false};
ghost use Rattle.std.specs.Io.KnownBytes.{Appends, Consumes};
ghost use Rattle.client_core.specs.Calls.{Hello, Sync, ClientCall};
ghost use Rattle.client_commands.specs.Transcripts.{ComesTo, IsRecordAsked};
ghost use Rattle.client_commands.specs.Kept.{AsksWithRows, GreetsEither, MakesNoSync};
ghost use Rattle.client_commands.specs.Runs.{number_after_ask};

use crate::commands::READER;
use crate::connection::exchange;
use crate::fault::CommandError;
use client_core::{ClientCore, Event, SavedClient, Scheme};
use matrix_u32::Kernel;
use std::alloc::Global;
use std::io::{Read, Write};

/// Asks to be let in as a reader. What is read and written is that of this call. It spends no
/// number, and the seed stays as it is, unless the client fails, which makes no further call then.
///
/// # Errors
///
/// `Refused` if the server refused it, `Call` if the client did, `Conversation` if that
/// over the call came to no event.
pub fn greet<K: Kernel, R: Read, W: Write>(
    alloc: Global,
    client: &mut ClientCore<K>,
    reader: &mut R,
    writer: &mut W,
) -> Result<Event, CommandError>
    ensures transcript { (read : List ℕ) × (out : List ℕ)
        × Consumes (R.remaining reader.old) (R.remaining reader.new) read
        × Appends (W.contents writer.old) (W.contents writer.new) out
        × ComesTo client.old (Hello (replicate 32 0)) result read out (R.remaining reader.new)
        client.new }
    ensures number { client.new.state.number ≡ client.old.state.number }
    ensures seed { client.new.state.failed ≡ false →
        client.new.state.seed ≡ client.old.state.seed }
{
    let sent = client.hello(READER);
    exchange(alloc, client, sent, reader, writer)
}

/// Asks to be let in as a reader of an ordinary store, and, if the server refuses that for its
/// profile (3), as one of a wide store. What is read and written is that of these one or two calls.
/// No number is spent.
///
/// # Errors
///
/// As those of [`greet`], of the last call that was made.
pub fn greet_either<K: Kernel, R: Read, W: Write>(
    alloc: Global,
    client: &mut ClientCore<K>,
    reader: &mut R,
    writer: &mut W,
) -> Result<Event, CommandError>
    ensures transcript { (read : List ℕ) × (out : List ℕ)
        × Consumes (R.remaining reader.old) (R.remaining reader.new) read
        × Appends (W.contents writer.old) (W.contents writer.new) out
        × GreetsEither client.old result read out (R.remaining reader.new) client.new }
    ensures number { client.new.state.number ≡ client.old.state.number }
{
    client.speak(false);
    let greeted = greet(alloc, client, reader, writer);
    if !is_another_profile(&greeted) {
        return greeted;
    }
    client.speak(true);
    greet(alloc, client, reader, writer)
}

// Whether a server refused a greeting for its profile.
fn is_another_profile(greeted: &Result<Event, CommandError>) -> bool
    ensures { IsTrue result ↔ (greeted.now ≡ Err (CommandError.Refused 3)) }
{
    matches!(greeted, Err(CommandError::Refused(3)))
}

/// Moves the hint to the server's version: by delta, or by its parts. What is read and written is
/// that of this call. It spends no number, and the seed stays, as with [`greet`].
///
/// # Errors
///
/// As those of [`greet`], and `Stale` if another version was published meanwhile.
pub fn sync<K: Kernel, R: Read, W: Write>(
    alloc: Global,
    client: &mut ClientCore<K>,
    reader: &mut R,
    writer: &mut W,
    scheme: Scheme,
) -> Result<Event, CommandError>
    ensures transcript { (read : List ℕ) × (out : List ℕ)
        × Consumes (R.remaining reader.old) (R.remaining reader.new) read
        × Appends (W.contents writer.old) (W.contents writer.new) out
        × ComesTo client.old (Sync scheme) result read out (R.remaining reader.new) client.new }
    ensures number { client.new.state.number ≡ client.old.state.number }
    ensures seed { client.new.state.failed ≡ false →
        client.new.state.seed ≡ client.old.state.seed }
{
    let sent = client.sync(scheme);
    exchange(alloc, client, sent, reader, writer)
}

/// Asks for record `index` over the hint held, under the client's next number. What is read and
/// written is that of this call. The number is spent, whatever comes of the call, unless a check of
/// the client refuses it; the seed stays, as with [`greet`]. So the asks of one client have the
/// numbers 0, 1, .. of its seed, when it was made with the number 0.
///
/// # Errors
///
/// `Refused`, `Stale` or `Unreadable` exactly when the server's reply says so, `Call` when the
/// client refused the call, `Conversation` when that over the call came to no event.
pub fn ask<K: Kernel, R: Read, W: Write>(
    alloc: Global,
    client: &mut ClientCore<K>,
    reader: &mut R,
    writer: &mut W,
    index: u32,
) -> Result<Event, CommandError>
    ensures transcript { (read : List ℕ) × (out : List ℕ)
        × Consumes (R.remaining reader.old) (R.remaining reader.new) read
        × Appends (W.contents writer.old) (W.contents writer.new) out
        × ComesTo client.old (ClientCall.Ask index) result read out (R.remaining reader.new)
        client.new }
    ensures number { client.new.state.number ≡ number_after_ask index client.old.state }
    ensures seed { client.new.state.failed ≡ false →
        client.new.state.seed ≡ client.old.state.seed }
    ensures record { IfOk result (λ event. IsRecordAsked index event) }
{
    let sent = client.ask(index);
    exchange(alloc, client, sent, reader, writer)
}

/// Goes on with a hint of which only the rows of record `index` need be right, asks for the record
/// as [`ask`] does, and drops the hint: no sync is made over it. Returns none, and asks nothing,
/// when it is no hint that the client may go on with. One number is spent at most, and the seed
/// stays, as with [`greet`].
///
/// # Errors
///
/// As [`ask`], and `Call` when the client refused to take up the hint.
pub fn ask_with_rows<K: Kernel, R: Read, W: Write>(
    alloc: Global,
    client: &mut ClientCore<K>,
    reader: &mut R,
    writer: &mut W,
    saved: SavedClient,
    index: u32,
) -> Result<Option<Event>, CommandError>
    ensures asked { (read : List ℕ) × (out : List ℕ)
        × Consumes (R.remaining reader.old) (R.remaining reader.new) read
        × Appends (W.contents writer.old) (W.contents writer.new) out
        × AsksWithRows client.old saved index result read out (R.remaining reader.new) client.new }
    ensures number { (client.old.state.number ≤ client.new.state.number) ×
        (client.new.state.number ≤ client.old.state.number + 1) }
    ensures seed { client.new.state.failed ≡ false →
        client.new.state.seed ≡ client.old.state.seed }
    ensures record { IfOk result (λ event. IfSome event (IsRecordAsked index)) }
    ensures dropped { (result ≡ Ok None) ⊎ MakesNoSync client.new.state }
{
    match client.resume(saved) {
        Ok(true) => {}
        Ok(false) => return Ok(None),
        Err(fault) => return Err(CommandError::Call(fault)),
    }
    let asked = ask(alloc, client, reader, writer, index);
    // If this is refused the client has failed, or its call is outstanding, and every sync is
    // refused too.
    let _ = client.drop_hint();
    match asked {
        Ok(event) => Ok(Some(event)),
        Err(fault) => Err(fault),
    }
}
