//! One call over a connection, and how it ended.

ghost use Rattle.std.specs.Prelude.{◌≡◌, ◌≤◌, ◌<◌, List, ℕ, MatchResult};
ghost use Rattle.std.specs.Io.KnownBytes.{Appends, Consumes};
ghost use Rattle.client_commands.specs.declared.fault.CommandError.TheVariants as fault;
ghost use Rattle.client_commands.specs.Transcripts.{AnswersCall, failure_of_event, secret_len};

use crate::fault::CommandError;
use blocking_io::converse;
use client_core::{CallFault, ClientCore, Event};
use matrix_u32::Kernel;
use std::alloc::Global;
use std::io::{Read, Write};

/// The most reads that one call makes.
const TURNS: u64 = 1_000_000;

/// Sends what a call gave, and returns the event that it brought. What the server said against it
/// is a failure.
pub(crate) fn exchange<K: Kernel, R: Read, W: Write>(
    alloc: Global,
    client: &mut ClientCore<K>,
    sent: Result<Vec<u8>, CallFault>,
    reader: &mut R,
    writer: &mut W,
) -> Result<Event, CommandError>
    ensures { (read : List ℕ) × (out : List ℕ)
        × Consumes (R.remaining reader.old) (R.remaining reader.new) read
        × Appends (W.contents writer.old) (W.contents writer.new) out
        × AnswersCall client.old sent result read out (R.remaining reader.new) client.new }
{
    let first = match sent {
        Ok(first) => first,
        Err(fault) => return Err(CommandError::Call(fault)),
    };
    let event = match converse(alloc, client, &first, reader, writer, TURNS) {
        Ok(event) => event,
        Err(fault) => return Err(CommandError::Conversation(fault)),
    };
    match failure_of_event(&event) {
        None => Ok(event),
        Some(failure) => Err(failure),
    }
}

/// What an event says against its call.
fn failure_of_event(event: &Event) -> Option<CommandError>
    ensures { result ≡ failure_of_event event.now }
{
    match event {
        Event::Refused(code) => Some(CommandError::Refused(*code)),
        Event::Stale(version) => Some(CommandError::Stale(*version)),
        Event::Unreadable { index, version } => Some(CommandError::Unreadable {
            index: *index,
            version: *version,
        }),
        Event::Welcomed(_) | Event::Synced(..) | Event::Retrieved { .. } | Event::Done(_) => None,
    }
}

/// Judges how many words a secret has by the server's Welcome.
///
/// # Errors
///
/// `ShortSecrets` if they are fewer than the least number accepted.
pub fn check_dimension<K: Kernel>(client: &ClientCore<K>, least: usize) -> Result<(), CommandError>
    ensures { MatchResult result (λ _. least ≤ secret_len client.now.state.known)
        (λ e. (e ≡ fault.ShortSecrets (secret_len client.now.state.known)) ×
        (secret_len client.now.state.known < least)) }
{
    let dimension = match client.known() {
        Some(known) => known.dimension(),
        None => 0,
    };
    if dimension < least {
        return Err(CommandError::ShortSecrets(dimension));
    }
    Ok(())
}
