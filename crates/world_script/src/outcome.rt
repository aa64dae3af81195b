//! What is printed.

ghost use Rattle.std.specs.Prelude.{◌≡◌, IfOk};
ghost use Rattle.std.specs.String.{string_bytes};
ghost use Rattle.world_script.specs.Texts.{outcome_text, call_refused_text, event_text};
ghost use Rattle.world_script.specs.Texts.{refused_world_text, retrieved_text, scheme_name};

use client_core::{Event, Scheme};
use command_words::shown_bytes;
use pir_world::Outcome;
use std::alloc::{AllocError, Global};
use version_store::OpenError;

/// The line of an outcome, with its end.
pub fn outcome_line(alloc: Global, outcome: &Outcome) -> Result<String, AllocError>
    ensures { IfOk result (λ line. string_bytes line ≡ outcome_text outcome.now) }
{
    match outcome {
        Outcome::Edited { index } => format!(in alloc; "edit {index}: accepted\n"),
        Outcome::EditRefused { index, fault } => {
            let name = fault.name();
            format!(in alloc; "edit {index}: refused {name}\n")
        }
        Outcome::Appended => String::from_str(alloc, "append: accepted\n"),
        Outcome::AppendRefused { fault } => {
            let name = fault.name();
            format!(in alloc; "append: refused {name}\n")
        }
        Outcome::Published { version } => format!(in alloc; "publish: version {version}\n"),
        Outcome::PublishRefused { fault } => {
            let name = fault.name();
            format!(in alloc; "publish: refused {name}\n")
        }
        Outcome::Reported { client, event } => event_line(alloc, *client, event),
        Outcome::CallRefused { client, fault } => {
            call_refused_line(alloc, *client, fault.name())
        }
        Outcome::Failed { client, fault } => {
            let name = fault.name();
            format!(in alloc; "client {client}: failed {name}\n")
        }
    }
}

/// The line of a refused call.
fn call_refused_line(alloc: Global, client: usize, name: &str) -> Result<String, AllocError>
    ensures { IfOk result (λ line. string_bytes line ≡ call_refused_text client name.now) }
{
    format!(in alloc; "client {client}: call refused {name}\n")
}

/// The line that says why a world can't be opened.
pub fn refused_world_line(alloc: Global, fault: OpenError) -> Result<String, AllocError>
    ensures { IfOk result (λ line. string_bytes line ≡ refused_world_text fault) }
{
    let name = fault.name();
    format!(in alloc; "world: refused {name}\n")
}

/// The line of a client's event.
fn event_line(alloc: Global, client: usize, event: &Event) -> Result<String, AllocError>
    ensures { IfOk result (λ line. string_bytes line ≡ event_text client event.now) }
{
    match event {
        Event::Welcomed(version) => format!(in alloc; "client {client}: welcomed {version}\n"),
        Event::Synced(scheme, version) => {
            let scheme = scheme_name(*scheme);
            format!(in alloc; "client {client}: synced {scheme} {version}\n")
        }
        Event::Retrieved {
            index,
            version,
            bytes,
        } => {
            let shown = shown_bytes(alloc, bytes.as_slice())?;
            retrieved_line(alloc, client, *index, *version, shown.as_str())
        }
        Event::Unreadable { index, version } => {
            format!(in alloc; "client {client}: unreadable {index} {version}\n")
        }
        Event::Stale(version) => format!(in alloc; "client {client}: stale {version}\n"),
        Event::Done(version) => format!(in alloc; "client {client}: done {version}\n"),
        Event::Refused(code) => format!(in alloc; "client {client}: server refused {code}\n"),
    }
}

/// The line of a record.
fn retrieved_line(
    alloc: Global,
    client: usize,
    index: u32,
    version: u64,
    shown: &str,
) -> Result<String, AllocError>
    ensures { IfOk result (λ line. string_bytes line ≡
        retrieved_text client index version shown.now) }
{
    format!(in alloc; "client {client}: retrieved {index} {version} {shown}\n")
}

#[tactic(auto, unfolding(crate::specs::Texts::scheme_name))]
fn scheme_name(scheme: Scheme) -> &'static str
    ensures { result.now ≡ scheme_name scheme }
{
    match scheme {
        Scheme::Simple => "simple",
        Scheme::Double => "double",
    }
}
