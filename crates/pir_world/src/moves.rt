//! Steps on the parts of a world.

ghost use Rattle.std.specs.Prelude.{◌≡◌, ◌<◌, ◌≤◌, ◌+◌, ◌++◌, ℕ, List, length, map, OnOk, OnErr};
ghost use Rattle.std.specs.Prelude.{slice_get, Bool, true, false, vec_len, vec_capacity};
ghost use Rattle.server_core.specs.Cores.{Core};
ghost use Rattle.server_core.specs.Serving.{Setting};
ghost use Rattle.pir_world.specs.declared.steps.Outcome.TheVariants.{Reported};
ghost use Rattle.pir_world.specs.declared.steps.Step.TheVariants as step;
ghost use Rattle.pir_world.specs.Runs.{State, StepsTo, state_after, append_after, edit_after};
ghost use Rattle.pir_world.specs.Runs.{publish_after, called_at};
ghost use Rattle.pir_world.specs.Invariants.{WorldInvariant};
ghost use Rattle.pir_world.specs.Sides.{Side, Implements, call_of, has_client};

use crate::client_endpoint::{ClientEndpoint, Request};
use crate::steps::{Outcome, Step};
use client_core::{ClientFault, Event, Fed};
use matrix_u32::Kernel;
use pir_schemes::laws::retrieval_gives_the_record;
use server_core::ServerCore;
use std::alloc::{AllocError, Global};
use version_store::{AppendError, EditError, PublishError};

/// Whether the client that a step names is there.
pub fn names_client(step: &Step, clients: usize) -> bool
    ensures { result ≡ has_client step.now clients }
{
    match step {
        Step::Edit { .. } => true,
        Step::Append { .. } => true,
        Step::Publish => true,
        Step::Hello { client } => *client < clients,
        Step::Sync { client, .. } => *client < clients,
        Step::Ask { client, .. } => *client < clients,
        Step::ToServer { client, .. } => *client < clients,
        Step::ToClient { client, .. } => *client < clients,
    }
}

/// Makes one step on the parts. At an `Err` memory was refused, and no outcome was added.
pub fn apply_step<K: Kernel>(
    alloc: Global,
    server: &mut ServerCore<K>,
    ends: &mut Vec<ClientEndpoint<K>>,
    outcomes: &mut Vec<Outcome>,
    step: &Step,
) -> Result<(), AllocError>
    requires { has_client step.now (length ends.old.items) ≡ true }
    ensures made { OnOk result ((x : Setting) (seeds : List (List ℕ)) (s : State) →
        WorldInvariant x seeds s → Implements x server.old ends.old.items outcomes.old.items s →
        (t : State) × StepsTo x s step.now t ×
        Implements x server.new ends.new.items outcomes.new.items t) }
    ensures clients { length ends.new.items ≡ length ends.old.items }
    ensures none { OnErr result (outcomes.new.items ≡ outcomes.old.items) }
{
    match step {
        Step::Edit { index, bytes } => edit(server, *index, bytes.as_slice(), outcomes),
        Step::Append { bytes } => append(server, bytes.as_slice(), outcomes),
        Step::Publish => publish(server, outcomes),
        Step::Hello { client } => call(ends, *client, Request::Hello, outcomes),
        Step::Sync { client, scheme } => call(ends, *client, Request::Sync(*scheme), outcomes),
        Step::Ask { client, index } => call(ends, *client, Request::Ask(*index), outcomes),
        Step::ToServer { client, most } => serve(alloc, server, ends, *client, *most),
        Step::ToClient { client, most } => report(ends, *client, *most, outcomes),
    }
}

/// An edit by the publisher.
fn edit<K: Kernel>(
    server: &mut ServerCore<K>,
    index: u32,
    bytes: &[u8],
    outcomes: &mut Vec<Outcome>,
) -> Result<(), AllocError>
    ensures made { OnOk result ((ends : List Side) (x : Setting) (s : State) →
        Implements x server.old ends outcomes.old.items s →
        Implements x server.new ends outcomes.new.items (edit_after x s index bytes.now)) }
    ensures none { OnErr result (outcomes.new.items ≡ outcomes.old.items) }
{
    outcomes.reserve(1)?;
    match server.edit(index as usize, bytes) {
        Ok(()) => outcomes.push_reserved(Outcome::Edited { index }),
        Err(EditError::Memory) => return Err(AllocError),
        Err(fault) => outcomes.push_reserved(Outcome::EditRefused { index, fault }),
    }
    Ok(())
}

/// An append by the publisher.
fn append<K: Kernel>(
    server: &mut ServerCore<K>,
    bytes: &[u8],
    outcomes: &mut Vec<Outcome>,
) -> Result<(), AllocError>
    ensures made { OnOk result ((ends : List Side) (x : Setting) (s : State) →
        Implements x server.old ends outcomes.old.items s →
        Implements x server.new ends outcomes.new.items (append_after x s bytes.now)) }
    ensures none { OnErr result (outcomes.new.items ≡ outcomes.old.items) }
{
    outcomes.reserve(1)?;
    match server.append(bytes) {
        Ok(()) => outcomes.push_reserved(Outcome::Appended),
        Err(AppendError::Memory) => return Err(AllocError),
        Err(fault) => outcomes.push_reserved(Outcome::AppendRefused { fault }),
    }
    Ok(())
}

/// A publication.
fn publish<K: Kernel>(
    server: &mut ServerCore<K>,
    outcomes: &mut Vec<Outcome>,
) -> Result<(), AllocError>
    ensures made { OnOk result ((ends : List Side) (x : Setting) (s : State) →
        Implements x server.old ends outcomes.old.items s →
        Implements x server.new ends outcomes.new.items (publish_after s)) }
    ensures none { OnErr result (outcomes.new.items ≡ outcomes.old.items) }
{
    outcomes.reserve(1)?;
    match server.publish() {
        Ok(version) => outcomes.push_reserved(Outcome::Published { version }),
        Err(PublishError::Memory) => return Err(AllocError),
        Err(fault) => outcomes.push_reserved(Outcome::PublishRefused { fault }),
    }
    Ok(())
}

/// A call of client k.
fn call<K: Kernel>(
    ends: &mut Vec<ClientEndpoint<K>>,
    k: usize,
    request: Request,
    outcomes: &mut Vec<Outcome>,
) -> Result<(), AllocError>
    requires { k < length ends.old.items }
    ensures made { OnOk result ((core : Core) (x : Setting) (seeds : List (List ℕ)) (s : State) →
        WorldInvariant x seeds s → Implements x core ends.old.items outcomes.old.items s →
        Implements x core ends.new.items outcomes.new.items (called_at s (call_of request) k
        (slice_get s.links k))) }
    ensures clients { length ends.new.items ≡ length ends.old.items }
    ensures none { OnErr result (outcomes.new.items ≡ outcomes.old.items) }
{
    outcomes.reserve(1)?;
    match ends[k].call(request) {
        Ok(None) => {}
        Ok(Some(fault)) => outcomes.push_reserved(Outcome::CallRefused { client: k, fault }),
        Err(fault) => return Err(fault),
    }
    Ok(())
}

/// A delivery of client k to the server.
fn serve<K: Kernel>(
    alloc: Global,
    server: &mut ServerCore<K>,
    ends: &mut Vec<ClientEndpoint<K>>,
    k: usize,
    most: usize,
) -> Result<(), AllocError>
    requires { k < length ends.old.items }
    ensures made { OnOk result ((x : Setting) (seeds : List (List ℕ)) (s : State)
        (outcomes : List Outcome) → WorldInvariant x seeds s →
        Implements x server.old ends.old.items outcomes s →
        (short : Bool) × Implements x server.new ends.new.items outcomes
        (state_after x short s (step.ToServer k most))) }
    ensures clients { length ends.new.items ≡ length ends.old.items }
{
    match ends[k].deliver_up(alloc, server, k as u64, most) {
        Ok(()) => {}
        Err(_) => return Err(AllocError),
    }
    Ok(())
}

/// Adds the events that client k reported, and leaves room for one outcome more.
fn put_events(k: usize, events: Vec<Event>, outcomes: &mut Vec<Outcome>) -> Result<(), AllocError>
    ensures items { OnOk result (outcomes.new.items ≡ outcomes.old.items ++ map
        (Reported k) events.items) }
    ensures room { OnOk result (vec_len outcomes.new < vec_capacity outcomes.new) }
    ensures none { OnErr result (outcomes.new.items ≡ outcomes.old.items) }
{
    outcomes.reserve(events.len() + 1)?;
    put_reserved(k, events, outcomes);
    Ok(())
}

/// The same where there is the room.
fn put_reserved(k: usize, events: Vec<Event>, outcomes: &mut Vec<Outcome>)
    requires { vec_len outcomes.old + length events.items ≤ vec_capacity outcomes.old }
    ensures items { outcomes.new.items ≡ outcomes.old.items ++ map (Reported k) events.items }
    ensures room { vec_capacity outcomes.new ≡ vec_capacity outcomes.old }
{
    for event in events {
        outcomes.push_reserved(Outcome::Reported { client: k, event });
    }
}

/// A delivery to client k.
fn report<K: Kernel>(
    ends: &mut Vec<ClientEndpoint<K>>,
    k: usize,
    most: usize,
    outcomes: &mut Vec<Outcome>,
) -> Result<(), AllocError>
    requires { k < length ends.old.items }
    ensures made { OnOk result ((core : Core) (x : Setting) (seeds : List (List ℕ)) (s : State) →
        WorldInvariant x seeds s → Implements x core ends.old.items outcomes.old.items s →
        Implements x core ends.new.items outcomes.new.items
        (state_after x false s (step.ToClient k most))) }
    ensures clients { length ends.new.items ≡ length ends.old.items }
    ensures none { OnErr result (outcomes.new.items ≡ outcomes.old.items) }
{
    retrieval_gives_the_record();
    let taken = match ends[k].deliver_down(most) {
        Ok(taken) => taken,
        Err(_) => return Err(AllocError),
    };
    let Fed { events, fault, .. } = taken;
    match fault {
        None => put_events(k, events, outcomes),
        Some(fault) => {
            if fault == ClientFault::Memory {
                return Err(AllocError);
            }
            put_events(k, events, outcomes)?;
            outcomes.push_reserved(Outcome::Failed { client: k, fault });
            Ok(())
        }
    }
}
