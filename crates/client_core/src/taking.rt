//! Replies taken one after another.

ghost use Rattle.std.specs.Prelude.{◌≡◌, ◌++◌, ◌⊎◌, [], IfOk, OnOk, OnErr, true, false, length};
ghost use Rattle.std.specs.Prelude.{None};
ghost use Rattle.std.specs.List.{flat_map, AllByRecursion};
ghost use Rattle.frame_codec.specs.declared.frame.Frame.{Frame};
ghost use Rattle.frame_codec.specs.Frames.{IsFrame, encoding};
ghost use Rattle.client_core.specs.States.{IsState, KeepsNumber};
ghost use Rattle.client_core.specs.Kinds.{IsHintReply};
ghost use Rattle.client_core.specs.Replies.{reaction_to_reply};
ghost use Rattle.client_core.specs.Feeding.{sends_of, events_of, fault_of, takes_all, ends_with};
ghost use Rattle.client_core.specs.Feeding.{codec_fault, Follows, BreaksOff};

use crate::changes::take_changes;
use crate::deltas::{take_delta, take_no_delta};
use crate::replies::{
    take_answer, take_done, take_other, take_part, take_refused, take_stale, take_welcome,
};
use crate::state::{ClientFault, ClientState, Event, Reaction};
use frame_codec::{Frame, ReadFault, write_frame};
use matrix_u32::Kernel;
use pir_schemes::Plan;
use std::alloc::{AllocError, Global};

/// What comes of a reply that is about the hint. If memory is refused, the client stays as it was.
fn take_hint_reply<K: Kernel>(
    alloc: Global,
    kernel: K,
    state: &mut ClientState,
    frame: &Frame,
) -> Result<Reaction, AllocError>
    requires good { IsState state.old }
    requires kind { IsHintReply frame.now }
    ensures state { OnOk result (state.new ≡ (reaction_to_reply state.old frame.now).state) }
    ensures reaction { IfOk result (λ r. r ≡ (reaction_to_reply state.old frame.now).reaction) }
    ensures err { OnErr result (state.new ≡ state.old) }
{
    match frame {
        Frame::HintPart {
            scheme,
            version,
            part,
            words,
        } => take_part(alloc, state, *scheme, *version, *part, words),
        Frame::Delta {
            since,
            now,
            count,
            rows,
        } => Ok(take_delta(state, *since, *now, *count, rows)),
        Frame::Changes {
            since,
            now,
            count,
            entries,
        } => take_changes(alloc, kernel, state, *since, *now, *count, entries),
        Frame::NoDelta { version, count } => Ok(take_no_delta(alloc, state, *version, *count)),
        // No other kind is about the hint.
        _ => Ok(take_other(state)),
    }
}

// What comes of a reply.
fn take_frame<K: Kernel>(
    alloc: Global,
    kernel: K,
    state: &mut ClientState,
    frame: &Frame,
) -> Result<Reaction, AllocError>
    requires { IsState state.old }
    ensures state { OnOk result (state.new ≡ (reaction_to_reply state.old frame.now).state) }
    ensures reaction { IfOk result (λ r. r ≡ (reaction_to_reply state.old frame.now).reaction) }
    ensures err { OnErr result (state.new ≡ state.old) }
{
    match frame {
        Frame::Welcome {
            profile,
            width,
            record_len,
            groups,
            count,
            version,
            dimension,
            seed,
        } => {
            let plan = Plan {
                form: *profile,
                width: *width,
                record_len: *record_len,
                groups: *groups,
                dimension: *dimension,
                seed: seed.to_array(),
            };
            Ok(take_welcome(state, &plan, *count, *version))
        }
        Frame::Answer {
            scheme,
            version,
            words,
        } => take_answer(alloc, kernel, state, *scheme, *version, words),
        Frame::Stale { version, count } => Ok(take_stale(alloc, state, *version, *count)),
        Frame::HintPart { .. }
        | Frame::Delta { .. }
        | Frame::Changes { .. }
        | Frame::NoDelta { .. } => take_hint_reply(alloc, kernel, state, frame),
        Frame::Done { version } => Ok(take_done(state, *version)),
        Frame::Refused { code } => Ok(take_refused(alloc, state, *code)),
        _ => Ok(take_other(state)),
    }
}

// Adds what a reaction sends and what it reports, and returns its fault. If memory is refused
// nothing is added.
fn react(
    reaction: Reaction,
    out: &mut Vec<u8>,
    events: &mut Vec<Event>,
) -> Result<Option<ClientFault>, AllocError>
    ensures fault { IfOk result (λ f. f ≡ fault_of reaction) }
    ensures written { OnOk result (out.new.items ≡ out.old.items ++ flat_map encoding
        (sends_of reaction)) }
    ensures each { OnOk result (AllByRecursion IsFrame (sends_of reaction)) }
    ensures reported { OnOk result (events.new.items ≡ events.old.items ++ events_of reaction) }
    ensures unwritten { OnErr result (out.new.items ≡ out.old.items) }
    ensures untold { OnErr result (events.new.items ≡ events.old.items) }
{
    match reaction {
        Reaction::Asks {
            scheme,
            version,
            part,
        } => {
            let frame = Frame::HintAsk {
                scheme: scheme.byte(),
                version,
                part,
            };
            write_frame(&frame, out)?;
            Ok(None)
        }
        Reaction::Reports(event) => match events.push(event) {
            Ok(()) => Ok(None),
            Err(_) => Err(AllocError),
        },
        Reaction::Fails(fault) => Ok(Some(fault)),
    }
}

// Takes one reply, and returns its fault.
#[tactic(auto, using(crate::proofs::Keeping::takes_keeps))]
fn take_one<K: Kernel>(
    alloc: Global,
    kernel: K,
    state: &mut ClientState,
    frame: &Frame,
    out: &mut Vec<u8>,
    events: &mut Vec<Event>,
) -> Result<Option<ClientFault>, AllocError>
    requires { IsState state.old }
    ensures fault { IfOk result
        (λ f. f ≡ fault_of (reaction_to_reply state.old frame.now).reaction) }
    ensures state { OnOk result (state.new ≡ (reaction_to_reply state.old frame.now).state) }
    ensures written { OnOk result (out.new.items ≡ out.old.items ++ flat_map encoding
        (sends_of (reaction_to_reply state.old frame.now).reaction)) }
    ensures each { OnOk result
        (AllByRecursion IsFrame (sends_of (reaction_to_reply state.old frame.now).reaction)) }
    ensures reported { OnOk result (events.new.items ≡ events.old.items ++ events_of
        (reaction_to_reply state.old frame.now).reaction) }
    ensures unwritten { OnErr result (out.new.items ≡ out.old.items) }
    ensures untold { OnErr result (events.new.items ≡ events.old.items) }
    ensures keeps { KeepsNumber state.old state.new }
{
    let reaction = take_frame(alloc, kernel, state, frame)?;
    react(reaction, out, events)
}

// Takes replies up to a bad one or to refused memory, and returns the fault.
fn take_frames<K: Kernel>(
    alloc: Global,
    kernel: K,
    state: &mut ClientState,
    frames: &[Frame],
    out: &mut Vec<u8>,
    events: &mut Vec<Event>,
) -> Option<ClientFault>
    requires good { IsState state.old }
    requires none_written { out.old.items ≡ [] }
    requires none_reported { events.old.items ≡ [] }
    ensures takes { Follows
        (takes_all state.old frames.now) out.new.items events.new.items result state.new
        ⊎ BreaksOff state.old frames.now out.new.items events.new.items result state.new }
    ensures keeps { IsState state.new }
{
    for frame in frames {
        match take_one(alloc, kernel, state, frame, out, events) {
            Err(_) => {
                state.failed = true;
                return Some(ClientFault::Memory);
            }
            Ok(Some(fault)) => return Some(fault),
            Ok(None) => {}
        }
    }
    None
}

// The fault after all frames of a piece, by what the codec answered.
fn fault_after(answer: Result<(), ReadFault>) -> Option<ClientFault>
    ensures { result ≡ codec_fault answer }
{
    match answer {
        Ok(()) => None,
        Err(ReadFault::Memory) => Some(ClientFault::Memory),
        Err(_) => Some(ClientFault::BadReply),
    }
}

/// Takes the frames of a piece, after which the codec answered `answer`. Adds the bytes to send and
/// the events, and returns the fault.
pub(crate) fn take_replies<K: Kernel>(
    alloc: Global,
    kernel: K,
    state: &mut ClientState,
    frames: &[Frame],
    answer: Result<(), ReadFault>,
    out: &mut Vec<u8>,
    events: &mut Vec<Event>,
) -> Option<ClientFault>
    requires good { IsState state.old }
    requires none_written { out.old.items ≡ [] }
    requires none_reported { events.old.items ≡ [] }
    ensures takes { Follows
        (ends_with (takes_all state.old frames.now) answer) out.new.items events.new.items result
        state.new
        ⊎ BreaksOff state.old frames.now out.new.items events.new.items result state.new }
    ensures keeps { IsState state.new }
{
    let fault = take_frames(alloc, kernel, state, frames, out, events);
    if fault.is_some() {
        return fault;
    }
    let beyond = fault_after(answer);
    if beyond.is_some() {
        state.failed = true;
    }
    beyond
}
