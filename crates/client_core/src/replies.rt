//! What comes of a reply: a function for each kind.

ghost use Rattle.std.specs.Prelude.{◌≡◌, ◌≤◌, ◌<◌, ◌*◌, ◌^◌, ◌++◌, [], length, IfOk, IfErr, OnOk};
ghost use Rattle.std.specs.Prelude.{OnErr, IfSome, IfNone, MatchOption, true, false};
ghost use Rattle.pir_schemes.specs.Retrievals.{hint_rows as rows_of_hint};
ghost use Rattle.pir_schemes.specs.Retrievals.{answer_count as words_of_answer, reading};
ghost use Rattle.client_core.specs.States.{IsState, IsKnown, shape_known};
ghost use Rattle.client_core.specs.Replies.{
  faulty,
  ended,
  reaction_to_part,
  reaction_to_stale,
  is_current,
  with_current,
};
ghost use Rattle.client_core.specs.Kinds.{
  takes_welcome,
  takes_part,
  takes_answer,
  takes_stale,
  takes_done,
  takes_refused,
  event_of,
};

use crate::calls::AskedRecord;
use crate::parts::Parts;
use crate::state::{Call, ClientFault, ClientState, Event, Hint, Reaction, ServerInfo};
use frame_codec::{Bytes, Words};
use matrix_u32::{Kernel, Matrix};
use pir_schemes::{
    Plan, RecoverError, Scheme, SecretSeed, answer_count, hint_len, hint_rows, part_len, recover,
};
use std::alloc::{AllocError, Global};
use std::mem;

/// A bad reply.
pub(crate) fn fails(state: &mut ClientState, fault: ClientFault) -> Reaction
    ensures state { state.new ≡ (faulty state.old fault).state }
    ensures reaction { result ≡ (faulty state.old fault).reaction }
{
    state.failed = true;
    Reaction::Fails(fault)
}

/// The end of a call.
pub(crate) fn ends(state: &mut ClientState, event: Event) -> Reaction
    ensures state { state.new ≡ (ended state.old event).state }
    ensures reaction { result ≡ (ended state.old event).reaction }
{
    state.call = Call::Idle;
    Reaction::Reports(event)
}

/// A Welcome answers hello alone.
pub(crate) fn take_welcome(
    state: &mut ClientState,
    plan: &Plan,
    count: u32,
    version: u64,
) -> Reaction
    ensures state { state.new ≡
        (takes_welcome state.old.call state.old plan.now count version).state }
    ensures reaction { result ≡
        (takes_welcome state.old.call state.old plan.now count version).reaction }
{
    match &state.call {
        Call::Hello => {}
        _ => return fails(state, ClientFault::BadReply),
    }
    if !plan.accepts_profile(state.profile)
        || !plan.has_form()
        || !plan.has_layout(count as usize)
    {
        return fails(state, ClientFault::BadWelcome);
    }
    if plan.dimension < 1 || plan.dimension > 1024 || version == 0 {
        return fails(state, ClientFault::BadWelcome);
    }
    state.known = Some(ServerInfo {
        version,
        count,
        plan: *plan,
    });
    ends(state, Event::Welcomed(version))
}

/// A part of a hint answers a sync by parts alone: the part that was asked for, with all its words.
pub(crate) fn take_part(
    alloc: Global,
    state: &mut ClientState,
    scheme: u8,
    version: u64,
    part: u32,
    words: &Words,
) -> Result<Reaction, AllocError>
    requires { IsState state.old }
    ensures state { OnOk result (state.new ≡
        (takes_part state.old.call state.old scheme version part words.now).state) }
    ensures reaction { IfOk result
        (λ r. r ≡ (takes_part state.old.call state.old scheme version part words.now).reaction) }
    ensures err { OnErr result (state.new ≡ state.old) }
{
    let Call::Sync {
        scheme: kind,
        version: asked,
        part: next,
    } = state.call
    else {
        return Ok(fails(state, ClientFault::BadReply));
    };
    let Some(known) = state.known else {
        return Ok(fails(state, ClientFault::BadReply));
    };
    let words = words.as_slice();
    let wanted = part_len(hint_len(kind, &known.layout(), known.dimension()), next);
    if scheme != kind.byte() || version != asked || part != next || words.len() != wanted {
        return Ok(fails(state, ClientFault::BadReply));
    }
    state.parts.add(words)?;
    Ok(continue_sync(alloc, state, kind, &known, version, next))
}

// The last part makes the hint whole; after another the next part is asked for.
fn continue_sync(
    alloc: Global,
    state: &mut ClientState,
    scheme: Scheme,
    known: &ServerInfo,
    version: u64,
    part: u32,
) -> Reaction
    requires known { IsKnown known.now }
    requires part { part < 2 ^ 31 }
    ensures state { state.new ≡
        (reaction_to_part scheme known.now state.old version part state.old.parts).state }
    ensures reaction { result ≡
        (reaction_to_part scheme known.now state.old version part state.old.parts).reaction }
{
    if state.parts.len() != hint_len(scheme, &known.layout(), known.dimension()) {
        let part = part + 1;
        state.call = Call::Sync {
            scheme,
            version,
            part,
        };
        return Reaction::Asks {
            scheme,
            version,
            part,
        };
    }
    let words = mem::replace(&mut state.parts, Parts::none(alloc)).into_vec();
    // There are as many words as the hint has, and no more than a matrix holds: no refusal is left.
    let rows = hint_rows(scheme, &known.layout(), known.dimension());
    let matrix = Matrix::from_words(rows, known.dimension(), words).unwrap();
    state.hint = Some(Hint {
        scheme,
        version,
        matrix,
    });
    ends(state, Event::Synced(scheme, version))
}

// What an answer with all its words says.
fn read_answer<K: Kernel>(
    alloc: Global,
    kernel: K,
    known: &ServerInfo,
    hint: &Hint,
    seed: &[u8; 32],
    asked: AskedRecord,
    words: &[u32],
) -> Result<Event, AllocError>
    requires known { IsKnown known.now }
    requires rows { hint.now.matrix.rows ≡
        rows_of_hint hint.now.scheme (shape_known known.now) known.now.plan.dimension }
    requires cols { hint.now.matrix.cols ≡ known.now.plan.dimension }
    requires number { asked.number < 2 ^ 62 }
    requires record { asked.index < known.now.count }
    requires words { length words.now ≡
        words_of_answer hint.now.scheme (shape_known known.now) known.now.plan.dimension }
    ensures { IfOk result (λ e. e ≡ event_of known.now.plan asked.index asked.version
        (reading hint.now.scheme (shape_known known.now) hint.now.matrix seed.now asked.number
        asked.index words.now)) }
{
    let AskedRecord {
        index,
        version,
        number,
    } = asked;
    match recover(
        alloc,
        kernel,
        hint.scheme,
        &known.plan,
        known.count as usize,
        &hint.matrix,
        &SecretSeed::new(*seed),
        number,
        index as usize,
        words,
    ) {
        Ok(bytes) => Ok(Event::Retrieved {
            index,
            version,
            bytes: Bytes::new(bytes),
        }),
        Err(RecoverError::BadDigits) => Ok(Event::Unreadable { index, version }),
        Err(_) => Err(AllocError),
    }
}

/// An Answer answers ask alone: in the hint's scheme, on the version asked, and with all its words.
pub(crate) fn take_answer<K: Kernel>(
    alloc: Global,
    kernel: K,
    state: &mut ClientState,
    scheme: u8,
    version: u64,
    words: &Words,
) -> Result<Reaction, AllocError>
    requires { IsState state.old }
    ensures state { OnOk result (state.new ≡
        (takes_answer state.old.call state.old scheme version words.now).state) }
    ensures reaction { IfOk result
        (λ r. r ≡ (takes_answer state.old.call state.old scheme version words.now).reaction) }
    ensures err { OnErr result (state.new ≡ state.old) }
{
    let Call::Ask {
        index,
        version: asked,
        number,
    } = state.call
    else {
        return Ok(fails(state, ClientFault::BadReply));
    };
    let Some(known) = state.known else {
        return Ok(fails(state, ClientFault::BadReply));
    };
    let Some(hint) = &state.hint else {
        return Ok(fails(state, ClientFault::BadReply));
    };
    let words = words.as_slice();
    let wanted = answer_count(hint.scheme, &known.layout(), known.dimension());
    if scheme != hint.scheme.byte() || version != asked || words.len() != wanted {
        return Ok(fails(state, ClientFault::BadReply));
    }
    let asked = AskedRecord {
        index,
        version,
        number,
    };
    let event = read_answer(alloc, kernel, &known, hint, &state.seed, asked, words)?;
    Ok(ends(state, event))
}

/// Stale answers a sync by parts, of which the unfinished ones are dropped, and ask.
pub(crate) fn take_stale(
    alloc: Global,
    state: &mut ClientState,
    version: u64,
    count: u32,
) -> Reaction
    requires { IsState state.old }
    ensures state { state.new ≡ (takes_stale state.old.call state.old version count).state }
    ensures reaction { result ≡ (takes_stale state.old.call state.old version count).reaction }
{
    let (asked, in_sync) = match state.call {
        Call::Sync { version, .. } => (version, true),
        Call::Ask { version, .. } => (version, false),
        _ => return fails(state, ClientFault::BadReply),
    };
    let Some(reported) = known_after_stale(&state.known, asked, version, count) else {
        return fails(state, ClientFault::BadReply);
    };
    if in_sync {
        state.parts = Parts::none(alloc);
    }
    state.known = Some(reported);
    ends(state, Event::Stale(version))
}

// What is known after Stale, if it may name this version and count.
fn known_after_stale(
    known: &Option<ServerInfo>,
    asked: u64,
    version: u64,
    count: u32,
) -> Option<ServerInfo>
    ensures { (after c : ClientState) → MatchOption result
        (reaction_to_stale known.now after c asked version count ≡ faulty c ClientFault.BadReply)
        (λ k. reaction_to_stale known.now after c asked version count ≡
        ended (record after { known = Some k }) (Event.Stale version)) }
{
    let Some(known) = known else {
        return None;
    };
    if version == asked {
        return None;
    }
    current_of(known, version, count)
}

/// What is known after a reply that names this version as the current one, with so many records,
/// if it may.
pub(crate) fn current_of(known: &ServerInfo, version: u64, count: u32) -> Option<ServerInfo>
    ensures { MatchOption result (is_current known.now version count ≡ false)
        (λ k. (is_current known.now version count ≡ true) ×
        (k ≡ with_current known.now version count)) }
{
    if version == 0 || !known.plan.has_layout(count as usize) {
        return None;
    }
    Some(ServerInfo {
        version,
        count,
        plan: known.plan,
    })
}

/// Done answers edit, append and publish, whatever version it names.
pub(crate) fn take_done(state: &mut ClientState, version: u64) -> Reaction
    ensures state { state.new ≡ (takes_done state.old.call state.old version).state }
    ensures reaction { result ≡ (takes_done state.old.call state.old version).reaction }
{
    match &state.call {
        Call::Edit | Call::Append | Call::Publish => ends(state, Event::Done(version)),
        _ => fails(state, ClientFault::BadReply),
    }
}

/// Refused answers every call, with any code; in a sync by parts the unfinished ones are dropped.
pub(crate) fn take_refused(alloc: Global, state: &mut ClientState, code: u8) -> Reaction
    ensures state { state.new ≡ (takes_refused state.old.call state.old code).state }
    ensures reaction { result ≡ (takes_refused state.old.call state.old code).reaction }
{
    match &state.call {
        Call::Idle => return fails(state, ClientFault::BadReply),
        Call::Sync { .. } => state.parts = Parts::none(alloc),
        _ => {}
    }
    ends(state, Event::Refused(code))
}

/// A frame of any other kind is no reply.
pub(crate) fn take_other(state: &mut ClientState) -> Reaction
    ensures state { state.new ≡ (faulty state.old ClientFault.BadReply).state }
    ensures reaction { result ≡ (faulty state.old ClientFault.BadReply).reaction }
{
    fails(state, ClientFault::BadReply)
}
