//! What comes of the reply to a sync by changed records.

ghost use Rattle.std.specs.Prelude.{◌≡◌, ◌≤◌, IfOk, IfSome, MatchOption, OnErr, OnOk, true, false};
ghost use Rattle.digit_pack.specs.Layout.{digit_rows};
ghost use Rattle.hint_changes.specs.Entries.{AreEntries};
ghost use Rattle.pir_schemes.specs.Plans.{is_slot_of};
ghost use Rattle.client_core.specs.States.{IsState, IsKnown, shape_known};
ghost use Rattle.client_core.specs.Replies.{
  have_slots,
  hint_with_entries,
  is_changes,
  with_current,
};
ghost use Rattle.client_core.specs.Kinds.{takes_changes};

use crate::replies::{current_of, ends, fails};
use crate::state::{Call, ClientFault, ClientState, Event, Hint, Reaction, ServerInfo};
use digit_pack::{is_slotted, read_slot};
use frame_codec::Bytes;
use hint_changes::{PublicRow, are_entries, entry_len, move_by_entries};
use matrix_u32::Kernel;
use pir_schemes::{Plan, Scheme};
use std::alloc::{AllocError, Global};
use std::mem;

/// Changes answer a sync by changed records: their entries move the hint held. These are read in
/// the frame itself, and no more memory is taken than a row of the public matrix has.
pub(crate) fn take_changes<K: Kernel>(
    alloc: Global,
    kernel: K,
    state: &mut ClientState,
    since: u64,
    now: u64,
    count: u32,
    entries: &Bytes,
) -> Result<Reaction, AllocError>
    requires { IsState state.old }
    ensures state { OnOk result (state.new ≡
        (takes_changes state.old.call state.old since now count entries.now).state) }
    ensures reaction { IfOk result (λ r. r ≡
        (takes_changes state.old.call state.old since now count entries.now).reaction) }
    ensures err { OnErr result (state.new ≡ state.old) }
{
    let Call::Changes { since: asked } = state.call else {
        return Ok(fails(state, ClientFault::BadReply));
    };
    let Some(known) = state.known else {
        return Ok(fails(state, ClientFault::BadReply));
    };
    let entries = entries.as_slice();
    let Some(reported) = known_after(&known, asked, since, now, count, entries) else {
        return Ok(fails(state, ClientFault::BadReply));
    };
    // Made first, so that a refusal of its memory changes nothing.
    let public = PublicRow::new(alloc, &known.plan.seed, known.dimension())?;
    let Some(mut hint) = mem::replace(&mut state.hint, None) else {
        return Ok(fails(state, ClientFault::BadReply));
    };
    move_hint(kernel, &reported, public, &mut hint, entries);
    state.hint = Some(hint);
    state.known = Some(reported);
    Ok(ends(state, Event::Synced(Scheme::Simple, now)))
}

// Moves a hint to the version that is known, with whatever row of the public matrix.
fn move_hint<K: Kernel>(
    kernel: K,
    known: &ServerInfo,
    mut public: PublicRow,
    hint: &mut Hint,
    entries: &[u8],
)
    requires known { IsKnown known.now }
    requires entries { AreEntries (shape_known known.now) entries.now }
    requires seed { public.seed ≡ known.now.plan.seed }
    requires dimension { public.dimension ≡ known.now.plan.dimension }
    requires rows { hint.old.matrix.rows ≡ digit_rows (shape_known known.now) }
    requires cols { hint.old.matrix.cols ≡ known.now.plan.dimension }
    ensures { hint.new ≡ hint_with_entries known.now.plan hint.old known.now.version
        known.now.count entries.now }
{
    move_by_entries(
        kernel,
        &known.layout(),
        &mut public,
        &mut hint.matrix,
        entries,
    );
    hint.version = known.version;
}

// What is known after Changes, if they are ones that were asked for.
fn known_after(
    known: &ServerInfo,
    asked: u64,
    since: u64,
    now: u64,
    count: u32,
    entries: &[u8],
) -> Option<ServerInfo>
    requires { IsKnown known.now }
    ensures asked { MatchOption result
        (is_changes known.now asked since now count entries.now ≡ false)
        (λ k. (is_changes known.now asked since now count entries.now ≡ true) ×
        (k ≡ with_current known.now now count)) }
    ensures known { IfSome result IsKnown }
    ensures entries { IfSome result (λ k. AreEntries (shape_known k) entries.now) }
{
    if since != asked {
        return None;
    }
    let Some(reported) = current_of(known, now, count) else {
        return None;
    };
    if !are_entries(&reported.layout(), entries) || !have_slots(&known.plan, entries) {
        return None;
    }
    Some(reported)
}

// Whether the old and the new bytes in each entry are those of a record of the plan.
fn have_slots(plan: &Plan, entries: &[u8]) -> bool
    requires { plan.now.record_len ≤ 256 }
    ensures { result ≡ have_slots plan.now entries.now }
{
    let len = usize::from(plan.record_len);
    for k in 0..entries.len() / entry_len(len) {
        let at = k * entry_len(len) + 4;
        let old = &entries[at..at + len];
        let new = &entries[at + len..at + len + len];
        if !is_slot_of(plan, old) || !is_slot_of(plan, new) {
            return false;
        }
    }
    true
}

// Whether a record has these bytes in the digits.
#[tactic(auto, unfolding(pir_schemes::specs::Plans::is_slot_of))]
fn is_slot_of(plan: &Plan, bytes: &[u8]) -> bool
    ensures { result ≡ is_slot_of plan.now bytes.now }
{
    if is_slotted(plan.form) {
        read_slot(bytes).is_ok()
    } else {
        true
    }
}
