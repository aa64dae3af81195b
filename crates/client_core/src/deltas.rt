//! What comes of the replies to a sync by delta.

ghost use Rattle.std.specs.Prelude.{◌≡◌, ◌<◌, length, MatchOption, true, false};
ghost use Rattle.digit_pack.specs.Layout.{digit_rows};
ghost use Rattle.frame_codec.specs.Rows.{rows_in};
ghost use Rattle.matrix_u32.specs.Matrix.{with_row};
ghost use Rattle.client_core.specs.States.{IsState, IsKnown};
ghost use Rattle.client_core.specs.Replies.{
  are_ascending,
  is_delta,
  row_numbers,
  with_current,
  with_rows_replaced,
};
ghost use Rattle.client_core.specs.Kinds.{takes_delta, takes_no_delta};

use crate::parts::Parts;
use crate::replies::{current_of, ends, fails};
use crate::state::{Call, ClientFault, ClientState, Event, Reaction, ServerInfo};
use frame_codec::Rows;
use matrix_u32::Matrix;
use pir_schemes::{DELTA_ROWS, Scheme};
use std::alloc::Global;
use std::mem;

/// A Delta answers a sync by delta: its rows replace those of the hint held.
pub(crate) fn take_delta(
    state: &mut ClientState,
    since: u64,
    now: u64,
    count: u32,
    rows: &Rows,
) -> Reaction
    requires { IsState state.old }
    ensures state { state.new ≡
        (takes_delta state.old.call state.old since now count rows.now).state }
    ensures reaction { result ≡
        (takes_delta state.old.call state.old since now count rows.now).reaction }
{
    let Call::Delta { since: asked } = state.call else {
        return fails(state, ClientFault::BadReply);
    };
    let Some(known) = state.known else {
        return fails(state, ClientFault::BadReply);
    };
    let Some(reported) = known_after(&known, asked, since, now, count, rows) else {
        return fails(state, ClientFault::BadReply);
    };
    let Some(mut hint) = mem::replace(&mut state.hint, None) else {
        return fails(state, ClientFault::BadReply);
    };
    put_rows(&mut hint.matrix, rows);
    hint.version = now;
    state.hint = Some(hint);
    state.known = Some(reported);
    ends(state, Event::Synced(Scheme::Simple, now))
}

// What is known after a Delta, if it is one that was asked for.
fn known_after(
    known: &ServerInfo,
    asked: u64,
    since: u64,
    now: u64,
    count: u32,
    rows: &Rows,
) -> Option<ServerInfo>
    requires { IsKnown known.now }
    ensures { MatchOption result
        (is_delta known.now asked since now count rows.now.dimension (row_numbers rows.now)
        ≡ false)
        (λ k. (is_delta known.now asked since now count rows.now.dimension (row_numbers rows.now)
        ≡ true) × (k ≡ with_current known.now now count)) }
{
    if since != asked || rows.dimension() != known.plan.dimension || rows.len() > DELTA_ROWS {
        return None;
    }
    if !is_ascending(rows, known.layout().rows()) {
        return None;
    }
    current_of(known, now, count)
}

// Whether the numbers of the rows ascend, each once, and stay below `limit`.
fn is_ascending(rows: &Rows, limit: usize) -> bool
    ensures { result ≡ are_ascending 0 limit (row_numbers rows.now) }
{
    let mut from = 0;
    for j in 0..rows.len() {
        let (number, _) = rows.row(j);
        let number = number as usize;
        if number < from || number >= limit {
            return false;
        }
        from = number + 1;
    }
    true
}

// Writes rows over those of a matrix.
fn put_rows(matrix: &mut Matrix, rows: &Rows)
    requires below { are_ascending 0 matrix.old.rows (row_numbers rows.now) ≡ true }
    requires len { rows.now.dimension ≡ matrix.old.cols }
    ensures { matrix.new ≡ with_rows_replaced matrix.old (rows_in rows.now) }
{
    for j in 0..rows.len() {
        let (number, words) = rows.row(j);
        put_row(matrix, number as usize, words);
    }
}

// Writes words over row `number` of a matrix.
fn put_row(matrix: &mut Matrix, number: usize, words: &[u32])
    requires row { number < matrix.old.rows }
    requires len { length words.now ≡ matrix.old.cols }
    ensures { matrix.new ≡ with_row matrix.old number words.now }
{
    let _rows = matrix.rows();
    matrix.row_mut(number).copy_from_slice(words);
}

/// A NoDelta answers a sync by delta or by changed records: the hint held is dropped, and the parts
/// of the version named are asked for.
pub(crate) fn take_no_delta(
    alloc: Global,
    state: &mut ClientState,
    version: u64,
    count: u32,
) -> Reaction
    ensures state { state.new ≡ (takes_no_delta state.old.call state.old version count).state }
    ensures reaction { result ≡ (takes_no_delta state.old.call state.old version count).reaction }
{
    match &state.call {
        Call::Delta { .. } | Call::Changes { .. } => {}
        _ => return fails(state, ClientFault::BadReply),
    }
    let Some(known) = state.known else {
        return fails(state, ClientFault::BadReply);
    };
    let Some(reported) = current_of(&known, version, count) else {
        return fails(state, ClientFault::BadReply);
    };
    state.known = Some(reported);
    state.hint = None;
    state.parts = Parts::none(alloc);
    state.call = Call::Sync {
        scheme: Scheme::Simple,
        version,
        part: 0,
    };
    Reaction::Asks {
        scheme: Scheme::Simple,
        version,
        part: 0,
    }
}
