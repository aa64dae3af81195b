//! Hints of DoublePIR that follow several rows at once.

ghost use Rattle.std.specs.Prelude.{◌≡◌, ◌≢◌, ◌↔◌, ℕ, ◌+◌, ◌-◌, ◌*◌, ◌%◌, ◌^◌, ◌<◌, ◌≤◌, ◌∷◌, []};
ghost use Rattle.std.specs.Prelude.{length, slice_index, EachIndex, IfOk, IsTrue};
ghost use Rattle.matrix_u32.specs.Matrix.{entry, row};
ghost use Rattle.matrix_u32.specs.Blocks.{plus_rows};
ghost use Rattle.lane_kernels.specs.Digit.{split_count};
ghost use Rattle.hint_update.specs.Updates.{AreRowsBelow, FollowsListed, TakesRows, moved_by_rows};
ghost use Rattle.hint_update.specs.Updates.{AddsRows, TakesBlock, digit_change, word_digit_at};
ghost use Rattle.hint_update.specs.Words.{IsRowsBuffers};

use crate::words::{WordsBuffers, add_changed};
use digit_pack::{DigitStore, split_count, word_digit};
use matrix_u32::{Kernel, Matrix};
use std::alloc::{AllocError, Global};

// How many rows of the client's hint are changed together, at most: as many as stay near the
// processor while the rows of the public matrix pass.
const BLOCK_ROWS: usize = 32;

// How many rows of the public matrix pass at a time.
const PASSING_ROWS: usize = 4;

/// New rows of D A1: those of `hint` that `listed` names, ascending. The digits of their words have
/// w bits.
#[derive(Clone, Copy)]
pub struct NewRows<'a> {
    pub hint: &'a Matrix,
    pub w: u32,
    pub listed: &'a [usize],
}

/// Rows of the server's hint and of the client's that change together: `count` of them, from row
/// `first` on.
#[derive(Clone, Copy)]
pub(crate) struct RowBlock {
    pub(crate) first: usize,
    pub(crate) count: usize,
}

/// Memory for rows that [`update_double_rows`] takes together, made for digits of w bits: copies of
/// their rows of the second public matrix, one beside the other, for some rows of the client's hint
/// the changes of their digits, those of one column as they come and as they were, and what
/// products of whole words need. What they hold between calls has no meaning.
#[derive(Drop)]
pub struct RowsBuffers {
    pub public: Matrix,
    pub changes: Matrix,
    pub new_digits: Vec<u32>,
    pub old_digits: Vec<u32>,
    pub sums: Vec<u32>,
    pub words: WordsBuffers,
}

impl RowsBuffers {
    /// Memory for `most` rows, over a public matrix with so many columns.
    ///
    /// # Errors
    ///
    /// Only refused memory gives an `Err`.
    pub fn new(alloc: Global, most: usize, cols: usize, w: u32) -> Result<RowsBuffers, AllocError>
        requires most { most ≤ 4096 }
        requires cols { cols ≤ 1024 }
        requires width { (6 ≤ w) × (w ≤ 10) }
        ensures { IfOk result (IsRowsBuffers most cols) }
    {
        let step = split_count(w);
        let count = BLOCK_ROWS / step;
        let block = count * step;
        // Before the public rows: what glibc's heap gives out next is past it. If products were
        // some bytes past the public rows, modulo 4096, loads of these would wait for stores of
        // those, which only seem to be to the same bytes.
        let words = WordsBuffers::new(alloc, count, most, cols, w)?;
        let Ok(public) = Matrix::zeros(alloc, most, cols) else {
            return Err(AllocError);
        };
        let Ok(changes) = Matrix::zeros(alloc, block, most) else {
            return Err(AllocError);
        };
        let new_digits = vec![in alloc; 0; block]?;
        let old_digits = vec![in alloc; 0; block]?;
        let sums = vec![in alloc; 0; most]?;
        Ok(RowsBuffers {
            public,
            changes,
            new_digits,
            old_digits,
            sums,
            words,
        })
    }
}

/// Changes both hints of DoublePIR as several rows of the digit matrix D change: those that are
/// listed with the new rows of D A1. What [`update_double`](crate::update_double) does for each of
/// them is done here in one pass over the hints, so that each row of the client's hint is read and
/// written while it is near the processor.
///
/// For every D and A1 from which both hints were made before, they are now made from D with its new
/// rows. Whatever they were made from, all other columns of the server's hint stay. Takes no
/// memory: `room` has some for at least as many rows as are listed.
pub fn update_double_rows<K: Kernel, S: DigitStore>(
    kernel: K,
    server_hint: &mut S,
    client_hint: &mut Matrix,
    a2: &Matrix,
    new_rows: &NewRows<'_>,
    room: &mut RowsBuffers,
)
    requires width { (6 ≤ new_rows.now.w) × (new_rows.now.w ≤ 10) }
    requires listed { AreRowsBelow new_rows.now.hint.now.rows new_rows.now.listed.now }
    requires server_rows { (S.digits server_hint.old).rows
        ≡ new_rows.now.hint.now.cols * split_count new_rows.now.w }
    requires server_cols { (S.digits server_hint.old).cols ≡ new_rows.now.hint.now.rows }
    requires client_rows { client_hint.old.rows ≡ (S.digits server_hint.old).rows }
    requires client_cols { client_hint.old.cols ≡ a2.now.cols }
    requires rows { a2.now.rows ≡ (S.digits server_hint.old).cols }
    requires few { length new_rows.now.listed.now ≤ room.old.public.rows }
    requires room { IsRowsBuffers room.old.public.rows a2.now.cols room.old }
    ensures follows { FollowsListed new_rows.now.w new_rows.now.hint.now a2.now
        (S.digits server_hint.old) (S.digits server_hint.new) client_hint.old client_hint.new
        new_rows.now.listed.now }
    ensures server { TakesRows new_rows.now.w new_rows.now.hint.now (S.digits server_hint.old)
        (S.digits server_hint.new) new_rows.now.listed.now }
    ensures client { client_hint.new ≡ moved_by_rows client_hint.old (S.digits server_hint.old)
        (S.digits server_hint.new) a2.now new_rows.now.listed.now }
    ensures room { IsRowsBuffers room.old.public.rows a2.now.cols room.new }
{
    let listed = new_rows.listed;
    copy_rows(a2, listed, &mut room.public);
    clear_rows(&mut room.public, listed.len());
    room.words.guess(
        kernel,
        server_hint,
        new_rows.hint,
        new_rows.w,
        listed,
        &room.public,
    );
    let rows = server_hint.rows();
    client_hint.rows();
    let mut first = 0;
    while first < rows {
        let count = room.changes.rows().min(rows - first);
        let block = RowBlock { first, count };
        replace_digits(
            server_hint,
            new_rows,
            block,
            &mut room.new_digits,
            &mut room.old_digits,
            &mut room.changes,
        );
        add_changed(kernel, client_hint, block, listed.len(), room);
        first += count;
    }
}

// Copies the listed rows of a matrix into the first rows of another.
fn copy_rows(from: &Matrix, listed: &[usize], to: &mut Matrix)
    requires listed { (k : ℕ) → k < length listed.now → slice_index listed.now k < from.now.rows }
    requires room { length listed.now ≤ to.old.rows }
    requires cols { to.old.cols ≡ from.now.cols }
    ensures rows { to.new.rows ≡ to.old.rows }
    ensures cols { to.new.cols ≡ to.old.cols }
    ensures copied { (k q : ℕ) → k < length listed.now → q < from.now.cols →
        entry to.new k q ≡ entry from.now (slice_index listed.now k) q }
{
    to.rows();
    for k in 0..listed.len() {
        to.row_mut(k).copy_from_slice(from.row(listed[k]));
    }
}

// Makes all words 0 from row `from` on.
fn clear_rows(m: &mut Matrix, from: usize)
    ensures rows { m.new.rows ≡ m.old.rows }
    ensures cols { m.new.cols ≡ m.old.cols }
    ensures kept { (k q : ℕ) → k < from → q < m.old.cols → entry m.new k q ≡ entry m.old k q }
    ensures cleared { (k q : ℕ) → from ≤ k → k < m.old.rows → q < m.old.cols → entry m.new k q ≡ 0 }
{
    for k in from..m.rows() {
        m.row_mut(k).fill(0);
    }
}

// Writes into a block of rows of the server's hint the digits of the new rows, and puts the change
// of each into `changes`. The other two have room for a column of digits each.
fn replace_digits<S: DigitStore>(
    server_hint: &mut S,
    new_rows: &NewRows<'_>,
    block: RowBlock,
    new_digits: &mut [u32],
    old_digits: &mut [u32],
    changes: &mut Matrix,
)
    requires width { (6 ≤ new_rows.now.w) × (new_rows.now.w ≤ 10) }
    requires listed { AreRowsBelow new_rows.now.hint.now.rows new_rows.now.listed.now }
    requires block { block.first + block.count ≤ (S.digits server_hint.old).rows }
    requires server_rows { (S.digits server_hint.old).rows
        ≡ new_rows.now.hint.now.cols * split_count new_rows.now.w }
    requires server_cols { (S.digits server_hint.old).cols ≡ new_rows.now.hint.now.rows }
    requires new_room { block.count ≤ length new_digits.old }
    requires old_room { block.count ≤ length old_digits.old }
    requires changes_rows { block.count ≤ changes.old.rows }
    requires changes_cols { length new_rows.now.listed.now ≤ changes.old.cols }
    ensures server { TakesBlock new_rows.now.w new_rows.now.hint.now (S.digits server_hint.old)
        (S.digits server_hint.new) new_rows.now.listed.now block.first block.count }
    ensures changes { (b k : ℕ) → b < block.count → k < length new_rows.now.listed.now →
        entry changes.new b k ≡ digit_change new_rows.now.w new_rows.now.hint.now
        (S.digits server_hint.old) new_rows.now.listed.now (block.first + b) k }
    ensures rows { changes.new.rows ≡ changes.old.rows }
    ensures cols { changes.new.cols ≡ changes.old.cols }
    ensures new_count { length new_digits.new ≡ length new_digits.old }
    ensures old_count { length old_digits.new ≡ length old_digits.old }
{
    server_hint.rows();
    changes.rows();
    let new = &mut new_digits[..block.count];
    let old = &mut old_digits[..block.count];
    for k in 0..new_rows.listed.len() {
        let col = new_rows.listed[k];
        take_column(
            server_hint,
            new_rows.hint,
            new_rows.w,
            col,
            block.first,
            new,
            old,
        );
        put_differences(new, old, k, changes);
    }
}

// Writes the digits of one row of the hint into the column of its number, from row `first` on: as
// many as there is room for, which are then the new ones, and beside them those that were there.
fn take_column<S: DigitStore>(
    server_hint: &mut S,
    hint: &Matrix,
    w: u32,
    col: usize,
    first: usize,
    new_digits: &mut [u32],
    old_digits: &mut [u32],
)
    requires width { (6 ≤ w) × (w ≤ 10) }
    requires col { col < hint.now.rows }
    requires block { first + length new_digits.old ≤ (S.digits server_hint.old).rows }
    requires server_rows { (S.digits server_hint.old).rows ≡ hint.now.cols * split_count w }
    requires server_cols { (S.digits server_hint.old).cols ≡ hint.now.rows }
    requires same { length old_digits.old ≡ length new_digits.old }
    ensures server { TakesBlock w hint.now (S.digits server_hint.old) (S.digits server_hint.new)
        (col ∷ []) first (length new_digits.old) }
    ensures new_digits { (b : ℕ) → b < length new_digits.old → slice_index new_digits.new b
        ≡ word_digit_at w (row hint.now col) (first + b) }
    ensures old_digits { (b : ℕ) → b < length new_digits.old → slice_index old_digits.new b
        ≡ entry (S.digits server_hint.old) (first + b) col }
    ensures new_count { length new_digits.new ≡ length new_digits.old }
    ensures old_count { length old_digits.new ≡ length old_digits.old }
{
    server_hint.rows();
    put_digits(hint, w, col, first, new_digits);
    old_digits.copy_from_slice(new_digits);
    server_hint.swap_digits(first, col, old_digits);
}

// Writes digits of the words of one row, from digit `first` on.
fn put_digits(hint: &Matrix, w: u32, i: usize, first: usize, digits: &mut [u32])
    requires width { (6 ≤ w) × (w ≤ 10) }
    requires row { i < hint.now.rows }
    requires inside { first + length digits.old ≤ hint.now.cols * split_count w }
    requires room { hint.now.cols * split_count w < 2 ^ 64 }
    ensures digits { (b : ℕ) → b < length digits.old → slice_index digits.new b
        ≡ word_digit_at w (row hint.now i) (first + b) }
    ensures small { (b : ℕ) → b < length digits.old → slice_index digits.new b < 1024 }
    ensures count { length digits.new ≡ length digits.old }
{
    let words = hint.row(i);
    let step = split_count(w);
    let mut word = first / step;
    let mut place = first % step;
    for b in 0..digits.len() {
        digits[b] = word_digit(words[word], w, place);
        (word, place) = next_place(word, place, step);
    }
}

// Puts the differences of two lists into column k.
fn put_differences(new: &[u32], old: &[u32], k: usize, changes: &mut Matrix)
    requires same { length old.now ≡ length new.now }
    requires room { length new.now ≤ changes.old.rows }
    requires place { k < changes.old.cols }
    ensures differences { (b : ℕ) → b < length new.now → entry changes.new b k
        ≡ (slice_index new.now b + (2 ^ 32 - slice_index old.now b)) % 2 ^ 32 }
    ensures others { (b q : ℕ) → q ≢ k → q < changes.old.cols →
        entry changes.new b q ≡ entry changes.old b q }
    ensures rows { changes.new.rows ≡ changes.old.rows }
    ensures cols { changes.new.cols ≡ changes.old.cols }
{
    changes.rows();
    for b in 0..new.len() {
        changes.set(b, k, new[b].wrapping_sub(old[b]));
    }
}

// The word and the place in it of the digit after one: with so many digits to a word.
fn next_place(word: usize, place: usize, step: usize) -> (usize, usize)
    requires place { place < step }
    requires room { word + 1 < 2 ^ 64 }
    ensures inside { result.1 < step }
    ensures next { result.0 * step + result.1 ≡ word * step + place + 1 }
{
    if place + 1 < step {
        (word, place + 1)
    } else {
        (word + 1, 0)
    }
}

// Adds to a block of rows of the client's hint the first n rows of the public matrix, each times
// its factor.
pub(crate) fn add_block<K: Kernel>(
    kernel: K,
    client_hint: &mut Matrix,
    block: RowBlock,
    n: usize,
    factors: &Matrix,
    public: &Matrix,
)
    requires block { block.first + block.count ≤ client_hint.old.rows }
    requires factors_rows { block.count ≤ factors.now.rows }
    requires factors_cols { n ≤ factors.now.cols }
    requires rows { n ≤ public.now.rows }
    requires cols { client_hint.old.cols ≡ public.now.cols }
    ensures { AddsRows client_hint.old client_hint.new block.first block.count
        factors.now public.now 0 n }
{
    // The first time even if there are none: then no word changes.
    let mut t = PASSING_ROWS.min(n);
    add_passing(kernel, client_hint, block, 0, t, factors, public);
    while t < n {
        let some = PASSING_ROWS.min(n - t);
        add_passing(kernel, client_hint, block, t, some, factors, public);
        t += some;
    }
}

// Adds to the same rows n rows of the public matrix from row t on.
fn add_passing<K: Kernel>(
    kernel: K,
    client_hint: &mut Matrix,
    block: RowBlock,
    t: usize,
    n: usize,
    factors: &Matrix,
    public: &Matrix,
)
    requires block { block.first + block.count ≤ client_hint.old.rows }
    requires factors_rows { block.count ≤ factors.now.rows }
    requires factors_cols { t + n ≤ factors.now.cols }
    requires rows { t + n ≤ public.now.rows }
    requires cols { client_hint.old.cols ≡ public.now.cols }
    ensures { AddsRows client_hint.old client_hint.new block.first block.count
        factors.now public.now t n }
{
    client_hint.rows();
    factors.rows();
    public.rows();
    for b in 0..block.count {
        let changes = &factors.row(b)[t..t + n];
        let out = client_hint.row_mut(block.first + b);
        add_changes(kernel, out, changes, public, t);
    }
}

// Adds to `out` the rows of a matrix from `start` on, each times its factor; if all of them are 0,
// nothing is multiplied.
pub(crate) fn add_changes<K: Kernel>(
    kernel: K,
    out: &mut [u32],
    factors: &[u32],
    rows: &Matrix,
    start: usize,
)
    requires width { length out.old ≡ rows.now.cols }
    requires inside { start + length factors.now ≤ rows.now.rows }
    ensures { out.new
        ≡ plus_rows out.old (length factors.now) (λ k. slice_index factors.now k) rows.now start }
{
    if !are_zero(factors) {
        kernel.add_rows(out, factors, rows, start);
    }
}

// Whether all factors are 0.
pub(crate) fn are_zero(factors: &[u32]) -> bool
    ensures { IsTrue result ↔ EachIndex factors.now (λ k. slice_index factors.now k ≡ 0) }
{
    factors.iter().all(|factor| *factor == 0)
}
