//! Rows of the client's hint that change by the digits of whole words.
//!
//! The digits of a word, each times its weight 2^(w t), add up to the word. If one column of D
//! changes, row i of D A1 changes by a multiple of one row of A1, and so each word of the changed
//! rows by a multiple of one list, which has a number for each changed row. The product of this
//! list with the second public matrix is made once. Of a word's digits only the higher ones are
//! then multiplied, and what the lowest one adds to the client's hint follows from their products
//! and from that one. Nothing is taken for granted: the list is a guess, and each word is tested
//! before it is used.

ghost use Rattle.std.specs.Prelude.{◌≡◌, ℕ, ◌+◌, ◌-◌, ◌*◌, ◌/◌, ◌%◌, ◌^◌, ◌<◌, ◌≤◌, length};
ghost use Rattle.std.specs.Prelude.{slice_index};
ghost use Rattle.std.specs.Prelude.{IfOk, IfSome, IsTrue, MatchOption, min};
ghost use Rattle.matrix_u32.specs.Matrix.{entry};
ghost use Rattle.lane_kernels.specs.Digit.{split_count};
ghost use Rattle.digit_pack.specs.Digits.{recomposed_at};
ghost use Rattle.hint_update.specs.Updates.{AddsRows, AreRowsBelow};
ghost use Rattle.hint_update.specs.Words.{IsRowsBuffers, IsWordsBuffers, HasCombined, IsMultiple};
ghost use Rattle.hint_update.specs.Words.{AreWholeWords, HasHigherRows, HasHigherProducts};
ghost use Rattle.hint_update.specs.Words.{IsRowAdded};
ghost use Rattle.hint_update.specs.Words.{word_change, IsFewestZeros, IsLeastPower, HasNone};
ghost use Rattle.hint_update.specs.Words.{IsFirstEnding};
ghost use Rattle.hint_update.specs.Words.{AreFirstChanges, IsGuessFor};

use crate::rows::{RowBlock, RowsBuffers, add_block, add_changes, are_zero};
use digit_pack::{DigitStore, split_count};
use matrix_u32::{Kernel, Matrix};
use std::alloc::{AllocError, Global};

// The fewest rows of which whole words are multiplied together. With fewer, what the lowest digits
// follow from costs more than their products.
const FEWEST_ROWS: usize = 16;

// How many words are looked at for the changes that the list is made of. If the first public matrix
// has an even word, its changes no longer tell odd numbers from even ones, so one word is not
// enough.
const TRIED_WORDS: usize = 16;

/// Memory for products of whole words: `weights` has the negative weight of each digit of a word,
/// the lowest first; `common` the list of which words may change by multiples, a number for each
/// listed row, with 1 in place `pivot`; `combined` its product with the public rows. `higher` and
/// `products` have a row for each digit of some words but the lowest ones.
#[derive(Drop)]
pub struct WordsBuffers {
    pub weights: Vec<u32>,
    pub common: Vec<u32>,
    pub pivot: usize,
    pub combined: Vec<u32>,
    pub higher: Matrix,
    pub products: Matrix,
}

impl WordsBuffers {
    /// Memory for so many words, over `most` rows of a public matrix with so many columns.
    ///
    /// # Errors
    ///
    /// Only refused memory gives an `Err`.
    pub fn new(
        alloc: Global,
        words: usize,
        most: usize,
        cols: usize,
        w: u32,
    ) -> Result<WordsBuffers, AllocError>
        requires words { words ≤ 64 }
        requires most { most ≤ 4096 }
        requires cols { cols ≤ 1024 }
        requires width { (6 ≤ w) × (w ≤ 10) }
        ensures { IfOk result (IsWordsBuffers most cols) }
    {
        let step = split_count(w);
        let mut weights = vec![in alloc; 0; step]?;
        put_weights(&mut weights, w);
        let common = vec![in alloc; 0; most]?;
        let combined = vec![in alloc; 0; cols]?;
        let Ok(higher) = Matrix::zeros(alloc, words * (step - 1), most) else {
            return Err(AllocError);
        };
        let Ok(products) = Matrix::zeros(alloc, words * (step - 1), cols) else {
            return Err(AllocError);
        };
        Ok(WordsBuffers {
            weights,
            common,
            pivot: 0,
            combined,
            higher,
            products,
        })
    }

    /// Looks for a list of which the words of the listed rows change by multiples, and makes its
    /// product with the public rows, those of the listed rows first. The digits of the server's
    /// hint are those before the change.
    pub(crate) fn guess<K: Kernel, S: DigitStore>(
        &mut self,
        kernel: K,
        server_hint: &S,
        hint: &Matrix,
        w: u32,
        listed: &[usize],
        public: &Matrix,
    )
        requires width { (6 ≤ w) × (w ≤ 10) }
        requires listed { AreRowsBelow hint.now.rows listed.now }
        requires few { length listed.now ≤ public.now.rows }
        requires server_rows { (S.digits server_hint.now).rows ≡ hint.now.cols * split_count w }
        requires server_cols { (S.digits server_hint.now).cols ≡ hint.now.rows }
        requires room { IsWordsBuffers public.now.rows public.now.cols self.old }
        ensures room { IsWordsBuffers public.now.rows public.now.cols self.new }
        ensures combined { HasCombined public.now self.new }
        ensures guessed { IsGuessFor w (S.digits server_hint.now) hint.now listed.now
            self.new.common.items self.new.pivot }
    {
        self.pivot = find_multiplier(server_hint, hint, w, listed, &mut self.common);
        self.combined.fill(0);
        add_changes(kernel, &mut self.combined, &self.common, public, 0);
    }
}

// Writes the negative weights of digits of w bits, the lowest first.
fn put_weights(weights: &mut [u32], w: u32)
    requires some { 0 < length weights.old }
    requires width { w ≤ 10 }
    ensures first { slice_index weights.new 0 ≡ 2 ^ 32 - 1 }
    ensures length { length weights.new ≡ length weights.old }
{
    weights[0] = u32::MAX;
    for t in 1..weights.len() {
        weights[t] = weights[t - 1].wrapping_mul(1 << w);
    }
}

// Writes a number for each listed row, so that words change by multiples of them, if there are such
// numbers, and returns the place of one that is 1; if nothing changes, or too few rows do, all are
// zero. The numbers are the changes of one of the first words, divided modulo 2^32 by the one that
// is divisible by the lowest power of two. What the division by that power leaves open shows in no
// multiple, as each change is divisible by it.
fn find_multiplier<S: DigitStore>(
    server_hint: &S,
    hint: &Matrix,
    w: u32,
    listed: &[usize],
    common: &mut [u32],
) -> usize
    requires width { (6 ≤ w) × (w ≤ 10) }
    requires listed { AreRowsBelow hint.now.rows listed.now }
    requires few { length listed.now ≤ length common.old }
    requires server_rows { (S.digits server_hint.now).rows ≡ hint.now.cols * split_count w }
    requires server_cols { (S.digits server_hint.now).cols ≡ hint.now.rows }
    ensures length { length common.new ≡ length common.old }
    ensures guessed { IsGuessFor w (S.digits server_hint.now) hint.now listed.now common.new
        result }
{
    if listed.len() < FEWEST_ROWS {
        common.fill(0);
        return 0;
    }
    let least = least_power(server_hint, hint, w, listed, common);
    match put_first_changes(server_hint, hint, w, listed, least, common) {
        Some(pivot) => {
            let odd = shifted(common[pivot], least);
            divide(common, least, inverse_of_odd(odd));
            pivot
        }
        None => {
            common.fill(0);
            0
        }
    }
}

// The lowest of the powers of two that divide the changes of the first words, as its number of
// bits: 32 if nothing changes. What `changes` holds afterwards has no meaning.
fn least_power<S: DigitStore>(
    server_hint: &S,
    hint: &Matrix,
    w: u32,
    listed: &[usize],
    changes: &mut [u32],
) -> u32
    requires width { (6 ≤ w) × (w ≤ 10) }
    requires listed { AreRowsBelow hint.now.rows listed.now }
    requires few { length listed.now ≤ length changes.old }
    requires server_rows { (S.digits server_hint.now).rows ≡ hint.now.cols * split_count w }
    requires server_cols { (S.digits server_hint.now).cols ≡ hint.now.rows }
    ensures length { length changes.new ≡ length changes.old }
    ensures power { IsLeastPower (min hint.now.cols 16) (length changes.old)
        (word_change w (S.digits server_hint.now) hint.now listed.now) result }
{
    let mut least = u32::BITS;
    for word in 0..hint.cols().min(TRIED_WORDS) {
        put_word_changes(server_hint, hint, w, listed, word, changes);
        least = least.min(zero_bits(changes));
    }
    least
}

// Writes the changes of the first of the words that has one which ends with exactly so many zero
// bits, and returns its place.
fn put_first_changes<S: DigitStore>(
    server_hint: &S,
    hint: &Matrix,
    w: u32,
    listed: &[usize],
    least: u32,
    changes: &mut [u32],
) -> Option<usize>
    requires width { (6 ≤ w) × (w ≤ 10) }
    requires listed { AreRowsBelow hint.now.rows listed.now }
    requires few { length listed.now ≤ length changes.old }
    requires server_rows { (S.digits server_hint.now).rows ≡ hint.now.cols * split_count w }
    requires server_cols { (S.digits server_hint.now).cols ≡ hint.now.rows }
    ensures length { length changes.new ≡ length changes.old }
    ensures first { let change = word_change w (S.digits server_hint.now) hint.now listed.now in
        MatchOption result
        ((j : ℕ) → j < min hint.now.cols 16 → HasNone (length changes.old) (change j) least)
        (AreFirstChanges (min hint.now.cols 16) (length changes.old) change least changes.new) }
{
    for word in 0..hint.cols().min(TRIED_WORDS) {
        put_word_changes(server_hint, hint, w, listed, word, changes);
        if let Some(place) = place_ending_with(changes, least) {
            return Some(place);
        }
    }
    None
}

// The place of the first number that ends with exactly so many zero bits.
fn place_ending_with(numbers: &[u32], bits: u32) -> Option<usize>
    ensures { MatchOption result
        (HasNone (length numbers.now) (λ k. slice_index numbers.now k) bits)
        (IsFirstEnding (length numbers.now) (λ k. slice_index numbers.now k) bits) }
{
    for k in 0..numbers.len() {
        if numbers[k].trailing_zeros() == bits {
            return Some(k);
        }
    }
    None
}

// The fewest zero bits at the end of a number.
fn zero_bits(numbers: &[u32]) -> u32
    ensures { IsFewestZeros (length numbers.now) (λ k. slice_index numbers.now k) result }
{
    let mut least = u32::BITS;
    for k in 0..numbers.len() {
        least = least.min(numbers[k].trailing_zeros());
    }
    least
}

// Writes the changes of one word of the listed rows, and zeros after them.
fn put_word_changes<S: DigitStore>(
    server_hint: &S,
    hint: &Matrix,
    w: u32,
    listed: &[usize],
    word: usize,
    changes: &mut [u32],
)
    requires width { (6 ≤ w) × (w ≤ 10) }
    requires listed { AreRowsBelow hint.now.rows listed.now }
    requires few { length listed.now ≤ length changes.old }
    requires word { word < hint.now.cols }
    requires server_rows { (S.digits server_hint.now).rows ≡ hint.now.cols * split_count w }
    requires server_cols { (S.digits server_hint.now).cols ≡ hint.now.rows }
    ensures length { length changes.new ≡ length changes.old }
    ensures changes { (k : ℕ) → k < length changes.old → slice_index changes.new k ≡
        word_change w (S.digits server_hint.now) hint.now listed.now word k }
{
    changes.fill(0);
    for k in 0..listed.len() {
        let old = word_in(server_hint, w, word, listed[k]);
        changes[k] = hint.get(listed[k], word).wrapping_sub(old);
    }
}

// The word whose digits are in a column of the server's hint.
fn word_in<S: DigitStore>(server_hint: &S, w: u32, word: usize, col: usize) -> u32
    requires width { (6 ≤ w) × (w ≤ 10) }
    requires rows { word * split_count w + split_count w ≤ (S.digits server_hint.now).rows }
    requires col { col < (S.digits server_hint.now).cols }
    ensures { result ≡ recomposed_at w (S.digits server_hint.now) word col }
{
    let _rows = server_hint.rows();
    let step = split_count(w);
    let first = word * step;
    let mut value: u32 = 0;
    for t in 0..step {
        let digit = server_hint.get(first + t, col);
        value = value.wrapping_add(digit.wrapping_mul(1 << (w * t as u32)));
    }
    value
}

// The number that gives 1 with an odd one, modulo 2^32, by Newton's steps: each doubles the bits
// that are right, at least two at first.
fn inverse_of_odd(x: u32) -> u32
    ensures { x % 2 ≡ 1 → x * result % 2 ^ 32 ≡ 1 }
{
    let mut inverse = x;
    for i in 0..4usize {
        let error = 2u32.wrapping_sub(x.wrapping_mul(inverse));
        inverse = inverse.wrapping_mul(error);
    }
    inverse
}

// Divides each number by a power of two, rounded down, and multiplies it by `inverse`, modulo 2^32.
fn divide(numbers: &mut [u32], bits: u32, inverse: u32)
    ensures length { length numbers.new ≡ length numbers.old }
    ensures divided { (k : ℕ) → k < length numbers.old → slice_index numbers.new k ≡
        slice_index numbers.old k / 2 ^ bits * inverse % 2 ^ 32 }
{
    for k in 0..numbers.len() {
        numbers[k] = shifted(numbers[k], bits).wrapping_mul(inverse);
    }
}

// A number divided by a power of two, rounded down.
fn shifted(x: u32, bits: u32) -> u32
    ensures { result ≡ x / 2 ^ bits }
{
    if bits < u32::BITS { x >> bits } else { 0 }
}

/// Adds to a block of rows of the client's hint the public rows, each times the change of its
/// digit. If the changes are those of whole words that follow the guessed list, only those of their
/// higher digits are multiplied.
pub(crate) fn add_changed<K: Kernel>(
    kernel: K,
    client_hint: &mut Matrix,
    block: RowBlock,
    n: usize,
    room: &mut RowsBuffers,
)
    requires block { block.first + block.count ≤ client_hint.old.rows }
    requires rows { block.count ≤ room.old.changes.rows }
    requires few { n ≤ room.old.public.rows }
    requires cols { client_hint.old.cols ≡ room.old.public.cols }
    requires room { IsRowsBuffers room.old.public.rows room.old.public.cols room.old }
    requires cleared { (k q : ℕ) → n ≤ k → k < room.old.public.rows → q < room.old.public.cols →
        entry room.old.public k q ≡ 0 }
    requires combined { HasCombined room.old.public room.old.words }
    ensures added { AddsRows client_hint.old client_hint.new block.first block.count
        room.old.changes room.old.public 0 n }
    ensures public { room.new.public ≡ room.old.public }
    ensures changes { room.new.changes ≡ room.old.changes }
    ensures combined { HasCombined room.new.public room.new.words }
    ensures room { IsRowsBuffers room.old.public.rows room.old.public.cols room.new }
{
    if takes_words(kernel, block.count, n, room) {
        multiply_higher(kernel, &room.changes, &room.public, &mut room.words);
        let changed = ChangedWords {
            count: block.count,
            n,
            changes: &room.changes,
            public: &room.public,
            words: &room.words,
        };
        add_words(kernel, client_hint, block.first, &changed, &mut room.sums);
    } else {
        add_block(kernel, client_hint, block, n, &room.changes, &room.public);
    }
}

// Whether so many rows of changes are those of whole words for which there is room, the listed rows
// are many enough, and the first word follows the guessed list.
fn takes_words<K: Kernel>(kernel: K, count: usize, n: usize, room: &mut RowsBuffers) -> bool
    requires rows { count ≤ room.old.changes.rows }
    requires few { n ≤ room.old.public.rows }
    requires room { IsRowsBuffers room.old.public.rows room.old.public.cols room.old }
    ensures words { IsTrue result → AreWholeWords count room.old.words }
    ensures kept { room.new ≡ record room.old { sums = room.new.sums } }
    ensures sums { length room.new.sums.items ≡ length room.old.sums.items }
{
    let step = room.words.weights.len();
    if n < FEWEST_ROWS || n < room.public.rows() / 2 || count < step || count % step != 0 {
        return false;
    }
    if room.words.higher.rows() < count / step * (step - 1) {
        return false;
    }
    factor_of_word(kernel, 0, n, &room.changes, &room.words, &mut room.sums).is_some()
}

// The factor by which the word whose digits' changes begin in row i changes, times the guessed
// list; `None` if the word does not follow that list.
fn factor_of_word<K: Kernel>(
    kernel: K,
    i: usize,
    n: usize,
    changes: &Matrix,
    words: &WordsBuffers,
    sums: &mut [u32],
) -> Option<u32>
    requires rows { i + length words.now.weights.items ≤ changes.now.rows }
    requires few { n ≤ changes.now.cols }
    requires common { length words.now.common.items ≡ changes.now.cols }
    requires sums { length sums.old ≡ changes.now.cols }
    ensures follows { IfSome result (IsMultiple words.now.weights.items changes.now i n
        words.now.common.items) }
    ensures sums { length sums.new ≡ length sums.old }
{
    sums.fill(0);
    kernel.add_rows(sums, &words.weights, changes, i);
    let factor = match sums.get(words.pivot) {
        Some(sum) => sum.wrapping_neg(),
        None => 0,
    };
    kernel.add_scaled(sums, &words.common, factor);
    if are_zero(&sums[..n]) {
        Some(factor)
    } else {
        None
    }
}

// Makes the products of the changes of higher digits with the public rows.
fn multiply_higher<K: Kernel>(
    kernel: K,
    changes: &Matrix,
    public: &Matrix,
    words: &mut WordsBuffers,
)
    requires cols { changes.now.cols ≡ public.now.rows }
    requires room { IsWordsBuffers public.now.rows public.now.cols words.old }
    ensures products { HasHigherProducts (length words.old.weights.items) changes.now public.now
        words.new.products }
    ensures higher_rows { words.new.higher.rows ≡ words.old.higher.rows }
    ensures kept { words.new ≡ record words.old {
      higher = words.new.higher;
      products = words.new.products;
    } }
    ensures room { IsWordsBuffers public.now.rows public.now.cols words.new }
{
    let weights: &[u32] = &words.weights;
    let step = weights.len();
    put_higher(changes, step, &mut words.higher);
    kernel.mul_into(&words.higher, public, &mut words.products);
}

// Copies the rows of higher digits beside one another.
fn put_higher(changes: &Matrix, step: usize, higher: &mut Matrix)
    requires some { 1 < step }
    requires few { higher.old.rows ≤ 4096 }
    requires cols { higher.old.cols ≡ changes.now.cols }
    ensures rows { higher.new.rows ≡ higher.old.rows }
    ensures cols { higher.new.cols ≡ higher.old.cols }
    ensures copied { HasHigherRows step changes.now higher.new }
{
    for h in 0..higher.rows() {
        let source = h + h / (step - 1) + 1;
        if source < changes.rows() {
            higher.row_mut(h).copy_from_slice(changes.row(source));
        }
    }
}

// Changes of whole words: those of their digits are in the first `count` rows of `changes`, and the
// first n public rows are those of the listed rows. `words` has the products of the higher digits.
#[derive(Clone, Copy)]
struct ChangedWords<'a> {
    count: usize,
    n: usize,
    changes: &'a Matrix,
    public: &'a Matrix,
    words: &'a WordsBuffers,
}

// Adds to rows of the client's hint, from row `first` on, what the changes of whole words add.
fn add_words<K: Kernel>(
    kernel: K,
    client_hint: &mut Matrix,
    first: usize,
    changed: &ChangedWords<'_>,
    sums: &mut [u32],
)
    requires block { first + changed.now.count ≤ client_hint.old.rows }
    requires rows { changed.now.count ≤ changed.now.changes.now.rows }
    requires few { changed.now.n ≤ changed.now.public.now.rows }
    requires client_cols { client_hint.old.cols ≡ changed.now.public.now.cols }
    requires changes_cols { changed.now.changes.now.cols ≡ changed.now.public.now.rows }
    requires cleared { (k q : ℕ) → changed.now.n ≤ k → k < changed.now.public.now.rows →
        q < changed.now.public.now.cols → entry changed.now.public.now k q ≡ 0 }
    requires room { IsWordsBuffers changed.now.public.now.rows changed.now.public.now.cols
        changed.now.words.now }
    requires combined { HasCombined changed.now.public.now changed.now.words.now }
    requires products { HasHigherProducts (length changed.now.words.now.weights.items)
        changed.now.changes.now changed.now.public.now changed.now.words.now.products }
    requires words { AreWholeWords changed.now.count changed.now.words.now }
    requires sums { length sums.old ≡ changed.now.changes.now.cols }
    ensures added { AddsRows client_hint.old client_hint.new first changed.now.count
        changed.now.changes.now changed.now.public.now 0 changed.now.n }
    ensures sums { length sums.new ≡ length sums.old }
{
    client_hint.rows();
    for i in 0..changed.count {
        let out = client_hint.row_mut(first + i);
        add_row(kernel, out, i, changed, sums);
    }
}

// Adds to one row what the changes in row i add.
fn add_row<K: Kernel>(
    kernel: K,
    out: &mut [u32],
    i: usize,
    changed: &ChangedWords<'_>,
    sums: &mut [u32],
)
    requires row { i < changed.now.count }
    requires rows { changed.now.count ≤ changed.now.changes.now.rows }
    requires few { changed.now.n ≤ changed.now.public.now.rows }
    requires out { length out.old ≡ changed.now.public.now.cols }
    requires changes_cols { changed.now.changes.now.cols ≡ changed.now.public.now.rows }
    requires cleared { (k q : ℕ) → changed.now.n ≤ k → k < changed.now.public.now.rows →
        q < changed.now.public.now.cols → entry changed.now.public.now k q ≡ 0 }
    requires room { IsWordsBuffers changed.now.public.now.rows changed.now.public.now.cols
        changed.now.words.now }
    requires combined { HasCombined changed.now.public.now changed.now.words.now }
    requires products { HasHigherProducts (length changed.now.words.now.weights.items)
        changed.now.changes.now changed.now.public.now changed.now.words.now.products }
    requires words { AreWholeWords changed.now.count changed.now.words.now }
    requires sums { length sums.old ≡ changed.now.changes.now.cols }
    ensures added { IsRowAdded out.old out.new changed.now.changes.now changed.now.public.now i }
    ensures sums { length sums.new ≡ length sums.old }
{
    let words = changed.words;
    let weights: &[u32] = &words.weights;
    let step = weights.len();
    if i % step == 0 {
        add_lowest(kernel, out, i, changed, sums);
    } else {
        kernel.add_scaled(out, words.products.row(i - i / step - 1), 1);
    }
}

// The same for the changes of a lowest digit: if the word follows the guessed list, by the products
// of its higher digits.
fn add_lowest<K: Kernel>(
    kernel: K,
    out: &mut [u32],
    i: usize,
    changed: &ChangedWords<'_>,
    sums: &mut [u32],
)
    requires row { i < changed.now.count }
    requires lowest { i % length changed.now.words.now.weights.items ≡ 0 }
    requires rows { changed.now.count ≤ changed.now.changes.now.rows }
    requires few { changed.now.n ≤ changed.now.public.now.rows }
    requires out { length out.old ≡ changed.now.public.now.cols }
    requires changes_cols { changed.now.changes.now.cols ≡ changed.now.public.now.rows }
    requires cleared { (k q : ℕ) → changed.now.n ≤ k → k < changed.now.public.now.rows →
        q < changed.now.public.now.cols → entry changed.now.public.now k q ≡ 0 }
    requires room { IsWordsBuffers changed.now.public.now.rows changed.now.public.now.cols
        changed.now.words.now }
    requires combined { HasCombined changed.now.public.now changed.now.words.now }
    requires products { HasHigherProducts (length changed.now.words.now.weights.items)
        changed.now.changes.now changed.now.public.now changed.now.words.now.products }
    requires words { AreWholeWords changed.now.count changed.now.words.now }
    requires sums { length sums.old ≡ changed.now.changes.now.cols }
    ensures added { IsRowAdded out.old out.new changed.now.changes.now changed.now.public.now i }
    ensures sums { length sums.new ≡ length sums.old }
{
    let words = changed.words;
    changed.changes.rows();
    if let Some(factor) = factor_of_word(kernel, i, changed.n, changed.changes, words, sums) {
        let weights: &[u32] = &words.weights;
        let higher = i - i / weights.len();
        kernel.add_rows(out, &weights[1..], &words.products, higher);
        kernel.add_scaled(out, &words.combined, factor);
    } else {
        kernel.add_rows(out, changed.changes.row(i), changed.public, 0);
    }
}
