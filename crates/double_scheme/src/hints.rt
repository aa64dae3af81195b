//! The hints of both sides, and the digits of a matrix read across.

ghost use Rattle.std.specs.Prelude.{◌≡◌, ◌≢◌, ◌/◌, ◌%◌, length, ℕ, ◌+◌, ◌*◌, ◌<◌, ◌≤◌, IfOk};
ghost use Rattle.matrix_u32.specs.Matrix.{WordMatrix, IsWhole, row, column, transpose};
ghost use Rattle.lane_kernels.specs.Digit.{split_count, split_words};
ghost use Rattle.digit_pack.specs.Digits.{decomposed};
ghost use Rattle.simple_scheme.specs.Simple.{hint_of};
ghost use Rattle.double_scheme.specs.Double.{server_hint_of, client_hint_of};

use digit_pack::{DigitStore, split_count, word_digit};
use matrix_u32::{Kernel, Matrix};
use simple_scheme::{HintWatcher, Unwatched};
use std::alloc::{AllocError, Global};

// The columns of a matrix as rows, each word as a column of its digits. A column is read once, into
// a list of its own, since its words are far apart.
pub(crate) fn decompose<S: DigitStore>(alloc: Global, a: &Matrix, w: u32) -> Result<S, AllocError>
    requires width { (6 ≤ w) × (w ≤ 10) }
    requires size { a.now.cols * split_count w * a.now.rows ≤ S.most }
    ensures { IfOk result (λ store. S.digits store ≡ decomposed w (transpose a.now)) }
{
    let count = split_count(w);
    let Some(rows) = a.cols().checked_mul(count) else {
        return Err(AllocError);
    };
    let Ok(mut store) = S::zeros(alloc, rows, a.rows()) else {
        return Err(AllocError);
    };
    // Called for what it says of the store: there are rows * cols digits.
    store.rows();
    let mut words = vec![in alloc; 0; a.rows()]?;
    for r in 0..rows {
        turn_to_row(a, w, r, &mut words);
        put_digit_row(&mut store, &words, w, r);
    }
    Ok(store)
}

// Makes `words` the column of a whose digits are in row r, from that of the row before.
fn turn_to_row(a: &Matrix, w: u32, r: usize, words: &mut [u32])
    requires width { (6 ≤ w) × (w ≤ 10) }
    requires row { r < a.now.cols * split_count w }
    requires room { length words.old ≡ a.now.rows }
    requires before { r % split_count w ≢ 0 → words.old ≡ column a.now (r / split_count w) }
    ensures { words.new ≡ column a.now (r / split_count w) }
{
    let count = split_count(w);
    if r % count == 0 {
        read_column(a, r / count, words);
    }
}

// The words of column j.
fn read_column(a: &Matrix, j: usize, words: &mut [u32])
    requires col { j < a.now.cols }
    requires room { length words.old ≡ a.now.rows }
    ensures { words.new ≡ column a.now j }
{
    for i in 0..words.len() {
        words[i] = a.get(i, j);
    }
}

// Writes a digit of each word into row r, and leaves the rows before it.
fn put_digit_row<S: DigitStore>(store: &mut S, words: &[u32], w: u32, r: usize)
    requires width { (6 ≤ w) × (w ≤ 10) }
    requires row { r < (S.digits store.old).rows }
    requires wide { length words.now ≡ (S.digits store.old).cols }
    requires whole { IsWhole (S.digits store.old) }
    ensures shape { ((S.digits store.new).rows ≡ (S.digits store.old).rows) ×
        ((S.digits store.new).cols ≡ (S.digits store.old).cols) × IsWhole (S.digits store.new) }
    ensures written { row (S.digits store.new) r
        ≡ split_words w (r % split_count w) words.now }
    ensures kept { (i : ℕ) → i < r → row (S.digits store.new) i ≡ row (S.digits store.old) i }
{
    let t = r % split_count(w);
    for j in 0..words.len() {
        store.set(r, j, word_digit(words[j], w, t));
    }
}

/// The hints of both sides, from the first layer's hint D A1 and the second public matrix A2, which
/// have as many rows and columns as each other, ℓ and n: the server's, the κ n rows of digits of
/// A1^T D^T, w bits to a digit, and the client's, the server's times A2.
///
/// The first layer's hint is read across: no transposed copy is made, and nothing is held but the
/// two hints and one of its columns.
///
/// # Errors
///
/// Only refused memory gives an `Err`: the store has room for the server's hint, and there are at
/// most 1024 columns.
pub fn setup<K: Kernel, S: DigitStore>(
    alloc: Global,
    kernel: K,
    hint: &Matrix,
    a2: &Matrix,
    w: u32,
) -> Result<(S, Matrix), AllocError>
    requires width { (6 ≤ w) × (w ≤ 10) }
    requires rows { a2.now.rows ≡ hint.now.rows }
    requires cols { a2.now.cols ≡ hint.now.cols }
    requires room { hint.now.cols * split_count w * hint.now.rows ≤ S.most }
    requires col_limit { hint.now.cols ≤ 1024 }
    ensures server { IfOk result (λ hints. (digits a1 : WordMatrix) → a1.rows ≡ digits.cols →
        hint.now ≡ hint_of digits a1 →
        S.digits hints.0 ≡ server_hint_of w digits a1) }
    ensures read_across { IfOk result (λ hints. S.digits hints.0 ≡
        decomposed w (transpose hint.now)) }
    ensures client { IfOk result (λ hints. hints.1 ≡ client_hint_of (S.digits hints.0) a2.now) }
    ensures server_sizes { IfOk result (λ hints.
        ((S.digits hints.0).rows ≡ a2.now.cols * split_count w) ×
        ((S.digits hints.0).cols ≡ hint.now.rows)) }
    ensures client_sizes { IfOk result (λ hints. (hints.1.rows ≡ a2.now.cols * split_count w) ×
        (hints.1.cols ≡ a2.now.cols)) }
{
    setup_watched(alloc, kernel, hint, a2, w, &mut Unwatched)
}

/// The same hints; that of the client is watched while its rows are made.
pub fn setup_watched<K: Kernel, S: DigitStore, W: HintWatcher>(
    alloc: Global,
    kernel: K,
    hint: &Matrix,
    a2: &Matrix,
    w: u32,
    watcher: &mut W,
) -> Result<(S, Matrix), AllocError>
    requires width { (6 ≤ w) × (w ≤ 10) }
    requires rows { a2.now.rows ≡ hint.now.rows }
    requires cols { a2.now.cols ≡ hint.now.cols }
    requires room { hint.now.cols * split_count w * hint.now.rows ≤ S.most }
    requires col_limit { hint.now.cols ≤ 1024 }
    ensures server { IfOk result (λ hints. (digits a1 : WordMatrix) → a1.rows ≡ digits.cols →
        hint.now ≡ hint_of digits a1 →
        S.digits hints.0 ≡ server_hint_of w digits a1) }
    ensures read_across { IfOk result (λ hints. S.digits hints.0 ≡
        decomposed w (transpose hint.now)) }
    ensures client { IfOk result (λ hints. hints.1 ≡ client_hint_of (S.digits hints.0) a2.now) }
    ensures server_sizes { IfOk result (λ hints.
        ((S.digits hints.0).rows ≡ a2.now.cols * split_count w) ×
        ((S.digits hints.0).cols ≡ hint.now.rows)) }
    ensures client_sizes { IfOk result (λ hints. (hints.1.rows ≡ a2.now.cols * split_count w) ×
        (hints.1.cols ≡ a2.now.cols)) }
{
    matrix_u32::laws::product_transposes();
    let server: S = decompose(alloc, hint, w)?;
    let client = simple_scheme::setup_watched(alloc, kernel, &server, a2, watcher)?;
    Ok((server, client))
}
