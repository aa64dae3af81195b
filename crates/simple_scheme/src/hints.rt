//! The hint.

ghost use Rattle.std.specs.Prelude.{◌≡◌, ℕ, ◌<◌, ◌≤◌, ◌+◌, ◌*◌, ◌^◌, length, IfOk, OnOk};
ghost use Rattle.matrix_u32.specs.Matrix.{IsWhole, product, row};
ghost use Rattle.simple_scheme.specs.Simple.{hint_of};
ghost use Rattle.simple_scheme.specs.Blocks.{rows_from};

use digit_pack::DigitStore;
use matrix_u32::{Kernel, Matrix};
use std::alloc::{AllocError, Global};

// How many rows of digits are multiplied at a time: they and their rows of the hint stay in a near
// cache while all rows of the public matrix pass.
const BLOCK: usize = 64;

/// Whoever makes a hint calls one of these after some of its rows, again and again. The hint is the
/// same with any of them.
pub trait HintWatcher {
    /// So many rows of the hint are made, of so many in all.
    fn see(&mut self, made: usize, rows: usize);
}

/// Nothing watches a hint that is made.
#[derive(Clone, Copy)]
pub struct Unwatched;

impl HintWatcher for Unwatched {
    fn see(&mut self, _made: usize, _rows: usize) {}
}

/// The hint of a matrix of digits: the digits times the public matrix `a1`, which has a row for
/// each column of digits. The hint has as many rows as the digits, and as many columns as `a1`.
///
/// The digits are read once each, some rows at a time, and these rows are given back before the
/// next are read.
///
/// # Errors
///
/// Only refused memory gives an `Err`: that the hint has at most 33,554,432 words is a condition.
pub fn setup<K: Kernel, S: DigitStore>(
    alloc: Global,
    kernel: K,
    digits: &S,
    a1: &Matrix,
) -> Result<Matrix, AllocError>
    requires rows { a1.now.rows ≡ (S.digits digits.now).cols }
    requires size { (S.digits digits.now).rows * a1.now.cols ≤ 33554432 }
    ensures { IfOk result (λ hint. hint ≡ hint_of (S.digits digits.now) a1.now) }
{
    setup_watched(alloc, kernel, digits, a1, &mut Unwatched)
}

/// The same hint, which is watched while its rows are made.
#[tactic(auto, unfolding(crate::specs::Simple::hint_of))]
pub fn setup_watched<K: Kernel, S: DigitStore, W: HintWatcher>(
    alloc: Global,
    kernel: K,
    digits: &S,
    a1: &Matrix,
    watcher: &mut W,
) -> Result<Matrix, AllocError>
    requires rows { a1.now.rows ≡ (S.digits digits.now).cols }
    requires size { (S.digits digits.now).rows * a1.now.cols ≤ 33554432 }
    ensures { IfOk result (λ hint. hint ≡ hint_of (S.digits digits.now) a1.now) }
{
    let rows = digits.rows();
    let Ok(mut hint) = Matrix::zeros(alloc, rows, a1.cols()) else {
        return Err(AllocError);
    };
    let mut start = 0;
    while start < rows {
        let count = BLOCK.min(rows - start);
        put_rows(alloc, kernel, digits, a1, start, count, &mut hint)?;
        start += count;
        watcher.see(start, rows);
    }
    Ok(hint)
}

// Writes `count` rows of the product into the hint, from `start` on, and leaves the rows before
// them.
fn put_rows<K: Kernel, S: DigitStore>(
    alloc: Global,
    kernel: K,
    digits: &S,
    a: &Matrix,
    start: usize,
    count: usize,
    hint: &mut Matrix,
) -> Result<(), AllocError>
    requires inside { start + count ≤ (S.digits digits.now).rows }
    requires inner { (S.digits digits.now).cols ≡ a.now.rows }
    requires room { start + count < 2 ^ 64 }
    requires high { hint.old.rows ≡ (S.digits digits.now).rows }
    requires wide { hint.old.cols ≡ a.now.cols }
    requires whole { IsWhole hint.old }
    ensures shape { OnOk result ((hint.new.rows ≡ hint.old.rows) ×
        (hint.new.cols ≡ hint.old.cols) × IsWhole hint.new) }
    ensures written { OnOk result ((i : ℕ) → start ≤ i → i < start + count →
        row hint.new i ≡ row (product (S.digits digits.now) a.now) i) }
    ensures kept { OnOk result ((i : ℕ) → i < start → row hint.new i ≡ row hint.old i) }
{
    let block = unpacked_rows(alloc, digits, start, count)?;
    let Ok(mut made) = Matrix::zeros(alloc, count, a.cols()) else {
        return Err(AllocError);
    };
    kernel.mul_into(&block, a, &mut made);
    for i in 0..count {
        hint.row_mut(start + i).copy_from_slice(made.row(i));
    }
    Ok(())
}

// `count` rows of digits from `start` on, one digit in a word.
fn unpacked_rows<S: DigitStore>(
    alloc: Global,
    digits: &S,
    start: usize,
    count: usize,
) -> Result<Matrix, AllocError>
    requires inside { start + count ≤ (S.digits digits.now).rows }
    requires room { start + count < 2 ^ 64 }
    ensures { IfOk result (λ m. m ≡ rows_from (S.digits digits.now) start count) }
{
    let Ok(mut block) = Matrix::zeros(alloc, count, digits.cols()) else {
        return Err(AllocError);
    };
    for i in 0..count {
        read_row(digits, start + i, block.row_mut(i));
    }
    Ok(block)
}

// The digits of row i.
fn read_row<S: DigitStore>(digits: &S, i: usize, out: &mut [u32])
    requires row { i < (S.digits digits.now).rows }
    requires width { length out.old ≡ (S.digits digits.now).cols }
    ensures { out.new ≡ row (S.digits digits.now) i }
{
    for j in 0..out.len() {
        out[j] = digits.get(i, j);
    }
}
