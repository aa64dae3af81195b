//! Stores of digits.

ghost use Rattle.std.specs.Prelude.{◌≡◌, ◌<◌, ◌≤◌, ◌+◌, ◌*◌, ◌⊎◌, ◌↔◌, ℕ, IfOk, IfErr, IsErrOf};
ghost use Rattle.std.specs.Prelude.{IsOk, OnOk, OnErr, length, slice_index};
ghost use Rattle.matrix_u32.specs.Matrix.{WordMatrix, IsWhole, entry, times_vector, widened};
ghost use Rattle.matrix_u32.specs.Matrix.{with_entry, zero_matrix};
ghost use Rattle.digit_pack.specs.Columns.{WritesColumn};
ghost use Rattle.digit_pack.specs.Products.{rows_times_vector};

use crate::widening::widened_words;
use matrix_u32::{Kernel, MAX_WORDS, Matrix, MatrixError};
use std::alloc::Global;
use std::marker::Model;

/// What keeps a matrix of digits below 1024. Its contract is that of a list of rows: `get` gives
/// what `set` last put there, every other place is kept, and the product is made on that list.
pub trait DigitStore: Sized + Drop {
    /// The matrix, however it is kept.
    ghost digits: { Self → WordMatrix };

    /// How many digits it keeps at most.
    ghost most: { ℕ };

    /// Digits that are all 0. `TooLarge` exactly when there would be more than `most` of them; else
    /// the digits, or `Memory`.
    fn zeros(alloc: Global, rows: usize, cols: usize) -> Result<Self, MatrixError>
        ensures zeros { IfOk result (λ s. (digits s ≡ zero_matrix rows cols) ×
            (rows * cols ≤ most)) }
        ensures refused { IfErr result (λ e.
            ((e ≡ MatrixError.TooLarge) × (most < rows * cols))
            ⊎ ((e ≡ MatrixError.Memory) × (rows * cols ≤ most))) };

    /// The number of rows.
    fn rows(&self) -> usize
        ensures value { result ≡ (digits self.now).rows }
        ensures whole { IsWhole (digits self.now) };

    /// The number of columns.
    fn cols(&self) -> usize
        ensures { result ≡ (digits self.now).cols };

    /// The digit in row i, column j, both counted from 0.
    fn get(&self, i: usize, j: usize) -> u32
        requires row { i < (digits self.now).rows }
        requires col { j < (digits self.now).cols }
        ensures { result ≡ entry (digits self.now) i j };

    /// Sets the digit in row i, column j, and no other.
    fn set(&mut self, i: usize, j: usize, digit: u32)
        requires row { i < (digits self.old).rows }
        requires col { j < (digits self.old).cols }
        requires small { digit < 1024 }
        ensures { digits self.new ≡ with_entry (digits self.old) i j digit };

    /// Swaps digits of column j with others: `others` has one for each row from `first` on, and
    /// afterwards those that were there, in the same order.
    fn swap_digits(&mut self, first: usize, j: usize, others: &mut [u32])
        requires rows { first + length others.old ≤ (digits self.old).rows }
        requires col { j < (digits self.old).cols }
        requires small { (b : ℕ) → b < length others.old → slice_index others.old b < 1024 }
        ensures written { WritesColumn (digits self.old) (digits self.new) first j others.old }
        ensures count { length others.new ≡ length others.old }
        ensures read { (b : ℕ) → b < length others.old →
            slice_index others.new b ≡ entry (digits self.old) (first + b) j }
    {
        self.rows();
        for b in 0..others.len() {
            let digit = self.get(first + b, j);
            self.set(first + b, j, others[b]);
            others[b] = digit;
        }
    }

    /// Adds columns of zeros after the last one, up to `cols` columns; all digits that there were
    /// stay.
    ///
    /// `TooLarge` exactly when there would be more than `most` digits, judged before any memory is
    /// asked for; else `Memory`, if that is refused. After a refusal all is as it was. Asking for
    /// as many columns as there are gives `Ok`, and takes no memory.
    fn grow(&mut self, cols: usize) -> Result<(), MatrixError>
        requires { (digits self.old).cols ≤ cols }
        ensures grown { OnOk result (digits self.new ≡ widened (digits self.old) cols) }
        ensures too_large { IsErrOf result MatrixError.TooLarge
            ↔ (most < (digits self.old).rows * cols) }
        ensures cause { IfErr result (λ e.
            (e ≡ MatrixError.TooLarge) ⊎ (e ≡ MatrixError.Memory)) }
        ensures refused { OnErr result (digits self.new ≡ digits self.old) }
        ensures same { (digits self.old).cols ≡ cols → IsOk result };

    /// Writes the digits times x into `out`, whatever it held.
    fn mul_vec<K: Kernel>(&self, kernel: K, x: &[u32], out: &mut [u32])
        requires x_fits { length x.now ≡ (digits self.now).cols }
        requires out_fits { length out.old ≡ (digits self.now).rows }
        ensures { out.new ≡ times_vector (digits self.now) x.now };

    /// Writes the digits times x into `x_out` and the digits times y into `y_out`, whatever they
    /// held. A store of many digits reads them once for both.
    fn mul_two<K: Kernel>(
        &self,
        kernel: K,
        x: &[u32],
        y: &[u32],
        x_out: &mut [u32],
        y_out: &mut [u32],
    )
        requires x_fits { length x.now ≡ (digits self.now).cols }
        requires y_fits { length y.now ≡ (digits self.now).cols }
        requires x_room { length x_out.old ≡ (digits self.now).rows }
        requires y_room { length y_out.old ≡ (digits self.now).rows }
        ensures x { x_out.new ≡ times_vector (digits self.now) x.now }
        ensures y { y_out.new ≡ times_vector (digits self.now) y.now }
    {
        self.mul_vec(kernel, x, x_out);
        self.mul_vec(kernel, y, y_out);
    }

    /// Writes rows of the digits, from row `first` on, times x into `out`, whatever it held: as
    /// many rows as `out` has words.
    fn mul_rows<K: Kernel>(&self, kernel: K, first: usize, x: &[u32], out: &mut [u32])
        requires x_fits { length x.now ≡ (digits self.now).cols }
        requires inside { first + length out.old ≤ (digits self.now).rows }
        ensures { out.new ≡ rows_times_vector (digits self.now) x.now first (length out.old) };

    /// Writes the same rows of the digits times x into `x_out` and times y into `y_out`, whatever
    /// they held. A store of many digits reads them once for both.
    fn mul_two_rows<K: Kernel>(
        &self,
        kernel: K,
        first: usize,
        x: &[u32],
        y: &[u32],
        x_out: &mut [u32],
        y_out: &mut [u32],
    )
        requires x_fits { length x.now ≡ (digits self.now).cols }
        requires y_fits { length y.now ≡ (digits self.now).cols }
        requires inside { first + length x_out.old ≤ (digits self.now).rows }
        requires same_rows { length y_out.old ≡ length x_out.old }
        ensures x { x_out.new ≡
            rows_times_vector (digits self.now) x.now first (length x_out.old) }
        ensures y { y_out.new ≡
            rows_times_vector (digits self.now) y.now first (length x_out.old) }
    {
        self.mul_rows(kernel, first, x, x_out);
        self.mul_rows(kernel, first, y, y_out);
    }
}

/// Judges whether a store of at most so many digits may have these rows and columns. Takes no
/// memory.
pub fn judge_size(most: usize, rows: usize, cols: usize) -> Result<(), MatrixError>
    ensures fits { OnOk result (rows * cols ≤ most) }
    ensures refused { IfErr result (λ e. (e ≡ MatrixError.TooLarge) × (most < rows * cols)) }
{
    match rows.checked_mul(cols) {
        Some(count) if count <= most => Ok(()),
        _ => Err(MatrixError::TooLarge),
    }
}

/// A store with one digit in each word. A contract sees it as its matrix of digits.
#[derive(Drop)]
pub struct Flat {
    alloc: Global,
    matrix: Matrix,
}

impl Model for Flat {
    ghost use Rattle.matrix_u32.specs.Matrix.{WordMatrix};

    ghost Value = { WordMatrix };

    ghost view = { λ s. s.matrix };
}

impl DigitStore for Flat {
    ghost digits = { λ s. s };

    ghost most = { 33554432 };

    fn zeros(alloc: Global, rows: usize, cols: usize) -> Result<Flat, MatrixError> {
        let matrix = Matrix::zeros(alloc, rows, cols)?;
        Ok(Flat { alloc, matrix })
    }

    fn rows(&self) -> usize {
        self.matrix.rows()
    }

    fn cols(&self) -> usize {
        self.matrix.cols()
    }

    fn get(&self, i: usize, j: usize) -> u32 {
        self.matrix.get(i, j)
    }

    fn set(&mut self, i: usize, j: usize, digit: u32) {
        self.matrix.set(i, j, digit);
    }

    fn grow(&mut self, cols: usize) -> Result<(), MatrixError> {
        let old = &self.matrix;
        let (rows, from) = (old.rows(), old.cols());
        judge_size(MAX_WORDS, rows, cols)?;
        if from == cols {
            return Ok(());
        }
        let Ok(words) = widened_words(self.alloc, old.words(), rows, from, cols) else {
            return Err(MatrixError::Memory);
        };
        self.matrix = Matrix::from_words(rows, cols, words)?;
        Ok(())
    }

    fn mul_vec<K: Kernel>(&self, kernel: K, x: &[u32], out: &mut [u32]) {
        kernel.mul_vec(&self.matrix, x, out);
    }

    fn mul_rows<K: Kernel>(&self, kernel: K, first: usize, x: &[u32], out: &mut [u32]) {
        let _rows = self.matrix.rows();
        for i in 0..out.len() {
            out[i] = kernel.dot(self.matrix.row(first + i), x);
        }
    }
}
