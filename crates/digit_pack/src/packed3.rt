//! A store with three digits in a word.

ghost use Rattle.std.specs.Prelude.{◌≡◌, ◌+◌, ◌*◌, ◌/◌, ◌^◌, ◌<◌, ◌≤◌, ℕ, List, All, length};
ghost use Rattle.std.specs.Prelude.{slice_index};
ghost use Rattle.matrix_u32.specs.Matrix.{entry, times_vector};
ghost use Rattle.lane_kernels.specs.Packed.{packed_cols, unpacked};
ghost use Rattle.digit_pack.specs.Columns.{WritesColumn};
ghost use Rattle.digit_pack.specs.Packed.{packed, IsPacked, IsReplaced};
ghost use Rattle.digit_pack.specs.Products.{rows_times_vector};

use crate::store::{DigitStore, judge_size};
use crate::widening::widened_words;
use lane_kernels::{packed_mul_two, packed_mul_vec};
use matrix_u32::{Kernel, MatrixError};
use std::alloc::Global;
use std::marker::Model;

/// A store of digits below 1024, three in each word, and at most `MOST` of them. A contract sees it
/// as its matrix of digits.
///
/// A row is cols / 3 words, rounded up; digit 3 t + u of it is in bits 10 u to 10 u + 9 of its word
/// t, and the other bits are 0.
#[derive(Drop)]
pub struct PackedDigits<const MOST: usize> {
    alloc: Global,
    rows: usize,
    cols: usize,
    words: Vec<u32>,
}

/// A store of at most 33,554,432 digits.
pub type Packed3 = PackedDigits<33_554_432>;

/// A store of at most 2^30 digits: as many as a wide layout may have.
pub type Wide3 = PackedDigits<1_073_741_824>;

impl<const MOST: usize> Model for PackedDigits<MOST> {
    ghost use Rattle.std.specs.Prelude.{◌*◌, ◌≤◌};
    ghost use Rattle.matrix_u32.specs.Matrix.{WordMatrix};
    ghost use Rattle.lane_kernels.specs.Packed.{unpacked};
    ghost use Rattle.digit_pack.specs.Packed.{IsPacked};

    ghost Value = { WordMatrix };

    ghost view = { λ s. unpacked s.rows s.cols s.words.items };

    ghost invariant = { λ s. IsPacked s.rows s.cols s.words.items × (s.rows * s.cols ≤ MOST) };
}

// How many words a row of that many columns has.
fn row_words(cols: usize) -> usize
    ensures { result ≡ packed_cols cols }
{
    cols.div_ceil(3)
}

// Which word has the digit in row i, column j, among `count` words of `rows` rows.
fn word_place(rows: usize, cols: usize, count: usize, i: usize, j: usize) -> usize
    requires row { i < rows }
    requires col { j < cols }
    requires count { count ≡ rows * packed_cols cols }
    ensures value { result ≡ i * packed_cols cols + j / 3 }
    ensures inside { result < count }
{
    i * row_words(cols) + j / 3
}

// A word with another digit in one of its three places.
fn replaced(word: u32, t: usize, digit: u32) -> u32
    requires word { word < 2 ^ 30 }
    requires place { t < 3 }
    requires digit { digit < 1024 }
    ensures { IsReplaced word t digit result }
{
    match t {
        0 => word - word % 1024 + digit,
        1 => word - word / 1024 % 1024 * 1024 + digit * 1024,
        _ => word % 1_048_576 + digit * 1_048_576,
    }
}

// Swaps digits of column j, from row `first` on, with others. The sizes are parameters and not
// fields of a store, so that the processor reads them once, and not again after each word that is
// written.
fn swap_packed(
    words: &mut [u32],
    rows: usize,
    cols: usize,
    first: usize,
    j: usize,
    others: &mut [u32],
)
    requires packed { IsPacked rows cols words.old }
    requires inside { first + length others.old ≤ rows }
    requires col { j < cols }
    requires small { (b : ℕ) → b < length others.old → slice_index others.old b < 1024 }
    ensures packed { IsPacked rows cols words.new }
    ensures words { length words.new ≡ length words.old }
    ensures written { WritesColumn (unpacked rows cols words.old) (unpacked rows cols words.new)
        first j others.old }
    ensures count { length others.new ≡ length others.old }
    ensures read { (b : ℕ) → b < length others.old →
        slice_index others.new b ≡ entry (unpacked rows cols words.old) (first + b) j }
{
    for b in 0..others.len() {
        let at = word_place(rows, cols, words.len(), first + b, j);
        let word = words[at];
        words[at] = replaced(word, j % 3, others[b]);
        others[b] = (word >> (10 * (j % 3))) % 1024;
    }
}

// The words of `count` rows from row `first` on.
fn words_of_rows(words: &[u32], rows: usize, cols: usize, first: usize, count: usize) -> &[u32]
    requires packed { IsPacked rows cols words.now }
    requires inside { first + count ≤ rows }
    ensures count { length result.now ≡ count * packed_cols cols }
    ensures small { All (λ word. word < 2 ^ 30) result.now }
    ensures products { (x : List ℕ) → times_vector (unpacked count cols result.now) x
        ≡ rows_times_vector (unpacked rows cols words.now) x first count }
{
    let each = row_words(cols);
    let at = first * each;
    &words[at..at + count * each]
}

impl<const MOST: usize> PackedDigits<MOST> {
    /// The words, row by row, lent as they are kept.
    pub fn words(&self) -> &[u32]
        ensures { result.now ≡ packed self.now }
    {
        &self.words
    }
}

impl<const MOST: usize> DigitStore for PackedDigits<MOST> {
    ghost digits = { λ s. s };

    ghost most = { MOST };

    fn zeros(alloc: Global, rows: usize, cols: usize) -> Result<Self, MatrixError> {
        judge_size(MOST, rows, cols)?;
        match vec![in alloc; 0; rows * row_words(cols)] {
            Ok(words) => Ok(PackedDigits {
                alloc,
                rows,
                cols,
                words,
            }),
            Err(_) => Err(MatrixError::Memory),
        }
    }

    fn rows(&self) -> usize {
        self.rows
    }

    fn cols(&self) -> usize {
        self.cols
    }

    fn get(&self, i: usize, j: usize) -> u32 {
        let at = word_place(self.rows, self.cols, self.words.len(), i, j);
        (self.words[at] >> (10 * (j % 3))) % 1024
    }

    fn set(&mut self, i: usize, j: usize, digit: u32) {
        let at = word_place(self.rows, self.cols, self.words.len(), i, j);
        self.words[at] = replaced(self.words[at], j % 3, digit);
    }

    fn swap_digits(&mut self, first: usize, j: usize, others: &mut [u32]) {
        swap_packed(&mut self.words, self.rows, self.cols, first, j, others);
    }

    /// Takes memory only if a row becomes more words.
    fn grow(&mut self, cols: usize) -> Result<(), MatrixError> {
        judge_size(MOST, self.rows, cols)?;
        let (from, to) = (row_words(self.cols), row_words(cols));
        if from == to {
            self.cols = cols;
            return Ok(());
        }
        let Ok(words) = widened_words(self.alloc, &self.words, self.rows, from, to) else {
            return Err(MatrixError::Memory);
        };
        self.words = words;
        self.cols = cols;
        Ok(())
    }

    fn mul_vec<K: Kernel>(&self, _kernel: K, x: &[u32], out: &mut [u32]) {
        packed_mul_vec(&self.words, self.cols, x, out);
    }

    fn mul_two<K: Kernel>(
        &self,
        _kernel: K,
        x: &[u32],
        y: &[u32],
        x_out: &mut [u32],
        y_out: &mut [u32],
    ) {
        packed_mul_two(&self.words, self.cols, x, y, x_out, y_out);
    }

    fn mul_rows<K: Kernel>(&self, _kernel: K, first: usize, x: &[u32], out: &mut [u32]) {
        let words = words_of_rows(&self.words, self.rows, self.cols, first, out.len());
        packed_mul_vec(words, self.cols, x, out);
    }

    fn mul_two_rows<K: Kernel>(
        &self,
        _kernel: K,
        first: usize,
        x: &[u32],
        y: &[u32],
        x_out: &mut [u32],
        y_out: &mut [u32],
    ) {
        let words = words_of_rows(&self.words, self.rows, self.cols, first, x_out.len());
        packed_mul_two(words, self.cols, x, y, x_out, y_out);
    }
}
