//! A matrix of words.

ghost use Rattle.std.specs.Prelude.{◌≡◌, ◌≢◌, ℕ, ◌+◌, ◌*◌, ◌/◌, ◌<◌, ◌≤◌, ◌⊎◌, ◌++◌, length, IfOk};
ghost use Rattle.std.specs.Prelude.{IfErr, OnOk, OnErr};
ghost use Rattle.std.specs.Borrow.{sem};
ghost use Rattle.matrix_u32.specs.Matrix.{
  WordMatrix,
  IsWhole,
  AreWholeRows,
  entry,
  first_rows,
  most_words,
  row,
  with_entry,
  with_rows,
  zero_matrix,
};

use std::alloc::{AllocError, Global};
use std::marker::Model;
use thiserror::Error;

/// The most words that a matrix holds: 2^25 words of four bytes.
pub const MAX_WORDS: usize = 33_554_432;

/// Why there is no such matrix.
#[derive(Clone, Copy, Debug, PartialEq, Eq, Error)]
pub enum MatrixError {
    /// Rows times columns is more than [`MAX_WORDS`].
    #[error("a matrix holds at most 33554432 words")]
    TooLarge,
    /// The words given are not as many as rows times columns.
    #[error("the number of words is not rows times columns")]
    WrongCount,
    /// Out of memory for the words.
    #[error("out of memory")]
    Memory,
}

impl From<AllocError> for MatrixError {
    ghost use Rattle.matrix_u32.specs.declared.matrix.MatrixError.TheVariants.{Memory};

    ghost from_gives = { λ _ e. e ≡ Memory };

    fn from(_error: AllocError) -> Self {
        MatrixError::Memory
    }
}

/// A matrix of 32-bit words, kept row by row. A contract sees it as a `WordMatrix`.
///
/// Never holds more than [`MAX_WORDS`] words, and always exactly rows times columns.
#[derive(Drop)]
pub struct Matrix {
    rows: usize,
    cols: usize,
    words: Vec<u32>,
}

impl Model for Matrix {
    ghost use Rattle.std.specs.Prelude.{◌≡◌, ◌*◌, length, ◌≤◌};
    ghost use Rattle.matrix_u32.specs.Matrix.{WordMatrix, most_words};

    ghost Value = { WordMatrix };

    ghost view = { λ m. record { rows = m.rows; cols = m.cols; words = m.words.items } };

    ghost invariant = { λ m. (length m.words.items ≡ m.rows * m.cols) ×
        (m.rows * m.cols ≤ most_words) };
}

impl Matrix {
    /// A matrix of zeros.
    ///
    /// # Errors
    ///
    /// `TooLarge` exactly when rows times columns is above [`MAX_WORDS`], judged before any memory
    /// is asked for; else the matrix, or `Memory`.
    pub fn zeros(alloc: Global, rows: usize, cols: usize) -> Result<Matrix, MatrixError>
        ensures zeros { IfOk result (λ m. (m ≡ zero_matrix rows cols) ×
            (rows * cols ≤ most_words)) }
        ensures refused { IfErr result (λ e.
            ((e ≡ MatrixError.TooLarge) × (most_words < rows * cols))
            ⊎ ((e ≡ MatrixError.Memory) × (rows * cols ≤ most_words))) }
    {
        let count = word_count(rows, cols)?;
        match vec![in alloc; 0; count] {
            Ok(words) => Ok(Matrix { rows, cols, words }),
            Err(_) => Err(MatrixError::Memory),
        }
    }

    /// A matrix of these words, given row by row. Takes no memory.
    ///
    /// # Errors
    ///
    /// `TooLarge` exactly when rows times columns is above [`MAX_WORDS`], whatever the count of
    /// words; `WrongCount` exactly when it isn't and the words are not rows times columns; never
    /// `Memory`.
    pub fn from_words(rows: usize, cols: usize, words: Vec<u32>) -> Result<Matrix, MatrixError>
        ensures words { IfOk result (λ m.
            (m ≡ record { rows = rows; cols = cols; words = words.items }) × IsWhole m ×
            (rows * cols ≤ most_words)) }
        ensures refused { IfErr result (λ e.
            ((e ≡ MatrixError.TooLarge) × (most_words < rows * cols))
            ⊎ ((e ≡ MatrixError.WrongCount) × (rows * cols ≤ most_words) ×
            (length words.items ≢ rows * cols))) }
    {
        let wanted = word_count(rows, cols)?;
        if words.len() != wanted {
            return Err(MatrixError::WrongCount);
        }
        Ok(Matrix { rows, cols, words })
    }

    /// The number of rows.
    pub fn rows(&self) -> usize
        ensures value { result ≡ self.now.rows }
        ensures whole { IsWhole self.now }
        ensures limit { self.now.rows * self.now.cols ≤ most_words }
    {
        self.rows
    }

    /// The number of columns.
    pub fn cols(&self) -> usize
        ensures { result ≡ self.now.cols }
    {
        self.cols
    }

    /// The words, row by row.
    pub fn words(&self) -> &[u32]
        ensures value { result.now ≡ self.now.words }
        ensures count { length result.now ≡ self.now.rows * self.now.cols }
    {
        self.words.as_slice()
    }

    /// The word in row i, column j, both counted from 0.
    pub fn get(&self, i: usize, j: usize) -> u32
        requires row { i < self.now.rows }
        requires col { j < self.now.cols }
        ensures { result ≡ entry self.now i j }
    {
        self.words[i * self.cols + j]
    }

    /// Sets the word in row i, column j, and no other.
    pub fn set(&mut self, i: usize, j: usize, word: u32)
        requires row { i < self.old.rows }
        requires col { j < self.old.cols }
        ensures { self.new ≡ with_entry self.old i j word }
    {
        let place = i * self.cols + j;
        self.words[place] = word;
    }

    /// Row i.
    pub fn row(&self, i: usize) -> &[u32]
        requires { i < self.now.rows }
        ensures value { result.now ≡ row self.now i }
        ensures count { length result.now ≡ self.now.cols }
    {
        &self.words[i * self.cols..i * self.cols + self.cols]
    }

    /// Appends rows of these words, given row by row. The matrix's own memory grows for them, once,
    /// and only if it has no room. Rows that were there never change.
    ///
    /// # Errors
    ///
    /// `TooLarge` exactly when the words held and those given are together more than [`MAX_WORDS`],
    /// which is judged first; else `WrongCount` exactly when the words given are not a whole number
    /// of rows: if the matrix has no columns, no words add no row, and any others are refused; else
    /// `Memory` if the growth is refused. At a refusal the matrix stays as it was.
    pub fn push_rows(&mut self, words: Vec<u32>) -> Result<(), MatrixError>
        ensures pushed { OnOk result (self.new ≡ with_rows self.old words.items) }
        ensures kept { OnOk result (first_rows self.new self.old.rows ≡ self.old) }
        ensures fits { OnOk result ((length self.old.words + length words.items ≤ most_words) ×
            AreWholeRows self.old.cols words.items) }
        ensures refused { IfErr result (λ e.
            ((e ≡ MatrixError.TooLarge) ×
            (most_words < length self.old.words + length words.items))
            ⊎ ((e ≡ MatrixError.WrongCount) ×
            (length self.old.words + length words.items ≤ most_words) ×
            ¬ AreWholeRows self.old.cols words.items)
            ⊎ ((e ≡ MatrixError.Memory) ×
            (length self.old.words + length words.items ≤ most_words) ×
            AreWholeRows self.old.cols words.items)) }
        ensures unchanged { OnErr result (self.new ≡ self.old) }
        ensures rows_stay { (i : ℕ) → i < self.old.rows → row self.new i ≡ row self.old i }
    {
        if words.len() > MAX_WORDS - self.words.len() {
            return Err(MatrixError::TooLarge);
        }
        let rows = row_count(words.len(), self.cols)?;
        put_words(&mut self.words, words)?;
        self.rows += rows;
        Ok(())
    }

    /// The words, row by row, given back. Takes no memory.
    pub fn into_words(self) -> Vec<u32>
        ensures value { result.items ≡ self.words }
        ensures count { length result.items ≡ self.rows * self.cols }
    {
        let Matrix { words, .. } = self;
        words
    }
}

impl Matrix {
    ghost use Rattle.matrix_u32.specs.Lending.{LendsRow};

    /// Row i, to be written in place: once the borrow is over, the matrix has the words that the
    /// row was left with, and keeps all others.
    pub fn row_mut(&mut self, i: usize) -> &mut [u32]
        requires { i < self.old.rows }
        ensures* writes_back { sem 𝓛 (LendsRow self.entry i result) }
        ensures value { result.now ≡ row self.old i }
        ensures count { length result.now ≡ self.old.cols }
    {
        let at = i * self.cols;
        let end = at + self.cols;
        self.words.slice_mut(at..end)
    }

    /// Rows i and i + 1, one after the other, to be written in place at once: once the borrow is
    /// over, the matrix has the words that they were left with, and keeps all others.
    pub fn two_rows_mut(&mut self, i: usize) -> &mut [u32]
        requires { i + 1 < self.old.rows }
        ensures* writes_back { sem 𝓛 (LendsRow self.entry i result) }
        ensures value { result.now ≡ row self.old i ++ row self.old (i + 1) }
        ensures count { length result.now ≡ self.old.cols + self.old.cols }
    {
        let start = i * self.cols;
        let end = start + self.cols + self.cols;
        self.words.slice_mut(start..end)
    }
}

// How many words a matrix of that size has, if it may have so many.
fn word_count(rows: usize, cols: usize) -> Result<usize, MatrixError>
    ensures count { IfOk result (λ count. (count ≡ rows * cols) × (rows * cols ≤ most_words)) }
    ensures refused { IfErr result (λ e. (e ≡ MatrixError.TooLarge) × (most_words < rows * cols)) }
{
    match rows.checked_mul(cols) {
        Some(count) if count <= MAX_WORDS => Ok(count),
        _ => Err(MatrixError::TooLarge),
    }
}

// How many rows of so many words there are, if the words are a whole number of rows.
fn row_count(words: usize, cols: usize) -> Result<usize, MatrixError>
    ensures count { IfOk result (λ count. (count ≡ words / cols) × (words ≡ count * cols)) }
    ensures refused { IfErr result (λ e.
        (e ≡ MatrixError.WrongCount) × ((n : ℕ) → words ≢ n * cols)) }
{
    if words == 0 {
        return Ok(0);
    }
    if cols == 0 || words % cols != 0 {
        return Err(MatrixError::WrongCount);
    }
    Ok(words / cols)
}

// Adds words to others, or leaves both unchanged if memory is refused.
fn put_words(words: &mut Vec<u32>, mut more: Vec<u32>) -> Result<(), MatrixError>
    ensures put { OnOk result (words.new.items ≡ words.old.items ++ more.items) }
    ensures refused { IfErr result (λ e. e ≡ MatrixError.Memory) }
    ensures unchanged { OnErr result (words.new.items ≡ words.old.items) }
{
    words.reserve_exact(more.len())?;
    // There is room now: this can't fail.
    words.append(&mut more).unwrap();
    Ok(())
}
