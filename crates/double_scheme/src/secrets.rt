//! What all parts of a query or an answer take from a matrix, in one pass over it.

ghost use Rattle.std.specs.Prelude.{◌≡◌, ◌≢◌, ◌*◌, ◌^◌, ◌<◌, ◌≤◌, ℕ, IfOk, length, slice_index};
ghost use Rattle.matrix_u32.specs.Matrix.{entry, row, times_vector};
ghost use Rattle.seed_expand.specs.Words.{source_rows};
ghost use Rattle.double_scheme.specs.Double.{part_secret};

use matrix_u32::{Kernel, Matrix};
use seed_expand::{WordSource, fill_words};
use std::alloc::{AllocError, Global};

/// The secrets of a retrieval's parts, a row for each, in the memory of `words`.
pub fn part_secrets(
    seed: &[u8; 32],
    number: u64,
    parts: usize,
    n: usize,
    mut words: Vec<u32>,
) -> Matrix
    requires number { number < 2 ^ 62 }
    requires parts { parts ≤ 342 }
    requires cols { n ≤ 1024 }
    requires room { length words.items ≡ parts * n }
    ensures rows { result.rows ≡ parts }
    ensures cols { result.cols ≡ n }
    ensures secrets { (d : ℕ) → d < parts → row result d ≡ part_secret seed.now number n d }
{
    seed_expand::source_gives_words();
    fill_words(&mut WordSource::at(seed, 4 * number + 2, 0), &mut words);
    // There are parts * n words, and at most 342 * 1024 of them: this can't fail.
    Matrix::from_words(parts, n, words).unwrap()
}

/// Zeros, a row of them for each part.
///
/// # Errors
///
/// Only refused memory gives an `Err`.
pub fn zero_products(alloc: Global, parts: usize, cols: usize) -> Result<Matrix, AllocError>
    requires { (parts ≤ 342) × (cols ≤ 32768) }
    ensures rows { IfOk result (λ m. m.rows ≡ parts) }
    ensures cols { IfOk result (λ m. m.cols ≡ cols) }
{
    match Matrix::zeros(alloc, parts, cols) {
        Ok(zeros) => Ok(zeros),
        // At most 342 * 32768 words are wanted, so memory was refused.
        Err(_) => Err(AllocError),
    }
}

/// Writes the products of the matrix whose words a source gives, row by row, and each secret: row d
/// of `out` is the matrix times row d of `secrets`. The matrix is never held as a whole: `row_room`
/// is for a row of it, `column_room` for the row's products.
pub fn put_products<K: Kernel>(
    kernel: K,
    mut source: WordSource,
    secrets: &Matrix,
    row_room: &mut [u32],
    column_room: &mut [u32],
    out: &mut Matrix,
)
    requires row_room { length row_room.old ≡ secrets.now.cols }
    requires column_room { length column_room.old ≡ secrets.now.rows }
    requires rows { out.old.rows ≡ secrets.now.rows }
    ensures products { (d : ℕ) → d < out.old.rows → row out.new d
        ≡ times_vector (source_rows source out.old.cols secrets.now.cols) (row secrets.now d) }
    ensures rows { out.new.rows ≡ out.old.rows }
    ensures cols { out.new.cols ≡ out.old.cols }
{
    // Called for its bound: a place below 2^68 stays where it is when there are no rows.
    source.place();
    for r in 0..out.cols() {
        fill_words(&mut source, row_room);
        kernel.mul_vec(secrets, row_room, column_room);
        put_column(column_room, r, out);
    }
}

/// Writes the products of a matrix and each secret: row d of `out` is the matrix times row d of
/// `secrets`. `column_room` is for the products of a row.
pub fn put_matrix_products<K: Kernel>(
    kernel: K,
    a: &Matrix,
    secrets: &Matrix,
    column_room: &mut [u32],
    out: &mut Matrix,
)
    requires wide { a.now.cols ≡ secrets.now.cols }
    requires high { out.old.cols ≡ a.now.rows }
    requires column_room { length column_room.old ≡ secrets.now.rows }
    requires rows { out.old.rows ≡ secrets.now.rows }
    ensures products { (d : ℕ) → d < out.old.rows →
        row out.new d ≡ times_vector a.now (row secrets.now d) }
    ensures rows { out.new.rows ≡ out.old.rows }
    ensures cols { out.new.cols ≡ out.old.cols }
{
    for r in 0..a.rows() {
        kernel.mul_vec(secrets, a.row(r), column_room);
        put_column(column_room, r, out);
    }
}

// Writes column r.
fn put_column(column: &[u32], r: usize, out: &mut Matrix)
    requires inside { r < out.old.cols }
    requires rows { length column.now ≡ out.old.rows }
    ensures here { (d : ℕ) → d < out.old.rows → entry out.new d r ≡ slice_index column.now d }
    ensures others { (d k : ℕ) → d < out.old.rows → k < out.old.cols → k ≢ r →
        entry out.new d k ≡ entry out.old d k }
    ensures rows { out.new.rows ≡ out.old.rows }
    ensures cols { out.new.cols ≡ out.old.cols }
{
    let _rows = out.rows();
    for d in 0..column.len() {
        out.set(d, r, column[d]);
    }
}
