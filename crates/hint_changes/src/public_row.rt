//! Rows of the first public matrix, one at a time.

ghost use Rattle.std.specs.Prelude.{◌≡◌, ◌<◌, ◌≤◌, IfOk};
ghost use Rattle.seed_expand.specs.Words.{public_rows};

use matrix_u32::Matrix;
use seed_expand::{WordSource, expand, fill_words, source_gives_words};
use std::alloc::{AllocError, Global};
use std::marker::Model;

/// One row of the first public matrix of a seed, which is made when it is wanted: that of the
/// column of digits of which a record changed. A contract sees which one it is.
#[derive(Drop)]
pub struct PublicRow {
    seed: [u8; 32],
    column: usize,
    words: Matrix,
}

impl Model for PublicRow {
    ghost use Rattle.std.specs.Prelude.{◌≡◌, ◌<◌, ◌≤◌};
    ghost use Rattle.seed_expand.specs.Words.{public_rows};
    ghost use Rattle.hint_changes.specs.Changes.{RowOfPublic};

    ghost Value = { RowOfPublic };

    ghost view = { λ r. record { seed = r.seed; column = r.column; dimension = r.words.cols } };

    ghost invariant = { λ r. r.words ≡ public_rows r.seed 0 r.column 1 r.words.cols };
}

impl PublicRow {
    /// The row of column 0, of `dimension` words. Only refused memory gives an `Err`.
    pub fn new(alloc: Global, seed: &[u8; 32], dimension: usize) -> Result<PublicRow, AllocError>
        requires { (1 ≤ dimension) × (dimension ≤ 1024) }
        ensures { IfOk result (λ row. row ≡
            record { seed = seed.now; column = 0; dimension = dimension }) }
    {
        Ok(PublicRow {
            seed: *seed,
            column: 0,
            words: expand(alloc, seed, 0, 0, 1, dimension)?,
        })
    }

    /// Makes it the row of another column, unless it is the same. Takes no memory.
    pub fn turn_to(&mut self, column: usize)
        requires { column < 32768 }
        ensures { self.new ≡ record self.old { column = column } }
    {
        if column != self.column {
            make_row(&self.seed, column, &mut self.words);
            self.column = column;
        }
    }

    /// The row.
    pub fn words(&self) -> &Matrix
        ensures { result.now ≡
            public_rows self.now.seed 0 self.now.column 1 self.now.dimension }
    {
        &self.words
    }
}

// Makes the one row of a matrix the row of a column.
fn make_row(seed: &[u8; 32], column: usize, words: &mut Matrix)
    requires column { column < 32768 }
    requires row { words.old.rows ≡ 1 }
    ensures { words.new ≡ public_rows seed.now 0 column 1 words.old.cols }
{
    // Called for what it says of the matrix: a row has at most 2^25 words.
    words.rows();
    let place = (column * words.cols()) as u64;
    source_gives_words();
    fill_words(&mut WordSource::at(seed, 0, place), words.row_mut(0));
}
