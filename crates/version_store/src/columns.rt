//! Digits of one record, written into their place of the digit matrix.

ghost use Rattle.std.specs.Prelude.{◌≡◌, ◌+◌, ◌<◌, ◌≤◌, All, length};
ghost use Rattle.matrix_u32.specs.Matrix.{product};
ghost use Rattle.digit_pack.specs.Columns.{WritesColumn};
ghost use Rattle.version_store.specs.Editions.{MarksChanges};

use digit_pack::DigitStore;
use hint_update::update_simple;
use matrix_u32::{Kernel, Matrix};

/// Writes digits into a column, from a row down, keeps the hint the product of the digits and the
/// public matrix, and marks the rows whose digit changes. `place` is this row and the column.
/// Nothing is multiplied for a digit that stays.
pub fn replace_in_column<K: Kernel, S: DigitStore>(
    kernel: K,
    digits: &mut S,
    hint: &mut Matrix,
    a1: &Matrix,
    place: (usize, usize),
    written: &[u32],
    marks: &mut [bool],
)
    requires rows { place.0 + length written.now ≤ (S.digits digits.old).rows }
    requires col { place.1 < (S.digits digits.old).cols }
    requires small { All (λ d. d < 1024) written.now }
    requires inner { (S.digits digits.old).cols ≤ a1.now.rows }
    requires made { hint.old ≡ product (S.digits digits.old) a1.now }
    requires marks { length marks.old ≡ (S.digits digits.old).rows }
    ensures digits { WritesColumn (S.digits digits.old)
        (S.digits digits.new) place.0 place.1 written.now }
    ensures made { hint.new ≡ product (S.digits digits.new) a1.now }
    ensures marks { MarksChanges (S.digits digits.old) (S.digits digits.new) marks.old marks.new }
{
    let (first, col) = place;
    digits.rows();
    for d in 0..written.len() {
        let row = first + d;
        let old = digits.get(row, col);
        update_simple(kernel, hint, a1, row, col, old, written[d]);
        digits.set(row, col, written[d]);
        marks[row] |= old != written[d];
    }
}
