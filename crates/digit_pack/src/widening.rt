//! Rows of words that are written into longer rows.

ghost use Rattle.std.specs.Prelude.{◌≡◌, ◌*◌, ◌^◌, ◌<◌, ◌≤◌, IfOk, length, replicate};
ghost use Rattle.matrix_u32.specs.Matrix.{widened};

use std::alloc::{AllocError, Global};

// Copies each row of `from` words into the beginning of one of `to` words, which are all 0 before.
fn copy_rows(words: &[u32], rows: usize, from: usize, to: usize, wide: &mut [u32])
    requires count { length words.now ≡ rows * from }
    requires wider { from ≤ to }
    requires zeros { wide.old ≡ replicate (rows * to) 0 }
    ensures { wide.new ≡
        (widened (record { rows = rows; cols = from; words = words.now }) to).words }
{
    for i in 0..rows {
        wide[i * to..i * to + from].copy_from_slice(&words[i * from..i * from + from]);
    }
}

/// The words of `rows` rows of `to` words each: row i begins with row i of `words`, whose rows have
/// `from` words, and the rest of it is 0. Only refused memory gives an `Err`.
pub fn widened_words(
    alloc: Global,
    words: &[u32],
    rows: usize,
    from: usize,
    to: usize,
) -> Result<Vec<u32>, AllocError>
    requires count { length words.now ≡ rows * from }
    requires wider { from ≤ to }
    requires limit { rows * to < 2 ^ 64 }
    ensures { IfOk result (λ wide. wide.items
        ≡ (widened (record { rows = rows; cols = from; words = words.now }) to).words) }
{
    let mut wide = vec![in alloc; 0; rows * to]?;
    copy_rows(words, rows, from, to, &mut wide);
    Ok(wide)
}
