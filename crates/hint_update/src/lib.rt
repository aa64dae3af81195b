//! Hints that follow their digits in place.
//!
//! A hint is the product of a digit matrix and a public matrix. If one digit changes, one row of
//! the hint changes, by the difference of the digits times a row of the public matrix: that is all
//! that is multiplied, and the hint is then, word for word, the one made from scratch. The hints of
//! DoublePIR follow a changed row of that hint, or several of them, in the same way. The public
//! matrix of the digits may have more rows than these have columns: a product takes no more of
//! them.
//!
//! Its tests are in `tests_scheme::updates` and `tests_scheme::logs`; that of several rows at once
//! is in `tests/long/tests_scheme`.
#![tactic(auto)]

ghost use Rattle.std.specs.Prelude.{◌≡◌, ℕ, ◌+◌, ◌-◌, ◌*◌, ◌%◌, ◌^◌, ◌<◌, ◌≤◌, length};
ghost use Rattle.matrix_u32.specs.Matrix.{entry, plus_scaled, with_row, row as row_of};
ghost use Rattle.lane_kernels.specs.Digit.{split_count};
ghost use Rattle.hint_update.specs.Updates.{FollowsDigit, FollowsRow, with_column, digits_of_words};
ghost use Rattle.hint_update.specs.Updates.{moved_hint};

mod log;
mod rows;
mod words;

use digit_pack::{DigitStore, split_count, word_digit};
pub use log::DeltaLog;
use matrix_u32::{Kernel, Matrix};
pub use rows::{NewRows, RowsBuffers, update_double_rows};
pub use words::WordsBuffers;

/// Changes the hint of a digit matrix as the digit in row `row`, column `col` changes from `old` to
/// `new`. If these are equal, nothing is multiplied.
///
/// For every digit matrix that has `old` in this place, and from which the hint was made before,
/// the hint is now made from that matrix with `new` in the place. Whatever the hint was made from,
/// its row `row` has the difference of the digits times row `col` of the public matrix added, and
/// the other rows stay. Takes no memory.
pub fn update_simple<K: Kernel>(
    kernel: K,
    hint: &mut Matrix,
    a1: &Matrix,
    row: usize,
    col: usize,
    old: u32,
    new: u32,
)
    requires row { row < hint.old.rows }
    requires col { col < a1.now.rows }
    requires cols { hint.old.cols ≡ a1.now.cols }
    ensures follows { FollowsDigit hint.old hint.new a1.now row col old new }
    ensures changed { (k : ℕ) → k < a1.now.cols →
        entry hint.new row k ≡
        (entry hint.old row k + (new + (2 ^ 32 - old)) * entry a1.now col k) % 2 ^ 32 }
    ensures others { hint.new ≡ with_row hint.old row (row_of hint.new row) }
{
    let _rows = hint.rows();
    add_difference(kernel, hint.row_mut(row), a1.row(col), old, new);
}

// Adds x to `out`, times the difference of two digits; if these are equal, nothing is multiplied.
fn add_difference<K: Kernel>(kernel: K, out: &mut [u32], x: &[u32], old: u32, new: u32)
    requires { length x.now ≡ length out.old }
    ensures { out.new ≡ plus_scaled out.old x.now ((new + (2 ^ 32 - old)) % 2 ^ 32) }
{
    if old != new {
        kernel.add_scaled(out, x, new.wrapping_sub(old));
    }
}

/// Changes both hints of DoublePIR as a row of the digit matrix D changes: `words` is the new row
/// `row` of D A1, n words. The server's hint H has κ n rows, the κ digits of each word one below
/// the other, and a column for each row of D; its column `row` is given the words' digits. The
/// client's hint H A2 has as many rows as H, and n columns; each of its rows changes by the change
/// of its digit times row `row` of A2. Nothing is multiplied for a digit that stays.
///
/// For every D and A1 from which both hints were made before, they are now made from D with its new
/// row. Whatever they were made from, all other columns of the server's hint stay. Takes no memory.
pub fn update_double<K: Kernel, S: DigitStore>(
    kernel: K,
    server_hint: &mut S,
    client_hint: &mut Matrix,
    a2: &Matrix,
    w: u32,
    row: usize,
    words: &[u32],
)
    requires width { (6 ≤ w) × (w ≤ 10) }
    requires server_rows { (S.digits server_hint.old).rows ≡ length words.now * split_count w }
    requires server_col { row < (S.digits server_hint.old).cols }
    requires client_rows { client_hint.old.rows ≡ (S.digits server_hint.old).rows }
    requires client_cols { client_hint.old.cols ≡ a2.now.cols }
    requires rows { a2.now.rows ≡ (S.digits server_hint.old).cols }
    ensures follows { FollowsRow w (S.digits server_hint.old) (S.digits server_hint.new)
        client_hint.old client_hint.new a2.now row words.now }
    ensures server { S.digits server_hint.new
        ≡ with_column (S.digits server_hint.old) row (digits_of_words w words.now) }
    ensures client { client_hint.new
        ≡ moved_hint client_hint.old (S.digits server_hint.old)
        (S.digits server_hint.new) a2.now row }
{
    let count = split_count(w);
    let _rows = client_hint.rows();
    for r in 0..server_hint.rows() {
        let old = server_hint.get(r, row);
        let digit = word_digit(words[r / count], w, r % count);
        update_simple(kernel, client_hint, a2, r, row, old, digit);
        server_hint.set(r, row, digit);
    }
}
