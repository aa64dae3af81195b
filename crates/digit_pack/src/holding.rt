//! Records that are read out of their digits.

ghost use Rattle.std.specs.Prelude.{◌≡◌, ◌+◌, ◌<◌, ◌≤◌, length};
ghost use Rattle.matrix_u32.specs.Matrix.{entry};
ghost use Rattle.matrix_u32.specs.Sum.{list_of};
ghost use Rattle.digit_pack.specs.Held.{HoldsRecord, record_in_digits};
ghost use Rattle.digit_pack.specs.Layout.{digit_rows, digit_cols};

use crate::buffers::digit_buffer;
use crate::layout::{Layout, unpack};
use crate::store::DigitStore;

/// Writes the bytes of record i, as the digits have them, into `out`, whatever it held. Takes no
/// memory.
pub fn copy_record<S: DigitStore>(layout: &Layout, digits: &S, i: usize, out: &mut [u8])
    requires rows { (S.digits digits.now).rows ≡ digit_rows layout.now }
    requires cols { (S.digits digits.now).cols ≡ digit_cols layout.now }
    requires index { i < layout.now.count }
    requires record { HoldsRecord layout.now (S.digits digits.now) i }
    requires room { length out.old ≡ layout.now.record_len }
    ensures { out.new ≡ record_in_digits layout.now (S.digits digits.now) i }
{
    let mut room = digit_buffer();
    let (first, col) = layout.place(i);
    let packed = &mut room[..layout.digits_per_record()];
    read_digits(digits, first, col, packed);
    // The digits are a record's: this can't fail.
    unpack(layout, packed, out).unwrap();
}

// The digits of a column, from row `first` down: one for each place of `out`.
fn read_digits<S: DigitStore>(digits: &S, first: usize, col: usize, out: &mut [u32])
    requires rows { first + length out.old ≤ (S.digits digits.now).rows }
    requires col { col < (S.digits digits.now).cols }
    ensures { out.new ≡
        list_of (length out.old) (λ d. entry (S.digits digits.now) (first + d) col) }
{
    // Called for what it says of the rows: they are numbers of its type.
    digits.rows();
    for d in 0..out.len() {
        out[d] = digits.get(first + d, col);
    }
}
