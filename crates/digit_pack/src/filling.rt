//! Records one after another in bytes, and their digits.

ghost use Rattle.std.specs.Prelude.{◌≡◌, ◌+◌, ◌*◌, ◌<◌, ◌≤◌, All, IfOk, length, slice_set};
ghost use Rattle.digit_pack.specs.Columns.{WritesColumn};
ghost use Rattle.digit_pack.specs.Layout.{digit_rows, digit_cols, digit_matrix, record_at};
ghost use Rattle.digit_pack.specs.Layout.{records_in};

use crate::layout::{Layout, pack};
use crate::store::DigitStore;
use std::alloc::{AllocError, Global};

/// The bytes of record i, of records one after another in `bytes`.
pub fn nth_record<'a>(layout: &Layout, bytes: &'a [u8], i: usize) -> &'a [u8]
    requires count { length bytes.now ≡ layout.now.count * layout.now.record_len }
    requires index { i < layout.now.count }
    ensures value { result.now ≡ record_at (records_in layout.now bytes.now) i }
    ensures count { length result.now ≡ layout.now.record_len }
{
    let len = layout.record_len();
    &bytes[i * len..i * len + len]
}

/// Writes another record over record i, and no other.
pub fn write_record(layout: &Layout, bytes: &mut [u8], i: usize, written: &[u8])
    requires count { length bytes.old ≡ layout.now.count * layout.now.record_len }
    requires index { i < layout.now.count }
    requires len { length written.now ≡ layout.now.record_len }
    ensures { records_in layout.now bytes.new ≡
        slice_set (records_in layout.now bytes.old) i written.now }
{
    let len = layout.record_len();
    bytes[i * len..i * len + len].copy_from_slice(written);
}

/// Writes digits into a column, from row `first` down.
pub fn write_digits<S: DigitStore>(digits: &mut S, first: usize, col: usize, written: &[u32])
    requires rows { first + length written.now ≤ (S.digits digits.old).rows }
    requires col { col < (S.digits digits.old).cols }
    requires small { All (λ d. d < 1024) written.now }
    ensures { WritesColumn (S.digits digits.old) (S.digits digits.new) first col written.now }
{
    digits.rows();
    for d in 0..written.len() {
        digits.set(first + d, col, written[d]);
    }
}

/// The digit matrix of the records that are one after another in `bytes`, kept in a store that has
/// room for it. Only refused memory gives an `Err`.
///
/// The records of a group, which have their rows in common, are written one after another, so that
/// these rows stay near the processor.
pub fn digits_of_records<S: DigitStore>(
    alloc: Global,
    layout: &Layout,
    bytes: &[u8],
) -> Result<S, AllocError>
    requires count { length bytes.now ≡ layout.now.count * layout.now.record_len }
    requires room { digit_rows layout.now * digit_cols layout.now ≤ S.most }
    ensures { IfOk result (λ store. S.digits store ≡ digit_matrix layout.now
        (records_in layout.now bytes.now)) }
{
    let Ok(mut store) = S::zeros(alloc, layout.rows(), layout.cols()) else {
        return Err(AllocError);
    };
    let mut packed = vec![in alloc; 0; layout.digits_per_record()]?;
    let cols = layout.cols();
    for n in 0..layout.groups() * cols {
        let i = n % cols * layout.groups() + n / cols;
        if i >= layout.count() {
            continue;
        }
        let (first, col) = layout.place(i);
        pack(layout, nth_record(layout, bytes, i), &mut packed);
        write_digits(&mut store, first, col, &packed);
    }
    Ok(store)
}
