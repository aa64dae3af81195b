//! Records that are kept in their digits alone.

ghost use Rattle.std.specs.Prelude.{◌≡◌, ◌≤◌, ◌<◌, ◌^◌, ◌+◌, ◌*◌, ◌++◌, ℕ, List, All, [], length};
ghost use Rattle.std.specs.Prelude.{IfOk, OnOk, OnErr, slice_set};
ghost use Rattle.digit_pack.specs.Columns.{WritesColumn};
ghost use Rattle.digit_pack.specs.Layout.{digit_rows, digit_cols, digit_matrix, first_row};
ghost use Rattle.digit_pack.specs.Layout.{column_of, digits_per_record, record_digits, records_in};
ghost use Rattle.version_store.specs.KeptRecords.{counted, records_of_groups, records_over};

use crate::first_layer::Digits;
use digit_pack::{DigitStore, Layout, copy_record, digit_buffer, digits_of_records, pack};
use snapshot_file::{RecordSink, RecordSource};
use std::alloc::{AllocError, Global};
use std::marker::Model;

/// How many bytes of records that are together are written before those of the next column: one
/// line of a processor's cache.
const BLOCK_LEN: usize = 64;

/// The first records of a layout, kept in its digits alone. A contract sees it as the layout and
/// the records' bytes.
#[derive(Drop)]
pub struct DigitRecords {
    layout: Layout,
    digits: Digits,
    taken: usize,
}

impl Model for DigitRecords {
    ghost use Rattle.version_store.specs.KeptRecords.{KeptRecords, IsKept, bytes_in_digits};

    ghost Value = { KeptRecords };

    ghost view = { λ d. record {
      shape = d.layout;
      bytes = bytes_in_digits d.layout d.taken d.digits;
    } };

    ghost invariant = { λ d. IsKept d.layout d.taken d.digits };
}

impl RecordSource for DigitRecords {
    ghost bytes = { λ d. d.bytes };

    ghost record_len = { λ d. d.shape.record_len };

    fn copy_record(&self, i: usize, out: &mut [u8]) {
        copy_record(&self.layout, &self.digits, i, out);
    }
}

impl RecordSink for DigitRecords {
    ghost taken = { λ d. d.bytes };

    ghost shape = { λ d. d.shape };

    fn take_records(&mut self, bytes: &[u8]) {
        let count = bytes.len() / self.layout.record_len();
        write_records(&self.layout, &mut self.digits, self.taken, count, bytes);
        self.taken += count;
    }
}

impl DigitRecords {
    /// No records yet, and room for those of a layout. Only refused memory gives an `Err`.
    pub fn new(alloc: Global, layout: Layout) -> Result<DigitRecords, AllocError>
        ensures { IfOk result (λ d. d ≡ record { shape = layout; bytes = [] }) }
    {
        let Ok(digits) = Digits::zeros(alloc, layout.rows(), layout.cols()) else {
            return Err(AllocError);
        };
        let taken = 0;
        Ok(DigitRecords {
            layout,
            digits,
            taken,
        })
    }

    /// The records of a layout, one after another in `bytes`. Only refused memory gives an `Err`.
    pub fn from_bytes(
        alloc: Global,
        layout: Layout,
        bytes: &[u8],
    ) -> Result<DigitRecords, AllocError>
        requires { length bytes.now ≡ layout.count * layout.record_len }
        ensures { IfOk result (λ d. d ≡ record { shape = layout; bytes = bytes.now }) }
    {
        // Called for what it says of the layout: there are few rows and columns.
        layout.rows();
        let digits: Digits = digits_of_records(alloc, &layout, bytes)?;
        let taken = layout.count();
        Ok(DigitRecords {
            layout,
            digits,
            taken,
        })
    }

    /// Puts other bytes in the place of record i. Takes no memory.
    pub fn replace(&mut self, i: usize, bytes: &[u8])
        requires index { i < self.old.shape.count }
        requires whole { length self.old.bytes ≡
            self.old.shape.count * self.old.shape.record_len }
        requires len { length bytes.now ≡ self.old.shape.record_len }
        ensures shape { self.new.shape ≡ self.old.shape }
        ensures same_len { length self.new.bytes ≡ length self.old.bytes }
        ensures records { records_in self.new.shape self.new.bytes ≡
            slice_set (records_in self.old.shape self.old.bytes) i bytes.now }
    {
        write_place(&self.layout, &mut self.digits, i, bytes);
    }

    /// Puts a record after the last one: `layout` is that of one record more. Only refused memory
    /// gives an `Err`, and then nothing has changed.
    ///
    /// Memory is taken only when a row of digits becomes a word longer, once in three further
    /// columns.
    pub fn push(&mut self, layout: Layout, bytes: &[u8]) -> Result<(), AllocError>
        requires whole { length self.old.bytes ≡
            self.old.shape.count * self.old.shape.record_len }
        requires sizes { layout ≡ counted self.old.shape (self.old.shape.count + 1) }
        requires len { length bytes.now ≡ self.old.shape.record_len }
        ensures put { OnOk result (self.new ≡
            record { shape = layout; bytes = self.old.bytes ++ bytes.now }) }
        ensures refused { OnErr result (self.new ≡ self.old) }
    {
        self.digits.rows();
        let Ok(()) = self.digits.grow(layout.cols()) else {
            return Err(AllocError);
        };
        self.layout = layout;
        self.take_records(bytes);
        Ok(())
    }

    /// The digits of all records of the layout.
    pub fn into_digits(self) -> Digits
        requires { length self.bytes ≡ self.shape.count * self.shape.record_len }
        ensures digits { result ≡ digit_matrix self.shape (records_in self.shape self.bytes) }
        ensures small { All (λ b. b < 2 ^ 8) self.bytes }
    {
        self.digits
    }
}

// Writes the digits of `count` records, one after another in `bytes`, into the places of records
// from `first` on: some groups, whose rows are near one another, in all of their columns, then the
// next ones.
fn write_records(layout: &Layout, digits: &mut Digits, first: usize, count: usize, bytes: &[u8])
    requires inside { first + count ≤ layout.now.count }
    requires len { length bytes.now ≡ count * layout.now.record_len }
    requires rows { digits.old.rows ≡ digit_rows layout.now }
    requires cols { digits.old.cols ≡ digit_cols layout.now }
    ensures { (xs : List (List ℕ)) → length xs ≡ first →
        digits.old ≡ digit_matrix layout.now xs → digits.new ≡
        digit_matrix layout.now (xs ++ records_in (counted layout.now count) bytes.now) }
{
    let groups = layout.groups();
    let step = (BLOCK_LEN / layout.record_len()).max(1);
    let mut from = 0;
    while from < groups {
        let to = groups.min(from + step);
        write_block(layout, digits, first, count, bytes, from, to);
        from = to;
    }
}

// Writes the digits of the groups `from` up to `to` of those records, one column after another: the
// bytes of those in one column are together, in a line of the cache.
fn write_block(
    layout: &Layout,
    digits: &mut Digits,
    first: usize,
    count: usize,
    bytes: &[u8],
    from: usize,
    to: usize,
)
    requires groups { (from ≤ to) × (to ≤ layout.now.groups) }
    requires inside { first + count ≤ layout.now.count }
    requires len { length bytes.now ≡ count * layout.now.record_len }
    requires rows { digits.old.rows ≡ digit_rows layout.now }
    requires cols { digits.old.cols ≡ digit_cols layout.now }
    ensures rows { digits.new.rows ≡ digit_rows layout.now }
    ensures cols { digits.new.cols ≡ digit_cols layout.now }
    ensures written { (xs : List (List ℕ)) → length xs ≡ first → digits.old ≡ digit_matrix
        layout.now (xs ++ records_of_groups (counted layout.now count)
        (records_in (counted layout.now count) bytes.now) from) → digits.new ≡ digit_matrix
        layout.now (xs ++ records_of_groups (counted layout.now count)
        (records_in (counted layout.now count) bytes.now) to) }
{
    let groups = layout.groups();
    let len = layout.record_len();
    for n in 0..(count + groups - 1) / groups {
        let begin = n * groups + from;
        let end = count.min(n * groups + to);
        if begin < end {
            let many = end - begin;
            let run = &bytes[begin * len..begin * len + many * len];
            write_run(layout, digits, first + begin, many, run);
        }
    }
}

// Writes the digits of `count` records, one after another in `bytes`, into the places of records
// from `at` on, one below another. The place of the first of them is found by division, and no
// other's, so that records of one byte cost no more than to write them.
fn write_run(layout: &Layout, digits: &mut Digits, at: usize, count: usize, bytes: &[u8])
    requires inside { at + count ≤ layout.now.count }
    requires len { length bytes.now ≡ count * layout.now.record_len }
    requires rows { digits.old.rows ≡ digit_rows layout.now }
    requires cols { digits.old.cols ≡ digit_cols layout.now }
    ensures rows { digits.new.rows ≡ digit_rows layout.now }
    ensures cols { digits.new.cols ≡ digit_cols layout.now }
    ensures written { (xs : List (List ℕ)) → length xs ≤ layout.now.count →
        digits.old ≡ digit_matrix layout.now xs → digits.new ≡ digit_matrix layout.now
        (records_over layout.now xs at count (records_in (counted layout.now count) bytes.now)) }
{
    let groups = layout.groups();
    let len = layout.record_len();
    let each = layout.digits_per_record();
    let mut room = digit_buffer();
    let packed = &mut room[..each];
    let mut group = at % groups;
    let mut col = at / groups;
    for k in 0..count {
        let record = &bytes[k * len..k * len + len];
        write_column(layout, digits, group * each, col, record, packed);
        group += 1;
        if group == groups {
            group = 0;
            col += 1;
        }
    }
}

// Writes the digits of a record's bytes into the place of record i.
fn write_place(layout: &Layout, digits: &mut Digits, i: usize, bytes: &[u8])
    requires index { i < layout.now.count }
    requires len { length bytes.now ≡ layout.now.record_len }
    requires rows { digits.old.rows ≡ digit_rows layout.now }
    requires cols { digits.old.cols ≡ digit_cols layout.now }
    ensures { WritesColumn digits.old digits.new (first_row layout.now i) (column_of layout.now i)
        (record_digits layout.now bytes.now) }
{
    let mut room = digit_buffer();
    let packed = &mut room[..layout.digits_per_record()];
    let (first, col) = layout.place(i);
    write_column(layout, digits, first, col, bytes, packed);
}

// Writes the digits of a record's bytes into a column, from row `first` down. What `packed`, room
// for them, holds afterwards is unspecified.
fn write_column(
    layout: &Layout,
    digits: &mut Digits,
    first: usize,
    col: usize,
    bytes: &[u8],
    packed: &mut [u32],
)
    requires len { length bytes.now ≡ layout.now.record_len }
    requires rows { first + digits_per_record layout.now ≤ digits.old.rows }
    requires col { col < digits.old.cols }
    requires room { length packed.old ≡ digits_per_record layout.now }
    ensures written { WritesColumn digits.old digits.new first col
        (record_digits layout.now bytes.now) }
    ensures room { length packed.new ≡ length packed.old }
{
    pack(layout, bytes, packed);
    digits.swap_digits(first, col, packed);
}
