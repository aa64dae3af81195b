//! Where the digits of records are.

ghost use Rattle.std.specs.Prelude.{◌≡◌, ◌+◌, ◌*◌, ◌/◌, ◌%◌, ◌^◌, ◌<◌, ◌≤◌, IfOk, IfErr};
ghost use Rattle.std.specs.Prelude.{MatchResult, length, slice_index, All};
ghost use Rattle.lane_kernels.specs.Digit.{digit};
ghost use Rattle.digit_pack.specs.Digits.{number_of};
ghost use Rattle.digit_pack.specs.Layout.{
  shape,
  shape_within,
  shape_in,
  IsLayout,
  IsLayoutFault,
  FitsRecord,
  digits_per_record,
  digit_rows,
  digit_cols,
  first_row,
  column_of,
  record_digits,
  record_bytes,
};
ghost use Rattle.digit_pack.specs.Windows.{window};

use crate::forms::is_wide;
use crate::packing::pack_bytes;
use std::marker::Model;
use thiserror::Error;

/// The most bytes of a record.
pub const MAX_RECORD_LEN: usize = 256;

/// The most rows of an ordinary digit matrix.
pub const MAX_ROWS: usize = 4096;

/// The most columns of an ordinary digit matrix.
pub const MAX_COLS: usize = 4096;

/// The most rows of a wide digit matrix, and the most columns.
pub const WIDE_SIDE: usize = 32_768;

/// The most words that the parts of a query have: one for each digit of a record and each row. So a
/// frame has room for a query. All ordinary layouts have fewer.
pub const MAX_PART_WORDS: usize = 4_128_768;

/// Why there is no such layout: the first cause in the order of the variants.
#[derive(Clone, Copy, Debug, PartialEq, Eq, Error)]
pub enum LayoutError {
    /// Digits of fewer than 6 bits or more than 10, or of more than 9 in a wide layout.
    #[error("a digit has 6 to 10 bits, in a wide matrix 6 to 9")]
    BadWidth,
    /// Records of no bytes, or of more than [`MAX_RECORD_LEN`].
    #[error("a record has 1 to 256 bytes")]
    BadRecord,
    /// Columns of no record, or of more than [`MAX_ROWS`] digits ([`WIDE_SIDE`] in a wide layout);
    /// or more than [`MAX_PART_WORDS`] words in the parts of a query.
    #[error("a column holds at least one record and at most 4096 digits, in a wide matrix 32768")]
    BadGroups,
    /// No record, or more than [`MAX_COLS`] columns of records ([`WIDE_SIDE`] in a wide layout).
    #[error("there are 1 to 4096 columns of records, in a wide matrix at most 32768")]
    BadCount,
}

/// A bit past the record's last byte is set, so the digits are no record's.
#[derive(Clone, Copy, Debug, PartialEq, Eq, Error)]
#[error("the digits set a bit past the record's last byte")]
pub struct BadDigits;

/// How many rows and columns there may be, how many bits a digit has, how many bytes a record, how
/// many records a column has, and how many there are: always within the limits. A contract sees it
/// as a `Shape`.
#[derive(Clone, Copy, Debug, PartialEq, Eq)]
pub struct Layout {
    side: usize,
    width: u32,
    record_len: usize,
    groups: usize,
    count: usize,
}

impl Model for Layout {
    ghost use Rattle.digit_pack.specs.Layout.{Shape, IsLayout};

    ghost Value = { Shape };

    ghost view = { λ l. record {
      side = l.side;
      width = l.width;
      record_len = l.record_len;
      groups = l.groups;
      count = l.count;
    } };

    ghost inverse = { λ s. record {
      side = s.side;
      width = s.width;
      record_len = s.record_len;
      groups = s.groups;
      count = s.count;
    } };

    ghost invariant = { λ l.
        IsLayout (record {
          side = l.side;
          width = l.width;
          record_len = l.record_len;
          groups = l.groups;
          count = l.count;
        }) };
}

impl Layout {
    /// The ordinary layout of these sizes: digits of `width` bits, records of `record_len` bytes,
    /// `groups` records to a column, `count` records. Accepted exactly when all are within the
    /// limits; else the first cause is named, in the order of [`LayoutError`].
    pub fn new(
        width: u32,
        record_len: usize,
        groups: usize,
        count: usize,
    ) -> Result<Layout, LayoutError>
        ensures accepted { IfOk result (λ l. (l ≡ shape width record_len groups count) ×
            IsLayout l) }
        ensures refused { IfErr result (IsLayoutFault (shape width record_len groups count)) }
    {
        Layout::within(MAX_ROWS, width, record_len, groups, count)
    }

    /// The layout of these sizes in a form, likewise: a wide one in the forms above 128, else an
    /// ordinary one. In a wide layout digits have at most 9 bits: with 10, the noise over so many
    /// columns would not stay small.
    pub fn of_form(
        form: u16,
        width: u32,
        record_len: usize,
        groups: usize,
        count: usize,
    ) -> Result<Layout, LayoutError>
        ensures accepted { IfOk result (λ l.
            (l ≡ shape_in form width record_len groups count) × IsLayout l) }
        ensures refused { IfErr result
            (IsLayoutFault (shape_in form width record_len groups count)) }
    {
        let side = if is_wide(form) { WIDE_SIDE } else { MAX_ROWS };
        Layout::within(side, width, record_len, groups, count)
    }

    // The layout of these sizes, with at most `side` rows and as many columns.
    fn within(
        side: usize,
        width: u32,
        record_len: usize,
        groups: usize,
        count: usize,
    ) -> Result<Layout, LayoutError>
        requires { side ≤ 32768 }
        ensures accepted { IfOk result (λ l.
            (l ≡ shape_within side width record_len groups count) × IsLayout l) }
        ensures refused { IfErr result
            (IsLayoutFault (shape_within side width record_len groups count)) }
    {
        if width < 6 || width > 10 || side > MAX_ROWS && width > 9 {
            return Err(LayoutError::BadWidth);
        }
        if record_len == 0 || record_len > MAX_RECORD_LEN {
            return Err(LayoutError::BadRecord);
        }
        let digits = (8 * record_len + width as usize - 1) / width as usize;
        // the first test keeps the product from overflowing
        if groups == 0 || groups > side || groups * digits > side {
            return Err(LayoutError::BadGroups);
        }
        if digits * (groups * digits) > MAX_PART_WORDS {
            return Err(LayoutError::BadGroups);
        }
        if count == 0 || count > side * groups {
            return Err(LayoutError::BadCount);
        }
        Ok(Layout {
            side,
            width,
            record_len,
            groups,
            count,
        })
    }

    /// How many bits a digit has.
    pub fn width(&self) -> u32
        ensures value { result ≡ self.now.width }
        ensures layout { IsLayout self.now }
    {
        self.width
    }

    /// How many bytes a record has.
    pub fn record_len(&self) -> usize
        ensures value { result ≡ self.now.record_len }
        ensures layout { IsLayout self.now }
    {
        self.record_len
    }

    /// How many records a column has.
    pub fn groups(&self) -> usize
        ensures value { result ≡ self.now.groups }
        ensures layout { IsLayout self.now }
    {
        self.groups
    }

    /// How many records there are.
    pub fn count(&self) -> usize
        ensures value { result ≡ self.now.count }
        ensures layout { IsLayout self.now }
    {
        self.count
    }

    /// How many digits a record has: 8 bits a byte, divided by the width, rounded up.
    #[tactic(auto, using(crate::proofs::Limits::few_digits))]
    pub fn digits_per_record(&self) -> usize
        ensures value { result ≡ digits_per_record self.now }
        ensures few { result ≤ 342 }
        ensures layout { IsLayout self.now }
    {
        (8 * self.record_len + self.width as usize - 1) / self.width as usize
    }

    /// How many rows the digit matrix has: the digits of a column's records.
    pub fn rows(&self) -> usize
        ensures value { result ≡ digit_rows self.now }
        ensures few { result ≤ 32768 }
        ensures layout { IsLayout self.now }
    {
        self.digits_per_record() * self.groups
    }

    /// How many columns the digit matrix has.
    pub fn cols(&self) -> usize
        ensures value { result ≡ digit_cols self.now }
        ensures few { result ≤ 32768 }
        ensures layout { IsLayout self.now }
    {
        (self.count + self.groups - 1) / self.groups
    }

    /// The first row and the column of record i. Its digits are in this column, from this row down.
    pub fn place(&self, i: usize) -> (usize, usize)
        requires { i < self.now.count }
        ensures value { result ≡ (first_row self.now i, column_of self.now i) }
        ensures layout { IsLayout self.now }
    {
        (i % self.groups * self.digits_per_record(), i / self.groups)
    }
}

/// Writes the digits of a record into `out`, least significant first. Linear in the record's bits,
/// without memory.
pub fn pack(layout: &Layout, bytes: &[u8], out: &mut [u32])
    requires bytes { length bytes.now ≡ layout.now.record_len }
    requires room { length out.old ≡ digits_per_record layout.now }
    ensures digits { out.new ≡ record_digits layout.now bytes.now }
    ensures small { All (λ d. d < 1024) out.new }
{
    pack_bytes(layout.width(), bytes, out);
}

// The digit at a place, and 0 past the end.
fn digit_or_zero(w: u32, digits: &[u32], i: usize) -> u32
    requires { All (λ d. d < 2 ^ w) digits.now }
    ensures value { result ≡ slice_index digits.now i }
    ensures small { result < 2 ^ w }
{
    match digits.get(i) {
        Some(d) => *d,
        None => 0,
    }
}

// Three digits from a place on.
#[tactic(auto, unfolding(crate::specs::Windows::window))]
fn digit_window(w: u32, digits: &[u32], first: usize) -> u32
    requires width { (6 ≤ w) × (w ≤ 10) }
    requires place { first < 65536 }
    requires small { All (λ d. d < 2 ^ w) digits.now }
    ensures { result ≡ window w digits.now first }
{
    let low = digit_or_zero(w, digits, first);
    let middle = digit_or_zero(w, digits, first + 1);
    let high = digit_or_zero(w, digits, first + 2);
    low + (middle << w) + (high << (w * 2))
}

/// Writes the bytes of the record that digits write into `out`. `BadDigits` exactly when they set a
/// bit past the record's last byte; `out` is then unchanged.
pub fn unpack(layout: &Layout, digits: &[u32], out: &mut [u8]) -> Result<(), BadDigits>
    requires digits { length digits.now ≡ digits_per_record layout.now }
    requires small { All (λ d. d < 2 ^ layout.now.width) digits.now }
    requires room { length out.old ≡ layout.now.record_len }
    ensures { MatchResult result
        (λ _. FitsRecord layout.now digits.now × (out.new ≡ record_bytes layout.now digits.now))
        (λ _. (¬ FitsRecord layout.now digits.now) × (out.new ≡ out.old)) }
{
    let w = layout.width();
    let top = layout.digits_per_record() - 1;
    let over = 8 * layout.record_len() - w as usize * top;
    if digits[top] >= 1 << over {
        return Err(BadDigits);
    }
    for i in 0..out.len() {
        let bit = 8 * i;
        let part = digit_window(w, digits, bit / w as usize) >> (bit % w as usize);
        out[i] = (part % 256) as u8;
    }
    Ok(())
}
