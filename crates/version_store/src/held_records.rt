//! The records that a store is opened with.

ghost use Rattle.std.specs.Prelude.{◌≡◌, ◌≤◌, ◌<◌, ◌^◌, ◌+◌, ◌*◌, ◌++◌, All, [], length, take};
ghost use Rattle.std.specs.Prelude.{drop, if◌then◌else◌, IfOk, OnOk, OnErr, slice_set};
ghost use Rattle.digit_pack.specs.Layout.{is_wide, digit_matrix, records_in};
ghost use Rattle.version_store.specs.KeptRecords.{counted};
ghost use Rattle.version_store.specs.HeldRecords.{bytes_held_by, is_in_digits, HasShape};

use crate::digit_records::DigitRecords;
use crate::first_layer::Digits;
use digit_pack::{Layout, digits_of_records, is_wide, nth_record, write_record};
use snapshot_file::RecordSource;
use std::alloc::{AllocError, Global};

/// The records that a store is opened with: the bytes of all, one after another, in an ordinary
/// form, and their digits alone in a wide one.
#[derive(Drop)]
pub enum HeldRecords {
    Bytes(Vec<u8>),
    Digits(DigitRecords),
}

impl HeldRecords {
    /// The records of a form and a layout, one after another in `bytes`. Only refused memory gives
    /// an `Err`.
    pub fn from_bytes(
        alloc: Global,
        form: u16,
        layout: Layout,
        bytes: Vec<u8>,
    ) -> Result<HeldRecords, AllocError>
        requires { length bytes.items ≡ layout.count * layout.record_len }
        ensures bytes { IfOk result (λ h. bytes_held_by h ≡ bytes.items) }
        ensures kind { IfOk result (λ h. is_in_digits h ≡ is_wide form) }
        ensures shape { IfOk result (HasShape layout) }
    {
        if is_wide(form) {
            let records = DigitRecords::from_bytes(alloc, layout, &bytes)?;
            return Ok(HeldRecords::Digits(records));
        }
        Ok(HeldRecords::Bytes(bytes))
    }

    /// Puts other bytes in the place of record i. Takes no memory.
    pub fn replace(&mut self, layout: &Layout, i: usize, bytes: &[u8])
        requires shape { HasShape layout.now self.old }
        requires index { i < layout.now.count }
        requires whole { length (bytes_held_by self.old) ≡
            layout.now.count * layout.now.record_len }
        requires len { length bytes.now ≡ layout.now.record_len }
        ensures kind { is_in_digits self.new ≡ is_in_digits self.old }
        ensures shape { HasShape layout.now self.new }
        ensures same_len { length (bytes_held_by self.new) ≡ length (bytes_held_by self.old) }
        ensures records { records_in layout.now (bytes_held_by self.new) ≡
            slice_set (records_in layout.now (bytes_held_by self.old)) i bytes.now }
    {
        match self {
            HeldRecords::Bytes(all) => write_record(layout, all, i, bytes),
            HeldRecords::Digits(records) => records.replace(i, bytes),
        }
    }

    /// Puts a record after the last one: `layout` is that of one record more than `count`. Only
    /// refused memory gives an `Err`, and then nothing has changed.
    pub fn push(&mut self, layout: Layout, count: usize, bytes: &[u8]) -> Result<(), AllocError>
        requires shape { HasShape (counted layout count) self.old }
        requires more { layout.count ≡ count + 1 }
        requires whole { length (bytes_held_by self.old) ≡ count * layout.record_len }
        requires len { length bytes.now ≡ layout.record_len }
        ensures kind { is_in_digits self.new ≡ is_in_digits self.old }
        ensures shape { OnOk result (HasShape layout self.new) }
        ensures put { OnOk result (bytes_held_by self.new ≡ bytes_held_by self.old ++ bytes.now) }
        ensures refused { OnErr result (bytes_held_by self.new ≡ bytes_held_by self.old) }
        ensures same_shape { OnErr result (HasShape (counted layout count) self.new) }
    {
        match self {
            HeldRecords::Bytes(all) => all.extend_from_slice(bytes),
            HeldRecords::Digits(records) => records.push(layout, bytes),
        }
    }

    /// Writes the bytes of record i into `out`, whatever it held. Takes no memory.
    pub fn copy_record(&self, layout: &Layout, i: usize, out: &mut [u8])
        requires shape { HasShape layout.now self.now }
        requires whole { length (bytes_held_by self.now) ≡
            layout.now.count * layout.now.record_len }
        requires index { i < layout.now.count }
        requires room { length out.old ≡ layout.now.record_len }
        ensures { out.new ≡ take layout.now.record_len
            (drop (i * layout.now.record_len) (bytes_held_by self.now)) }
    {
        match self {
            HeldRecords::Bytes(all) => out.copy_from_slice(nth_record(layout, all, i)),
            HeldRecords::Digits(records) => records.copy_record(i, out),
        }
    }

    /// The digits of all records, and the bytes that are kept beside them: none if the digits alone
    /// were. Only refused memory gives an `Err`.
    pub fn into_digits(
        self,
        alloc: Global,
        layout: &Layout,
    ) -> Result<(Digits, Vec<u8>), AllocError>
        requires shape { HasShape layout.now self }
        requires whole { length (bytes_held_by self) ≡ layout.now.count * layout.now.record_len }
        ensures digits { IfOk result (λ made.
            made.0 ≡ digit_matrix layout.now (records_in layout.now (bytes_held_by self))) }
        ensures bytes { IfOk result (λ made.
            made.1.items ≡ (if is_in_digits self then [] else bytes_held_by self)) }
        ensures small { All (λ b. b < 2 ^ 8) (bytes_held_by self) }
    {
        match self {
            HeldRecords::Bytes(bytes) => {
                let digits = digits_of(alloc, layout, &bytes)?;
                Ok((digits, bytes))
            }
            HeldRecords::Digits(records) => Ok((records.into_digits(), Vec::new(alloc))),
        }
    }
}

// The digits of records one after another in `bytes`.
fn digits_of(alloc: Global, layout: &Layout, bytes: &[u8]) -> Result<Digits, AllocError>
    requires { length bytes.now ≡ layout.now.count * layout.now.record_len }
    ensures digits { IfOk result (λ digits.
        digits ≡ digit_matrix layout.now (records_in layout.now bytes.now)) }
    ensures small { All (λ b. b < 2 ^ 8) bytes.now }
{
    // Called for what it says of the layout: there are few rows and columns.
    layout.rows();
    digits_of_records(alloc, layout, bytes)
}
