//! What one publication changed.

ghost use Rattle.std.specs.Prelude.{◌≡◌, ◌≤◌, ◌<◌, ◌*◌, ◌++◌, ◌∷◌, ◌↔◌, ℕ, All, [], false, length};
ghost use Rattle.std.specs.Prelude.{slice_index, OnOk, OnErr, IfSome, IsNone};
ghost use Rattle.std.specs.List.Sorted.{IsStrictlyIncreasing};
ghost use Rattle.record_log.specs.OldRecords.{AreAscending, first_from, has_old, old_bytes_in};

use std::alloc::{AllocError, Global};
use std::marker::Model;

/// The records of one length that a publication changed: their numbers, ascending, and the bytes
/// that each had before.
#[derive(Drop)]
pub struct OldRecords {
    record_len: usize,
    numbers: Vec<u32>,
    // Those of all records, one after another.
    bytes: Vec<u8>,
}

impl Model for OldRecords {
    ghost use Rattle.std.specs.Prelude.{◌≡◌, ◌*◌, length};
    ghost use Rattle.std.specs.List.Sorted.{IsStrictlyIncreasing};
    ghost use Rattle.record_log.specs.OldRecords.{OldBytes, olds_in};

    ghost Value = { OldBytes };

    ghost view = { λ o. record {
      record_len = o.record_len;
      records = olds_in o.record_len o.numbers.items o.bytes.items;
    } };

    ghost invariant = { λ o. (length o.bytes.items ≡ length o.numbers.items * o.record_len) ×
        IsStrictlyIncreasing o.numbers.items };
}

impl OldRecords {
    /// Of records of so many bytes: none yet. No memory is taken.
    pub fn new(alloc: Global, record_len: usize) -> OldRecords
        ensures { result ≡ record { record_len = record_len; records = [] } }
    {
        OldRecords {
            record_len,
            numbers: Vec::new(alloc),
            bytes: Vec::new(alloc),
        }
    }

    /// Adds a record with a greater number than those before.
    ///
    /// # Errors
    ///
    /// Only refused memory gives an `Err`, and then nothing has changed.
    pub fn push(&mut self, number: u32, bytes: &[u8]) -> Result<(), AllocError>
        requires len { length bytes.now ≡ self.old.record_len }
        requires later { All (λ old. old.index < number) self.old.records }
        ensures pushed { OnOk result (self.new ≡ record {
          record_len = self.old.record_len;
          records = self.old.records ++ record { index = number; bytes = bytes.now } ∷ [];
        }) }
        ensures refused { OnErr result (self.new ≡ self.old) }
    {
        self.bytes.reserve(bytes.len())?;
        self.numbers.push(number)?;
        self.bytes.extend_from_slice(bytes)
    }

    /// How many records there are.
    pub fn count(&self) -> usize
        ensures value { result ≡ length self.now.records }
        ensures ascending { AreAscending self.now.records }
    {
        self.numbers.len()
    }

    /// How many bytes each has.
    pub fn record_len(&self) -> usize
        ensures { result ≡ self.now.record_len }
    {
        self.record_len
    }

    /// How many old bytes there are of all records together.
    pub fn byte_len(&self) -> usize
        ensures { result ≡ length self.now.records * self.now.record_len }
    {
        self.bytes.len()
    }

    /// The old bytes of a record, if it is one of them.
    pub fn bytes_of(&self, number: u32) -> Option<&[u8]>
        ensures found { IfSome result (λ bytes.
            bytes.now ≡ old_bytes_in self.now.records number) }
        ensures len { IfSome result (λ bytes. length bytes.now ≡ self.now.record_len) }
        ensures there { IsNone result ↔ (has_old self.now.records number ≡ false) }
    {
        let k = place_of(&self.numbers, number);
        if k >= self.numbers.len() || self.numbers[k] != number {
            return None;
        }
        Some(&self.bytes[k * self.record_len..k * self.record_len + self.record_len])
    }

    /// The least number of a record from `least` on, if there is one.
    pub fn first_from(&self, least: u32) -> Option<u32>
        ensures value { result ≡ first_from self.now.records least }
        ensures low { IfSome result (λ number. least ≤ number) }
        ensures before { IfSome result (λ number. (i : ℕ) → least ≤ i → i < number →
            has_old self.now.records i ≡ false) }
    {
        let k = place_of(&self.numbers, least);
        self.numbers.get(k).copied()
    }
}

// How many of the numbers, which ascend, are less than `least`.
fn place_of(numbers: &[u32], least: u32) -> usize
    requires { IsStrictlyIncreasing numbers.now }
    ensures inside { result ≤ length numbers.now }
    ensures less { (k : ℕ) → k < result → slice_index numbers.now k < least }
    ensures others { (k : ℕ) → result ≤ k → k < length numbers.now →
        least ≤ slice_index numbers.now k }
{
    match numbers.binary_search(&least) {
        Ok(k) => k,
        Err(k) => k,
    }
}
