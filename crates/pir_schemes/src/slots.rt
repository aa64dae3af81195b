//! How a plan's records are held in the bytes that are made digits.

ghost use Rattle.std.specs.Prelude.{◌≡◌, ◌*◌, ◌<◌, ◌≤◌, length, take, true, slice_set};
ghost use Rattle.std.specs.List.{list_all};
ghost use Rattle.digit_pack.specs.Layout.{records_in};
ghost use Rattle.digit_pack.specs.Slots.{is_form};
ghost use Rattle.pir_schemes.specs.Plans.{fits, slot, content, is_slot_of};

use crate::plan::Plan;
use digit_pack::{
    Layout, are_slots, fill_slot, is_form, is_slotted, read_slot, slot_record, write_record,
    write_slot,
};

impl Plan {
    /// Whether there is such a form, for records of so many bytes: 1 and 129; 2 and 130 if a record
    /// has at least two bytes.
    pub fn has_form(&self) -> bool
        ensures { result ≡ is_form self.now.form self.now.record_len }
    {
        is_form(self.form, self.record_len)
    }

    /// Whether bytes can be a record: all have one length, or a slot has room for them.
    #[tactic(auto, unfolding(crate::specs::Plans::fits))]
    pub fn fits(&self, bytes: &[u8]) -> bool
        ensures { result ≡ fits self.now bytes.now }
    {
        let room = usize::from(self.record_len);
        if is_slotted(self.form) {
            room >= 2 && bytes.len() <= room - 2
        } else {
            bytes.len() == room
        }
    }

    /// The record that has these bytes in the digits.
    #[tactic(auto, unfolding(crate::specs::Plans::content, crate::specs::Plans::is_slot_of))]
    pub fn content<'a>(&self, bytes: &'a [u8]) -> &'a [u8]
        requires { is_slot_of self.now bytes.now ≡ true }
        ensures { result.now ≡ content self.now bytes.now }
    {
        if is_slotted(self.form) {
            slot_record(bytes)
        } else {
            bytes
        }
    }

    /// Whether the bytes of each record are those of one, of records one after another in `bytes`.
    #[tactic(auto, using(crate::proofs::SlotLists::all_slots))]
    pub fn has_records(&self, layout: &Layout, bytes: &[u8]) -> bool
        requires { length bytes.now ≡ layout.now.count * layout.now.record_len }
        ensures { result ≡ list_all (is_slot_of self.now) (records_in layout.now bytes.now) }
    {
        if is_slotted(self.form) {
            are_slots(layout, bytes)
        } else {
            true
        }
    }

    /// Writes the bytes that a record has in the digits into `out`, whatever it held. Takes no
    /// memory.
    #[tactic(auto, unfolding(crate::specs::Plans::fits, crate::specs::Plans::slot))]
    pub fn fill(&self, bytes: &[u8], out: &mut [u8])
        requires fits { fits self.now bytes.now ≡ true }
        requires room { length out.old ≡ self.now.record_len }
        requires short { self.now.record_len ≤ 256 }
        ensures { out.new ≡ slot self.now bytes.now }
    {
        if is_slotted(self.form) {
            fill_slot(bytes, out);
        } else {
            out.copy_from_slice(bytes);
        }
    }

    /// Writes another record over record i, of records one after another in `bytes`, and changes no
    /// other. Takes no memory.
    #[tactic(auto, unfolding(crate::specs::Plans::fits, crate::specs::Plans::slot))]
    pub fn write(&self, layout: &Layout, bytes: &mut [u8], i: usize, written: &[u8])
        requires len { layout.now.record_len ≡ self.now.record_len }
        requires count { length bytes.old ≡ layout.now.count * layout.now.record_len }
        requires index { i < layout.now.count }
        requires fits { fits self.now written.now ≡ true }
        ensures { records_in layout.now bytes.new ≡
            slice_set (records_in layout.now bytes.old) i (slot self.now written.now) }
    {
        if is_slotted(self.form) {
            write_slot(layout, bytes, i, written);
        } else {
            write_record(layout, bytes, i, written);
        }
    }

    /// Moves the record that has these bytes in the digits to their beginning, and returns how many
    /// bytes it has. What follows it is unspecified. Takes no memory.
    #[tactic(auto, unfolding(crate::specs::Plans::content, crate::specs::Plans::is_slot_of))]
    pub fn move_content(&self, bytes: &mut [u8]) -> usize
        requires { is_slot_of self.now bytes.old ≡ true }
        ensures record { take result bytes.new ≡ content self.now bytes.old }
        ensures len { result ≡ length (content self.now bytes.old) }
        ensures room { length bytes.new ≡ length bytes.old }
    {
        if !is_slotted(self.form) {
            return bytes.len();
        }
        // A record fills these bytes: this can't fail.
        let len = read_slot(bytes).unwrap();
        bytes.copy_within(2..2 + len, 0);
        len
    }
}
