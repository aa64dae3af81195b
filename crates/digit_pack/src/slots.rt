//! Slots: a record of its own length in a fixed number of bytes, so that records of different
//! lengths take the same room.

ghost use Rattle.std.specs.Prelude.{◌≡◌, ◌+◌, ◌*◌, ◌^◌, ◌<◌, ◌≤◌, ◌↔◌, IsOk, IfOk, IsTrue, true};
ghost use Rattle.std.specs.Prelude.{length, take, drop, nat_eq, slice_set};
ghost use Rattle.std.specs.List.{list_all};
ghost use Rattle.digit_pack.specs.Layout.{records_in};
ghost use Rattle.digit_pack.specs.Slots.{slot_of, is_slot, content_of};

use crate::filling::nth_record;
use crate::layout::Layout;
use thiserror::Error;

/// Bytes that are no slot: fewer than two, a length that is more than what follows it, or a byte
/// after the record that is not 0.
#[derive(Clone, Copy, Debug, PartialEq, Eq, Error)]
#[error("the bytes are no slot")]
pub struct BadSlot;

/// Writes a record into a slot: its length in two bytes, the lower one first, its bytes, and zeros.
/// Takes no memory.
pub fn fill_slot(bytes: &[u8], slot: &mut [u8])
    requires fits { length bytes.now + 2 ≤ length slot.old }
    requires short { length bytes.now < 2 ^ 16 }
    ensures { slot.new ≡ slot_of (length slot.old) bytes.now }
{
    let (len, rest) = slot.split_at_mut(2);
    len.copy_from_slice(&(bytes.len() as u16).to_le_bytes());
    let (record, padding) = rest.split_at_mut(bytes.len());
    record.copy_from_slice(bytes);
    padding.fill(0);
}

/// The length of the record in a slot, which begins after the slot's first two bytes. Takes no
/// memory.
///
/// # Errors
///
/// `BadSlot` exactly when no record fills these bytes so.
#[tactic(auto, unfolding(crate::specs::Slots::is_slot))]
pub fn read_slot(slot: &[u8]) -> Result<usize, BadSlot>
    ensures slot { IsOk result ↔ (is_slot slot.now ≡ true) }
    ensures record { IfOk result (λ len. (len + 2 ≤ length slot.now)
        × (content_of slot.now ≡ take len (drop 2 slot.now))) }
{
    if slot.len() < 2 {
        return Err(BadSlot);
    }
    let len = usize::from(u16::from_le_bytes([slot[0], slot[1]]));
    let end = len + 2;
    if slot.len() < end || !is_zero(&slot[end..]) {
        return Err(BadSlot);
    }
    Ok(len)
}

/// The record in a slot. Takes no memory.
pub fn slot_record(slot: &[u8]) -> &[u8]
    requires { is_slot slot.now ≡ true }
    ensures { result.now ≡ content_of slot.now }
{
    // A record fills these bytes: this can't fail.
    let len = read_slot(slot).unwrap();
    &slot[2..2 + len]
}

/// Writes another record into the slot of record i, of slots one after another in `bytes`, and
/// changes no other. Takes no memory.
pub fn write_slot(layout: &Layout, bytes: &mut [u8], i: usize, written: &[u8])
    requires count { length bytes.old ≡ layout.now.count * layout.now.record_len }
    requires index { i < layout.now.count }
    requires fits { length written.now + 2 ≤ layout.now.record_len }
    ensures { records_in layout.now bytes.new ≡ slice_set (records_in layout.now bytes.old) i
        (slot_of layout.now.record_len written.now) }
{
    let len = layout.record_len();
    fill_slot(written, &mut bytes[i * len..i * len + len]);
}

/// Whether the bytes of each record are a slot, of records one after another in `bytes`. Takes no
/// memory.
pub fn are_slots(layout: &Layout, bytes: &[u8]) -> bool
    requires { length bytes.now ≡ layout.now.count * layout.now.record_len }
    ensures { result ≡ list_all is_slot (records_in layout.now bytes.now) }
{
    for i in 0..layout.count() {
        if !is_slot(nth_record(layout, bytes, i)) {
            return false;
        }
    }
    true
}

// Whether a record fills these bytes.
fn is_slot(bytes: &[u8]) -> bool
    ensures { result ≡ is_slot bytes.now }
{
    read_slot(bytes).is_ok()
}

// Whether all bytes are 0.
fn is_zero(bytes: &[u8]) -> bool
    ensures { result ≡ list_all (nat_eq 0) bytes.now }
{
    bytes.iter().all(|byte| *byte == 0)
}
