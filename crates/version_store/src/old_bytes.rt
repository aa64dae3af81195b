//! The bytes that records had before a publication changed them.

ghost use Rattle.std.specs.Prelude.{◌≡◌, ◌≤◌, ◌<◌, ◌*◌, ◌/◌, ◌^◌, ◌++◌, ℕ, [], All, true, length};
ghost use Rattle.std.specs.Prelude.{IfOk, IfSome, OnOk};
ghost use Rattle.digit_pack.specs.Layout.{digit_rows, record_at};
ghost use Rattle.pir_schemes.specs.Plans.{fits, slot, slots};
ghost use Rattle.record_log.specs.OldRecords.{OldBytes, OldRecord};
ghost use Rattle.version_store.specs.Drafts.{draft_of, grown_to, FitRecords};
ghost use Rattle.version_store.specs.Editions.{Records, grown};
ghost use Rattle.version_store.specs.OldRecords.{AddsOld, olds_between, slots_with_blanks};
ghost use Rattle.version_store.specs.OldRecords.{with_newest};

use crate::drafts::{Changes, first_change};
use crate::first_layer::FirstLayer;
use digit_pack::{Layout, record_buffer};
use record_log::{OldRecords, RecordLog};
use std::alloc::{AllocError, Global};

/// The records that changes replace by others, with the bytes that they have in the digits before
/// that: those that are appended are blanks. There are `count` records with them. Only refused
/// memory gives an `Err`.
pub fn old_bytes(
    alloc: Global,
    layer: &FirstLayer,
    changes: &Changes,
    count: usize,
) -> Result<OldRecords, AllocError>
    requires more { length layer.now.records ≤ count }
    requires few { count ≤ 2 ^ 32 }
    requires fit { FitRecords (grown_to count layer.now) changes.now.entries }
    ensures { IfOk result (λ o. o ≡ record {
      record_len = layer.now.plan.record_len;
      records = olds_between (slots_with_blanks layer.now.plan count layer.now.records)
          (slots layer.now.plan (draft_of (grown_to count layer.now).records changes.now.entries));
    }) }
{
    let len = layer.layout().record_len();
    let mut olds = OldRecords::new(alloc, len);
    let mut from = 0;
    while let Some((i, bytes)) = first_change(changes, from) {
        push_old(&mut olds, layer, i, bytes)?;
        from = i + 1;
    }
    Ok(olds)
}

// Adds the bytes that record i has in the digits, unless they are those that it gets.
fn push_old(
    olds: &mut OldRecords,
    layer: &FirstLayer,
    i: usize,
    bytes: &[u8],
) -> Result<(), AllocError>
    requires len { olds.old.record_len ≡ layer.now.plan.record_len }
    requires later { All (λ (old : OldRecord). old.index < i) olds.old.records }
    requires few { i < 2 ^ 32 }
    requires fits { fits layer.now.plan bytes.now ≡ true }
    ensures { (count : ℕ) → length layer.now.records ≤ count → i < count →
        OnOk result (AddsOld i
        (record_at (slots_with_blanks layer.now.plan count layer.now.records) i)
        (slot layer.now.plan bytes.now) olds.old olds.new) }
{
    let len = layer.layout().record_len();
    let mut room = record_buffer();
    let mut other = record_buffer();
    let old = &mut room[..len];
    let new = &mut other[..len];
    copy_old(layer, i, old);
    layer.plan().fill(bytes, new);
    if *old == *new {
        return Ok(());
    }
    olds.push(i as u32, old)
}

// Writes the bytes that record i has in the digits into `out`, whatever it held: zeros, if there is
// no such record yet.
fn copy_old(layer: &FirstLayer, i: usize, out: &mut [u8])
    requires room { length out.old ≡ layer.now.plan.record_len }
    ensures { (count : ℕ) → length layer.now.records ≤ count → i < count →
        out.new ≡ record_at (slots_with_blanks layer.now.plan count layer.now.records) i }
{
    if i < layer.layout().count() {
        // Called for what it says of the bytes.
        layer.bytes_len();
        layer.copy_slot(i, out);
    } else {
        out.fill(0);
    }
}

/// A log of the old bytes of records, which keeps an eighth of the bytes of the hint at most.
pub fn olds_log(alloc: Global, layout: &Layout, dimension: u16) -> Result<RecordLog, AllocError>
    requires { dimension ≤ 1024 }
    ensures { IfOk result (λ log. log ≡ record {
      record_len = layout.now.record_len;
      most = digit_rows layout.now * dimension / 2;
      lists = [];
    }) }
{
    let most = layout.rows() * usize::from(dimension) / 2;
    RecordLog::new(alloc, layout.record_len(), most)
}

/// Keeps the old bytes of a publication, if there are any to keep. Takes no memory.
pub fn keep_olds(log: &mut RecordLog, olds: Option<OldRecords>)
    requires { IfSome olds (λ newest. newest.record_len ≡ log.old.record_len) }
    ensures { log.new ≡ with_newest log.old olds }
{
    if let Some(newest) = olds {
        log.push(newest);
    }
}
