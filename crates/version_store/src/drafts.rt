//! Changes that wait for their publication.

ghost use Rattle.std.specs.Prelude.{ℕ, ◌≡◌, ◌<◌, ◌≤◌, [], length, None, IfSome, IfNone, IsSomeAnd};
ghost use Rattle.digit_pack.specs.Layout.{digit_rows, digits_per_record};
ghost use Rattle.pir_schemes.specs.Plans.{digits_at};
ghost use Rattle.version_store.specs.Drafts.{change_at, draft_of, FitRecords};
ghost use Rattle.version_store.specs.Editions.{Records, version_shape, MarksChanges};

use crate::first_layer::FirstLayer;
use matrix_u32::Kernel;
use std::collections::BTreeMap;

/// The changed records by their indices.
pub type Changes = BTreeMap<usize, Vec<u8>>;

/// Puts each change into the records, marks the rows whose digits change, and leaves no change.
/// `scratch` has room for a record's digits, and `marks` a mark for each row of digits.
pub fn apply_changes<K: Kernel>(
    kernel: K,
    layer: &mut FirstLayer,
    changes: &mut Changes,
    scratch: &mut [u32],
    marks: &mut [bool],
)
    requires fit { FitRecords layer.old changes.old.entries }
    requires room { length scratch.old ≡ digits_per_record (version_shape layer.old) }
    requires marks { length marks.old ≡ digit_rows (version_shape layer.old) }
    ensures records { layer.new ≡
        record layer.old { records = draft_of layer.old.records changes.old.entries } }
    ensures none { changes.new.entries ≡ [] }
    ensures marks { MarksChanges (digits_at layer.old.plan layer.old.records)
        (digits_at layer.new.plan layer.new.records) marks.old marks.new }
{
    while let Some((i, bytes)) = changes.pop_first() {
        layer.replace(kernel, i, &bytes, scratch, marks);
    }
}

/// The first change at or after a place.
pub fn first_change(changes: &Changes, from: usize) -> Option<(usize, &[u8])>
    ensures at { IfSome result (λ it. from ≤ it.0) }
    ensures some { IfSome result (λ it. IsSomeAnd (change_at changes.now.entries it.0)
        (λ v. it.1.now ≡ v.items)) }
    ensures between { IfSome result (λ it. (k : ℕ) → from ≤ k → k < it.0 →
        change_at changes.now.entries k ≡ None) }
    ensures none { IfNone result ((k : ℕ) → from ≤ k → change_at changes.now.entries k ≡ None) }
{
    let (place, bytes) = changes.range(from..).next()?;
    Some((*place, bytes))
}
