//! Moving the records of a snapshot into slots, so that each may have a length of its own from then
//! on.

ghost use Rattle.std.specs.Prelude.{◌≡◌, ◌*◌, ◌+◌, IfOk, IfErr, length, map};
ghost use Rattle.digit_pack.specs.Layout.{IsLayout, records_in};
ghost use Rattle.digit_pack.specs.Slots.{slot_of};
ghost use Rattle.snapshot_file.specs.Migrations.{IsMoved, IsMigrateFault};
ghost use Rattle.snapshot_file.specs.Names.{migrate_error_name};
ghost use Rattle.snapshot_file.specs.Snapshots.{header_of, shape_of, records_len};

use crate::snapshot::{Header, Snapshot};
use digit_pack::{Layout, nth_record, write_slot};
use std::alloc::{AllocError, Global};
use thiserror::Error;

/// Why records are not moved into slots.
#[derive(Clone, Copy, Debug, PartialEq, Eq, Error)]
pub enum MigrateError {
    /// The records have slots already, or a form that doesn't exist.
    #[error("the records are not of form 1 or 129")]
    NotFormOne,
    /// With two bytes more for each record the layout is beyond the limits.
    #[error("with their lengths the records are beyond the limits")]
    TooWide,
    /// Memory was refused.
    #[error("out of memory")]
    Memory,
}

impl MigrateError {
    /// What the error is called when it is printed.
    #[tactic(auto, unfolding(crate::specs::Names::migrate_error_name))]
    pub fn name(self) -> &'static str
        ensures { result.now ≡ migrate_error_name self }
    {
        match self {
            MigrateError::NotFormOne => "NotFormOne",
            MigrateError::TooWide => "TooWide",
            MigrateError::Memory => "Memory",
        }
    }
}

impl From<AllocError> for MigrateError {
    ghost use Rattle.snapshot_file.specs.declared.migration.MigrateError.TheVariants.{Memory};

    ghost from_gives = { λ _ fault. fault ≡ Memory };

    fn from(_refused: AllocError) -> Self {
        MigrateError::Memory
    }
}

/// The same records in form 2, or in form 130 if they are of form 129: version, seed, publisher and
/// dimension stay, and each record is in a slot of two bytes more. The layout of the slots is
/// accepted whenever there is a result.
///
/// # Errors
///
/// `NotFormOne` exactly when the snapshot's form is neither 1 nor 129; `TooWide` exactly when it is
/// one of these and no layout has records of so many bytes; `Memory`, in no other case, when memory
/// for the slots was refused.
pub fn migrate(alloc: Global, snapshot: &Snapshot) -> Result<Snapshot, MigrateError>
    requires layout { IsLayout (shape_of (header_of snapshot.now)) }
    requires len { length snapshot.now.records.items ≡ records_len (header_of snapshot.now) }
    ensures moved { IfOk result (IsMoved (header_of snapshot.now) snapshot.now.records.items) }
    ensures refused { IfErr result (IsMigrateFault (header_of snapshot.now)) }
{
    let header = snapshot.header();
    if header.form != 1 && header.form != 129 {
        return Err(MigrateError::NotFormOne);
    }
    // The sizes are within the limits: no refusal is left.
    let narrow = header.layout().unwrap();
    let moved = Header {
        form: header.form + 1,
        record_len: header.record_len + 2,
        ..header
    };
    let Ok(wide) = moved.layout() else {
        return Err(MigrateError::TooWide);
    };
    let mut slots = vec![in alloc; 0; moved.records_len()]?;
    fill_slots(&narrow, &wide, &snapshot.records, &mut slots);
    Ok(moved.with_records(slots))
}

// Writes each record into its slot.
fn fill_slots(narrow: &Layout, wide: &Layout, records: &[u8], slots: &mut [u8])
    requires count { wide.now.count ≡ narrow.now.count }
    requires room { wide.now.record_len ≡ narrow.now.record_len + 2 }
    requires records { length records.now ≡ narrow.now.count * narrow.now.record_len }
    requires slots { length slots.old ≡ wide.now.count * wide.now.record_len }
    ensures { records_in wide.now slots.new ≡
        map (slot_of wide.now.record_len) (records_in narrow.now records.now) }
{
    for i in 0..narrow.count() {
        write_slot(wide, slots, i, nth_record(narrow, records, i));
    }
}
