//! What a store can be opened with.

ghost use Rattle.std.specs.Prelude.{◌≡◌, ◌≤◌, ◌↔◌, IsTrue, length, IfOk, IfErr, OnOk};
ghost use Rattle.digit_pack.specs.Layout.{IsLayout};
ghost use Rattle.snapshot_file.specs.Snapshots.{header_of, shape_of};
ghost use Rattle.version_store.specs.Openings.{IsSound, IsOpenFault, plan_held};
ghost use Rattle.version_store.specs.Names.{open_fault_name};

use digit_pack::Layout;
use pir_schemes::Plan;
use snapshot_file::{Header, MAX_DIMENSION, Snapshot};
use std::alloc::AllocError;
use thiserror::Error;

/// Why a store can't be opened: the first cause in the order of the variants.
#[derive(Clone, Copy, Debug, PartialEq, Eq, Error)]
pub enum OpenError {
    /// There is no such form, or it is 2 or 130 for records of one byte; the layout is refused, or
    /// the dimension is not in 1 to 1024.
    #[error("the layout or the dimension is outside the limits")]
    BadLayout,
    /// The version is 0.
    #[error("there is no version 0")]
    BadVersion,
    /// The bytes are not as many as the records have, or in the forms 2 and 130 those of a record
    /// are no slot.
    #[error("the records have another number of bytes, or one of them is no slot")]
    BadRecords,
    /// Out of memory for what is made from the records.
    #[error("out of memory")]
    Memory,
}

impl OpenError {
    /// Its name, as programs print it.
    #[tactic(auto, unfolding(crate::specs::Names::open_fault_name))]
    pub fn name(self) -> &'static str
        ensures { result.now ≡ open_fault_name self }
    {
        match self {
            OpenError::BadLayout => "BadLayout",
            OpenError::BadVersion => "BadVersion",
            OpenError::BadRecords => "BadRecords",
            OpenError::Memory => "Memory",
        }
    }
}

impl From<AllocError> for OpenError {
    ghost use Rattle.version_store.specs.declared.opening.OpenError.TheVariants.{Memory};

    ghost from_gives = { λ _ fault. fault ≡ Memory };

    fn from(_refused: AllocError) -> Self {
        OpenError::Memory
    }
}

/// What a snapshot says of every version of its records.
pub fn plan_in(snapshot: &Snapshot) -> Plan
    ensures { result ≡ plan_held (header_of snapshot.now) }
{
    plan_of(&snapshot.header())
}

/// What the fields of a snapshot say of every version of its records.
pub(crate) fn plan_of(header: &Header) -> Plan
    ensures { result ≡ plan_held header.now }
{
    Plan {
        form: u16::from(header.form),
        width: header.width,
        record_len: header.record_len,
        groups: header.groups,
        dimension: header.dimension,
        seed: header.seed,
    }
}

/// The sizes of a snapshot's records, if a store can be opened with it.
pub(crate) fn sizes_of(snapshot: &Snapshot) -> Result<Layout, OpenError>
    ensures sizes { IfOk result (λ l. (l ≡ shape_of (header_of snapshot.now)) × IsLayout l) }
    ensures sound { OnOk result (IsSound (header_of snapshot.now) snapshot.now.records.items) }
    ensures refused { IfErr result
        (IsOpenFault (header_of snapshot.now) snapshot.now.records.items) }
{
    let header = snapshot.header();
    if !header.has_form() {
        return Err(OpenError::BadLayout);
    }
    let Ok(layout) = header.layout() else {
        return Err(OpenError::BadLayout);
    };
    if snapshot.dimension < 1 || snapshot.dimension > MAX_DIMENSION {
        return Err(OpenError::BadLayout);
    }
    if snapshot.version == 0 {
        return Err(OpenError::BadVersion);
    }
    if snapshot.records.len() != layout.count() * layout.record_len() {
        return Err(OpenError::BadRecords);
    }
    if !header.has_slots(&snapshot.records) {
        return Err(OpenError::BadRecords);
    }
    Ok(layout)
}
