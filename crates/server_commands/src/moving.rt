//! Moving the records of a snapshot file into slots, or into a wide store.

ghost use Rattle.std.specs.Prelude.{◌≡◌, IfOk};
ghost use Rattle.snapshot_file.specs.Snapshots.{header_of};
ghost use Rattle.version_store.specs.Openings.{IsSound};
ghost use Rattle.server_commands.specs.Moves.{HasRecordsOf, IsWideOf};

use command_words::Failure;
use server_files::{migrate_failure, widen_failure};
use session_core::{Snapshot, migrate, widen};
use std::alloc::Global;
use version_store::laws::{migrated_records_stay, widened_records_stay};

/// A snapshot with its records moved into slots.
///
/// # Errors
///
/// In this order: `NotFormOne`, `TooWide`; `Memory` if memory was refused.
pub fn moved(alloc: Global, snapshot: &Snapshot) -> Result<Snapshot, Failure>
    requires { IsSound (header_of snapshot.now) snapshot.now.records.items }
    ensures { IfOk result (HasRecordsOf snapshot.now) }
{
    migrated_records_stay();
    match migrate(alloc, snapshot) {
        Ok(moved) => Ok(moved),
        Err(fault) => Err(migrate_failure(fault)),
    }
}

/// A snapshot with its records in a wide store of this seed.
///
/// # Errors
///
/// In this order: `NotOrdinary`, `BadWidth`; `Memory` if memory was refused.
pub fn widened(alloc: Global, snapshot: &Snapshot, seed: [u8; 32]) -> Result<Snapshot, Failure>
    requires { IsSound (header_of snapshot.now) snapshot.now.records.items }
    ensures { IfOk result (IsWideOf snapshot.now seed) }
{
    widened_records_stay();
    match widen(alloc, snapshot, seed) {
        Ok(wide) => Ok(wide),
        Err(fault) => Err(widen_failure(fault)),
    }
}
