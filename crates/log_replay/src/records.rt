//! The publications of a log, made on a snapshot's records alone.

ghost use Rattle.std.specs.Prelude.{◌≡◌, ◌<◌, ◌^◌, ◌∷◌, [], ◌↔◌, ℕ, List, Err, OnOk, IsErrOf};
ghost use Rattle.std.specs.Prelude.{false};
ghost use Rattle.publication_log.specs.Publications.{Placed, Published, changes_bytes, AreChanges};
ghost use Rattle.version_store.specs.Openings.{IsSound, plan_held};
ghost use Rattle.log_replay.specs.Replays.{IsPublicationOf};
ghost use Rattle.log_replay.specs.Records.{AreRecordsChanged, AreRecordsReplayed};
ghost use Rattle.log_replay.specs.Records.{is_next_of_snapshot};

use crate::held::RecordHolder;
use crate::judging::is_replayable;
use crate::replaying::ReplayFault;
use pir_schemes::Plan;
use publication_log::{Changes, Publication};

/// Makes a publication of a log on a snapshot's records: its version, its count and its bytes
/// become those of the next version. No hint is made.
///
/// # Errors
///
/// `BadPublication` exactly when the publication does not follow the snapshot's version: nothing
/// changes then. After `Memory` some of its changes may be made, and the snapshot is of no further
/// use.
pub fn replay_records<H: RecordHolder>(
    held: &mut H,
    publication: Publication<'_>,
) -> Result<(), ReplayFault>
    requires { IsSound (H.header held.old) (H.bytes held.old) }
    ensures sound { OnOk result (IsSound (H.header held.new) (H.bytes held.new)) }
    ensures replayed { (p : Published) → IsPublicationOf publication.entry p → OnOk result
        (AreRecordsReplayed (H.header held.old) (H.bytes held.old) p
        (H.header held.new) (H.bytes held.new)) }
    ensures bad { (p : Published) → IsPublicationOf publication.entry p →
        IsErrOf result ReplayFault.BadPublication ↔
        (is_next_of_snapshot (H.header held.old) p ≡ false) }
    ensures kept { result ≡ Err ReplayFault.BadPublication → held.new ≡ held.old }
{
    let plan = held.plan();
    if !is_replayable(&plan, held.version(), held.count(), publication) {
        return Err(ReplayFault::BadPublication);
    }
    // The publication follows: memory alone can be missing from here on.
    let Ok(()) = put_changes(&plan, held, publication.changes) else {
        return Err(ReplayFault::Memory);
    };
    held.set_version(publication.version);
    Ok(())
}

// Makes changes in the records of a plan. After an error some of them may be made.
fn put_changes<H: RecordHolder>(
    plan: &Plan,
    held: &mut H,
    changes: Changes<'_>,
) -> Result<(), ReplayFault>
    requires plan { plan.now ≡ plan_held (H.header held.old) }
    requires sound { IsSound (H.header held.old) (H.bytes held.old) }
    ensures sound { OnOk result (IsSound (H.header held.new) (H.bytes held.new)) }
    ensures put { (low : ℕ) (cs : List Placed) → AreChanges low cs →
        changes.entry.rest.now ≡ changes_bytes cs → OnOk result
        (AreRecordsChanged (H.header held.old) (H.bytes held.old) cs
        (H.header held.new) (H.bytes held.new)) }
{
    let mut left = changes;
    'changes: while let Some((change, rest)) = left.split_first() {
        put_change(plan, held, change.place as usize, change.bytes)?;
        left = rest;
    }
    Ok(())
}

// Makes a change in the records of a plan: `BadPublication` if the bytes can't be a record, or no
// layout has one record more.
fn put_change<H: RecordHolder>(
    plan: &Plan,
    held: &mut H,
    place: usize,
    bytes: &[u8],
) -> Result<(), ReplayFault>
    requires plan { plan.now ≡ plan_held (H.header held.old) }
    requires sound { IsSound (H.header held.old) (H.bytes held.old) }
    requires few { place < 2 ^ 32 }
    ensures sound { OnOk result (IsSound (H.header held.new) (H.bytes held.new)) }
    ensures put { OnOk result (AreRecordsChanged (H.header held.old) (H.bytes held.old)
        (record { place = place; bytes = bytes.now } ∷ []) (H.header held.new) (H.bytes held.new)) }
{
    if !plan.fits(bytes) {
        return Err(ReplayFault::BadPublication);
    }
    let count = held.count();
    if place < count {
        held.replace(place, bytes);
        return Ok(());
    }
    if !plan.has_layout(count + 1) {
        return Err(ReplayFault::BadPublication);
    }
    match held.append(bytes) {
        Ok(()) => Ok(()),
        Err(_) => Err(ReplayFault::Memory),
    }
}
