//! Whether changes can be made, and whether a publication follows a version.

ghost use Rattle.std.specs.Prelude.{◌≡◌, ◌+◌, ◌↔◌, ◌&&◌, ℕ, List, IsTrue, nat_lt, if◌then◌else◌};
ghost use Rattle.std.specs.Prelude.{Some, None, true, false};
ghost use Rattle.pir_schemes.specs.Plans.{fits};
ghost use Rattle.publication_log.specs.Publications.{Placed, Published, changes_bytes, AreChanges};
ghost use Rattle.log_replay.specs.Replays.{IsPublicationOf, has_place, are_changes_of};
ghost use Rattle.log_replay.specs.Replays.{count_after_all, is_replayable};

use pir_schemes::Plan;
use publication_log::{Change, Changes, Publication};

// Whether a publication follows a version of so many records: it is the next one, it changes
// something, and its changes can be made. No memory is taken.
pub(crate) fn is_replayable(
    plan: &Plan,
    version: u64,
    count: usize,
    publication: Publication<'_>,
) -> bool
    ensures decided { (p : Published) → IsPublicationOf publication.entry p →
        result ≡ is_replayable plan.now version count p }
    ensures next { IsTrue result → publication.entry.version ≡ version + 1 }
{
    if !is_next(version, publication.version) {
        return false;
    }
    let Some(_first) = publication.changes.split_first() else {
        return false;
    };
    judge_changes(plan, count, publication.changes).is_some()
}

// Whether a version follows another.
fn is_next(version: u64, other: u64) -> bool
    ensures { IsTrue result ↔ (other ≡ version + 1) }
{
    version < other && other - version == 1
}

// Whether so many records have this place, or it is the next one and a layout has room for it.
fn has_place(plan: &Plan, count: usize, place: u32) -> bool
    ensures { result ≡ has_place plan.now count place }
{
    let place = place as usize;
    place < count || place == count && plan.has_layout(count + 1)
}

// Whether a change can be made to so many records.
fn is_change_of(plan: &Plan, count: usize, change: &Change<'_>) -> bool
    ensures { result ≡
        (has_place plan.now count change.now.place && fits plan.now change.now.bytes.now) }
{
    has_place(plan, count, change.place) && plan.fits(change.bytes)
}

/// How many records there are after a change at this place of so many: one more if there was none
/// of that place.
pub fn count_after(count: usize, place: u32) -> usize
    ensures { result ≡ if nat_lt place count then count else count + 1 }
{
    if (place as usize) < count {
        count
    } else {
        count + 1
    }
}

/// How many records there are after changes of so many, one after another; `None` if one of them
/// can't be made. No memory is taken.
pub fn judge_changes(plan: &Plan, count: usize, changes: Changes<'_>) -> Option<usize>
    ensures { (low : ℕ) (cs : List Placed) → AreChanges low cs →
        changes.entry.rest.now ≡ changes_bytes cs →
        result ≡ if are_changes_of plan.now count cs
        then Some (count_after_all count cs) else None }
{
    let mut left = changes;
    let mut after = count;
    'changes: while let Some((change, rest)) = left.split_first() {
        if !is_change_of(plan, after, &change) {
            return None;
        }
        after = count_after(after, change.place);
        left = rest;
    }
    Some(after)
}
