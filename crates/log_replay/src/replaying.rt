//! The publications of a log, made on a store.

ghost use Rattle.std.specs.Prelude.{◌≡◌, ◌↔◌, ℕ, List, Err, OnOk, IsErrOf, length, true, false};
ghost use Rattle.std.specs.Prelude.{nat_lt, if◌then◌else◌};
ghost use Rattle.publication_log.specs.Publications.{Placed, Published, changes_bytes, AreChanges};
ghost use Rattle.publication_log.specs.Entries.{chain_bytes};
ghost use Rattle.publication_log.specs.Logs.{bodies_of, AreNext};
ghost use Rattle.version_store.specs.Histories.{History, StandsFor, held_after, held_edited};
ghost use Rattle.version_store.specs.Histories.{held_appended};
ghost use Rattle.log_replay.specs.Replays.{
  IsPublicationOf,
  HasNoDraft,
  edits_and_appends,
  replayed,
  replayed_all,
  history_replayed,
  history_replayed_all,
  is_next_of,
  are_next_of,
};

use crate::judging::is_replayable;
use matrix_u32::Kernel;
use publication_log::{Changes, Publication, Publications};
use thiserror::Error;
use version_store::{EditError, Store};

/// Why a publication was not replayed.
#[derive(Clone, Copy, Debug, PartialEq, Eq, Error)]
pub enum ReplayFault {
    /// The publication does not follow: its version is not the next one, it changes nothing, or one
    /// of its changes can't be made, because its place is past the next one, its bytes can't be a
    /// record, or no layout has one more record.
    #[error("the publication does not follow the version before it")]
    BadPublication,
    /// Memory was refused.
    #[error("out of memory")]
    Memory,
}

/// Makes a publication of a log on a store without a draft.
///
/// # Errors
///
/// `BadPublication` exactly when the publication does not follow the store's version: nothing
/// changes then. After `Memory` some of its changes may be in the draft, and the store is of no
/// further use.
pub fn replay<K: Kernel>(
    store: &mut Store<K>,
    publication: Publication<'_>,
) -> Result<(), ReplayFault>
    requires { HasNoDraft store.old }
    ensures replayed { (p : Published) → IsPublicationOf publication.entry p →
        OnOk result (store.new ≡ replayed p store.old) }
    ensures history { (p : Published) → IsPublicationOf publication.entry p → OnOk result
        ((h : History) → StandsFor store.old h → StandsFor store.new (history_replayed p h)) }
    ensures bad { (p : Published) → IsPublicationOf publication.entry p →
        IsErrOf result ReplayFault.BadPublication ↔ (is_next_of store.old p ≡ false) }
    ensures kept { result ≡ Err ReplayFault.BadPublication → store.new ≡ store.old }
    ensures undrafted { OnOk result (HasNoDraft store.new) }
{
    let count = store.layout().count();
    if !is_replayable(store.plan(), store.version(), count, publication) {
        return Err(ReplayFault::BadPublication);
    }
    // The publication follows: memory alone can be missing from here on.
    let Ok(()) = make_changes(store, publication.changes) else {
        return Err(ReplayFault::Memory);
    };
    let Ok(_version) = store.publish() else {
        return Err(ReplayFault::Memory);
    };
    Ok(())
}

/// Makes the publications of a log on a store without a draft, one after another.
///
/// # Errors
///
/// As [`replay`] of the first that it refuses. The store is of no further use then.
pub fn replay_all<K: Kernel>(
    store: &mut Store<K>,
    publications: Publications<'_>,
) -> Result<(), ReplayFault>
    requires { HasNoDraft store.old }
    ensures replayed { (link : List ℕ) (version : ℕ) (ps : List Published) → AreNext version ps →
        publications.entry.rest.now ≡ chain_bytes link (bodies_of ps) →
        OnOk result (store.new ≡ replayed_all ps store.old) }
    ensures history { (link : List ℕ) (version : ℕ) (ps : List Published) → AreNext version ps →
        publications.entry.rest.now ≡ chain_bytes link (bodies_of ps) → OnOk result
        ((h : History) → StandsFor store.old h →
        StandsFor store.new (history_replayed_all ps h)) }
    ensures good { (link : List ℕ) (version : ℕ) (ps : List Published) → AreNext version ps →
        publications.entry.rest.now ≡ chain_bytes link (bodies_of ps) →
        OnOk result (are_next_of store.old ps ≡ true) }
    ensures bad { (link : List ℕ) (version : ℕ) (ps : List Published) → AreNext version ps →
        publications.entry.rest.now ≡ chain_bytes link (bodies_of ps) →
        IsErrOf result ReplayFault.BadPublication → are_next_of store.old ps ≡ false }
    ensures undrafted { OnOk result (HasNoDraft store.new) }
{
    let mut left = publications;
    'publications: while let Some((publication, rest)) = left.split_first() {
        if let Err(fault) = replay(store, publication) {
            return Err(fault);
        }
        left = rest;
    }
    Ok(())
}

// Makes changes in a store's draft. After an `Err` some of them may be in the draft.
fn make_changes<K: Kernel>(store: &mut Store<K>, changes: Changes<'_>) -> Result<(), EditError>
    ensures { (low : ℕ) (cs : List Placed) → AreChanges low cs →
        changes.entry.rest.now ≡ changes_bytes cs →
        OnOk result (store.new ≡
        held_after (edits_and_appends (length store.old.draft) cs) store.old) }
{
    let mut left = changes;
    'changes: while let Some((change, rest)) = left.split_first() {
        make_change(store, change.place as usize, change.bytes)?;
        left = rest;
    }
    Ok(())
}

// Replaces a record of a store's draft, or puts one after the others if there is none at this
// place.
fn make_change<K: Kernel>(store: &mut Store<K>, place: usize, bytes: &[u8]) -> Result<(), EditError>
    ensures { OnOk result (store.new ≡ if nat_lt place (length store.old.draft)
        then held_edited place bytes.now store.old else held_appended bytes.now store.old) }
{
    match store.edit(place, bytes) {
        Err(EditError::BadIndex) => {}
        edited => return edited,
    }
    match store.append(bytes) {
        Ok(()) => Ok(()),
        Err(_) => Err(EditError::Memory),
    }
}
