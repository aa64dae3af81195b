//! The publication of a store's draft.

ghost use Rattle.std.specs.Prelude.{◌≡◌, ◌+◌, ◌^◌, ◌↔◌, ℕ, [], IfOk, OnOk, IsErrOf, true, false};
ghost use Rattle.publication_log.specs.Publications.{Published};
ghost use Rattle.publication_log.specs.Builders.{IsMadeOf};
ghost use Rattle.log_replay.specs.Replays.{IsDraftOf, IsDraftMade};

use matrix_u32::Kernel;
use publication_log::{ChangeFault, PublicationBuilder};
use std::alloc::Global;
use thiserror::Error;
use version_store::Store;

/// Why there is no publication of a draft: the first cause in the order of the variants.
#[derive(Clone, Copy, Debug, PartialEq, Eq, Error)]
pub enum DraftFault {
    /// No edit and no append was accepted since the last publication.
    #[error("nothing was edited or appended since the last publication")]
    NothingToPublish,
    /// The current version is 2^64 - 1, the last one.
    #[error("there is no further version number")]
    VersionsUsedUp,
    /// The publication would have 2^32 bytes or more.
    #[error("the publication is too long")]
    TooLong,
    /// Memory was refused.
    #[error("out of memory")]
    Memory,
}

/// The publication of a store's draft, which is appended to the log before the store publishes:
/// replayed on the store as it is without its draft, it gives what the store's own publication
/// gives.
///
/// # Errors
///
/// `NothingToPublish` exactly when no edit and no append was accepted since the last publication;
/// else `VersionsUsedUp` exactly when the current version is 2^64 - 1; else it is made, or
/// `TooLong` if a publication would have 2^32 bytes or more (no clause says so), or `Memory`.
pub fn draft_publication<K: Kernel>(
    alloc: Global,
    store: &Store<K>,
) -> Result<PublicationBuilder, DraftFault>
    ensures made { IfOk result (λ it. (p : Published) × IsMadeOf it p × IsDraftOf store.now p) }
    ensures nothing { IsErrOf result DraftFault.NothingToPublish ↔ (store.now.marked ≡ false) }
    ensures used_up { IsErrOf result DraftFault.VersionsUsedUp ↔
        (store.now.marked ≡ true) × (store.now.version + 1 ≡ 2 ^ 64) }
{
    let Some(_first) = store.draft_change(0) else {
        return Err(DraftFault::NothingToPublish);
    };
    let version = store.version();
    if version == u64::MAX {
        return Err(DraftFault::VersionsUsedUp);
    }
    let Ok(mut builder) = PublicationBuilder::new(alloc, version + 1) else {
        return Err(DraftFault::Memory);
    };
    match push_changes(store, &mut builder) {
        Ok(()) => Ok(builder),
        Err(ChangeFault::Memory) => Err(DraftFault::Memory),
        // A record is shorter than 2^16 bytes, and places ascend: the publication is full.
        Err(_) => Err(DraftFault::TooLong),
    }
}

// Adds the changes of a store's draft, by ascending place.
fn push_changes<K: Kernel>(
    store: &Store<K>,
    builder: &mut PublicationBuilder,
) -> Result<(), ChangeFault>
    ensures { (p : Published) → IsMadeOf builder.old p → p.changes ≡ [] → OnOk result
        ((q : Published) × IsMadeOf builder.new q × (q.version ≡ p.version) ×
        IsDraftMade store.now q.changes) }
{
    let mut from = 0;
    'changes: while let Some((place, bytes)) = store.draft_change(from) {
        builder.push(place as u32, bytes)?;
        from = place + 1;
    }
    Ok(())
}
