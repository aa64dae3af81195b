//! The publication of a store's draft.

ghost use Rattle.std.specs.Prelude.{◌≡◌, ◌+◌, ◌^◌, ◌<◌, ◌↔◌, true, false};
ghost use Rattle.std.specs.Prelude.{IfOk, OnOk, OnErr, IsErrOf};
ghost use Rattle.version_store.specs.Histories.{History, StandsFor, held_published, published};
ghost use Rattle.version_store.specs.OldRecords.{draft_olds};

use crate::old_bytes::{keep_olds, old_bytes};
use crate::publication_room::PublicationRoom;
use crate::row_marks::push_marked;
use crate::store::{PublishError, Store};
use digit_pack::is_wide;
use matrix_u32::Kernel;
use record_log::OldRecords;
use std::alloc::AllocError;

impl<K: Kernel> Store<K> {
    /// Makes the draft the current version, and returns its number.
    ///
    /// # Errors
    ///
    /// `NothingToPublish` exactly when no edit and no append was accepted since the last
    /// publication; else `VersionsUsedUp` exactly when the current version is 2^64 - 1; else it is
    /// done, or `Memory`. A refused publication changes nothing: all memory is asked for first.
    pub fn publish(&mut self) -> Result<u64, PublishError>
        ensures version { IfOk result (λ v. (v ≡ self.old.version + 1) × (v < 2 ^ 64)) }
        ensures done { OnOk result (self.new ≡ held_published self.old) }
        ensures history { OnOk result ((h : History) →
            StandsFor self.old h → StandsFor self.new (published h)) }
        ensures nothing { IsErrOf result PublishError.NothingToPublish ↔ (self.old.marked ≡ false) }
        ensures used_up { IsErrOf result PublishError.VersionsUsedUp ↔
            (self.old.marked ≡ true) × (self.old.version + 1 ≡ 2 ^ 64) }
        ensures refused { OnErr result (self.new ≡ self.old) }
    {
        if !self.is_marked() {
            return Err(PublishError::NothingToPublish);
        }
        if self.version() == u64::MAX {
            return Err(PublishError::VersionsUsedUp);
        }
        self.publish_draft()?;
        Ok(self.version())
    }

    // Makes the draft the current version. Refused memory changes nothing: all is asked for first.
    fn publish_draft(&mut self) -> Result<(), AllocError>
        requires { self.old.version + 1 < 2 ^ 64 }
        ensures done { OnOk result (self.new ≡ held_published self.old) }
        ensures refused { OnErr result (self.new ≡ self.old) }
    {
        let olds = self.draft_olds()?;
        let changes = self.changes.len();
        let dimension = self.dimension();
        let layout = self.edition.layout();
        let room = PublicationRoom::new(self.alloc, layout, changes, dimension)?;
        self.edition.grow(self.alloc, self.count)?;
        let PublicationRoom {
            mut scratch,
            mut marks,
            mut rows,
            mut follow,
        } = room;
        self.edition
            .apply(&mut self.changes, &mut scratch, &mut marks, &mut follow);
        push_marked(&marks, &mut rows);
        self.log.add(rows);
        keep_olds(&mut self.olds, olds);
        Ok(())
    }

    // The old bytes of the records that the draft changes. Only a wide store asks for them.
    fn draft_olds(&self) -> Result<Option<OldRecords>, AllocError>
        ensures { IfOk result (λ olds. olds ≡ draft_olds self.now.edition self.now.draft) }
    {
        if !is_wide(self.edition.plan().form) {
            return Ok(None);
        }
        let olds = old_bytes(self.alloc, self.edition.layer(), &self.changes, self.count)?;
        Ok(Some(olds))
    }
}
