//! What the newest publications changed.

ghost use Rattle.std.specs.Prelude.{◌≡◌, ◌≤◌, ◌<◌, ◌*◌, ◌^◌, ◌++◌, ◌∷◌, ◌↔◌, [], length, IfOk};
ghost use Rattle.std.specs.Prelude.{IfSome, IsNone};
ghost use Rattle.record_log.specs.Logs.{AreInside, entries_since, kept_within, newest};
ghost use Rattle.record_log.specs.Logs.{records_of_bytes};

use crate::keeping::{MOST_LISTS, drop_oldest};
use crate::old_records::OldRecords;
use crate::since::changes_in;
use snapshot_file::RecordSource;
use std::alloc::{AllocError, Global};
use std::marker::Model;

/// The records that each of the newest publications changed, with the bytes that they had before:
/// at most 16 publications, and so many bytes.
#[derive(Drop)]
pub struct RecordLog {
    record_len: usize,
    most: usize,
    // The oldest first, with room for one more than are kept.
    lists: Vec<OldRecords>,
}

impl Model for RecordLog {
    ghost use Rattle.std.specs.Prelude.{◌≡◌, ◌≤◌, ◌<◌, true, vec_capacity};
    ghost use Rattle.record_log.specs.Logs.{KeptLog, are_within};
    ghost use Rattle.record_log.specs.Steps.{HaveLen, olds_of};

    ghost Value = { KeptLog };

    ghost view = { λ log. record {
      record_len = log.record_len;
      most = log.most;
      lists = olds_of log.lists.items;
    } };

    ghost invariant = { λ log. (log.record_len ≤ 256) × HaveLen log.record_len log.lists.items
        × (are_within log.record_len log.most (olds_of log.lists.items) ≡ true)
        × (16 < vec_capacity log.lists) };
}

impl RecordLog {
    /// A log of records of `record_len` bytes, which keeps `most` of their old bytes at most: no
    /// publication yet.
    ///
    /// # Errors
    ///
    /// Only refused memory gives an `Err`.
    pub fn new(alloc: Global, record_len: usize, most: usize) -> Result<RecordLog, AllocError>
        requires { record_len ≤ 256 }
        ensures { IfOk result (λ log. log ≡
            record { record_len = record_len; most = most; lists = [] }) }
    {
        let lists = Vec::with_capacity(alloc, MOST_LISTS + 1)?;
        Ok(RecordLog {
            record_len,
            most,
            lists,
        })
    }

    /// Of how many publications the log knows what changed.
    pub fn len(&self) -> usize
        ensures value { result ≡ length self.now.lists }
        ensures few { result ≤ 16 }
    {
        self.lists.len()
    }

    /// Adds what the next publication changed; the oldest go, if they are too many or have too many
    /// bytes together. No memory is taken.
    pub fn push(&mut self, newest: OldRecords)
        requires { newest.record_len ≡ self.old.record_len }
        ensures { self.new ≡ record self.old {
          lists = kept_within self.old.record_len self.old.most
              (self.old.lists ++ newest.records ∷ []);
        } }
    {
        self.lists.push_reserved(newest);
        drop_oldest(&mut self.lists, self.most);
    }

    /// What changed since the version before the newest n publications, as entries: of each record
    /// that differs from the current one, ascending. `current` has the `count` records of the
    /// current version. None exactly if the entries have more than `most` bytes.
    ///
    /// # Errors
    ///
    /// Only refused memory gives an `Err`.
    pub fn changes_since<S: RecordSource>(
        &self,
        alloc: Global,
        n: usize,
        current: &S,
        count: usize,
        most: usize,
    ) -> Result<Option<Vec<u8>>, AllocError>
        requires known { n ≤ length self.now.lists }
        requires inside { AreInside count self.now.lists }
        requires record_len { S.record_len current.now ≡ self.now.record_len }
        requires whole { length (S.bytes current.now) ≡ count * self.now.record_len }
        requires few { count < 2 ^ 32 }
        ensures entries { IfOk result (λ made. IfSome made (λ entries.
            entries.items ≡ entries_since (newest n self.now.lists)
            (records_of_bytes self.now.record_len count (S.bytes current.now)))) }
        ensures too_many { IfOk result (λ made. IsNone made ↔
            (most < length (entries_since (newest n self.now.lists)
            (records_of_bytes self.now.record_len count (S.bytes current.now))))) }
    {
        let from = self.lists.len() - n;
        changes_in(alloc, &self.lists[from..], current, count, most)
    }
}
