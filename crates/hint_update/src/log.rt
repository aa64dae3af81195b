//! The rows that the latest publications changed.

ghost use Rattle.std.specs.Prelude.{◌≡◌, ◌+◌, ◌-◌, ◌^◌, ◌<◌, ◌≤◌, ◌↔◌, [], length, take, IfOk};
ghost use Rattle.std.specs.Prelude.{IfSome, IsNone, IfNone, map, flat_map};
ghost use Rattle.hint_update.specs.Logs.{Log, with_publication, ReachesBack, lists_since};
ghost use Rattle.hint_update.specs.Logs.{AreRowsOf};

use std::alloc::{AllocError, Global};
use std::collections::VecDeque;
use std::marker::Model;

// How many publications a log keeps.
const MAX_LISTS: usize = 16;

/// The rows of a hint that each of the latest 16 publications changed, so that a hint of a version
/// before can be brought forward by these rows alone. A contract sees it as a `Log`: the number
/// of the current version, and the lists of rows, the newest first.
#[derive(Drop)]
pub struct DeltaLog {
    alloc: Global,
    version: u64,
    lists: VecDeque<Vec<u32>>,
}

impl Model for DeltaLog {
    ghost use Rattle.std.specs.Prelude.{◌≤◌, length, map};
    ghost use Rattle.std.specs.VecDeque.{deque_capacity};
    ghost use Rattle.hint_update.specs.Logs.{Log};

    ghost Value = { Log };

    ghost view = { λ l. record {
      version = l.version;
      lists = map
          (λ rows. rows.items) l.lists.items;
    } };

    ghost invariant = { λ l. (length l.lists.items ≤ 16) × (16 ≤ deque_capacity l.lists) };
}

impl DeltaLog {
    /// A log that begins with this version, with room for 16 lists; it keeps the allocator.
    ///
    /// # Errors
    ///
    /// Only refused memory gives an `Err`.
    pub fn new(alloc: Global, version: u64) -> Result<DeltaLog, AllocError>
        ensures { IfOk result (λ log. log ≡ record { version = version; lists = [] }) }
    {
        let lists = VecDeque::with_capacity(alloc, MAX_LISTS)?;
        Ok(DeltaLog {
            alloc,
            version,
            lists,
        })
    }

    /// The number of the current version.
    pub fn version(&self) -> u64
        ensures { result ≡ self.now.version }
    {
        self.version
    }

    /// Logs a publication: the rows that it changed, in any order. The log's version goes up by
    /// one; at 16 lists the oldest goes. Takes no memory.
    pub fn add(&mut self, rows: Vec<u32>)
        requires { self.old.version + 1 < 2 ^ 64 }
        ensures { self.new ≡ with_publication rows.items self.old }
    {
        if self.lists.len() == MAX_LISTS {
            self.lists.pop_back();
        }
        self.lists.push_front_reserved(rows);
        self.version += 1;
    }

    /// The rows that the publications since a version changed, ascending, each once: none if the
    /// version is the current one.
    ///
    /// `None` exactly when the version is neither the current one nor one of the 16 before it that
    /// the log has seen.
    ///
    /// # Errors
    ///
    /// Only refused memory gives an `Err`.
    pub fn rows_since(&self, version: u64) -> Result<Option<Vec<u32>>, AllocError>
        ensures none { IfOk result (λ found. IsNone found ↔ ¬ ReachesBack self.now version) }
        ensures rows { IfOk result (λ found. IfSome found (λ rows.
            AreRowsOf (lists_since self.now version) rows.items)) }
    {
        let Some(count) = self.count_since(version) else {
            return Ok(None);
        };
        let mut rows = self.first_lists(count)?;
        rows.sort_unstable();
        rows.dedup();
        Ok(Some(rows))
    }

    // How many lists were added since a version was the current one.
    fn count_since(&self, version: u64) -> Option<usize>
        ensures some { IfSome result (λ count.
            ReachesBack self.now version × (count ≡ self.now.version - version)) }
        ensures none { IfNone result (¬ ReachesBack self.now version) }
    {
        let count = self.version.checked_sub(version)?;
        if count > self.lists.len() as u64 {
            return None;
        }
        Some(count as usize)
    }

    // The rows of the newest lists, one list after the other.
    fn first_lists(&self, count: usize) -> Result<Vec<u32>, AllocError>
        requires { count ≤ length self.now.lists }
        ensures { IfOk result (λ rows.
            rows.items ≡ flat_map (λ list. list) (take count self.now.lists)) }
    {
        let mut rows = Vec::new(self.alloc);
        for k in 0..count {
            rows.extend_from_slice(&self.lists[k])?;
        }
        Ok(rows)
    }
}
