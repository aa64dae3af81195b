//! The entries of a draft, merged.

ghost use Rattle.std.specs.Prelude.{◌≡◌, ◌↔◌, ℕ, List, [], IfOk, OnOk, IsErrOf, Some, None};
ghost use Rattle.std.specs.Prelude.{if◌then◌else◌, true, false};
ghost use Rattle.publication_log.specs.Publications.{Published};
ghost use Rattle.publication_log.specs.Entries.{chain_bytes};
ghost use Rattle.publication_log.specs.Logs.{AreNext, bodies_of};
ghost use Rattle.publisher_drafts.specs.Merging.{changes_of_map, merged_all, are_entries_of};
ghost use Rattle.publisher_drafts.specs.Merging.{count_after_entries};

use crate::changes::{ChangeMap, put_entry};
use crate::laws::merged_alike;
use log_replay::judge_changes;
use pir_schemes::Plan;
use publication_log::Publications;
use std::alloc::{AllocError, Global};
use std::collections::BTreeMap;
use thiserror::Error;

/// What entries change.
#[derive(Drop)]
pub struct Merged {
    /// Their changes.
    pub changes: ChangeMap,
    /// How many records there are after them.
    pub count: usize,
}

/// Why entries were not merged.
#[derive(Clone, Copy, Debug, PartialEq, Eq, Error)]
pub enum MergeFault {
    /// A change of one of them can't be made after those before it.
    #[error("a change of an entry can't be made")]
    BadEntry,
    /// Memory was refused.
    #[error("out of memory")]
    Memory,
}

impl From<AllocError> for MergeFault {
    ghost use Rattle.publisher_drafts.specs.declared.entries.MergeFault.TheVariants.{Memory};

    ghost from_gives = { λ _ fault. fault ≡ Memory };

    fn from(_refused: AllocError) -> Self {
        MergeFault::Memory
    }
}

/// The changes of entries to so many records, merged. [`merged_alike`] says what they make of
/// records.
///
/// # Errors
///
/// `BadEntry` exactly when a change of one can't be made after those before it; else they are
/// merged, or `Memory`.
pub fn merge_entries(
    alloc: Global,
    plan: &Plan,
    count: usize,
    entries: Publications<'_>,
) -> Result<Merged, MergeFault>
    ensures merged { (link : List ℕ) (version : ℕ) (ps : List Published) → AreNext version ps →
        entries.entry.rest.now ≡ chain_bytes link (bodies_of ps) → IfOk result (λ it.
        (changes_of_map it.changes.entries ≡ merged_all [] ps)
        × (it.count ≡ count_after_entries count ps)) }
    ensures good { (link : List ℕ) (version : ℕ) (ps : List Published) → AreNext version ps →
        entries.entry.rest.now ≡ chain_bytes link (bodies_of ps) →
        OnOk result (are_entries_of plan.now count ps ≡ true) }
    ensures bad { (link : List ℕ) (version : ℕ) (ps : List Published) → AreNext version ps →
        entries.entry.rest.now ≡ chain_bytes link (bodies_of ps) →
        IsErrOf result MergeFault.BadEntry ↔ (are_entries_of plan.now count ps ≡ false) }
{
    merged_alike();
    let Some(count) = judge_entries(plan, count, entries) else {
        return Err(MergeFault::BadEntry);
    };
    let Ok(changes) = merged_of(alloc, entries) else {
        return Err(MergeFault::Memory);
    };
    Ok(Merged { changes, count })
}

// How many records there are after entries, one after another; `None` if a change of one can't be
// made.
fn judge_entries(plan: &Plan, count: usize, entries: Publications<'_>) -> Option<usize>
    ensures { (link : List ℕ) (version : ℕ) (ps : List Published) → AreNext version ps →
        entries.entry.rest.now ≡ chain_bytes link (bodies_of ps) →
        result ≡ if are_entries_of plan.now count ps
        then Some (count_after_entries count ps) else None }
{
    let mut left = entries;
    let mut after = count;
    'entries: while let Some((entry, rest)) = left.split_first() {
        let Some(next) = judge_changes(plan, after, entry.changes) else {
            return None;
        };
        after = next;
        left = rest;
    }
    Some(after)
}

/// The changes of entries, merged, whether they can be made or not.
///
/// # Errors
///
/// `AllocError` when memory was refused.
pub fn merged_of(alloc: Global, entries: Publications<'_>) -> Result<ChangeMap, AllocError>
    ensures { (link : List ℕ) (version : ℕ) (ps : List Published) → AreNext version ps →
        entries.entry.rest.now ≡ chain_bytes link (bodies_of ps) →
        IfOk result (λ it. changes_of_map it.entries ≡ merged_all [] ps) }
{
    let mut changes = BTreeMap::new(alloc);
    let mut left = entries;
    'entries: while let Some((entry, rest)) = left.split_first() {
        put_entry(alloc, &mut changes, entry.changes)?;
        left = rest;
    }
    Ok(changes)
}
