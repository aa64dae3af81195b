//! Changes that are merged: for each place the last one.

ghost use Rattle.std.specs.Prelude.{◌≡◌, ℕ, List, IfOk, OnOk, OnErr};
ghost use Rattle.publication_log.specs.Publications.{Placed, AreChanges, changes_bytes};
ghost use Rattle.publication_log.specs.Builders.{IsMadeOf};
ghost use Rattle.publisher_drafts.specs.Merging.{changes_of_map, merged_change, merged};

use publication_log::{ChangeFault, Changes, PublicationBuilder};
use std::alloc::{AllocError, Global};
use std::collections::BTreeMap;

/// The bytes of each changed record by its place.
pub type ChangeMap = BTreeMap<u32, Vec<u8>>;

/// Adds a change to the others, in place of an earlier one at its place.
///
/// # Errors
///
/// `AllocError` when memory was refused: nothing changes then.
pub fn put_change(changes: &mut ChangeMap, place: u32, bytes: Vec<u8>) -> Result<(), AllocError>
    ensures put { OnOk result (changes_of_map changes.new.entries ≡
        merged_change (record { place = place; bytes = bytes.items })
        (changes_of_map changes.old.entries)) }
    ensures refused { OnErr result (changes.new.entries ≡ changes.old.entries) }
{
    match changes.insert(place, bytes) {
        Ok(_) => Ok(()),
        Err(_) => Err(AllocError),
    }
}

/// Adds the changes of an entry to the others, one after another.
///
/// # Errors
///
/// `AllocError` when memory was refused: some of them may be there then.
pub fn put_entry(
    alloc: Global,
    changes: &mut ChangeMap,
    entry: Changes<'_>,
) -> Result<(), AllocError>
    ensures { (low : ℕ) (cs : List Placed) → AreChanges low cs →
        entry.entry.rest.now ≡ changes_bytes cs → OnOk result
        (changes_of_map changes.new.entries ≡ merged (changes_of_map changes.old.entries) cs) }
{
    let mut left = entry;
    'changes: while let Some((change, rest)) = left.split_first() {
        let bytes = Vec::from_slice(alloc, change.bytes)?;
        put_change(changes, change.place, bytes)?;
        left = rest;
    }
    Ok(())
}

/// The publication of these changes.
///
/// # Errors
///
/// `TooLong` or `Full` if no publication has them, `Memory`.
pub fn publication_of(
    alloc: Global,
    version: u64,
    changes: &ChangeMap,
) -> Result<PublicationBuilder, ChangeFault>
    ensures made { IfOk result (λ it. IsMadeOf it
        (record { version = version; changes = changes_of_map changes.now.entries })) }
    ensures version { IfOk result (λ it. it.version ≡ version) }
{
    let mut builder = PublicationBuilder::new(alloc, version)?;
    for (place, bytes) in changes.iter() {
        builder.push(*place, bytes)?;
    }
    Ok(builder)
}
