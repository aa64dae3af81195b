//! What changed since some publications.

ghost use Rattle.std.specs.Prelude.{◌≡◌, ◌≤◌, ◌<◌, ◌+◌, ◌*◌, ◌^◌, ◌↔◌, ℕ, false, length, IfOk};
ghost use Rattle.std.specs.Prelude.{IfSome, IsNone};
ghost use Rattle.record_log.specs.Logs.{AreInside, entries_since, is_listed, oldest_bytes};
ghost use Rattle.record_log.specs.Logs.{records_of_bytes};
ghost use Rattle.record_log.specs.Steps.{AddsWithin, HaveLen, IsNext, lesser, next_entry, olds_of};

use crate::entries::push_change;
use crate::old_records::OldRecords;
use snapshot_file::RecordSource;
use std::alloc::{AllocError, Global};

// The entries of all records that differ from those before the publications, the oldest of which is
// the first; none if they have more than `most` bytes.
pub(crate) fn changes_in<S: RecordSource>(
    alloc: Global,
    lists: &[OldRecords],
    current: &S,
    count: usize,
    most: usize,
) -> Result<Option<Vec<u8>>, AllocError>
    requires inside { AreInside count (olds_of lists.now) }
    requires len { HaveLen (S.record_len current.now) lists.now }
    requires short { S.record_len current.now ≤ 256 }
    requires whole { length (S.bytes current.now) ≡ count * S.record_len current.now }
    requires few { count < 2 ^ 32 }
    ensures entries { IfOk result (λ made. IfSome made (λ entries.
        entries.items ≡ entries_since (olds_of lists.now)
        (records_of_bytes (S.record_len current.now) count (S.bytes current.now)))) }
    ensures too_many { IfOk result (λ made. IsNone made ↔
        (most < length (entries_since (olds_of lists.now)
        (records_of_bytes (S.record_len current.now) count (S.bytes current.now))))) }
{
    let mut entries = Vec::new(alloc);
    let mut least = 0;
    while let Some(number) = next_listed(lists, least) {
        if !push_listed(&mut entries, lists, number, current, most)? {
            return Ok(None);
        }
        least = number + 1;
    }
    Ok(Some(entries))
}

// Adds the entry of a record to others, if it differs from what it was before the publications, and
// says whether all entries together have so many bytes at most.
fn push_listed<S: RecordSource>(
    out: &mut Vec<u8>,
    lists: &[OldRecords],
    number: u32,
    current: &S,
    most: usize,
) -> Result<bool, AllocError>
    requires len { HaveLen (S.record_len current.now) lists.now }
    requires short { S.record_len current.now ≤ 256 }
    requires inside { number * S.record_len current.now + S.record_len current.now ≤
        length (S.bytes current.now) }
    requires before { length out.old.items ≤ most }
    ensures { IfOk result (AddsWithin most out.old.items out.new.items (next_entry
        (olds_of lists.now) (S.record_len current.now) (S.bytes current.now) number)) }
{
    let Some(old) = oldest_of(lists, number) else {
        return Ok(true);
    };
    push_change(out, number, old, current, most)
}

// The bytes that a record had before the first of the publications that changed it.
fn oldest_of(lists: &[OldRecords], number: u32) -> Option<&[u8]>
    ensures found { IfSome result (λ bytes. bytes.now ≡ oldest_bytes (olds_of lists.now) number) }
    ensures len { IfSome result (λ bytes. (len : ℕ) → HaveLen len lists.now →
        length bytes.now ≡ len) }
    ensures there { IsNone result ↔ (is_listed (olds_of lists.now) number ≡ false) }
{
    for list in lists {
        if let Some(bytes) = list.bytes_of(number) {
            return Some(bytes);
        }
    }
    None
}

// The least number from `least` on of a record that one of the publications changed.
fn next_listed(lists: &[OldRecords], least: u32) -> Option<u32>
    ensures { IsNext (olds_of lists.now) least result }
{
    let mut next = None;
    for list in lists {
        next = lesser(next, list.first_from(least));
    }
    next
}

// The lesser of two numbers, if there are any.
fn lesser(a: Option<u32>, b: Option<u32>) -> Option<u32>
    ensures { result ≡ lesser a b }
{
    match (a, b) {
        (Some(x), Some(y)) => Some(x.min(y)),
        (Some(x), None) => Some(x),
        (None, b) => b,
    }
}
