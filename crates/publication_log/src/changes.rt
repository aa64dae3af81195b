//! A publication's bytes, read.

ghost use Rattle.std.specs.Prelude.{
  ◌≡◌,
  ◌≤◌,
  ◌<◌,
  ◌+◌,
  ◌^◌,
  Err,
  None,
  ◌++◌,
  ◌∷◌,
  [],
  ℕ,
  List,
  length,
  IfOk,
  IfErr,
  OnOk,
  IfSome,
  IfNone,
  IsSomeAnd,
};
ghost use Rattle.publication_log.specs.Publications.{
  Placed,
  Published,
  placed_bytes,
  changes_bytes,
  body_bytes,
  next_place,
  IsPlaced,
  IsPublished,
  AreChanges,
  IsCutShort,
  HasChangesFault,
  HasBodyFault,
};

use byteorder::{ByteOrder, LittleEndian};
use thiserror::Error;

/// How many bytes a version has.
const VERSION_LEN: usize = 8;

/// How many bytes a change has before those of its record.
pub(crate) const CHANGE_HEAD_LEN: usize = 6;

/// A record's bytes from a publication on. A place that is at or past the count of the version
/// before is an append.
#[derive(Clone, Copy, Debug)]
pub struct Change<'a> {
    /// The place of the record.
    pub place: u32,
    /// The bytes of the record.
    pub bytes: &'a [u8],
}

/// Changes that are read one after another, by ascending place.
#[derive(Clone, Copy, Debug)]
pub struct Changes<'a> {
    /// The bytes of the changes that were not read.
    pub rest: &'a [u8],
}

/// A version, and what differs in it from the version before.
#[derive(Clone, Copy, Debug)]
pub struct Publication<'a> {
    /// The version.
    pub version: u64,
    /// The changes, by ascending place.
    pub changes: Changes<'a>,
}

/// Why bytes are no publication's.
#[derive(Clone, Copy, Debug, PartialEq, Eq, Error)]
pub enum BodyFault {
    /// The bytes end in the version or in a change.
    #[error("the publication is cut short")]
    Short,
    /// A place is not above the one before it.
    #[error("the places do not ascend")]
    NotAscending,
}

// A change at the start of some bytes, and the bytes after it.
#[derive(Clone, Copy)]
struct FirstChange<'a> {
    change: Change<'a>,
    rest: &'a [u8],
}

// The change at the start.
fn change_at(bytes: &[u8]) -> Option<FirstChange<'_>>
    ensures some { IfSome result (λ it. let c : Placed = record {
      place = it.change.place;
      bytes = it.change.bytes.now;
    } in
        IsPlaced c × (bytes.now ≡ placed_bytes c ++ it.rest.now)) }
    ensures shorter { IfSome result (λ it. length it.rest.now < length bytes.now) }
    ensures none { IfNone result (IsCutShort bytes.now) }
{
    if bytes.len() < CHANGE_HEAD_LEN {
        return None;
    }
    let place = LittleEndian::read_u32(bytes);
    let len = LittleEndian::read_u16(&bytes[4..]) as usize;
    let rest = &bytes[CHANGE_HEAD_LEN..];
    if rest.len() < len {
        return None;
    }
    let (bytes, rest) = rest.split_at(len);
    Some(FirstChange {
        change: Change { place, bytes },
        rest,
    })
}

// Whether these bytes are changes, by ascending place.
fn judge_changes(bytes: &[u8]) -> Result<(), BodyFault>
    ensures ok { OnOk result ((cs : List Placed) × AreChanges 0 cs ×
        (bytes.now ≡ changes_bytes cs)) }
    ensures refused { IfErr result (λ fault. HasChangesFault fault bytes.now) }
{
    let mut rest = bytes;
    let mut low = 0;
    while !rest.is_empty() {
        let Some(first) = change_at(rest) else {
            return Err(BodyFault::Short);
        };
        if (first.change.place as u64) < low {
            return Err(BodyFault::NotAscending);
        }
        low = first.change.place as u64 + 1;
        rest = first.rest;
    }
    Ok(())
}

impl<'a> Changes<'a> {
    /// The first change, and the changes after it; `None` when there are no more.
    pub fn split_first(self) -> Option<(Change<'a>, Changes<'a>)>
        ensures some { (c : Placed) (cs : List Placed) → IsPlaced c →
            self.entry.rest.now ≡ changes_bytes (c ∷ cs) →
            IsSomeAnd result (λ it. (it.0.place ≡ c.place) × (it.0.bytes.now ≡ c.bytes) ×
            (it.1.rest.now ≡ changes_bytes cs)) }
        ensures none { self.entry.rest.now ≡ [] → result ≡ None }
        ensures shorter { IfSome result (λ it. length it.1.rest.now < length self.entry.rest.now) }
    {
        let first = change_at(self.rest)?;
        Some((first.change, Changes { rest: first.rest }))
    }
}

impl<'a> Publication<'a> {
    // The publication that a body's bytes are, if nothing is wrong with them.
    pub(crate) fn of_body(body: &'a [u8]) -> Option<Publication<'a>>
        ensures { (p : Published) → p.version < 2 ^ 64 → body.now ≡ body_bytes p →
            IsSomeAnd result (λ it. (it.version ≡ p.version) ×
            (it.changes.rest.now ≡ changes_bytes p.changes)) }
    {
        if body.len() < VERSION_LEN {
            return None;
        }
        Some(Publication {
            version: LittleEndian::read_u64(body),
            changes: Changes {
                rest: &body[VERSION_LEN..],
            },
        })
    }

    /// The publication that these bytes are.
    ///
    /// # Errors
    ///
    /// The first fault of the bytes.
    pub fn decode(body: &'a [u8]) -> Result<Publication<'a>, BodyFault>
        ensures ok { IfOk result (λ p. (cs : List Placed) × (p.version < 2 ^ 64) × AreChanges 0 cs ×
            (p.changes.rest.now ≡ changes_bytes cs) ×
            (body.now ≡ body_bytes (record { version = p.version; changes = cs }))) }
        ensures refused { IfErr result (λ fault. HasBodyFault fault body.now) }
    {
        if body.len() < VERSION_LEN {
            return Err(BodyFault::Short);
        }
        let version = LittleEndian::read_u64(body);
        let rest = &body[VERSION_LEN..];
        judge_changes(rest)?;
        Ok(Publication {
            version,
            changes: Changes { rest },
        })
    }
}
