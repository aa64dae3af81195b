//! The publications of a log.

ghost use Rattle.std.specs.Prelude.{
  ◌≡◌,
  ◌≤◌,
  ◌<◌,
  ◌+◌,
  ◌++◌,
  ◌∷◌,
  ◌↔◌,
  IsTrue,
  [],
  ℕ,
  List,
  length,
  take,
  drop,
  slice_range,
  Err,
  None,
  IfOk,
  IfErr,
  IfSome,
  IfNone,
  IsSomeAnd,
};
ghost use Rattle.sha2.specs.Sha256.{sha256};
ghost use Rattle.publication_log.specs.Publications.{Published, IsPublished, changes_bytes};
ghost use Rattle.publication_log.specs.Publications.{body_bytes};
ghost use Rattle.publication_log.specs.Entries.{chain_bytes, last_link, next_link, IsTorn};
ghost use Rattle.publication_log.specs.Logs.{
  bodies_of,
  AreNext,
  AreRead,
  IsFound,
  IsNextEntry,
  HasCause,
  StopsBy,
};

use crate::changes::Publication;
use crate::entries::{LINK_LEN, entry_at, frame_at, has_later, is_same};
use crate::header::LogHeader;
use sha2::{Digest, Sha256};
use std::alloc::{AllocError, Global};
use thiserror::Error;

/// Why bytes are no good log of a snapshot. Nothing is to be cut off then.
#[derive(Clone, Copy, Debug, PartialEq, Eq, Error)]
pub enum BadLog {
    /// The bytes do not begin with the header of this snapshot.
    #[error("the log is that of another snapshot")]
    OtherSnapshot,
    /// An entry has the right digest, and its body is no publication.
    #[error("an entry of the log is no publication")]
    BadBody,
    /// An entry has the right digest, and its version does not follow the one before it.
    #[error("the versions of the log do not follow one another")]
    BadVersion,
    /// An entry is damaged, and a whole one is after it.
    #[error("the log is damaged")]
    Damaged,
}

/// Why a log was not read.
#[derive(Clone, Copy, Debug, PartialEq, Eq, Error)]
pub enum LogReadFault {
    /// The bytes are no good log of the snapshot.
    #[error("bad log: {0}")]
    Bad(BadLog),
    /// Memory for the header was refused.
    #[error("out of memory")]
    Memory,
}

impl From<AllocError> for LogReadFault {
    ghost use Rattle.publication_log.specs.declared.reading.LogReadFault.TheVariants.{Memory};

    ghost from_gives = { λ _ fault. fault ≡ Memory };

    fn from(_refused: AllocError) -> Self {
        LogReadFault::Memory
    }
}

impl From<BadLog> for LogReadFault {
    ghost use Rattle.publication_log.specs.declared.reading.LogReadFault.TheVariants.{Bad};

    ghost from_gives = { λ cause fault. fault ≡ Bad cause };

    fn from(cause: BadLog) -> Self {
        LogReadFault::Bad(cause)
    }
}

/// What a log was read as.
#[derive(Clone, Copy, Debug)]
pub struct Found {
    /// How many bytes the header has.
    pub start: usize,
    /// How many bytes the header and the whole entries have. What is after them is torn.
    pub len: usize,
    /// The version of the last publication, or of the snapshot if there is none.
    pub version: u64,
    /// The link of the last entry, or of the header if there is none.
    pub link: [u8; LINK_LEN],
}

/// Publications that are read one after another, the oldest first.
#[derive(Clone, Copy, Debug)]
pub struct Publications<'a> {
    /// The entries that were not read.
    pub rest: &'a [u8],
}

impl Found {
    /// The publications of the log that was read.
    pub fn publications<'a>(&self, bytes: &'a [u8]) -> Publications<'a>
        requires order { self.now.start ≤ self.now.len }
        requires within { self.now.len ≤ length bytes.now }
        ensures { result.rest.now ≡ slice_range bytes.now self.now.start self.now.len }
    {
        Publications {
            rest: &bytes[self.start..self.len],
        }
    }
}

impl<'a> Publications<'a> {
    /// The first publication, and those after it; `None` when there are no more. No digest is
    /// looked at again: these are the entries that [`read_log`] found.
    pub fn split_first(self) -> Option<(Publication<'a>, Publications<'a>)>
        ensures some { (link : List ℕ) (p : Published) (ps : List Published) → IsPublished p →
            self.entry.rest.now ≡ chain_bytes link (bodies_of (p ∷ ps)) →
            IsSomeAnd result (λ it. (it.0.version ≡ p.version) ×
            (it.0.changes.rest.now ≡ changes_bytes p.changes) ×
            (it.1.rest.now ≡ chain_bytes (next_link link (body_bytes p)) (bodies_of ps))) }
        ensures none { self.entry.rest.now ≡ [] → result ≡ None }
        ensures shorter { IfSome result (λ it. length it.1.rest.now < length self.entry.rest.now) }
    {
        let frame = frame_at(self.rest)?;
        let publication = Publication::of_body(frame.body)?;
        Some((publication, Publications { rest: frame.rest }))
    }

    /// How many publications there are.
    pub fn count(self) -> usize
        ensures { (link : List ℕ) (version : ℕ) (ps : List Published) → AreNext version ps →
            self.entry.rest.now ≡ chain_bytes link (bodies_of ps) → result ≡ length ps }
    {
        let mut count = 0;
        let mut rest = self.rest;
        'entries: while let Some(frame) = frame_at(rest) {
            count += 1;
            rest = frame.rest;
        }
        count
    }

    /// The publications after the first `n`: none if there are no more than these.
    pub fn without_first(self, n: usize) -> Publications<'a>
        ensures { (link : List ℕ) (version : ℕ) (ps : List Published) → AreNext version ps →
            self.entry.rest.now ≡ chain_bytes link (bodies_of ps) →
            result.rest.now ≡
            chain_bytes (last_link link (bodies_of (take n ps))) (bodies_of (drop n ps)) }
    {
        let mut rest = self.rest;
        for i in 0..n {
            let Some(frame) = frame_at(rest) else {
                return Publications { rest };
            };
            rest = frame.rest;
        }
        Publications { rest }
    }
}

// The link before the first entry.
pub(crate) fn link_of(header: &[u8]) -> [u8; LINK_LEN]
    ensures { result ≡ sha256 header.now }
{
    let mut hasher = Sha256::new();
    hasher.update(header);
    hasher.finalize()
}

// The next publication's version, the link after it, and what is after its entry.
#[derive(Clone, Copy)]
struct Next<'a> {
    version: u64,
    link: &'a [u8],
    rest: &'a [u8],
}

// Whether a version follows another.
fn is_next(version: u64, other: u64) -> bool
    ensures { IsTrue result ↔ (other ≡ version + 1) }
{
    version < other && other - version == 1
}

// The publication whose entry is at the start, after a link and a version; `None` at the end of a
// log.
fn next_at<'a>(link: &[u8], version: u64, rest: &'a [u8]) -> Result<Option<Next<'a>>, BadLog>
    ensures some { IfOk result (λ found. IfSome found (λ it. (p : Published) ×
        IsNextEntry link.now version rest.now p it)) }
    ensures none { IfOk result (λ found. IfNone found (IsTorn link.now rest.now)) }
    ensures bad { IfErr result (λ cause. StopsBy link.now version cause rest.now) }
{
    let Some(frame) = entry_at(link, rest) else {
        if has_later(link, rest) {
            return Err(BadLog::Damaged);
        }
        return Ok(None);
    };
    let Ok(publication) = Publication::decode(frame.body) else {
        return Err(BadLog::BadBody);
    };
    if !is_next(version, publication.version) {
        return Err(BadLog::BadVersion);
    }
    Ok(Some(Next {
        version: publication.version,
        link: frame.digest,
        rest: frame.rest,
    }))
}

// How many bytes some entries have, and the version and the link of the last.
#[derive(Clone, Copy)]
struct ChainEnd {
    len: usize,
    version: u64,
    link: [u8; LINK_LEN],
}

// Reads the entries after a link and a version.
fn read_entries(link: &[u8; LINK_LEN], before: u64, bytes: &[u8]) -> Result<ChainEnd, BadLog>
    ensures ok { IfOk result (λ ends. (ps : List Published) ×
        AreRead link.now before bytes.now ps ends) }
    ensures bad { IfErr result (λ cause. (ps : List Published) × (rest : List ℕ) ×
        AreNext before ps × (bytes.now ≡ chain_bytes link.now (bodies_of ps) ++ rest) ×
        StopsBy (last_link link.now (bodies_of ps)) (before + length ps) cause rest) }
{
    let mut last = *link;
    let mut version = before;
    let mut rest = bytes;
    'entries: while let Some(next) = next_at(&last, version, rest)? {
        last.copy_from_slice(next.link);
        version = next.version;
        rest = next.rest;
    }
    let len = bytes.len() - rest.len();
    Ok(ChainEnd {
        len,
        version,
        link: last,
    })
}

// What is after the header, if the bytes begin with the header.
fn after_header<'a>(header: &[u8], bytes: &'a [u8]) -> Option<&'a [u8]>
    ensures some { IfSome result (λ rest. bytes.now ≡ header.now ++ rest.now) }
    ensures none { IfNone result ((rest : List ℕ) → bytes.now ≡ header.now ++ rest → ⊥) }
{
    if bytes.len() < header.len() {
        return None;
    }
    let (first, rest) = bytes.split_at(header.len());
    if !is_same(first, header) {
        return None;
    }
    Some(rest)
}

/// Reads the log of a snapshot. No more memory is taken than for the header's bytes.
///
/// What is after `len` bytes of the result is a torn end: no whole entry is at its start or later
/// in it. Of bytes with one of the causes of [`BadLog`] nothing is to be cut off.
///
/// # Errors
///
/// `Bad` with what is wrong; `Memory`.
pub fn read_log(alloc: Global, header: &LogHeader, bytes: &[u8]) -> Result<Found, LogReadFault>
    ensures found { IfOk result (λ found. (ps : List Published) ×
        IsFound header.now bytes.now ps found) }
    ensures bad { (cause : BadLog) → result ≡ Err (LogReadFault.Bad cause) →
        HasCause header.now cause bytes.now }
{
    let prefix = header.to_bytes(alloc)?;
    let Some(rest) = after_header(&prefix, bytes) else {
        return Err(LogReadFault::Bad(BadLog::OtherSnapshot));
    };
    let start = bytes.len() - rest.len();
    let ends = read_entries(&link_of(&prefix), header.version, rest)?;
    let link = ends.link;
    Ok(Found {
        start,
        len: start + ends.len,
        version: ends.version,
        link,
    })
}
