//! A log's publications in the log of another snapshot.

ghost use Rattle.std.specs.Prelude.{◌≡◌, ◌++◌, ℕ, List, IfOk, OnOk};
ghost use Rattle.publication_log.specs.Publications.{Published};
ghost use Rattle.publication_log.specs.Entries.{chain_bytes, log_entry, next_link, IsBody};
ghost use Rattle.publication_log.specs.Logs.{AreNext, bodies_of, log_bytes};

use crate::entries::{LINK_LEN, frame_at, head_of, link_after};
use crate::header::LogHeader;
use crate::reading::{Publications, link_of};
use std::alloc::{AllocError, Global};

/// The bytes of a log of these publications with another header: the same bodies, linked anew from
/// the new header on. The publications are to follow the version of its snapshot, as the last 16 of
/// a log follow a snapshot of 16 versions before the last one.
///
/// # Errors
///
/// `AllocError` when memory was refused.
pub fn relinked(
    alloc: Global,
    header: &LogHeader,
    publications: Publications<'_>,
) -> Result<Vec<u8>, AllocError>
    ensures { (link : List ℕ) (version : ℕ) (ps : List Published) → AreNext version ps →
        publications.entry.rest.now ≡ chain_bytes link (bodies_of ps) →
        IfOk result (λ bytes. bytes.items ≡ log_bytes header.now ps) }
{
    let mut bytes = header.to_bytes(alloc)?;
    let mut link = link_of(&bytes);
    let mut rest = publications.rest;
    'entries: while let Some(frame) = frame_at(rest) {
        link = push_entry(&mut bytes, &link, frame.body)?;
        rest = frame.rest;
    }
    Ok(bytes)
}

// Adds the entry of a body, and returns the link after it. After an `Err` a part of the entry may
// be there.
fn push_entry(
    bytes: &mut Vec<u8>,
    link: &[u8; LINK_LEN],
    body: &[u8],
) -> Result<[u8; LINK_LEN], AllocError>
    requires { IsBody body.now }
    ensures added { OnOk result (bytes.new.items ≡ bytes.old.items ++ log_entry link.now body.now) }
    ensures link { IfOk result (λ next. next ≡ next_link link.now body.now) }
{
    let next = link_after(link, body);
    bytes.extend_from_slice(&head_of(body))?;
    bytes.extend_from_slice(body)?;
    bytes.extend_from_slice(&next)?;
    Ok(next)
}
