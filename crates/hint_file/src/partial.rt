//! The file of a hint of which only the first parts are there.

ghost use Rattle.std.specs.Prelude.{◌≡◌, [], ◌++◌, ◌↔◌, IfOk, IsTrue, MatchOption};
ghost use Rattle.sha2.specs.Sha256.{sha256};
ghost use Rattle.frame_codec.specs.Frames.{encoding};
ghost use Rattle.pir_schemes.specs.Schemes.{scheme_byte};
ghost use Rattle.hint_file.specs.Files.{head_bytes};
ghost use Rattle.hint_file.specs.Partial.{partial_front, partial_magic, CanBeFetched, IsToFetch};
ghost use Rattle.hint_file.specs.Reading.{AreParts};

use crate::digests::digests_of;
use crate::heads::{HintFields, KeptHead, digests_len, field_bytes, head_bytes};
use crate::parts::{PartSpan, place_of};
use crate::sealing::{DIGEST_LEN, MAGIC_LEN, digest_of};
use client_core::{Scheme, ServerInfo};
use frame_codec::{Frame, write_frame, write_hint_part};
use pir_schemes::hint_rows;
use std::alloc::{AllocError, Global};

// What a partial file begins with.
#[tactic(auto, unfolding(crate::specs::Partial::partial_magic))]
fn partial_magic() -> [u8; MAGIC_LEN]
    ensures { result ≡ partial_magic }
{
    *b"PIRPART1"
}

/// The head of the hint of the version known, in a scheme, before any part has come: there are
/// zeros in place of the digests. None exactly when what is known has no layout, or no hint that
/// can exist.
///
/// # Errors
///
/// `AllocError` when memory was refused.
pub fn head_to_fetch(
    alloc: Global,
    now: &ServerInfo,
    scheme: Scheme,
) -> Result<Option<KeptHead>, AllocError>
    ensures { IfOk result (λ found. MatchOption found (¬ CanBeFetched now.now scheme)
        (IsToFetch now.now scheme)) }
{
    let Ok(layout) = now.plan.layout(now.count as usize) else {
        return Ok(None);
    };
    let cols = now.dimension();
    if cols > 1024 {
        return Ok(None);
    }
    let fields = HintFields {
        known: *now,
        scheme,
        version: now.version,
        rows: hint_rows(scheme, &layout, cols),
        cols,
    };
    let Some(len) = digests_len(&fields) else {
        return Ok(None);
    };
    let digests = vec![in alloc; 0u8; len]?;
    Ok(Some(KeptHead { fields, digests }))
}

/// What comes before the digests in the file of a hint of which only the first parts are there.
///
/// # Errors
///
/// `AllocError` when memory was refused.
pub fn partial_front(alloc: Global, head: &KeptHead) -> Result<Vec<u8>, AllocError>
    ensures { IfOk result (λ bytes. bytes.items ≡ partial_front head.now.fields) }
{
    let mut bytes = Vec::new(alloc);
    bytes.extend_from_slice(&partial_magic())?;
    bytes.extend_from_slice(&field_bytes(alloc, &head.fields)?)?;
    Ok(bytes)
}

/// All that comes before the words in a hint's file, once the digests of all parts are there.
///
/// # Errors
///
/// `AllocError` when memory was refused.
pub fn whole_head(alloc: Global, head: &KeptHead) -> Result<Vec<u8>, AllocError>
    ensures { IfOk result
        (λ bytes. bytes.items ≡ head_bytes head.now.fields head.now.digests.items) }
{
    head_bytes(alloc, &head.fields, &head.digests)
}

/// The digest of a part.
pub fn part_digest(bytes: &[u8]) -> [u8; DIGEST_LEN]
    ensures { result ≡ sha256 bytes.now }
{
    digest_of(bytes)
}

/// Whether these are the bytes of the parts of a span, by their number and by the digests that are
/// in a head.
///
/// # Errors
///
/// `AllocError` when memory was refused.
pub fn are_parts(
    alloc: Global,
    head: &KeptHead,
    span: PartSpan,
    bytes: &[u8],
) -> Result<bool, AllocError>
    ensures { IfOk result (λ are. IsTrue are ↔ AreParts head.now span bytes.now) }
{
    let Some((_, len)) = place_of(head, span) else {
        return Ok(false);
    };
    if bytes.len() != len {
        return Ok(false);
    }
    let digests = digests_of(alloc, bytes)?;
    Ok(digests.as_slice() == &head.digests[DIGEST_LEN * span.first..DIGEST_LEN * span.end])
}

/// The frame that asks for a part of the hint.
///
/// # Errors
///
/// `AllocError` when memory was refused.
pub fn part_ask(alloc: Global, head: &KeptHead, part: u32) -> Result<Vec<u8>, AllocError>
    ensures { IfOk result (λ bytes. bytes.items ≡ encoding (Frame.HintAsk
        (scheme_byte head.now.fields.scheme) head.now.fields.version part)) }
{
    let mut bytes = Vec::new(alloc);
    let ask = Frame::HintAsk {
        scheme: head.fields.scheme.byte(),
        version: head.fields.version,
        part,
    };
    write_frame(&ask, &mut bytes)?;
    Ok(bytes)
}

/// The frame of a part of the hint, if it had no words: the frame that comes has another length in
/// its first 4 bytes, and words after these 18.
///
/// # Errors
///
/// `AllocError` when memory was refused.
pub fn empty_part(alloc: Global, head: &KeptHead, part: u32) -> Result<Vec<u8>, AllocError>
    ensures { IfOk result (λ bytes. bytes.items ≡ encoding (Frame.HintPart
        (scheme_byte head.now.fields.scheme) head.now.fields.version part [])) }
{
    let mut bytes = Vec::new(alloc);
    write_hint_part(
        head.fields.scheme.byte(),
        head.fields.version,
        part,
        &[],
        &mut bytes,
    )?;
    Ok(bytes)
}
