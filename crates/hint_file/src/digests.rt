//! The digests of the parts of some bytes, or of the bytes of some words.

ghost use Rattle.std.specs.Prelude.{◌≡◌, IfOk};
ghost use Rattle.frame_codec.specs.Numbers.{word_bytes};
ghost use Rattle.hint_file.specs.Files.{part_digests};

use crate::sealing::digest_of;
use crate::word_bytes::add_words;
use pir_schemes::PART_WORDS;
use std::alloc::{AllocError, Global};

/// The most bytes of a part of a hint's words.
pub const PART_LEN: usize = 4 * PART_WORDS;

/// The digests of all parts of some bytes, one after another.
///
/// # Errors
///
/// `AllocError` if memory was refused.
pub fn digests_of(alloc: Global, bytes: &[u8]) -> Result<Vec<u8>, AllocError>
    ensures { IfOk result (λ digests. digests.items ≡ part_digests bytes.now) }
{
    let mut digests = Vec::new(alloc);
    let mut rest = bytes;
    while !rest.is_empty() {
        let (part, beyond) = rest.split_at(rest.len().min(PART_LEN));
        digests.extend_from_slice(&digest_of(part))?;
        rest = beyond;
    }
    Ok(digests)
}

/// The digests of all parts of the bytes of some words, one after another. No more than the bytes
/// of one part are in memory at once.
///
/// # Errors
///
/// `AllocError` if memory was refused.
pub fn digests_of_words(alloc: Global, words: &[u32]) -> Result<Vec<u8>, AllocError>
    ensures { IfOk result (λ digests. digests.items ≡ part_digests (word_bytes words.now)) }
{
    let mut digests = Vec::new(alloc);
    let mut bytes = Vec::with_capacity(alloc, 4 * words.len().min(PART_WORDS))?;
    let mut rest = words;
    while !rest.is_empty() {
        let (part, beyond) = rest.split_at(rest.len().min(PART_WORDS));
        bytes.clear();
        add_words(&mut bytes, part)?;
        digests.extend_from_slice(&digest_of(&bytes))?;
        rest = beyond;
    }
    Ok(digests)
}
