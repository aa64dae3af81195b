//! Bytes with their digest after them, and bytes after those that a file begins with.

ghost use Rattle.std.specs.Prelude.{◌≡◌, ◌≢◌, ◌≤◌, ◌<◌, ◌^◌, ◌++◌, ℕ, List, length, slice_index};
ghost use Rattle.std.specs.Prelude.{take, IfOk, IfSome, MatchOption};
ghost use Rattle.sha2.specs.Sha256.{sha256};
ghost use Rattle.hint_file.specs.Files.{sealed};

use sha2::{Digest, Sha256};
use std::alloc::AllocError;

/// How many bytes a digest has.
pub const DIGEST_LEN: usize = 32;

/// How many bytes a file's magic has.
pub const MAGIC_LEN: usize = 8;

/// The digest of some bytes.
pub fn digest_of(bytes: &[u8]) -> [u8; DIGEST_LEN]
    ensures { result ≡ sha256 bytes.now }
{
    let mut hasher = Sha256::new();
    hasher.update(bytes);
    hasher.finalize()
}

/// The digest of some bytes, and others after them.
pub fn digest_of_both(first: &[u8], rest: &[u8]) -> [u8; DIGEST_LEN]
    ensures { result ≡ sha256 (first.now ++ rest.now) }
{
    let mut hasher = Sha256::new();
    hasher.update(first);
    hasher.update(rest);
    hasher.finalize()
}

/// The bytes, and their digest after them.
pub fn seal(mut bytes: Vec<u8>) -> Result<Vec<u8>, AllocError>
    ensures { IfOk result (λ whole. whole.items ≡ sealed bytes.items) }
{
    let digest = digest_of(&bytes);
    bytes.extend_from_slice(&digest)?;
    Ok(bytes)
}

/// The bytes before their digest; none if the last 32 are not it.
pub fn unsealed(bytes: &[u8]) -> Option<&[u8]>
    ensures { MatchOption result ((body : List ℕ) → bytes.now ≢ sealed body)
        (λ body. bytes.now ≡ sealed body.now) }
{
    if bytes.len() < DIGEST_LEN {
        return None;
    }
    let (body, digest) = bytes.split_at(bytes.len() - DIGEST_LEN);
    if digest_of(body).as_slice() == digest {
        Some(body)
    } else {
        None
    }
}

/// The bytes after those of the prefix; none if others are there.
pub fn after<'a>(bytes: &'a [u8], front: &[u8]) -> Option<&'a [u8]>
    ensures cases { MatchOption result ((rest : List ℕ) → bytes.now ≢ front.now ++ rest)
        (λ rest. bytes.now ≡ front.now ++ rest.now) }
    ensures each { IfSome result (λ rest. (i : ℕ) → slice_index rest.now i < 2 ^ 8) }
{
    bytes.strip_prefix(front)
}

/// The first 32 bytes.
pub fn first_32(bytes: &[u8]) -> [u8; 32]
    requires { 32 ≤ length bytes.now }
    ensures { result ≡ take 32 bytes.now }
{
    let mut first = [0u8; 32];
    first.copy_from_slice(&bytes[..32]);
    first
}
