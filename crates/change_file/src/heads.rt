//! The head of a file of changes, which ties it to the file of a hint.

ghost use Rattle.std.specs.Prelude.{◌≡◌, ◌≢◌, ◌≤◌, ◌++◌, List, ℕ, length, drop, IfSome, IfNone};
ghost use Rattle.std.specs.Prelude.{MatchOption};
ghost use Rattle.change_file.specs.Files.{change_magic, first_block_link, changes_head};

use crate::blocks::{LINK_LEN, Link};
use sha2::{Digest, Sha256};

/// How many bytes a head has.
pub const HEAD_LEN: usize = 72;

/// How many bytes the magic has.
const MAGIC_LEN: usize = 8;

// What a file of changes begins with.
#[tactic(auto, unfolding(crate::specs::Files::change_magic))]
fn magic() -> [u8; MAGIC_LEN]
    ensures { result ≡ change_magic }
{
    *b"PIRMOVE1"
}

// The link before the first block.
pub(crate) fn first_link(hint_digest: &[u8; 32]) -> Link
    ensures { result.bytes ≡ first_block_link hint_digest.now }
{
    let mut hasher = Sha256::new();
    hasher.update(&magic());
    hasher.update(hint_digest);
    Link {
        bytes: hasher.finalize(),
    }
}

/// The head of the changes of a hint whose file's head has this digest. No memory is taken.
pub fn head_bytes(hint_digest: &[u8; 32]) -> [u8; HEAD_LEN]
    ensures { result ≡ changes_head hint_digest.now }
{
    let mut head = [0; HEAD_LEN];
    let (begin, rest) = head.split_at_mut(MAGIC_LEN);
    begin.copy_from_slice(&magic());
    let (tie, link) = rest.split_at_mut(LINK_LEN);
    tie.copy_from_slice(hint_digest);
    link.copy_from_slice(&first_link(hint_digest).bytes);
    head
}

// The bytes after others, if they begin with these.
fn after<'a>(bytes: &'a [u8], first: &[u8]) -> Option<&'a [u8]>
    ensures { MatchOption result ((rest : List ℕ) → bytes.now ≢ first.now ++ rest)
        (λ rest. bytes.now ≡ first.now ++ rest.now) }
{
    bytes.strip_prefix(first)
}

/// The link before the first block of a file of changes, if the bytes begin with the head of the
/// changes of this hint.
pub fn read_head(bytes: &[u8], hint_digest: &[u8; 32]) -> Option<Link>
    ensures some { IfSome result (λ link. (link.bytes ≡ first_block_link hint_digest.now) ×
        (bytes.now ≡ changes_head hint_digest.now ++ drop 72 bytes.now)) }
    ensures room { IfSome result (λ link. 72 ≤ length bytes.now) }
    ensures none { IfNone result ((rest : List ℕ) →
        bytes.now ≢ changes_head hint_digest.now ++ rest) }
{
    let head = head_bytes(hint_digest);
    let Some(_rest) = after(bytes, &head) else {
        return None;
    };
    Some(first_link(hint_digest))
}
