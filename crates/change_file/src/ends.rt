//! Where the whole blocks of a file end.

ghost use Rattle.std.specs.Prelude.{◌≡◌, ◌≢◌, ◌≤◌, ◌++◌, List, ℕ, length, IfSome, IfNone};
ghost use Rattle.change_file.specs.Files.{IsChainEnd, IsEnd, first_block_link, changes_head};
ghost use Rattle.change_file.specs.Files.{moves_in};

use crate::blocks::{Link, next_block};
use crate::heads::{HEAD_LEN, first_link, read_head};

/// The end of the whole blocks of a file of changes.
#[derive(Clone, Copy, Debug)]
pub struct ChangesEnd {
    /// How many bytes the head and these blocks have: where the next block is to be written.
    pub len: usize,
    /// The link after the last of them, or that of the head.
    pub link: Link,
    /// The version to which the last of them leads, or that of the hint.
    pub version: u64,
    /// The number of records of that version.
    pub count: u32,
}

/// The end of a file of changes that has no block yet, by the digest of the head of the hint's
/// file, and the version and the number of records of that hint. No memory is taken.
pub fn empty_end(hint_digest: &[u8; 32], version: u64, count: u32) -> ChangesEnd
    ensures place { (result.len ≡ 72) × (result.link.bytes ≡ first_block_link hint_digest.now) }
    ensures moved { (result.version ≡ version) × (result.count ≡ count) }
{
    ChangesEnd {
        len: HEAD_LEN,
        link: first_link(hint_digest),
        version,
        count,
    }
}

// The end of the blocks that bytes begin with, after a link, a version and a count.
fn chain_end(bytes: &[u8], link: Link, version: u64, count: u32) -> ChangesEnd
    ensures end { IsChainEnd link.bytes version count
        (moves_in link.bytes version bytes.now) result }
    ensures within { result.len ≤ length bytes.now }
{
    let mut len = 0;
    let mut link = link;
    let mut version = version;
    let mut count = count;
    let mut rest = bytes;
    'whole: while let Some(next) = next_block(rest, &link, version) {
        len += next.len;
        link = next.link;
        version = next.block.version;
        count = next.block.count;
        let (_block, others) = rest.split_at(next.len);
        rest = others;
    }
    ChangesEnd {
        len,
        link,
        version,
        count,
    }
}

/// The end of the whole blocks of a file of changes, by the digest of the head of the hint's file,
/// and the version and the number of records of that hint; none if the file has another head and is
/// to be written anew. No memory is taken.
pub fn end_in(bytes: &[u8], hint_digest: &[u8; 32], version: u64, count: u32) -> Option<ChangesEnd>
    ensures some { IfSome result (λ end. IsEnd hint_digest.now version count bytes.now end) }
    ensures none { IfNone result ((rest : List ℕ) →
        bytes.now ≢ changes_head hint_digest.now ++ rest) }
{
    let first = read_head(bytes, hint_digest)?;
    let (_head, rest) = bytes.split_at(HEAD_LEN);
    let end = chain_end(rest, first, version, count);
    Some(ChangesEnd {
        len: HEAD_LEN + end.len,
        link: end.link,
        version: end.version,
        count: end.count,
    })
}
