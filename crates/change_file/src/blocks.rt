//! Blocks: the entries of one move of a hint, and a link.

ghost use Rattle.std.specs.Prelude.{◌≡◌, ◌≢◌, ◌<◌, ◌^◌, ◌++◌, List, ℕ, length, None, IfOk, IfSome};
ghost use Rattle.std.specs.Prelude.{IfNone};
ghost use Rattle.sha2.specs.Sha256.{sha256};
ghost use Rattle.change_file.specs.Files.{HintMove, IsMove, IsNextBlock, block_body, block_bytes};
ghost use Rattle.change_file.specs.Files.{first_move, move_of, next_block_link};

use byteorder::{ByteOrder, LittleEndian};
use sha2::{Digest, Sha256};
use std::alloc::{AllocError, Global};

/// How many bytes a link has.
pub(crate) const LINK_LEN: usize = 32;

/// How many bytes come before the entries.
const FIELDS_LEN: usize = 24;

/// The digest after a head, or after a block: that of all before it, by the link before.
#[derive(Clone, Copy, Debug, PartialEq, Eq)]
pub struct Link {
    pub bytes: [u8; LINK_LEN],
}

/// The changes of a hint from one version to another.
#[derive(Clone, Copy, Debug)]
pub struct Block<'a> {
    /// The version that a hint has before these changes.
    pub since: u64,
    /// The version that it has after them.
    pub version: u64,
    /// The number of records of that version.
    pub count: u32,
    /// The entries of the records that changed.
    pub entries: &'a [u8],
}

/// The bytes of a block, and the link after it.
#[derive(Drop)]
pub struct BlockBytes {
    pub bytes: Vec<u8>,
    pub link: Link,
}

/// A whole block at the beginning of some bytes, the link after it, and how many bytes it has.
#[derive(Clone, Copy, Debug)]
pub struct WholeBlock<'a> {
    pub block: Block<'a>,
    pub link: Link,
    pub len: usize,
}

// The link after a block without its link, by the link before.
fn link_after(link: &Link, body: &[u8]) -> Link
    ensures { result.bytes ≡ sha256 (link.now.bytes ++ body.now) }
{
    let mut hasher = Sha256::new();
    hasher.update(&link.bytes);
    hasher.update(body);
    Link {
        bytes: hasher.finalize(),
    }
}

// A block without its link, with room for that.
#[tactic(auto, unfolding(crate::specs::Files::block_body, frame_codec::specs::Numbers::number_bytes))]
fn body_bytes(alloc: Global, block: &Block<'_>) -> Result<Vec<u8>, AllocError>
    requires { length block.now.entries.now < 2 ^ 32 }
    ensures { IfOk result (λ body. body.items ≡ block_body (move_of block.now)) }
{
    let len = block.entries.len();
    let mut body = Vec::with_capacity(alloc, FIELDS_LEN + len + LINK_LEN)?;
    body.extend_from_slice(&block.since.to_le_bytes())?;
    body.extend_from_slice(&block.version.to_le_bytes())?;
    body.extend_from_slice(&block.count.to_le_bytes())?;
    body.extend_from_slice(&(len as u32).to_le_bytes())?;
    body.extend_from_slice(block.entries)?;
    Ok(body)
}

/// The bytes of a block after a link, and the link after it.
///
/// # Errors
///
/// `AllocError` when memory was refused.
pub fn block_bytes(alloc: Global, link: &Link, block: &Block<'_>) -> Result<BlockBytes, AllocError>
    requires { length block.now.entries.now < 2 ^ 32 }
    ensures bytes { IfOk result (λ it. it.bytes.items ≡
        block_bytes link.now.bytes (move_of block.now)) }
    ensures link { IfOk result (λ it. it.link.bytes ≡
        next_block_link link.now.bytes (move_of block.now)) }
{
    let mut bytes = body_bytes(alloc, block)?;
    let next = link_after(link, &bytes);
    bytes.extend_from_slice(&next.bytes)?;
    Ok(BlockBytes { bytes, link: next })
}

// A block as it is at the beginning of some bytes, whatever its link is.
#[derive(Clone, Copy)]
struct CutBlock<'a> {
    block: Block<'a>,
    body: &'a [u8],
    link: &'a [u8],
}

// The block at the beginning, if the bytes have room for its entries and a link.
fn cut_block(bytes: &[u8]) -> Option<CutBlock<'_>>
    ensures some { IfSome result (λ it. IsMove (move_of it.block) × (length it.link.now ≡ 32) ×
        (it.body.now ≡ block_body (move_of it.block)) ×
        ((rest : List ℕ) × (bytes.now ≡ it.body.now ++ (it.link.now ++ rest)))) }
    ensures none { IfNone result ((m : HintMove) (link rest : List ℕ) → IsMove m →
        length link ≡ 32 → bytes.now ≢ block_body m ++ (link ++ rest)) }
{
    if bytes.len() < FIELDS_LEN {
        return None;
    }
    let len = LittleEndian::read_u32(&bytes[20..]) as usize;
    let rest = bytes.len() - FIELDS_LEN;
    if rest < len || rest - len < LINK_LEN {
        return None;
    }
    let (body, rest) = bytes.split_at(FIELDS_LEN + len);
    let (link, _) = rest.split_at(LINK_LEN);
    let block = Block {
        since: LittleEndian::read_u64(bytes),
        version: LittleEndian::read_u64(&bytes[8..]),
        count: LittleEndian::read_u32(&bytes[16..]),
        entries: &body[FIELDS_LEN..],
    };
    Some(CutBlock { block, body, link })
}

/// The block at the beginning of some bytes: a whole one, with the link that follows this one,
/// since this version. No memory is taken, and no length is trusted that the bytes have no room
/// for.
pub fn next_block<'a>(bytes: &'a [u8], link: &Link, since: u64) -> Option<WholeBlock<'a>>
    ensures some { IfSome result (λ it. IsNextBlock link.now.bytes since bytes.now it) }
    ensures none { IfNone result (first_move link.now.bytes since bytes.now ≡ None) }
{
    let cut = cut_block(bytes)?;
    let next = link_after(link, cut.body);
    if next.bytes.as_slice() != cut.link || cut.block.since != since {
        return None;
    }
    Some(WholeBlock {
        block: cut.block,
        link: next,
        len: cut.body.len() + LINK_LEN,
    })
}
