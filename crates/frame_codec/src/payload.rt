//! The frame that a kind and a payload make: one function a kind.

ghost use Rattle.std.specs.Prelude.{◌≡◌, ◌≤◌, ◌<◌, ◌+◌, ◌*◌, ◌^◌, ◌∷◌, ◌++◌, ◌↔◌, ℕ, All, IsTrue};
ghost use Rattle.std.specs.Prelude.{length, IfOk, OnErr, IfSome, IfNone};
ghost use Rattle.frame_codec.specs.Numbers.{number_bytes, word_bytes};
ghost use Rattle.frame_codec.specs.Frames.{IsPayload, IsPayloadLength, ReadsAs};

use crate::frame::{Bytes, Bytes32, Frame, Rows, Words};
use crate::word_bytes::{BLOCK_WORDS, push_block, u16_at, u32_at, u64_at};
use std::alloc::{AllocError, Global};

/// The words that the bytes encode, read block by block, so that their memory is written once.
fn words_of(alloc: Global, bytes: &[u8]) -> Result<Words, AllocError>
    requires { (n : ℕ) × (length bytes.now ≡ 4 * n) }
    ensures bytes { IfOk result (λ words. word_bytes words ≡ bytes.now) }
    ensures fields { IfOk result (λ words. All (λ w. w < 2 ^ 32) words) }
{
    let mut items = Vec::with_capacity(alloc, bytes.len() / 4)?;
    let mut rest = bytes;
    while !rest.is_empty() {
        let (block, beyond) = rest.split_at(rest.len().min(4 * BLOCK_WORDS));
        push_block(&mut items, block);
        rest = beyond;
    }
    Ok(Words::new(items))
}

/// The scheme, the version and the words of a payload that is just these three.
fn scheme_words(alloc: Global, payload: &[u8]) -> Result<Option<(u8, u64, Words)>, AllocError>
    ensures some { IfOk result (λ o. IfSome o (λ parts.
        parts.0 ∷ (number_bytes 8 parts.1 ++ word_bytes parts.2) ≡ payload.now)) }
    ensures fields { IfOk result (λ o. IfSome o (λ parts.
        (parts.0 < 2 ^ 8) × (parts.1 < 2 ^ 64) × All (λ w. w < 2 ^ 32) parts.2)) }
    ensures none { IfOk result (λ o. IfNone o ((n : ℕ) → length payload.now ≡ 9 + 4 * n → ⊥)) }
    ensures memory { OnErr result ((n : ℕ) × (length payload.now ≡ 9 + 4 * n)) }
{
    if payload.len() < 9 || (payload.len() - 9) % 4 != 0 {
        return Ok(None);
    }
    let words = words_of(alloc, &payload[9..])?;
    Ok(Some((payload[0], u64_at(&payload[1..]), words)))
}

fn load_of(alloc: Global, payload: &[u8]) -> Result<Option<Frame>, AllocError>
    ensures reads { IfOk result (ReadsAs 1 payload.now) }
    ensures memory { OnErr result (IsPayload 1 payload.now) }
{
    if payload.len() < 5 {
        return Ok(None);
    }
    let records = Vec::from_slice(alloc, &payload[5..])?;
    Ok(Some(Frame::Load {
        record_len: u16_at(payload),
        groups: u16_at(&payload[2..]),
        width: payload[4],
        records: Bytes::new(records),
    }))
}

fn hello_of(payload: &[u8]) -> Option<Frame>
    ensures { ReadsAs 2 payload.now result }
{
    if payload.len() != 34 {
        return None;
    }
    Some(Frame::Hello {
        profile: u16_at(payload),
        key: Bytes32::copied(&payload[2..]),
    })
}

fn hint_ask_of(payload: &[u8]) -> Option<Frame>
    ensures { ReadsAs 3 payload.now result }
{
    if payload.len() != 13 {
        return None;
    }
    Some(Frame::HintAsk {
        scheme: payload[0],
        version: u64_at(&payload[1..]),
        part: u32_at(&payload[9..]),
    })
}

fn delta_ask_of(payload: &[u8]) -> Option<Frame>
    ensures { ReadsAs 4 payload.now result }
{
    if payload.len() != 8 {
        return None;
    }
    Some(Frame::DeltaAsk {
        since: u64_at(payload),
    })
}

fn query_of(alloc: Global, payload: &[u8]) -> Result<Option<Frame>, AllocError>
    ensures reads { IfOk result (ReadsAs 5 payload.now) }
    ensures memory { OnErr result (IsPayload 5 payload.now) }
{
    let Some((scheme, version, words)) = scheme_words(alloc, payload)? else {
        return Ok(None);
    };
    Ok(Some(Frame::Query {
        scheme,
        version,
        words,
    }))
}

fn edit_of(alloc: Global, payload: &[u8]) -> Result<Option<Frame>, AllocError>
    ensures reads { IfOk result (ReadsAs 6 payload.now) }
    ensures memory { OnErr result (IsPayload 6 payload.now) }
{
    if payload.len() < 4 {
        return Ok(None);
    }
    let bytes = Vec::from_slice(alloc, &payload[4..])?;
    Ok(Some(Frame::Edit {
        index: u32_at(payload),
        bytes: Bytes::new(bytes),
    }))
}

fn publish_of(payload: &[u8]) -> Option<Frame>
    ensures { ReadsAs 7 payload.now result }
{
    if !payload.is_empty() {
        return None;
    }
    Some(Frame::Publish)
}

fn bye_of(payload: &[u8]) -> Option<Frame>
    ensures { ReadsAs 8 payload.now result }
{
    if !payload.is_empty() {
        return None;
    }
    Some(Frame::Bye)
}

fn append_of(alloc: Global, payload: &[u8]) -> Result<Option<Frame>, AllocError>
    ensures reads { IfOk result (ReadsAs 9 payload.now) }
    ensures memory { OnErr result (IsPayload 9 payload.now) }
{
    let bytes = Vec::from_slice(alloc, payload)?;
    Ok(Some(Frame::Append {
        bytes: Bytes::new(bytes),
    }))
}

fn changes_ask_of(payload: &[u8]) -> Option<Frame>
    ensures { ReadsAs 10 payload.now result }
{
    if payload.len() != 8 {
        return None;
    }
    Some(Frame::ChangesAsk {
        since: u64_at(payload),
    })
}

fn welcome_of(payload: &[u8]) -> Option<Frame>
    ensures { ReadsAs 130 payload.now result }
{
    if payload.len() != 53 {
        return None;
    }
    Some(Frame::Welcome {
        profile: u16_at(payload),
        width: payload[2],
        record_len: u16_at(&payload[3..]),
        groups: u16_at(&payload[5..]),
        count: u32_at(&payload[7..]),
        version: u64_at(&payload[11..]),
        dimension: u16_at(&payload[19..]),
        seed: Bytes32::copied(&payload[21..]),
    })
}

fn hint_part_of(alloc: Global, payload: &[u8]) -> Result<Option<Frame>, AllocError>
    ensures reads { IfOk result (ReadsAs 131 payload.now) }
    ensures memory { OnErr result (IsPayload 131 payload.now) }
{
    if payload.len() < 13 || (payload.len() - 13) % 4 != 0 {
        return Ok(None);
    }
    let words = words_of(alloc, &payload[13..])?;
    Ok(Some(Frame::HintPart {
        scheme: payload[0],
        version: u64_at(&payload[1..]),
        part: u32_at(&payload[9..]),
        words,
    }))
}

fn delta_of(alloc: Global, payload: &[u8]) -> Result<Option<Frame>, AllocError>
    ensures reads { IfOk result (ReadsAs 132 payload.now) }
    ensures memory { OnErr result (IsPayload 132 payload.now) }
{
    if payload.len() < 22 || (payload.len() - 22) % 4 != 0 {
        return Ok(None);
    }
    let dimension = u16_at(&payload[20..]);
    let count = (payload.len() - 22) / 4;
    if count % (dimension as usize + 1) != 0 {
        return Ok(None);
    }
    let words = words_of(alloc, &payload[22..])?;
    Ok(Some(Frame::Delta {
        since: u64_at(payload),
        now: u64_at(&payload[8..]),
        count: u32_at(&payload[16..]),
        rows: Rows::new(dimension, words),
    }))
}

fn answer_of(alloc: Global, payload: &[u8]) -> Result<Option<Frame>, AllocError>
    ensures reads { IfOk result (ReadsAs 133 payload.now) }
    ensures memory { OnErr result (IsPayload 133 payload.now) }
{
    let Some((scheme, version, words)) = scheme_words(alloc, payload)? else {
        return Ok(None);
    };
    Ok(Some(Frame::Answer {
        scheme,
        version,
        words,
    }))
}

fn stale_of(payload: &[u8]) -> Option<Frame>
    ensures { ReadsAs 134 payload.now result }
{
    if payload.len() != 12 {
        return None;
    }
    Some(Frame::Stale {
        version: u64_at(payload),
        count: u32_at(&payload[8..]),
    })
}

fn done_of(payload: &[u8]) -> Option<Frame>
    ensures { ReadsAs 135 payload.now result }
{
    if payload.len() != 8 {
        return None;
    }
    Some(Frame::Done {
        version: u64_at(payload),
    })
}

fn no_delta_of(payload: &[u8]) -> Option<Frame>
    ensures { ReadsAs 136 payload.now result }
{
    if payload.len() != 12 {
        return None;
    }
    Some(Frame::NoDelta {
        version: u64_at(payload),
        count: u32_at(&payload[8..]),
    })
}

fn changes_of(alloc: Global, payload: &[u8]) -> Result<Option<Frame>, AllocError>
    ensures reads { IfOk result (ReadsAs 138 payload.now) }
    ensures memory { OnErr result (IsPayload 138 payload.now) }
{
    if payload.len() < 20 {
        return Ok(None);
    }
    let entries = Vec::from_slice(alloc, &payload[20..])?;
    Ok(Some(Frame::Changes {
        since: u64_at(payload),
        now: u64_at(&payload[8..]),
        count: u32_at(&payload[16..]),
        entries: Bytes::new(entries),
    }))
}

fn refused_of(payload: &[u8]) -> Option<Frame>
    ensures { ReadsAs 143 payload.now result }
{
    if payload.len() != 1 {
        return None;
    }
    Some(Frame::Refused { code: payload[0] })
}

/// Whether so many bytes are some, and then whole words.
fn is_words_len(len: usize, before: usize) -> bool
    ensures { IsTrue result ↔ ((n : ℕ) × (len ≡ before + 4 * n)) }
{
    len >= before && (len - before) % 4 == 0
}

/// Whether a frame of this kind has a payload of so many bytes. Whether the words of a Delta are
/// whole rows is said by its dimension, and not by the length.
pub fn is_payload_len(kind: u8, len: usize) -> bool
    ensures { IsTrue result ↔ IsPayloadLength kind len }
{
    match kind {
        0x01 => len >= 5,
        0x02 => len == 34,
        0x03 => len == 13,
        0x04 => len == 8,
        0x05 => is_words_len(len, 9),
        0x06 => len >= 4,
        0x07 => len == 0,
        0x08 => len == 0,
        0x09 => true,
        0x0a => len == 8,
        0x82 => len == 53,
        0x83 => is_words_len(len, 13),
        0x84 => is_words_len(len, 22),
        0x85 => is_words_len(len, 9),
        0x86 => len == 12,
        0x87 => len == 8,
        0x88 => len == 12,
        0x8a => len >= 20,
        0x8f => len == 1,
        _ => false,
    }
}

/// The frame of this kind with this payload, if there is one. Memory is asked for only if there is
/// one.
pub fn decode(alloc: Global, kind: u8, payload: &[u8]) -> Result<Option<Frame>, AllocError>
    ensures reads { IfOk result (ReadsAs kind payload.now) }
    ensures memory { OnErr result (IsPayload kind payload.now) }
{
    match kind {
        0x01 => load_of(alloc, payload),
        0x02 => Ok(hello_of(payload)),
        0x03 => Ok(hint_ask_of(payload)),
        0x04 => Ok(delta_ask_of(payload)),
        0x05 => query_of(alloc, payload),
        0x06 => edit_of(alloc, payload),
        0x07 => Ok(publish_of(payload)),
        0x08 => Ok(bye_of(payload)),
        0x09 => append_of(alloc, payload),
        0x0a => Ok(changes_ask_of(payload)),
        0x82 => Ok(welcome_of(payload)),
        0x83 => hint_part_of(alloc, payload),
        0x84 => delta_of(alloc, payload),
        0x85 => answer_of(alloc, payload),
        0x86 => Ok(stale_of(payload)),
        0x87 => Ok(done_of(payload)),
        0x88 => Ok(no_delta_of(payload)),
        0x8a => changes_of(alloc, payload),
        0x8f => Ok(refused_of(payload)),
        _ => Ok(None),
    }
}
