//! The frames at the beginning of bytes.

ghost use Rattle.std.specs.Prelude.{◌≡◌, ◌<◌, ◌≤◌, ◌↔◌, IsTrue, Some, ℕ, List, ◌++◌, IfOk, OnOk};
ghost use Rattle.std.specs.Prelude.{IfErr, IfSome, IfNone, length, take};
ghost use Rattle.frame_codec.specs.declared.frame.Frame.{Frame};
ghost use Rattle.frame_codec.specs.Frames.{encoding};
ghost use Rattle.frame_codec.specs.Streams.{HasBadLength, HasFault, HasFrame, HasPublishNext};
ghost use Rattle.frame_codec.specs.Streams.{IsPartial, IsFrameOf, IsReadable, StopsAt, is_kind};

use crate::frame::Frame;
use crate::payload::{decode, is_payload_len};
use crate::reader::ReadFault;
use crate::word_bytes::u32_at;
use std::alloc::Global;

/// The most bytes that a payload may have.
const PAYLOAD_LIMIT: usize = 16_777_216;

/// The bytes before a payload: its length and the kind.
pub const HEADER_LEN: usize = 5;

/// The frame Publish: no payload, and its kind.
const PUBLISH: [u8; HEADER_LEN] = [0, 0, 0, 0, 7];

fn is_known_kind(wide: bool, kind: u8) -> bool
    ensures { result ≡ is_kind wide kind }
{
    matches!(kind, 0x01..=0x09 | 0x82..=0x88 | 0x8f) || (wide && matches!(kind, 0x0a | 0x8a))
}

/// The whole length of the frame at the beginning, or of a header if that isn't whole.
pub fn frame_len(wide: bool, bytes: &[u8]) -> Result<usize, ReadFault>
    ensures ok { IfOk result (λ size. IsReadable wide bytes.now size) }
    ensures err { IfErr result (λ fault. HasFault wide fault bytes.now) }
{
    if bytes.len() < 4 {
        return Ok(HEADER_LEN);
    }
    let len = u32_at(bytes) as usize;
    if len > PAYLOAD_LIMIT {
        return Err(ReadFault::TooLong);
    }
    if bytes.len() < HEADER_LEN {
        return Ok(HEADER_LEN);
    }
    if !is_known_kind(wide, bytes[4]) {
        return Err(ReadFault::UnknownKind);
    }
    Ok(HEADER_LEN + len)
}

/// The same for bytes in two slices, one after the other. If the whole frame has come, its length
/// is judged by its kind, too. Takes no memory.
pub fn split_frame_len(wide: bool, first: &[u8], rest: &[u8]) -> Result<usize, ReadFault>
    ensures ok { IfOk result (λ size. IsReadable wide (first.now ++ rest.now) size) }
    ensures judged { OnOk result (HasBadLength wide (first.now ++ rest.now) → ⊥) }
    ensures err { IfErr result (λ fault. HasFault wide fault (first.now ++ rest.now)) }
{
    let (header, len) = header_of(first, rest);
    let size = frame_len(wide, &header[..len])?;
    if first.len().saturating_add(rest.len()) < size {
        return Ok(size);
    }
    if !is_payload_len(header[4], size - HEADER_LEN) {
        return Err(ReadFault::BadPayload);
    }
    Ok(size)
}

/// Whether bytes in two slices, one after the other, begin with the frame Publish. Takes no memory.
pub fn begins_with_publish(first: &[u8], rest: &[u8]) -> bool
    ensures { IsTrue result ↔ HasPublishNext (Some first.now) rest.now }
{
    let (header, len) = header_of(first, rest);
    len == HEADER_LEN && header == PUBLISH
}

/// The first bytes of two slices, one after the other: as many as a header has, or all. The second
/// number says how many.
fn header_of(first: &[u8], rest: &[u8]) -> ([u8; HEADER_LEN], usize)
    ensures within { result.1 ≤ 5 }
    ensures bytes { take result.1 result.0 ≡ take 5 (first.now ++ rest.now) }
{
    let mut header = [0; HEADER_LEN];
    let len = fill_front(&mut header, first, rest);
    (header, len)
}

/// Copies the first bytes of two slices, one after the other: as many as there is space for, or
/// all. Returns how many.
pub fn fill_front(space: &mut [u8], first: &[u8], rest: &[u8]) -> usize
    ensures within { result ≤ length space.old }
    ensures len { length space.new ≡ length space.old }
    ensures bytes { take result space.new ≡ take (length space.old) (first.now ++ rest.now) }
{
    let len = space.len().min(first.len().saturating_add(rest.len()));
    for i in 0..len {
        space[i] = if i < first.len() {
            first[i]
        } else {
            rest[i - first.len()]
        };
    }
    len
}

/// The frame at the beginning and the bytes after it, if it is whole. `Memory` comes only if a
/// frame is there.
pub fn frame_at<'a>(
    alloc: Global,
    wide: bool,
    bytes: &'a [u8],
) -> Result<Option<(Frame, &'a [u8])>, ReadFault>
    ensures whole { IfOk result (λ o. IfSome o (λ found.
        IsFrameOf wide found.0 × (bytes.now ≡ encoding found.0 ++ found.1.now) ×
        (length found.1.now < length bytes.now))) }
    ensures partial { IfOk result (λ o. IfNone o (IsPartial wide bytes.now)) }
    ensures fault { IfErr result (λ fault. StopsAt wide fault bytes.now) }
    ensures memory { IfErr result (λ fault. fault ≡ ReadFault.Memory → HasFrame wide bytes.now) }
{
    let size = frame_len(wide, bytes)?;
    if bytes.len() < size {
        return Ok(None);
    }
    let (prefix, beyond) = bytes.split_at(size);
    match decode(alloc, prefix[4], &prefix[HEADER_LEN..])? {
        None => Err(ReadFault::BadPayload),
        Some(frame) => Ok(Some((frame, beyond))),
    }
}
