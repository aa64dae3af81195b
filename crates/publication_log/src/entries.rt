//! Entries at the start of bytes, and those that are later in them.

ghost use Rattle.std.specs.Prelude.{
  ◌≡◌,
  ◌≤◌,
  ◌<◌,
  ◌^◌,
  ◌++◌,
  ◌↔◌,
  IsTrue,
  ℕ,
  List,
  length,
  take,
  IfOk,
  IfSome,
  IfNone,
};
ghost use Rattle.publication_log.specs.Entries.{
  entry_head,
  body_len_in,
  framed,
  after_body,
  log_entry,
  next_link,
  HasEntry,
  HasLater,
  HasNoEntry,
  IsFollowed,
  IsBody,
};

use byteorder::{ByteOrder, LittleEndian};
use sha2::{Digest, Sha256};
use std::alloc::{AllocError, Global};

/// How many bytes a head has.
pub(crate) const HEAD_LEN: usize = 8;

/// How many bytes a link has.
pub(crate) const LINK_LEN: usize = 32;

// The head of a body.
#[tactic(auto, unfolding(crate::specs::Entries::entry_head, crate::specs::Publications::log_number_bytes))]
pub(crate) fn head_of(body: &[u8]) -> [u8; HEAD_LEN]
    requires { IsBody body.now }
    ensures { result ≡ entry_head (length body.now) }
{
    let len = body.len() as u32;
    let [a, b, c, d] = len.to_le_bytes();
    let [e, f, g, h] = (u32::MAX - len).to_le_bytes();
    [a, b, c, d, e, f, g, h]
}

// The link after a body, by the link before it.
pub(crate) fn link_after(link: &[u8], body: &[u8]) -> [u8; LINK_LEN]
    requires { IsBody body.now }
    ensures { result ≡ next_link link.now body.now }
{
    let head = head_of(body);
    let mut hasher = Sha256::new();
    hasher.update(link);
    hasher.update(&head);
    hasher.update(body);
    hasher.finalize()
}

// The entry of a body, by the link after it.
pub(crate) fn entry_of(alloc: Global, body: &[u8], next: &[u8]) -> Result<Vec<u8>, AllocError>
    requires { IsBody body.now }
    ensures { IfOk result (λ bytes. bytes.items ≡ framed body.now ++ next.now) }
{
    let mut bytes = Vec::new(alloc);
    bytes.extend_from_slice(&head_of(body))?;
    bytes.extend_from_slice(body)?;
    bytes.extend_from_slice(next)?;
    Ok(bytes)
}

// The length that the head at the start has, if there is a head.
#[tactic(auto, unfolding(crate::specs::Entries::body_len_in))]
fn head_len(bytes: &[u8]) -> Option<usize>
    ensures value { result ≡ body_len_in bytes.now }
    ensures read { IfSome result (λ len. take 8 bytes.now ≡ entry_head len) }
    ensures long { IfSome result (λ len. 8 ≤ length bytes.now) }
    ensures fits { IfSome result (λ len. len < 2 ^ 32) }
{
    if bytes.len() < HEAD_LEN {
        return None;
    }
    let len = LittleEndian::read_u32(bytes);
    if LittleEndian::read_u32(&bytes[4..]) != u32::MAX - len {
        return None;
    }
    Some(len as usize)
}

// A head and its body at the start of some bytes, a digest after them, and what is after that.
#[derive(Clone, Copy)]
pub(crate) struct FramedBody<'a> {
    pub body: &'a [u8],
    pub digest: &'a [u8],
    pub rest: &'a [u8],
}

// The frame at the start.
pub(crate) fn frame_at(bytes: &[u8]) -> Option<FramedBody<'_>>
    ensures some { IfSome result (λ it. IsBody it.body.now × (length it.digest.now ≡ 32) ×
        (bytes.now ≡ framed it.body.now ++ (it.digest.now ++ it.rest.now))) }
    ensures shorter { IfSome result (λ it. length it.rest.now < length bytes.now) }
    ensures none { IfNone result ((body digest rest : List ℕ) → IsBody body → length digest ≡ 32 →
        bytes.now ≡ framed body ++ (digest ++ rest) → ⊥) }
{
    let len = head_len(bytes)?;
    let rest = &bytes[HEAD_LEN..];
    if rest.len() < len {
        return None;
    }
    let (body, rest) = rest.split_at(len);
    if rest.len() < LINK_LEN {
        return None;
    }
    let (digest, rest) = rest.split_at(LINK_LEN);
    Some(FramedBody { body, digest, rest })
}

// Whether the digest of a frame is the link after its body.
fn is_linked(link: &[u8], frame: &FramedBody<'_>) -> bool
    requires { IsBody frame.now.body.now }
    ensures { IsTrue result ↔ (frame.now.digest.now ≡ next_link link.now frame.now.body.now) }
{
    let next = link_after(link, frame.body);
    is_same(frame.digest, &next)
}

// Whether these bytes are those.
pub(crate) fn is_same(bytes: &[u8], others: &[u8]) -> bool
    ensures { IsTrue result ↔ (bytes.now ≡ others.now) }
{
    bytes == others
}

// The entry at the start, as its frame.
pub(crate) fn entry_at<'a>(link: &[u8], bytes: &'a [u8]) -> Option<FramedBody<'a>>
    ensures some { IfSome result (λ it. IsBody it.body.now ×
        (it.digest.now ≡ next_link link.now it.body.now) ×
        (bytes.now ≡ log_entry link.now it.body.now ++ it.rest.now)) }
    ensures count { IfSome result (λ it. length it.digest.now ≡ 32) }
    ensures shorter { IfSome result (λ it. length it.rest.now < length bytes.now) }
    ensures none { IfNone result (HasNoEntry link.now bytes.now) }
{
    let frame = frame_at(bytes)?;
    if !is_linked(link, &frame) {
        return None;
    }
    Some(frame)
}

// Whether an entry is somewhere in the bytes, right after the link that it goes on from.
fn has_entry(bytes: &[u8]) -> bool
    ensures { IsTrue result ↔ HasEntry bytes.now }
{
    let mut rest = bytes;
    while rest.len() > LINK_LEN {
        let (link, after) = rest.split_at(LINK_LEN);
        if let Some(_entry) = entry_at(link, after) {
            return true;
        }
        let (_byte, others) = rest.split_at(1);
        rest = others;
    }
    false
}

// The bytes after the head and the body at the start, or all if no head is there.
fn after_body(bytes: &[u8]) -> &[u8]
    ensures { result.now ≡ after_body bytes.now }
{
    let Some(len) = head_len(bytes) else {
        return bytes;
    };
    let rest = &bytes[HEAD_LEN..];
    &rest[len.min(rest.len())..]
}

// Whether an entry goes on from the body at the start, whatever digest that has.
fn goes_on(link: &[u8], rest: &[u8]) -> bool
    ensures { IsTrue result ↔ IsFollowed link.now rest.now }
{
    let Some(frame) = frame_at(rest) else {
        return false;
    };
    let next = link_after(link, frame.body);
    match entry_at(&next, frame.rest) {
        Some(_entry) => true,
        None => false,
    }
}

// Whether an entry is after what is at the start.
pub(crate) fn has_later(link: &[u8], rest: &[u8]) -> bool
    ensures { IsTrue result ↔ HasLater link.now rest.now }
{
    has_entry(after_body(rest)) || goes_on(link, rest)
}
