//! A look at the first frame of bytes in two slices, one after the other.

ghost use Rattle.std.specs.Prelude.{◌++◌, IfSome, IfNone};
ghost use Rattle.frame_codec.specs.Streams.{HasQuery};
ghost use Rattle.frame_codec.specs.declared.ahead.QueryHead.{QueryHead};

use crate::payload::is_payload_len;
use crate::prefix::{HEADER_LEN, fill_front, split_frame_len};
use crate::word_bytes::u64_at;

/// The kind of a query.
const QUERY: u8 = 0x05;

/// How many bytes the frame of a query has before its words.
const QUERY_HEAD_LEN: usize = 14;

/// What a query says before its words, and how many these are.
#[derive(Clone, Copy, Debug, PartialEq, Eq)]
pub struct QueryHead {
    /// The byte that names the scheme.
    pub scheme: u8,
    /// The version that is asked.
    pub version: u64,
    /// How many words there are.
    pub count: usize,
}

/// The head of the query at the beginning, if a whole one is there. Takes no memory.
pub fn query_head(first: &[u8], rest: &[u8]) -> Option<QueryHead>
    ensures some { IfSome result (HasQuery (first.now ++ rest.now)) }
    ensures none { IfNone result ((head : QueryHead) → HasQuery (first.now ++ rest.now) head → ⊥) }
{
    let size = match split_frame_len(false, first, rest) {
        Ok(size) => size,
        Err(_) => return None,
    };
    if first.len().saturating_add(rest.len()) < size || size < QUERY_HEAD_LEN {
        return None;
    }
    let mut head = [0u8; QUERY_HEAD_LEN];
    fill_front(&mut head, first, rest);
    if head[4] != QUERY || !is_payload_len(QUERY, size - HEADER_LEN) {
        return None;
    }
    Some(QueryHead {
        scheme: head[5],
        version: u64_at(&head[6..]),
        count: (size - QUERY_HEAD_LEN) / 4,
    })
}
