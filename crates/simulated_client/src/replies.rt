//! Replies that are read beside the client.

use crate::fault::RunFault;
use client_state::PartialFile;
use frame_codec::{Frame, FrameRead, ReadFault, Reader};
use safe_files::FileSystem;
use std::alloc::Global;

/// How many bytes come before the words of a part: the frame's length, its kind, the scheme, the
/// version and the part.
const HEAD_LEN: usize = 18;

/// The kinds of the replies that a part's ask may get beside the part: Stale and Refused, and how
/// many bytes they have.
const OTHERS: [(u8, usize); 2] = [(0x86, 12), (0x8f, 1)];

/// The frame of a wide store that these bytes are.
pub fn whole_frame(alloc: Global, reply: &[u8]) -> Result<Frame, RunFault> {
    let mut reader = Reader::new(alloc);
    match reader.feed_frame(true, reply) {
        Ok(
            FrameRead {
                frame: Some(frame),
                ..
            },
        ) => Ok(frame),
        Err(ReadFault::Memory) => Err(RunFault::Memory),
        _ => Err(RunFault::BadReply),
    }
}

/// The bytes of the next part, in the whole reply to its ask. None if the server has another
/// version, or refuses it: whoever asks again gets the same again.
pub fn part_in<'r, R: FileSystem>(
    partial: &PartialFile<'_, R>,
    reply: &'r [u8],
) -> Result<Option<&'r [u8]>, RunFault> {
    if is_other(reply) {
        return Ok(None);
    }
    let wanted = partial.reply_head()?;
    if reply.len() < HEAD_LEN {
        return Err(RunFault::BadReply);
    }
    let (head, words) = reply.split_at(HEAD_LEN);
    // Both say which part it is, after a length.
    if head.get(4..) != wanted.get(4..) || partial.next_len() != Some(words.len()) {
        return Err(RunFault::BadReply);
    }
    Ok(Some(words))
}

// Whether a whole reply is one that an ask for a part may get beside the part.
fn is_other(reply: &[u8]) -> bool {
    match reply {
        [_, _, _, _, kind, payload @ ..] => OTHERS.contains(&(*kind, payload.len())),
        _ => false,
    }
}
