//! Frames, written and read.

use crate::data::vector;
use crate::figure::Figure;
use crate::timing::{nanos_since, now};
use crate::work::BenchSizes;
use frame_codec::{Frame, Reader, Words, write_frame};

// The most bytes that a payload has.
const PAYLOAD_LIMIT: usize = 16_777_216;

// The most words that an answer has, after nine other bytes.
const MOST_WORDS: usize = (PAYLOAD_LIMIT - 9) / 4;

/// Writes an answer of as many words as a hint has, or as there is room for, and reads it again,
/// and prints how long each took. None if memory or the clock is refused.
pub fn time_frames(rt: &HostRuntime, sizes: BenchSizes) -> Option<()> {
    let hint = usize::from(sizes.side).saturating_mul(usize::from(sizes.secret));
    let count = hint.min(MOST_WORDS);
    let frame = Frame::Answer {
        scheme: 0,
        version: 1,
        words: Words::new(vector(rt.alloc(), count, 7)?),
    };
    let (written, bytes) = written(rt, sizes.turns, &frame)?;
    let (read, frame) = read(rt, sizes.turns, &bytes)?;
    let Frame::Answer { words, .. } = &frame else {
        return None;
    };
    let made = words.as_slice();
    Figure::new("frame written", count, 0, written, made).print(rt, sizes.nanos)?;
    Figure::new("frame read", count, 0, read, made).print(rt, sizes.nanos)
}

// The time of the quickest turn, and the bytes.
fn written(rt: &HostRuntime, turns: u32, frame: &Frame) -> Option<(u64, Vec<u8>)> {
    if frame.payload_len() > PAYLOAD_LIMIT {
        return None;
    }
    let mut bytes = Vec::new(rt.alloc());
    let mut least = u64::MAX;
    for _turn in 0..turns {
        bytes.clear();
        let start = now(rt)?;
        write_frame(frame, &mut bytes).ok()?;
        least = least.min(nanos_since(rt, start)?);
    }
    Some((least, bytes))
}

// The time of the quickest turn, and the frame.
fn read(rt: &HostRuntime, turns: u32, bytes: &[u8]) -> Option<(u64, Frame)> {
    let mut last = Frame::Bye;
    let mut least = u64::MAX;
    for _turn in 0..turns {
        let mut reader = Reader::new(rt.alloc());
        let start = now(rt)?;
        let taken = reader.feed_frame(false, bytes);
        least = least.min(nanos_since(rt, start)?);
        last = taken.ok()?.frame?;
    }
    Some((least, last))
}
