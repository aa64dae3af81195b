//! Memory that is refused once: a frame that was refused it is written when it is tried again, and
//! a reader that was refused it has given whole frames, in order, and stops. With ample memory
//! nothing is refused here; `tests/memory` refuses each request of these tests in turn.

use frame_codec::{Bytes, Frame, ReadFault, Reader, Words, write_frame};
use std::alloc::{AllocError, Global};
use std::process::Abort;
use std::test::Fail;

/// The words 22 and 16777249 to version 1.
const QUERY: [u8; 22] = [
    0x11, 0, 0, 0, 0x05, 0, 0x01, 0, 0, 0, 0, 0, 0, 0, 0x16, 0, 0, 0, 0x21, 0, 0, 0x01,
];

/// The byte 64 for record 0.
const EDIT: [u8; 10] = [0x05, 0, 0, 0, 0x06, 0, 0, 0, 0, 0x64];

const PUBLISH: [u8; 5] = [0, 0, 0, 0, 0x07];

/// The word 2066479516 as part 0 of version 1.
const HINT_PART: [u8; 22] = [
    0x11, 0, 0, 0, 0x83, 0, 0x01, 0, 0, 0, 0, 0, 0, 0, 0, 0, 0, 0, 0x9c, 0xf9, 0x2b, 0x7b,
];

/// Version 1.
const DONE: [u8; 13] = [0x08, 0, 0, 0, 0x87, 0x01, 0, 0, 0, 0, 0, 0, 0];

/// A record that is the byte 05.
const APPEND: [u8; 6] = [0x01, 0, 0, 0, 0x09, 0x05];

const BYE: [u8; 5] = [0, 0, 0, 0, 0x08];

// Frames of four kinds that hold bytes or words, and two that hold none.
fn try_made(alloc: Global) -> Result<Vec<Frame>, AllocError> {
    let mut frames = Vec::new(alloc);
    frames.push(Frame::Query {
        scheme: 0,
        version: 1,
        words: Words::new(vec![in alloc; 22, 16_777_249]?),
    })?;
    frames.push(Frame::Edit {
        index: 0,
        bytes: Bytes::new(vec![in alloc; 0x64]?),
    })?;
    frames.push(Frame::Publish)?;
    frames.push(Frame::HintPart {
        scheme: 0,
        version: 1,
        part: 0,
        words: Words::new(vec![in alloc; 2_066_479_516]?),
    })?;
    frames.push(Frame::Done { version: 1 })?;
    frames.push(Frame::Append {
        bytes: Bytes::new(vec![in alloc; 0x05]?),
    })?;
    Ok(frames)
}

// The same, made again if memory was refused.
fn made(alloc: Global) -> Result<Vec<Frame>, AllocError> {
    match try_made(alloc) {
        Ok(frames) => Ok(frames),
        Err(_) => try_made(alloc),
    }
}

// Their bytes.
fn try_encoded(alloc: Global) -> Result<Vec<u8>, AllocError> {
    let mut stream = Vec::new(alloc);
    stream.extend_from_slice(&QUERY)?;
    stream.extend_from_slice(&EDIT)?;
    stream.extend_from_slice(&PUBLISH)?;
    stream.extend_from_slice(&HINT_PART)?;
    stream.extend_from_slice(&DONE)?;
    stream.extend_from_slice(&APPEND)?;
    Ok(stream)
}

// The same, put together again if memory was refused.
fn stream_of_all(alloc: Global) -> Result<Vec<u8>, AllocError> {
    match try_encoded(alloc) {
        Ok(stream) => Ok(stream),
        Err(_) => try_encoded(alloc),
    }
}

// Writes a frame, again if memory was refused: the first try has added nothing.
fn writes(rt: &impl Abort, frame: &Frame, out: &mut Vec<u8>) {
    assert!(rt; frame.payload_len() <= 16_777_216);
    let before = out.len();
    if write_frame(frame, out).is_err() {
        assert_eq!(rt; out.len(), before);
        assert!(rt; write_frame(frame, out).is_ok());
    }
}

// The bytes of frames, each written again if memory was refused.
fn written(rt: &impl Abort, alloc: Global, frames: &[Frame]) -> Vec<u8> {
    let mut out = Vec::new(alloc);
    for frame in frames {
        writes(rt, frame, &mut out);
    }
    out
}

#[test]
fn a_refused_frame_is_written_later(rt: HostRuntime) -> Result<(), Fail> {
    let out = written(&rt, rt.alloc(), &made(rt.alloc())?);
    assert_eq!(rt; out.as_slice(), stream_of_all(rt.alloc())?.as_slice());
    Ok(())
}

// Feeds a stream in pieces, the longest of which has seven bytes.
fn reads(reader: &mut Reader, stream: &[u8], frames: &mut Vec<Frame>) -> Result<(), ReadFault> {
    for piece in stream.chunks(7) {
        reader.feed(false, piece, frames)?;
    }
    Ok(())
}

// What a reader that was refused memory has given, and that it gives no more.
fn has_stopped(
    rt: &impl Abort,
    alloc: Global,
    reader: &mut Reader,
    stream: &[u8],
    frames: &mut Vec<Frame>,
) {
    assert_eq!(rt; reader.unfinished_len(), 0);
    let given = written(rt, alloc, frames);
    assert!(rt; stream.starts_with(&given));
    assert_eq!(rt; reader.feed(false, &BYE, frames), Err(ReadFault::Failed));
    assert_eq!(rt; written(rt, alloc, frames).len(), given.len());
}

#[test]
fn a_refused_piece_stops_the_reader(rt: HostRuntime) -> Result<(), Fail> {
    let stream = stream_of_all(rt.alloc())?;
    let mut reader = Reader::new(rt.alloc());
    let mut frames = Vec::new(rt.alloc());
    if let Err(fault) = reads(&mut reader, &stream, &mut frames) {
        assert_eq!(rt; fault, ReadFault::Memory);
        has_stopped(&rt, rt.alloc(), &mut reader, &stream, &mut frames);
        reader = Reader::new(rt.alloc());
        frames.clear();
        assert_eq!(rt; reads(&mut reader, &stream, &mut frames), Ok(()));
    }
    assert!(rt; reader.is_between_frames());
    assert_eq!(rt;
        written(&rt, rt.alloc(), &frames).as_slice(),
        stream.as_slice()
    );
    Ok(())
}

// A greeting of 33 payload bytes, of which the last 30 come in a piece of their own.
#[test]
fn a_short_greeting_is_bad_though_memory_is_refused(rt: HostRuntime) -> Result<(), Fail> {
    let mut greeting = [0u8; 38];
    greeting[0] = 0x21;
    greeting[4] = 0x02;
    let (first, last) = greeting.split_at(8);
    let mut reader = Reader::new(rt.alloc());
    let mut frames = Vec::new(rt.alloc());
    if reader.feed(false, first, &mut frames).is_err() {
        reader = Reader::new(rt.alloc());
        assert_eq!(rt; reader.feed(false, first, &mut frames), Ok(()));
    }
    assert_eq!(rt;
        reader.feed(false, last, &mut frames),
        Err(ReadFault::BadPayload)
    );
    Ok(())
}
