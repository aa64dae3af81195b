//! Room is asked for as bytes come, and not as a header claims them. `tests/memory` counts the
//! largest request for memory of each of these tests.

use frame_codec::{Frame, Reader, Words, write_frame};
use snapshot_file::{SnapshotFault, read_snapshot};
use std::test::Fail;

// The header of a snapshot of 4096 columns of 4096 records of one byte, in digits of eight bits.
const HEADER: [u8; 91] = [
    0x50, 0x49, 0x52, 0x53, 0x4e, 0x41, 0x50, 0x31, 0x08, 0x01, 0x00, 0x00, 0x10, 0x00, 0x00, 0x00,
    0x01, 0x01, 0x00, 0x01, 0x00, 0x00, 0x00, 0x00, 0x00, 0x00, 0x00, 0x00, 0x00, 0x00, 0x00, 0x00,
    0x00, 0x00, 0x00, 0x00, 0x00, 0x00, 0x00, 0x00, 0x00, 0x00, 0x00, 0x00, 0x00, 0x00, 0x00, 0x00,
    0x00, 0x00, 0x00, 0x00, 0x00, 0x00, 0x00, 0x00, 0x00, 0x00, 0x00, 0x00, 0x00, 0x00, 0x00, 0x00,
    0x00, 0x00, 0x00, 0x00, 0x00, 0x00, 0x00, 0x00, 0x00, 0x00, 0x00, 0x00, 0x00, 0x00, 0x00, 0x00,
    0x00, 0x00, 0x00, 0x00, 0x00, 0x00, 0x00, 0x00, 0x00, 0x00, 0x00,
];

// The words of the frame that is written.
const WORDS: usize = 65_536;

#[test]
fn records_that_never_come(rt: HostRuntime) -> Result<(), Fail> {
    let fault = read_snapshot(rt.alloc(), &mut HEADER.as_slice()).err();
    assert_eq!(rt; fault, Some(SnapshotFault::Short));
    Ok(())
}

#[test]
fn a_payload_that_never_comes(rt: HostRuntime) -> Result<(), Fail> {
    let mut reader = Reader::new(rt.alloc());
    let mut frames = Vec::new(rt.alloc());
    // An edit of 16,777,216 bytes, of which few come.
    let pieces: [&[u8]; 4] = [&[0, 0, 0, 1, 0x06], &[1], &[2, 3], &[4]];
    for piece in pieces {
        assert_eq!(rt; reader.feed(false, piece, &mut frames), Ok(()));
    }
    assert_eq!(rt; frames.len(), 0);
    assert!(rt; !reader.is_between_frames());
    Ok(())
}

#[test]
fn a_frame_is_written(rt: HostRuntime) -> Result<(), Fail> {
    let words = Words::new(vec![in rt.alloc(); 7u32; WORDS]?);
    let frame = Frame::HintPart {
        scheme: 0,
        version: 1,
        part: 0,
        words,
    };
    assert!(rt; frame.payload_len() <= 16_777_216);
    let mut out = Vec::new(rt.alloc());
    write_frame(&frame, &mut out)?;
    assert_eq!(rt; out.len(), 262_162);
    Ok(())
}
