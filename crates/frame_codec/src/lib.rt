//! Frames on a stream of bytes.
//!
//! A frame is the length of its payload (four bytes), its kind (one byte) and its payload, of at
//! most 16,777,216 bytes. All numbers are little-endian: their lowest byte comes first.
//!
//! Its tests are in `tests_frame`: `frames`, `ahead`, `change_frames`, `room`, `refused_memory`.
#![tactic(auto)]

mod ahead;
mod frame;
pub mod laws;
mod payload;
mod prefix;
mod reader;
mod refusal;
mod word_bytes;
mod writer;

pub use ahead::QueryHead;
pub use frame::{Bytes, Bytes32, Frame, Rows, Words};
pub use reader::{FrameRead, ReadFault, Reader};
pub use refusal::Refusal;
pub use writer::{write_frame, write_hint_part};
