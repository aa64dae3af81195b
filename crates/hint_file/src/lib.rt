//! The file of a hint, as bytes: which hint it is, what the server had reported, and the hint's
//! words. No secret is in it.
//!
//! `specs/Files.antt` defines the bytes. What is read is what was written: the file has a digest of
//! its head and one of each part of its words, and other bytes are refused. So the parts with the
//! rows of one record can be read alone. Nothing here knows a folder: whoever keeps a hint, in a
//! file or elsewhere, writes and reads these bytes.
//!
//! Its tests are in tests/long/hint_file and `tests_session::hints`.
#![tactic(auto)]

mod digests;
mod heads;
mod hints;
pub mod laws;
mod partial;
mod parts;
mod reading;
mod sealing;
mod texts;
mod word_bytes;

pub use heads::{HintError, HintFields, KeptHead, MOST_HEAD, head_in, is_no_newer};
pub use hints::{HintFile, HintWriteFault, KeptHint, hint_file, hint_file_len};
pub use partial::{
    are_parts, empty_part, head_to_fetch, part_ask, part_digest, partial_front, whole_head,
};
pub use parts::{PartSpan, parts_for, parts_in, place_of, serves};
pub use reading::{read_hint, read_old_hint};
pub use texts::{file_name, state_lines};
