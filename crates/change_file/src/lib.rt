//! The file of changes beside the file of a hint, as bytes: by its blocks the hint is moved on, and
//! needn't be written anew.
//!
//! A block has the entries of the records that changed from one version to a later one, as
//! `hint_changes` reads them, and a link, which is the SHA-256 digest (FIPS 180-4) of the link
//! before it and the block. The head ties the file to the hint's file. So a block is whole only
//! after all blocks before it, in the file of this very hint. What is after the last whole block is
//! of an append that was cut: it is not read, and the next append writes over it.
//! `specs/Files.antt` defines the bytes, and what is read of any; `specs/Moves.antt` the hint after
//! all that is read.
//!
//! Whoever keeps the file writes [`head_bytes`], appends [`block_bytes`] at the end that [`end_in`]
//! finds, and reads one block after another by [`read_head`] and [`next_block`]. Nothing here knows
//! a folder, and no entry is looked at.
//!
//! Its tests are in `tests_frame::change_files`; the worked example is in
//! `tests_frame::changed_records`.
#![tactic(auto)]

mod blocks;
mod ends;
mod heads;
pub mod laws;

pub use blocks::{Block, BlockBytes, Link, WholeBlock, block_bytes, next_block};
pub use ends::{ChangesEnd, empty_end, end_in};
pub use heads::{HEAD_LEN, head_bytes, read_head};
