//! Reading in pieces and writing whole, for all that runs over a reader and a writer; and
//! connections: a reader and a writer whose calls are in one order, so that a contract can say that
//! a reply was written before the next request was read, and that a fault came of a read or a write
//! that failed.
//!
//! Its tests are in `tests_frame::connections`.
#![tactic(auto)]

mod connection;
mod pair;
mod pieces;

pub use connection::{Connection, receive, send};
pub use pair::Pair;
pub use pieces::{PIECE_LEN, ReadFailed, WriteFailed, piece_buffer, read_piece, write_out};
