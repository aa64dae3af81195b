//! What a server keeps for each of its connections, with no socket in it: the bytes received and
//! not yet served, the bytes owed and not yet written, and the moment of the last progress; and the
//! turn of a connection.
//!
//! A connection is one [`ConnectionState`], and a call has no other one at hand: so no connection
//! can change what is kept for another. A [`turn`] reads once at most, serves one frame at most,
//! and writes once at most. A frame that may not be served yet is put off, and its bytes stay. A
//! publication is appended to the log of publications before it is made, and taken back if it is
//! not made then. No byte is written while the version that is served is not the one that is there
//! after a crash.
//!
//! Its tests are in tests/long/tests_session (`engines/saving`) and tests/service.
#![tactic(auto)]

mod byte_queue;
mod connection_state;
pub mod laws;
mod outside;
mod turns;

pub use connection_state::{ConnectionState, PIECE_LEN};
pub use outside::{AppendFailed, Outside, SaveFailed, SocketStop};
pub use turns::{Fault, Served, turn};
