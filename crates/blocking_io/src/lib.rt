//! A session over a reader and a writer: a server's side of it, and a client's.
//!
//! An engine reads pieces of at most 65,536 bytes, gives each to the core, and writes what the core
//! says to it before it reads on. Every read error, every write error and every write of 0 bytes
//! ends it.
//!
//! Its tests are in `tests_session::engines` and `tests/long/tests_session`.
#![tactic(auto)]

mod conversing;
mod serving;

pub use conversing::{ConverseFault, converse, converse_over, converse_turn};
pub use serving::{Ending, ServeFault, serve, serve_over, serve_turn};
