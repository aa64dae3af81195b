//! The server's side of a simulation: a process that serves a snapshot file and its log as
//! `pir_server run` does, over a simulated disk and a simulated network.
//!
//! Everything but the loop is the program's own: what is opened, what is appended, what a turn
//! does. The loop is that of `mio_server` without its sockets: a connection is accepted if there
//! is a place, has turns, and is closed if it makes no progress, or if more bytes than are allowed
//! are held for all connections and most of them for this one.
//!
//! Its tests are in tests/long/deployment.
#![tactic(auto)]

mod outside;
mod process;
mod server;
mod serving;

pub use connection_turns::PIECE_LEN;
pub use process::{Around, Closing, Turned};
pub use server::{Limits, Server};
