//! What a client's commands do over a connection: each is let in, makes its calls one after
//! another, and returns what the last one brought, or why it wasn't done.
//!
//! A client whose seed is a fresh draw of the system's random source, and which counts its
//! retrievals from 0, needs no number of an earlier run: `laws::only_equal_draws_meet`.
//!
//! Its tests are in `tests_session::commands`. [`greet_either`] is reached by `pir_client get` alone
//! (tests/state).
#![tactic(auto)]

mod commands;
mod connection;
mod fault;
mod kept;
pub mod laws;

pub use commands::{Retrieved, append, get, publish, put};
pub use connection::check_dimension;
pub use fault::CommandError;
pub use kept::{ask, ask_with_rows, greet, greet_either, sync};
