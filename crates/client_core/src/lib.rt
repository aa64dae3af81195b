//! The client's side of a session: its calls, what it sends, and what it takes from a server.
//!
//! A client is a state machine without a connection. A call gives the bytes to send; `feed` takes
//! the bytes that came, in any pieces, and gives the bytes to send next and the events. It holds at
//! most one hint and one outstanding call, and returns `Failed` for everything once a reply was bad
//! or memory was refused while it took one. What lasts of a client can be saved, and a later one
//! that is let in goes on with it.
//!
//! Its tests are in `tests_session::client` and `tests/long/tests_session`.
#![tactic(auto)]

mod calls;
mod changes;
mod client;
mod deltas;
pub mod laws;
mod parts;
mod preparing;
mod replies;
mod resuming;
mod state;
mod taking;

pub use client::{ClientCore, Fed};
pub use pir_schemes::{Plan, Scheme};
pub use resuming::SavedClient;
pub use state::{CallFault, ClientFault, Event, Hint, ServerInfo};
