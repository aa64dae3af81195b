//! A server of sessions over one store.
//!
//! A session's stream comes in pieces of any size. Each frame is served when its last byte is fed,
//! against the version that is current then. What a session gets depends on its own stream and on
//! the history alone: the versions, the draft and its mark. Another session changes these by edits,
//! appends and publications, and nothing else of this one.
//!
//! Its tests are in `tests_session::server` and `tests/long/tests_session`.
#![tactic(auto)]

pub mod laws;
mod passes;
mod replies;
mod serve;
mod server;
mod session;
mod standing;

pub use server::{FeedError, ServerCore, SessionError};
pub use standing::Standing;
