//! The client and the server for programs in C, and in all that call C: include/vulandrai.h has
//! each call as C sees it.
//!
//! A handle is two words that the caller keeps, all 0 before its `open` and after its `close`. A
//! call takes what the handle holds, does with it what its crate does, and puts it back; its answer
//! is a code. What the types here take for granted is the caller's duty: that pointers and lengths
//! are right, that a handle is not copied, and that one thread at a time uses it.
//!
//! The exports whose names end in `_bytes` take slices, which are never null. c/slices.c calls them
//! once it has checked that.
//!
//! Its tests are in tests/c and tests/python.
#![tactic(auto)]

mod box_pointer;
mod client;
mod client_answers;
mod client_codes;
mod client_handle;
mod codes;
mod reported;
mod server;
mod server_answers;
mod server_codes;
mod server_handle;

pub use client_handle::ClientHandle;
pub use reported::{ReportedEvent, ReportedServer};
pub use server_handle::ServerHandle;
