//! The loop of a server: many connections in one thread, over readiness.
//!
//! A connection and its turn are those of `connection_table`. `mio_server` has the listener and
//! those who ask for the service's health, and decides who may be accepted, whose turn it is, who
//! is closed, and when the service stops.
//!
//! Its tests are in tests/service, over the sockets of `pir_server run`.
#![tactic(auto)]

mod serving;

pub use connection_table::{RunFault, Saver};
pub use connection_turns::{AppendFailed, SaveFailed};
pub use service_status::say_line;
pub use service_watch::LogFormat;
pub use serving::{Limits, run_service};
