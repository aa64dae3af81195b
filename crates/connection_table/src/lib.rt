//! Connections over sockets, and a table of them.
//!
//! What a connection does to the server is a [`connection_turns::turn`], which is proved.
//! `connection_table` has its socket, the clock of its turns, what is counted of them, and the
//! table in which the bytes that are held for all connections are bounded. Which one has its turn
//! is the matter of `mio_server`.
//!
//! Its tests are in tests/service, over the sockets of `pir_server run`.
#![tactic(auto)]

mod connection;
mod device;
mod report;
mod saved_server;
mod table;
mod tallies;
mod turning;
mod watch;

pub use connection::{ServedConnection, TurnResult};
pub use device::Saver;
pub use report::{Closing, RunFault};
pub use saved_server::SavedServer;
pub use table::ConnectionTable;
pub use tallies::{Tallies, TurnTimes};
pub use watch::Watch;
