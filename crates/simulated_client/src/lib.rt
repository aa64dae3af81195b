//! A run of a client with a folder of hints, over a connection of which only the bytes are seen.
//!
//! What `pir_client` does over sockets is done here by a [`ClientRun`] without sockets: bytes go in
//! by `feed`, in any pieces, and what is to be sent comes out. Its folder may be on any file
//! system. A run asks for one record after another, and one call at most is outstanding.
//!
//! Its tests are in tests/long/simulated_client.
#![tactic(auto)]

mod counts;
mod fault;
mod frame_end;
mod holding;
mod kept_hints;
mod replies;
mod run;
mod state;
mod steps;
mod turns;

pub use counts::RunCounts;
pub use fault::RunFault;
pub use run::ClientRun;
pub use steps::{Retrieved, RunEnd, RunStep};
