//! What `pir_server`'s commands do beside `run`: snapshots that are made, shown, moved into slots
//! or into wide stores, copied and given another key, and a store that is served on one connection
//! after the other.
//!
//! Its tests are in `tests/causes`, `tests/log`, `tests/making` and `tests/loopback`.
#![tactic(auto)]

mod backing_up;
mod counted;
mod making;
mod moving;
mod rekeying;
mod serving;
mod showing;
mod slot_reading;

pub use backing_up::back_up;
pub use making::make;
pub use moving::{moved, widened};
pub use rekeying::rekey;
pub use serving::serve_file;
pub use showing::show;
