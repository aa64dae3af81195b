//! What surrounds a process in a simulation, all of it decided by one seed: the disk of each
//! machine, and the network between them.
//!
//! A [`SimulatedDisk`] has several machines' files. A [`SimulatedFiles`] is what one machine sees
//! of it: a `FileSystem`, on which the same code runs as on the host's. When a machine's power is
//! cut, what was not synced is lost, torn or kept.
//!
//! Its tests are in tests/long/simulated_host.
#![tactic(auto)]

mod change;
mod dice;
mod disk;
mod faults;
mod file;
mod files;
mod image;
mod listing;
mod machine;
mod names;
mod network;
mod nodes;

pub use dice::Dice;
pub use disk::SimulatedDisk;
pub use faults::{Faults, Odds};
pub use file::SimulatedFile;
pub use files::SimulatedFiles;
pub use listing::SimulatedNames;
pub use network::{End, Moved, Network, Side};
