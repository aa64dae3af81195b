//! What a simulated deployment is judged by, and who acts in it: the records of each version, by a
//! model that knows nothing of stores and files; what must never be; a publisher, whose folder may
//! be in any state that its commands may have left; pushes; clients.
//!
//! The program `deployment` puts these together, with servers (`simulated_server`) over the disks
//! and the network of `simulated_host`.
//!
//! Its tests are in tests/long/deployment, wrong bodies that they are to find in tests/deployment.
#![tactic(auto)]

mod broken;
mod client;
mod publisher;
mod pushing;
mod records;
mod setting;
mod store_checks;

pub use broken::Broken;
pub use client::{Asked, Client, ClientStep};
pub use publisher::{Command, Publisher, is_damage, name_of, records_of};
pub use pushing::{PushEnd, Pushed, Talk};
pub use records::{Records, Truth};
pub use setting::RunSetting;
pub use store_checks::{check_hints, check_records};
