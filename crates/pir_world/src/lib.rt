//! All interleavings of a publisher, a server and its clients, step by step, over the bytes between
//! them.
//!
//! A [`World`] holds the server of one store, clients with a session each, and the bytes that wait
//! in each direction. Each step is an edit, an append, a publication, a client's call, or the
//! delivery of some of the waiting bytes. What comes of the steps is the list of outcomes; the
//! contract of [`World::outcomes`] says what they are, and that they are right, for every list of
//! steps.
//!
//! Its tests are in `tests_world::world` and `tests/long/tests_world`.
#![tactic(auto)]

mod client_endpoint;
pub mod laws;
mod moves;
mod steps;
mod world;

pub use steps::{Outcome, Step, StepFault};
pub use world::World;
