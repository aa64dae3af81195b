//! The core of a push: what one server is sent, so that it comes to have the publications that it
//! lacks.
//!
//! A server is greeted with the publisher's key. Then [`Orders`] hands out what it is asked for,
//! one after another: for each publication its changes by ascending place, as edits or as appends,
//! and then to publish. Each reply must be a Done that names the right version. [`Push`] does so
//! over a [`ClientCore`](client_core::ClientCore), without a connection: it gives the bytes to
//! send, and takes those that came. `specs/Orders.antt` defines what is asked for, and [`laws`]
//! says that a push of which each reply was Done leaves the server's history that of the log.
//!
//! Its tests are in `tests/long/publication_push`.
#![tactic(auto)]

mod fault;
mod lacking;
pub mod laws;
mod orders;
mod push;

pub use fault::PushFault;
pub use lacking::{Lack, lack_of};
pub use orders::{Order, Orders};
pub use push::{Push, PushStep};
