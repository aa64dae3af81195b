//! One database and its queries over one stream: the frames of a Load, of Queries and of a Bye are
//! read, and the queries answered by SimplePIR, without versions and sessions.
//!
//! Its tests are in `tests_frame::once`, `tests/long/tests_frame` and `tests/once`.
#![tactic(auto)]

mod engine;
mod session;
mod stage;

pub use engine::OnceFault;
pub use session::{once, once_over, once_with};
pub use stage::{Stage, StageStep, Table, step_of};
