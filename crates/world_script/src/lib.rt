//! Rehearsals: a script of steps on a world of one publisher, one server and its clients, and what
//! comes of them, line by line.
//!
//! A script says in its header what the world is opened with, and then the steps, one a line. Each
//! line is read and played before the next one is looked at, and what comes of it is printed at
//! once.
//!
//! Its tests are in `tests_world::scripts`, `tests/long/tests_world` and `tests/rehearse`.
#![tactic(auto)]

mod input;
mod line;
mod outcome;
mod play;
mod progress;
mod stop;

pub use input::SCRIPT_LIMIT;
pub use outcome::outcome_line;
pub use play::{RehearseFault, rehearse};
