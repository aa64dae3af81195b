//! A client of one server: it retrieves records privately, with a folder of hints or without, shows
//! and drops these hints, and for the publisher replaces or appends a record, or publishes. Without
//! a command it rehearses a script of a whole world.
//!
//! Exit statuses: 0 done, 1 refused by the server, 2 a bad command line, 3 a fault, 4 out of
//! memory. What was done is one line on standard output; a failure is one line on standard error.
//!
//! Its tests are in `tests/command_line`, `tests/causes`, `tests/streams`, `tests/order`,
//! `tests/loopback`, `tests/state` and `tests/rehearse`.
#![tactic(auto)]

mod causes;
mod choosing;
mod command_line;
mod commands;
mod delta_only;
mod failures;
mod fetching;
mod folder_tasks;
mod folders;
mod kept_hints;
mod older;
mod progress;
mod server;
mod sessions;
mod warnings;

use std::process::ExitCode;

fn main(rt: HostRuntime) -> ExitCode {
    ExitCode::from(commands::run(&rt))
}
