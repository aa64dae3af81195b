//! A server of private information retrieval on this machine: it makes a snapshot file of records,
//! shows one, copies one, moves its records into slots or into a wide store, gives one another
//! publisher's key, shortens its log, and serves one to clients over connections. Without a command
//! it serves one database over standard input and output.
//!
//! Exit statuses: 0 done, 2 a bad command line, 3 a fault, 4 out of memory. What was done is
//! printed on standard output; a failure is one line on standard error.
//!
//! Its tests are in `tests/command_line`, `tests/causes`, `tests/streams`, `tests/order`,
//! `tests/log`, `tests/loopback`, `tests/making`, `tests/service` and `tests/once`.
#![tactic(auto)]

mod commands;
mod hint_lines;
mod running;
mod saving;

use std::process::ExitCode;

fn main(rt: HostRuntime) -> ExitCode {
    ExitCode::from(commands::run(&rt))
}
