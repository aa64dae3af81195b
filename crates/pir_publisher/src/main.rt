//! A publisher's folder, from which its versions are brought to any number of servers: begins a
//! folder, drafts changes of its records, shows them, publishes them as the next version, and
//! pushes.
//!
//! Exit statuses: 0 done, 2 a bad command line, 3 a fault or a bad line of an import, 4 out of
//! memory. What was done is printed on standard output; a failure is one line on standard error.
//!
//! Its tests are in `tests/publisher` and `tests/replicas`.
#![tactic(auto)]

mod commands;
mod ends;
mod pushing;
mod rounds;
mod talk;
mod verifying;
mod watching;

use std::process::ExitCode;

fn main(rt: HostRuntime) -> ExitCode {
    ExitCode::from(commands::run(&rt))
}
