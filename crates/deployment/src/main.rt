//! A deployment in one process: a publisher, servers and clients, on simulated disks and over a
//! simulated network, all of it decided by one seed. What must never be is looked for at each step;
//! a seed that finds something is run again in shorter forms.
//!
//! Exit statuses: 0 nothing was found, 1 something was, 2 a bad command line, 4 out of memory.
//!
//! Its tests are in tests/long/deployment, wrong bodies that it is to find in tests/deployment.
#![tactic(auto)]

mod command_line;
mod events;
mod running;
mod shortening;
mod simulating;
mod world;

use std::process::ExitCode;

fn main(rt: HostRuntime) -> ExitCode {
    ExitCode::from(simulating::simulate(&rt))
}
