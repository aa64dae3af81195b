//! Times the kernels over lanes, and what is made with them.
//!
//! With no argument each piece of work is done once at small sizes, and its line is printed with
//! one fixed time. With the argument `full` the kernels, the schemes' setups and a frame of 16 MiB
//! are timed at the sizes of a large server, with `store` a publication in a store of the largest
//! size, and one of 1,024 records of one byte in a store of 4,096. Each has a line of its own: the
//! time of its quickest turn, what it read in a second, how many products it added in a second, and
//! a sum of the words that it made. With `rate` one product is made 1,000 times, and its line has
//! the mean. Fields are separated by tabs.
//!
//! Its test is its own output, which the gate compares; that of the kernels is in `tests_scheme`.
#![tactic(auto)]

mod data;
mod figure;
mod frames;
mod stores;
mod timing;
mod work;

use std::env;
use std::process::ExitCode;
use work::BenchSizes;

const SMALL: BenchSizes = BenchSizes {
    side: 50,
    secret: 19,
    groups: 1,
    turns: 1,
    nanos: Some(10_042),
};

const FULL: BenchSizes = BenchSizes {
    side: 4096,
    secret: 1024,
    groups: 64,
    turns: 9,
    nanos: None,
};

/// How many products `rate` makes.
const IN_A_ROW: u32 = 1_000;

// What the program's words ask for.
#[derive(Clone, Copy)]
enum Task {
    Small,
    Full,
    Store,
    Rate,
}

fn main(rt: HostRuntime) -> ExitCode {
    let Some(task) = asked(&rt) else {
        let _ = eprintln!(&rt; "usage: kernel_bench [full | store | rate]");
        return ExitCode::FAILURE;
    };
    match run_task(&rt, task) {
        Some(()) => ExitCode::SUCCESS,
        None => {
            let _ = eprintln!(&rt; "memory, the clock or the output was refused");
            ExitCode::FAILURE
        }
    }
}

fn asked(rt: &HostRuntime) -> Option<Task> {
    let mut words = env::args(rt).ok()?;
    words.next();
    let Some(word) = words.next() else {
        return Some(Task::Small);
    };
    match word.as_str() {
        "full" => Some(Task::Full),
        "store" => Some(Task::Store),
        "rate" => Some(Task::Rate),
        _ => None,
    }
}

fn run_task(rt: &HostRuntime, task: Task) -> Option<()> {
    match task {
        Task::Small => {
            work::time_kernels(rt, SMALL)?;
            frames::time_frames(rt, SMALL)?;
            stores::time_publication(rt, SMALL)?;
            stores::time_neighbours(rt, SMALL)?;
            work::time_rate(rt, SMALL, SMALL.turns)?;
            println!(rt; "kernels timed").ok()
        }
        Task::Full => {
            work::time_kernels(rt, FULL)?;
            frames::time_frames(rt, FULL)
        }
        Task::Store => {
            stores::time_publication(rt, FULL)?;
            stores::time_neighbours(rt, FULL)
        }
        Task::Rate => work::time_rate(rt, FULL, IN_A_ROW),
    }
}
