//! The command line.

use crate::world::{Sizes, Troubles};
use clap::ArgMatches;
use command_words::{Argument, BadLine, CommandText, number_at};
use std::alloc::Global;

const SEED_TAKES: &str = "--seed takes a number";

const STEPS_TAKES: &str = "--steps takes a number";

const RUNS_TAKES: &str = "--runs takes a number";

const SERVERS_TAKES: &str = "--servers takes a number from 1 to 100";

const CLIENTS_TAKES: &str = "--clients takes a number from 1 to 100";

/// How many servers or clients there are at most.
const MOST: u64 = 100;

/// What a run is to be.
#[derive(Clone, Copy, Debug, PartialEq, Eq)]
pub struct Plan {
    /// The seed of the first run. The next one has the next number.
    pub seed: u64,
    /// How many steps each run has, without those of its end.
    pub steps: u64,
    /// How many runs there are.
    pub runs: u64,
    /// How many machines there are.
    pub sizes: Sizes,
    /// What may go wrong.
    pub troubles: Troubles,
    /// Whether the last events of each run are printed.
    pub events: bool,
}

// The program's arguments.
const SIMULATE: CommandText = CommandText {
    name: "simulate",
    about: "Runs a deployment in one process: a publisher, servers and clients, whose disks and \
        network a seed decides.",
    example: "Prints a line for each run: its seed, its steps, and what was done. If something is \
        found that must never be, prints what it is, the last events, and the shortest run that \
        finds it.",
    arguments: &[
        Argument::Required {
            name: "seed",
            value: "S",
            help: "The seed of the first run",
        },
        Argument::Required {
            name: "steps",
            value: "N",
            help: "How many steps a run has before its end, in which nothing goes wrong any more",
        },
        Argument::Optional {
            name: "runs",
            value: "N",
            help: "How many runs there are, of one seed after the other (1 if not given)",
        },
        Argument::Optional {
            name: "servers",
            value: "N",
            help: "How many servers there are (3 if not given)",
        },
        Argument::Optional {
            name: "clients",
            value: "N",
            help: "How many clients there are (8 if not given)",
        },
        Argument::Flag {
            name: "large",
            help: "Each store has hints that come in more than one part",
        },
        Argument::Flag {
            name: "events",
            help: "The last events of each run are printed",
        },
        Argument::Flag {
            name: "without-power-cuts",
            help: "No machine's power is cut",
        },
        Argument::Flag {
            name: "without-kills",
            help: "No process is killed",
        },
        Argument::Flag {
            name: "without-breaks",
            help: "No connection breaks",
        },
        Argument::Flag {
            name: "without-partitions",
            help: "Each server can always be reached",
        },
        Argument::Flag {
            name: "without-disk-faults",
            help: "No disk fails",
        },
    ],
};

/// What the program's words ask for, its name first.
///
/// # Errors
///
/// Why they ask for nothing that can be done.
pub fn plan_of<'a>(alloc: Global, words: &'a [String]) -> Result<Plan, BadLine<'a>> {
    let found = SIMULATE.command(alloc)?.try_get_matches_from(words)?;
    Ok(Plan {
        seed: number_at(&found, "seed", u64::MAX, SEED_TAKES)?,
        steps: number_at(&found, "steps", u64::MAX, STEPS_TAKES)?,
        runs: number_or(&found, "runs", 1, u64::MAX, RUNS_TAKES)?,
        sizes: Sizes {
            servers: number_or(&found, "servers", 3, MOST, SERVERS_TAKES)?.max(1) as usize,
            clients: number_or(&found, "clients", 8, MOST, CLIENTS_TAKES)?.max(1) as usize,
            large: found.get_flag("large"),
        },
        troubles: Troubles {
            power: !found.get_flag("without-power-cuts"),
            kills: !found.get_flag("without-kills"),
            breaks: !found.get_flag("without-breaks"),
            partitions: !found.get_flag("without-partitions"),
            disks: !found.get_flag("without-disk-faults"),
        },
        events: found.get_flag("events"),
    })
}

// The number of an option, or another one if it is not given.
fn number_or<'a>(
    found: &ArgMatches<'a>,
    name: &str,
    other: u64,
    most: u64,
    takes: &'static str,
) -> Result<u64, BadLine<'a>> {
    match found.get_str(name) {
        Some(_) => number_at(found, name, most, takes),
        None => Ok(other),
    }
}
