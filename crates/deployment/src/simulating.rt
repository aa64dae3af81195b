//! The program: runs, and what is printed of them.

use crate::command_line::{Plan, plan_of};
use crate::events::Event;
use crate::running::run;
use crate::shortening::shortest;
use crate::world::{Counts, Sizes, Troubles, begin};
use command_words::program_words;
use deployment_model::Broken;
use simulated_host::{Dice, SimulatedDisk, SimulatedFiles};
use std::alloc::{AllocError, Global};
use std::cell::RefCell;
use std::io;

/// One run.
#[derive(Clone, Copy, Debug, PartialEq, Eq)]
pub struct Run {
    /// Its seed.
    pub seed: u64,
    /// How many steps it has before its end.
    pub steps: u64,
    /// How many machines there are.
    pub sizes: Sizes,
    /// What may go wrong.
    pub troubles: Troubles,
}

/// What came of a run.
#[derive(Drop)]
pub struct Ended {
    /// How many steps there were.
    pub steps: u64,
    /// What was done.
    pub counts: Counts,
    /// What is broken, if anything is.
    pub broken: Option<Broken>,
    /// The last events.
    pub events: Vec<Event>,
}

/// The program: returns the exit status.
pub fn simulate(rt: &HostRuntime) -> u8 {
    let words = match program_words(rt) {
        Ok(words) => words,
        Err(status) => return status,
    };
    let plan = match plan_of(rt.alloc(), &words) {
        Ok(plan) => plan,
        Err(bad) => return bad.report(rt),
    };
    match run_all(rt, &plan) {
        Ok(true) => 0,
        Ok(false) => 1,
        Err(_) => 4,
    }
}

/// Runs one seed after the other, until something is broken. Returns whether nothing was.
///
/// # Errors
///
/// When memory was refused, or what was to be printed could not be written.
pub fn run_all(rt: &HostRuntime, plan: &Plan) -> io::Result<bool> {
    for number in 0..plan.runs {
        let run = Run {
            seed: plan.seed.wrapping_add(number),
            steps: plan.steps,
            sizes: plan.sizes,
            troubles: plan.troubles,
        };
        let ended = perform(rt.alloc(), &run)?;
        say_run(rt, &run, &ended)?;
        if plan.events {
            say_events(rt, &ended)?;
        }
        if ended.broken.is_some() {
            say_broken(rt, &run, &ended)?;
            return Ok(false);
        }
    }
    Ok(true)
}

/// Makes a run.
///
/// # Errors
///
/// `AllocError` when memory was refused.
pub fn perform(alloc: Global, run: &Run) -> Result<Ended, AllocError> {
    let mut dice = Dice::new(run.seed);
    let machines = run.sizes.machines();
    let disk = RefCell::new(SimulatedDisk::new(alloc, dice.number(), machines)?);
    let mut files = Vec::new(alloc);
    for machine in 0..machines {
        files.push(SimulatedFiles::new(&disk, alloc, machine))?;
    }
    perform_on(alloc, run, dice, &disk, &files)
}

// Makes a run on disks.
fn perform_on(
    alloc: Global,
    asked: &Run,
    dice: Dice,
    disk: &RefCell<SimulatedDisk>,
    files: &[SimulatedFiles<'_>],
) -> Result<Ended, AllocError> {
    let mut world = match begin(alloc, disk, files, asked.sizes, asked.troubles, dice) {
        Ok(world) => world,
        Err(broken) => return Ok(unbegun(alloc, broken)),
    };
    let broken = run(&mut world, asked.steps).err();
    let mut events = Vec::new(alloc);
    for event in world.events().iter() {
        events.push(*event)?;
    }
    Ok(Ended {
        steps: world.step(),
        counts: world.counts(),
        broken,
        events,
    })
}

// A run that did not begin.
fn unbegun(alloc: Global, broken: Broken) -> Ended {
    Ended {
        steps: 0,
        counts: Counts::default(),
        broken: Some(broken),
        events: Vec::new(alloc),
    }
}

// Prints a line of a run.
fn say_run(rt: &HostRuntime, run: &Run, ended: &Ended) -> io::Result<()> {
    let Run { seed, .. } = run;
    let steps = ended.steps;
    let Counts {
        retrieved,
        published,
        rounds,
        pushed,
        left,
        started,
        power_cuts,
        compared,
    } = ended.counts;
    println!(rt;
        "seed {seed}: {steps} steps, {retrieved} retrieved, {published} published, {rounds} \
            pushes, {pushed} pushed to, {left} left, {started} started, {power_cuts} power cuts, \
            {compared} compared"
    )
}

// Prints the last events of a run.
fn say_events(rt: &HostRuntime, ended: &Ended) -> io::Result<()> {
    for event in ended.events.iter() {
        let Event { step, what } = event;
        println!(rt; "{step}: {what:?}")?;
    }
    Ok(())
}

// Prints what is broken, the last events, and the shortest run that finds it.
fn say_broken(rt: &HostRuntime, run: &Run, ended: &Ended) -> io::Result<()> {
    let Some(broken) = ended.broken else {
        return Ok(());
    };
    println!(rt; "broken: {broken}")?;
    let (shorter, last) = shortest(rt.alloc(), run, ended)?;
    let Sizes {
        servers,
        clients,
        large,
    } = shorter.sizes;
    let large = if large { " --large" } else { "" };
    let Run {
        seed,
        steps,
        troubles,
        ..
    } = shorter;
    say_events(rt, &last)?;
    println!(rt;
        "shortest: --seed {seed} --steps {steps} --servers {servers} --clients {clients}{large}, \
            {troubles:?}"
    )
}
