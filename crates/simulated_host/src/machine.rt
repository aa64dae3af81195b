//! The disk of one machine.

mod bytes;
mod opens;
mod paths;

use crate::dice::Dice;
use crate::faults::{Faults, Odds, is_failing};
use crate::names::{Names, plain};
use crate::nodes::{Node, Nodes};
use std::alloc::{AllocError, Global};
use std::io;
use std::io::ErrorKind;

/// The disk of one machine.
#[derive(Drop)]
pub(crate) struct Machine {
    alloc: Global,
    dice: Dice,
    nodes: Nodes,
    names: Names,
    faults: Faults,
    // How many more calls may change something before the power is cut.
    countdown: Option<u32>,
    is_cut: bool,
    // How often the process ended. What an earlier one had open is dead.
    epoch: u64,
    calls: u64,
    next_id: u64,
}

/// What a process has open.
#[derive(Clone, Copy)]
pub(crate) struct Handle {
    node: usize,
    epoch: u64,
    id: u64,
}

/// The error of what failed for no particular reason.
pub(crate) fn failed() -> io::Error {
    io::Error::from(ErrorKind::Other)
}

impl Machine {
    /// An empty disk.
    pub(crate) fn new(alloc: Global, seed: u64) -> Result<Machine, AllocError> {
        let mut machine = Machine {
            alloc,
            dice: Dice::new(seed),
            nodes: Nodes::new(alloc),
            names: Names::new(alloc),
            faults: Faults::none(),
            countdown: None,
            is_cut: false,
            epoch: 0,
            calls: 0,
            next_id: 0,
        };
        machine.add_folder(".")?;
        machine.add_folder("/")?;
        Ok(machine)
    }

    /// Makes a folder that the device has at once.
    pub(crate) fn add_folder(&mut self, path: &str) -> Result<(), AllocError> {
        let path = plain(path);
        if self.names.get(path).is_some() {
            return Ok(());
        }
        let folder = String::from_str(self.alloc, path)?;
        let node = Node::new(self.alloc, Some(folder));
        let at = self.nodes.add(node, &self.names)?;
        self.names.make_durable(path, at)
    }

    pub(crate) fn set_faults(&mut self, faults: Faults) {
        self.faults = faults;
    }

    pub(crate) fn cut_after(&mut self, calls: Option<u32>) {
        self.countdown = calls;
    }

    pub(crate) fn is_cut(&self) -> bool {
        self.is_cut
    }

    pub(crate) fn calls(&self) -> u64 {
        self.calls
    }

    pub(crate) fn fill(&mut self, bytes: &mut [u8]) {
        self.dice.fill(bytes);
    }

    /// The power goes, and comes back.
    pub(crate) fn cut_power(&mut self) -> Result<(), AllocError> {
        self.end_process();
        self.is_cut = false;
        self.countdown = None;
        self.names.crash(&mut self.dice)?;
        self.nodes.collect(&self.names)?;
        self.nodes.crash(&mut self.dice)
    }

    /// The process ends, and the machine goes on.
    pub(crate) fn end_process(&mut self) {
        self.epoch = self.epoch.wrapping_add(1);
        self.nodes.close_all();
    }

    // Counts a call, which fails if the power is off.
    fn begin(&mut self) -> io::Result<()> {
        self.calls = self.calls.wrapping_add(1);
        if self.is_cut {
            return Err(failed());
        }
        Ok(())
    }

    // As `begin`, for a call on something open, which fails if that is dead.
    fn begin_on(&mut self, handle: Handle) -> io::Result<()> {
        self.begin()?;
        if handle.epoch != self.epoch {
            return Err(failed());
        }
        Ok(())
    }

    // Counts a call that changes something. The power may go before it does.
    fn spend(&mut self) -> io::Result<()> {
        match self.countdown {
            None => Ok(()),
            Some(0) => {
                self.is_cut = true;
                Err(failed())
            }
            Some(left) => {
                self.countdown = Some(left.saturating_sub(1));
                Ok(())
            }
        }
    }

    // Fails, if something of these odds does this time.
    fn risk(&mut self, odds: Odds) -> io::Result<()> {
        if is_failing(&mut self.dice, odds) {
            return Err(failed());
        }
        Ok(())
    }

    // The node of something open.
    fn node(&mut self, handle: Handle) -> io::Result<&mut Node> {
        match self.nodes.get_mut(handle.node) {
            Some(node) => Ok(node),
            None => Err(failed()),
        }
    }
}
