//! The disks of several machines.

use crate::dice::Dice;
use crate::faults::Faults;
use crate::machine::{Machine, failed};
use std::alloc::{AllocError, Global};
use std::io;

/// The disks of several machines, which are numbered from 0 on. What is asked of a machine that is
/// not there does nothing.
#[derive(Drop)]
pub struct SimulatedDisk {
    machines: Vec<Machine>,
}

impl SimulatedDisk {
    /// The empty disks of so many machines. All that is random is decided by the seed.
    ///
    /// # Errors
    ///
    /// `AllocError` if memory is refused.
    pub fn new(alloc: Global, seed: u64, machines: usize) -> Result<SimulatedDisk, AllocError> {
        let mut dice = Dice::new(seed);
        let mut made = Vec::new(alloc);
        for _ in 0..machines {
            made.push(Machine::new(alloc, dice.number())?)?;
        }
        Ok(SimulatedDisk { machines: made })
    }

    /// Makes a folder that no crash takes away.
    ///
    /// # Errors
    ///
    /// `AllocError` if memory is refused.
    pub fn make_folder(&mut self, machine: usize, path: &str) -> Result<(), AllocError> {
        match self.machines.get_mut(machine) {
            Some(machine) => machine.add_folder(path),
            None => Ok(()),
        }
    }

    /// What fails on a machine from now on.
    pub fn set_faults(&mut self, machine: usize, faults: Faults) {
        if let Some(machine) = self.machines.get_mut(machine) {
            machine.set_faults(faults);
        }
    }

    /// Cuts the power after so many more calls that change or sync something, in the midst of the
    /// next one. That one and all later calls fail, until [`cut_power`](SimulatedDisk::cut_power)
    /// turns it on again.
    pub fn cut_after(&mut self, machine: usize, calls: Option<u32>) {
        if let Some(machine) = self.machines.get_mut(machine) {
            machine.cut_after(calls);
        }
    }

    /// Whether a machine's power is off.
    pub fn is_cut(&self, machine: usize) -> bool {
        match self.machines.get(machine) {
            Some(machine) => machine.is_cut(),
            None => false,
        }
    }

    /// Cuts a machine's power, and turns it on again. Of what was not synced, some is lost, torn or
    /// kept. What was open is dead.
    ///
    /// # Errors
    ///
    /// `AllocError` if memory is refused; the disk is of no use then.
    pub fn cut_power(&mut self, machine: usize) -> Result<(), AllocError> {
        match self.machines.get_mut(machine) {
            Some(machine) => machine.cut_power(),
            None => Ok(()),
        }
    }

    /// Ends the process on a machine, which goes on itself: nothing is lost. What was open is dead.
    pub fn end_process(&mut self, machine: usize) {
        if let Some(machine) = self.machines.get_mut(machine) {
            machine.end_process();
        }
    }

    /// How many calls a machine has got.
    pub fn calls(&self, machine: usize) -> u64 {
        match self.machines.get(machine) {
            Some(machine) => machine.calls(),
            None => 0,
        }
    }

    /// A machine's disk.
    pub(crate) fn machine(&mut self, machine: usize) -> io::Result<&mut Machine> {
        match self.machines.get_mut(machine) {
            Some(machine) => Ok(machine),
            None => Err(failed()),
        }
    }
}
