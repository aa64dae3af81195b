//! What goes wrong.

use super::{FILE, World};
use crate::events::What;
use deployment_model::{Broken, records_of};
use publisher_files::settled_folder;
use server_files::{OwnFile, RecordsOf, write_anew};
use simulated_host::Faults;

/// After how many calls a machine's power is cut at most.
const MOST_CALLS: usize = 40;

impl World<'_> {
    /// Something goes wrong, chosen at random, if it may.
    pub(super) fn trouble(&mut self) -> Result<(), Broken> {
        let machine = self.some_machine();
        let kind = self.dice.below(24);
        if self.is_calm || !self.dice.one_in(self.setting.rest) {
            return Ok(());
        }
        match kind {
            0..=2 if self.troubles.power => self.cut_later(machine),
            3 if self.troubles.power => self.cut_power(machine),
            4 if self.troubles.kills => self.end_process(machine),
            5..=8 if self.troubles.breaks => {
                self.network.break_one(&mut self.dice);
                Ok(self.note(What::ConnectionBroken)?)
            }
            9 | 10 if self.troubles.partitions => self.turn_reachable(),
            11..=13 if self.troubles.disks => self.fail_disk(machine),
            14 | 15 => self.mend_disks(),
            16..=18 => self.restore_one(),
            _ => Ok(()),
        }
    }

    // Any machine, or one of those with a log.
    fn some_machine(&mut self) -> usize {
        if self.dice.one_in(3) {
            self.dice.below(self.sizes.machines())
        } else {
            self.dice.below(self.sizes.server(self.sizes.servers))
        }
    }

    /// Cuts a machine's power after some more calls of its disk, mostly after a few.
    pub(super) fn cut_later(&mut self, machine: usize) -> Result<(), Broken> {
        let most = self.dice.below(MOST_CALLS);
        let calls = u32::try_from(self.dice.below(most.saturating_add(1))).unwrap_or(0);
        if let Ok(mut disk) = self.disk.try_borrow_mut() {
            disk.cut_after(machine, Some(calls));
        }
        Ok(self.note(What::WillCut(machine, calls))?)
    }

    /// Cuts a machine's power if its disk has found it cut.
    pub(super) fn look_at_power(&mut self, machine: usize) -> Result<(), Broken> {
        let is_cut = match self.disk.try_borrow() {
            Ok(disk) => disk.is_cut(machine),
            Err(_) => false,
        };
        if is_cut {
            self.cut_power(machine)
        } else {
            Ok(())
        }
    }

    /// Cuts a machine's power, and turns it on again.
    pub(super) fn cut_power(&mut self, machine: usize) -> Result<(), Broken> {
        self.counts.power_cuts = self.counts.power_cuts.saturating_add(1);
        self.note(What::PowerCut(machine))?;
        self.stop_processes(machine);
        if let Ok(mut disk) = self.disk.try_borrow_mut() {
            disk.cut_power(machine)?;
            if machine == 0 {
                disk.set_faults(machine, Faults::none());
            }
        }
        if machine == 0 {
            self.publisher.settle(&mut self.truth)?;
        }
        Ok(())
    }

    /// Ends the process on a machine.
    pub(super) fn end_process(&mut self, machine: usize) -> Result<(), Broken> {
        self.note(What::Killed(machine))?;
        self.stop_processes(machine);
        if let Ok(mut disk) = self.disk.try_borrow_mut() {
            disk.end_process(machine);
        }
        Ok(())
    }

    // Ends what runs on a machine, and its connections.
    fn stop_processes(&mut self, machine: usize) {
        if let Some(server) = machine.checked_sub(1) {
            if let Some(node) = self.servers.get_mut(server) {
                node.stop();
            }
        }
        for (client, node) in self.clients.iter_mut().enumerate() {
            if self.sizes.client(client) == machine {
                node.stop();
            }
        }
        self.network.break_all_of(machine);
    }

    // A server can't be reached for a while, or can be again.
    fn turn_reachable(&mut self) -> Result<(), Broken> {
        let server = self.dice.below(self.servers.len());
        let machine = self.sizes.server(server);
        if let Some(unreachable) = self.unreachable.get_mut(machine) {
            *unreachable = !*unreachable;
            let reachable = !*unreachable;
            self.note(What::Reachable(server, reachable))?;
        }
        Ok(())
    }

    // A machine's disk begins to fail now and then.
    fn fail_disk(&mut self, machine: usize) -> Result<(), Broken> {
        let faults = Faults {
            full: self.dice.one_in(4),
            opens_fail: self.odds(),
            reads_fail: self.odds(),
            writes_fail: self.odds(),
            syncs_fail: self.odds(),
            names_fail: self.odds(),
        };
        if let Ok(mut disk) = self.disk.try_borrow_mut() {
            disk.set_faults(machine, faults);
        }
        Ok(self.note(What::DiskFaults(machine, true))?)
    }

    // How often something fails: never, or one time in some.
    fn odds(&mut self) -> usize {
        if self.dice.one_in(2) {
            0
        } else {
            self.dice.below(20).saturating_add(2)
        }
    }

    // All disks are well again.
    fn mend_disks(&mut self) -> Result<(), Broken> {
        if let Ok(mut disk) = self.disk.try_borrow_mut() {
            for machine in 0..self.sizes.machines() {
                disk.set_faults(machine, Faults::none());
            }
        }
        Ok(())
    }

    // A server that lacks more than the log has gets a copy of the publisher's version.
    fn restore_one(&mut self) -> Result<(), Broken> {
        for server in 0..self.servers.len() {
            if matches!(self.behind.get(server), Some(true)) {
                return self.restore(server);
            }
        }
        Ok(())
    }

    /// Stops a server, and gives it a copy of the publisher's version.
    pub(super) fn restore(&mut self, server: usize) -> Result<(), Broken> {
        let Ok(version) = settled_folder(self.publisher.files(), self.publisher.records_name())
        else {
            return Ok(());
        };
        self.publisher.push(&version, &mut self.truth)?;
        let records = records_of(self.alloc, &version)?;
        let bytes = self.setting.bytes_of(self.alloc, &records)?;
        let header = version.snapshot.header();
        let machine = self.sizes.server(server);
        self.end_process(machine)?;
        let Some(node) = self.servers.get(server) else {
            return Ok(());
        };
        let content = RecordsOf {
            header: &header,
            bytes: &bytes,
        };
        let files = node.files();
        if let Ok(mut file) = OwnFile::to_write(files, FILE) {
            if write_anew(files, &mut file, &content).is_ok() {
                if let Some(behind) = self.behind.get_mut(server) {
                    *behind = false;
                }
            }
        }
        self.note(What::Restored(server))?;
        self.look_at_power(machine)
    }
}
