//! Steps of servers.

use super::{CLIENT, FILE, PUBLISHER, RECORDS, SERVER, Sizes, World};
use crate::events::What;
use deployment_model::{
    Broken, Records, RunSetting, check_hints, check_records, is_damage, name_of,
};
use server_files::{OwnFile, RecordsOf, write_anew};
use simulated_host::{SimulatedDisk, SimulatedFiles};
use simulated_server::{Around, Server, Turned};
use std::alloc::{AllocError, Global};
use std::cell::RefCell;

/// All servers, with no process.
///
/// # Errors
///
/// `AllocError` when memory was refused.
pub fn all<'a>(
    alloc: Global,
    files: &'a [SimulatedFiles<'a>],
    sizes: &Sizes,
) -> Result<Vec<Server<'a>>, AllocError> {
    let mut servers = Vec::new(alloc);
    for server in 0..sizes.servers {
        if let Some(own) = files.get(sizes.server(server)) {
            servers.push(Server::new(own, FILE))?;
        }
    }
    Ok(servers)
}

/// Makes the folders of all machines, and the files that they begin with.
///
/// # Errors
///
/// `Memory`.
pub fn make_files<'a>(
    alloc: Global,
    disk: &RefCell<SimulatedDisk>,
    files: &'a [SimulatedFiles<'a>],
    sizes: &Sizes,
    setting: &RunSetting,
    first: &Records,
) -> Result<(), Broken> {
    make_folders(disk, sizes)?;
    let bytes = setting.bytes_of(alloc, first)?;
    for (machine, own) in files.iter().enumerate() {
        let name = if machine == 0 { RECORDS } else { FILE };
        if machine <= sizes.servers && !write_file(own, name, setting, &bytes) {
            return Err(Broken::Memory);
        }
    }
    Ok(())
}

// Makes the folders of all machines.
fn make_folders(disk: &RefCell<SimulatedDisk>, sizes: &Sizes) -> Result<(), Broken> {
    let Ok(mut disk) = disk.try_borrow_mut() else {
        return Err(Broken::Memory);
    };
    for machine in 0..sizes.machines() {
        let name = if machine == 0 {
            PUBLISHER
        } else if machine <= sizes.servers {
            SERVER
        } else {
            CLIENT
        };
        disk.make_folder(machine, name)?;
    }
    Ok(())
}

// Writes version 1. Returns whether that could be done.
fn write_file(files: &SimulatedFiles<'_>, name: &str, setting: &RunSetting, bytes: &[u8]) -> bool {
    let Ok(mut file) = OwnFile::to_write(files, name) else {
        return false;
    };
    let content = RecordsOf {
        header: &setting.header,
        bytes,
    };
    write_anew(files, &mut file, &content).is_ok()
}

impl<'a> World<'a> {
    /// A step of a server for which there is something to do, chosen at random; now and then of
    /// any.
    pub(super) fn act_server(&mut self) -> Result<(), Broken> {
        let start = self.dice.below(self.servers.len());
        let server = if self.dice.one_in(8) {
            start
        } else {
            self.ready_server(start)
        };
        let Some(node) = self.servers.get_mut(server) else {
            return Ok(());
        };
        if !node.runs() {
            return if self.is_calm || self.dice.one_in(20) {
                self.start(server)
            } else {
                Ok(())
            };
        }
        let mut around = Around {
            files: node.files(),
            network: &mut self.network,
            dice: &mut self.dice,
            now: self.now,
            limits: self.setting.limits,
            alloc: self.alloc,
            buffer: &mut self.buffer,
        };
        let turned = node.step(&mut around);
        if !matches!(turned, Turned::Nothing | Turned::Served) {
            self.note(What::Server(server, turned))?;
        }
        self.after_turn(server, turned)?;
        let machine = self.sizes.server(server);
        self.look_at_power(machine)
    }

    // The first server from a number on for which there is something to do, or the first of all;
    // the one given if there is none.
    fn ready_server(&self, start: usize) -> usize {
        let count = self.servers.len();
        for server in (start..count).chain(0..start) {
            if matches!(self.servers.get(server), Some(node) if node.is_ready(&self.network)) {
                return server;
            }
        }
        start
    }

    // Judges what a turn came to.
    fn after_turn(&mut self, server: usize, turned: Turned) -> Result<(), Broken> {
        match turned {
            Turned::Published(_) => self.check_store(server, 6)?,
            Turned::Ended => {
                let machine = self.sizes.server(server);
                self.end_process(machine)?;
            }
            _ => {}
        }
        let held = match self.servers.get(server) {
            Some(node) => node.held(),
            None => 0,
        };
        if held > self.setting.limits.memory {
            return Err(Broken::Held { server, held });
        }
        Ok(())
    }

    /// Starts a server.
    pub(super) fn start(&mut self, server: usize) -> Result<(), Broken> {
        let Some(node) = self.servers.get_mut(server) else {
            return Ok(());
        };
        match node.start(self.alloc, self.setting.limits) {
            Ok(()) => self.started(server)?,
            Err(failure) => {
                let fault = name_of(failure);
                if is_damage(fault) {
                    return Err(Broken::Start { server, fault });
                }
                self.note(What::NotStarted(server, fault))?;
            }
        }
        let machine = self.sizes.server(server);
        self.look_at_power(machine)
    }

    // Judges what a server has that has just begun.
    fn started(&mut self, server: usize) -> Result<(), Broken> {
        let (has, seen) = match self.servers.get(server) {
            Some(node) => match node.store() {
                Some(store) => (store.version(), node.seen),
                None => return Ok(()),
            },
            None => return Ok(()),
        };
        self.counts.started = self.counts.started.saturating_add(1);
        self.note(What::Started(server, has))?;
        if has < seen {
            return Err(Broken::Lost { server, has, seen });
        }
        self.check_store(server, 2)
    }

    /// Judges a server's store: its records, and one time in so many its hints, too.
    pub(super) fn check_store(&mut self, server: usize, odds: usize) -> Result<(), Broken> {
        let Some(node) = self.servers.get(server) else {
            return Ok(());
        };
        let Some(store) = node.store() else {
            return Ok(());
        };
        check_records(server, store, &self.truth, &mut self.room)?;
        if self.dice.one_in(odds) {
            self.counts.compared = self.counts.compared.saturating_add(1);
            check_hints(self.alloc, server, store, &mut self.truth)?;
        }
        Ok(())
    }

    /// A server reported a version.
    pub(super) fn report(&mut self, server: usize, version: u64) {
        if let Some(node) = self.servers.get_mut(server) {
            node.seen = node.seen.max(version);
        }
    }
}
