//! A server's machine.

use crate::process::{Around, Process, Turned};
use crate::serving::Serving;
use command_words::Failure;
use server_files::{OwnFile, open_pair};
use session_core::{Lanes, Store};
use simulated_host::{Network, SimulatedFiles};
use std::alloc::Global;
use version_store::Unwatched;

/// What a process allows.
#[derive(Clone, Copy, Debug, PartialEq, Eq)]
pub struct Limits {
    /// How many connections there are at once.
    pub most: usize,
    /// How many milliseconds a connection may make no progress.
    pub idle: u64,
    /// How many bytes may be held for all connections together.
    pub memory: usize,
    /// A log of more bytes is made shorter before the file is served.
    pub log: usize,
}

/// A server's machine, and its process, if one runs.
#[derive(Drop)]
pub struct Server<'a> {
    files: &'a SimulatedFiles<'a>,
    name: &'a str,
    process: Option<Process<'a>>,
    /// The latest version that it was seen to serve.
    pub seen: u64,
}

impl<'a> Server<'a> {
    /// A machine with no process, that has a file of this name.
    pub fn new(files: &'a SimulatedFiles<'a>, name: &'a str) -> Server<'a> {
        Server {
            files,
            name,
            process: None,
            seen: 0,
        }
    }

    /// What it sees of its disk.
    pub fn files(&self) -> &'a SimulatedFiles<'a> {
        self.files
    }

    /// The name of its file.
    pub fn name(&self) -> &'a str {
        self.name
    }

    /// Whether a process runs.
    pub fn runs(&self) -> bool {
        self.process.is_some()
    }

    /// The store that is served, if a process runs.
    pub fn store(&self) -> Option<&Store<Lanes>> {
        match &self.process {
            Some(process) => process.store(),
            None => None,
        }
    }

    /// Whether there is something to do for a process that runs.
    pub fn is_ready(&self, network: &Network) -> bool {
        match &self.process {
            Some(process) => {
                process.is_ready(network) || network.has_waiting(self.files.machine())
            }
            None => false,
        }
    }

    /// How many bytes are held for all connections.
    pub fn held(&self) -> usize {
        match &self.process {
            Some(process) => process.held(),
            None => 0,
        }
    }

    /// Starts a process.
    ///
    /// # Errors
    ///
    /// Those of `run`, before it listens.
    pub fn start(&mut self, alloc: Global, limits: Limits) -> Result<(), Failure> {
        let mut file = OwnFile::to_read(self.files, self.name)?;
        let pair = open_pair(self.files, &mut file, limits.log, None)?;
        let (store, saver) = pair.store(alloc, &mut Unwatched)?;
        let serving = Serving::new(alloc, store, saver);
        self.process = Some(Process::new(alloc, file, serving));
        Ok(())
    }

    /// Ends the process, in whatever way.
    pub fn stop(&mut self) {
        self.process = None;
    }

    /// Makes a step of the process.
    pub fn step(&mut self, around: &mut Around<'_, 'a>) -> Turned {
        let Some(process) = &mut self.process else {
            return Turned::Nothing;
        };
        let turned = process.step(around);
        if let Turned::Ended = turned {
            self.process = None;
        }
        turned
    }
}
