//! A client's process, which runs again and again over one folder.

use crate::broken::Broken;
use crate::records::Truth;
use client_state::Folder;
use pir_schemes::Scheme;
use simulated_client::{ClientRun, Retrieved, RunEnd, RunFault, RunStep};
use simulated_host::{Dice, End, Moved, Network, SimulatedFiles};
use std::alloc::Global;

/// What a step of a client came to.
#[derive(Clone, Copy, Debug, PartialEq, Eq)]
pub enum ClientStep {
    /// Nothing could be done.
    Nothing,
    /// Bytes came or went.
    Moved,
    /// A record was retrieved, of a version.
    Retrieved(u32, u64),
    /// The run has ended, so.
    Ended(&'static str),
}

// A run that goes on.
#[derive(Drop)]
struct Running<'a> {
    run: ClientRun<'a, SimulatedFiles<'a>>,
    end: End,
    server: usize,
    out: Vec<u8>,
    sent: usize,
    // The number of the next query before what is to be sent now.
    number: u64,
    idle: u32,
}

/// A client's process, and its machine.
#[derive(Drop)]
pub struct Client<'a> {
    number: usize,
    files: &'a SimulatedFiles<'a>,
    folder: &'a str,
    running: Option<Running<'a>>,
    /// How many records were retrieved in all.
    pub retrieved: u64,
    // Those of the last run.
    pub in_run: usize,
}

/// What a run is to do.
#[derive(Drop)]
pub struct Asked {
    /// The seed, which no other run has.
    pub seed: [u8; 32],
    /// The scheme.
    pub scheme: Scheme,
    /// Whether the store is a wide one.
    pub wide: bool,
    /// Which records are wanted.
    pub wanted: Vec<u32>,
}

impl<'a> Client<'a> {
    /// A client of a number, with a folder.
    pub fn new(number: usize, files: &'a SimulatedFiles<'a>, folder: &'a str) -> Client<'a> {
        Client {
            number,
            files,
            folder,
            running: None,
            retrieved: 0,
            in_run: 0,
        }
    }

    /// What it sees of its disk.
    pub fn files(&self) -> &'a SimulatedFiles<'a> {
        self.files
    }

    /// Whether a run goes on.
    pub fn runs(&self) -> bool {
        self.running.is_some()
    }

    /// The server of the run that goes on, and the version that it reported last.
    pub fn seen(&self) -> Option<(usize, u64)> {
        let running = self.running.as_ref()?;
        Some((running.server, running.run.seen()?))
    }

    /// Begins a run over a connection. Returns whether the folder can be used.
    ///
    /// # Errors
    ///
    /// `Memory`.
    pub fn begin(
        &mut self,
        alloc: Global,
        end: End,
        server: usize,
        asked: Asked,
    ) -> Result<bool, Broken> {
        let Ok(folder) = Folder::open(self.files, self.folder) else {
            return Ok(false);
        };
        let Asked {
            seed,
            scheme,
            wide,
            wanted,
        } = asked;
        let Ok((run, out)) = ClientRun::begin(alloc, folder, seed, scheme, wide, wanted) else {
            return Err(Broken::Memory);
        };
        self.in_run = 0;
        self.running = Some(Running {
            run,
            end,
            server,
            out,
            sent: 0,
            number: 0,
            idle: 0,
        });
        Ok(true)
    }

    /// Whether there is something to do for the run that goes on.
    pub fn is_ready(&self, network: &Network) -> bool {
        match &self.running {
            Some(running) => running.sent < running.out.len() || network.is_ready(running.end),
            None => false,
        }
    }

    /// Ends the run, in whatever way. Gives its end of the connection.
    pub fn stop(&mut self) -> Option<End> {
        let running = self.running.take()?;
        Some(running.end)
    }

    /// Sends or takes what there is.
    ///
    /// # Errors
    ///
    /// What is broken.
    pub fn step(
        &mut self,
        truth: &Truth,
        network: &mut Network,
        dice: &mut Dice,
        buffer: &mut [u8],
    ) -> Result<ClientStep, Broken> {
        let Some(mut running) = self.running.take() else {
            return Ok(ClientStep::Nothing);
        };
        match running.go(self.number, truth, network, dice, buffer) {
            Ok(went) => Ok(self.after(running, went, network)),
            Err(broken) => Err(broken),
        }
    }

    // Goes on with a run after a step, unless it has ended. What came of the step: a record, if one
    // was retrieved.
    fn after(&mut self, running: Running<'a>, went: Went, network: &mut Network) -> ClientStep {
        if let ClientStep::Ended(_) = went.moved {
            network.close(running.end);
        } else {
            self.running = Some(running);
        }
        let Some((index, version)) = went.retrieved else {
            return went.moved;
        };
        self.retrieved = self.retrieved.saturating_add(1);
        self.in_run = self.in_run.saturating_add(1);
        ClientStep::Retrieved(index, version)
    }
}

// What a step of a run came to.
#[derive(Clone, Copy)]
struct Went {
    moved: ClientStep,
    // The number and the version of a record that was retrieved.
    retrieved: Option<(u32, u64)>,
}

impl Running<'_> {
    // Sends or takes what there is, and judges the record that was retrieved, if one was.
    fn go(
        &mut self,
        client: usize,
        truth: &Truth,
        network: &mut Network,
        dice: &mut Dice,
        buffer: &mut [u8],
    ) -> Result<Went, Broken> {
        let moved = if self.sent < self.out.len() {
            self.send(network, dice)?
        } else {
            self.receive(client, network, dice, buffer)?
        };
        let retrieved = match self.run.take_retrieved() {
            Some(retrieved) => Some(judged(client, &retrieved, truth)?),
            None if self.run.counts.unreadable > 0 => return Err(Broken::Unreadable { client }),
            None => None,
        };
        Ok(Went { moved, retrieved })
    }

    // Sends some of what is to be sent.
    fn send(&mut self, network: &mut Network, dice: &mut Dice) -> Result<ClientStep, Broken> {
        let Some(left) = self.out.get(self.sent..) else {
            return Ok(ClientStep::Nothing);
        };
        match network.write(self.end, left, dice)? {
            Moved::Bytes(count) => {
                self.idle = 0;
                self.sent = self.sent.saturating_add(count);
                Ok(ClientStep::Moved)
            }
            Moved::Later => Ok(self.waits()),
            Moved::Broken => Ok(ClientStep::Ended("Broken")),
        }
    }

    // Takes what came.
    fn receive(
        &mut self,
        client: usize,
        network: &mut Network,
        dice: &mut Dice,
        buffer: &mut [u8],
    ) -> Result<ClientStep, Broken> {
        match network.read(self.end, buffer, dice) {
            Moved::Bytes(0) | Moved::Broken => Ok(ClientStep::Ended("Broken")),
            Moved::Later => Ok(self.waits()),
            Moved::Bytes(count) => {
                self.idle = 0;
                let before = self.run.next_number();
                let step = self.run.feed(&buffer[..count.min(buffer.len())]);
                self.take(client, before, step)
            }
        }
    }

    // Does what comes next.
    fn take(&mut self, client: usize, before: u64, step: RunStep) -> Result<ClientStep, Broken> {
        match step {
            RunStep::Waits => Ok(ClientStep::Moved),
            RunStep::Sends(bytes) => {
                let is_query = matches!(bytes.get(4), Some(5));
                if is_query && self.run.next_number() != before.saturating_add(1) {
                    return Err(Broken::NumberTwice { client });
                }
                self.out = bytes;
                self.sent = 0;
                Ok(ClientStep::Moved)
            }
            RunStep::Ends(end) => ended(client, end),
        }
    }

    // Nothing can be done yet.
    fn waits(&mut self) -> ClientStep {
        self.idle = self.idle.saturating_add(1);
        if self.idle > PATIENCE {
            return ClientStep::Ended("Silent");
        }
        ClientStep::Nothing
    }
}

// The number and the version of a record that was retrieved, if it is the one that was published.
fn judged(client: usize, retrieved: &Retrieved, truth: &Truth) -> Result<(u32, u64), Broken> {
    let found = match truth.at(retrieved.version) {
        Some(records) => records.get(retrieved.index as usize),
        None => None,
    };
    match found {
        Some(bytes) if bytes == retrieved.bytes.as_slice() => {
            Ok((retrieved.index, retrieved.version))
        }
        _ => Err(Broken::WrongRecord {
            client,
            index: retrieved.index,
            version: retrieved.version,
        }),
    }
}

/// How many steps with nothing to do a run waits.
const PATIENCE: u32 = 1_000;

// How a run ended.
fn ended(client: usize, end: RunEnd) -> Result<ClientStep, Broken> {
    match end {
        RunEnd::Over => Ok(ClientStep::Ended("Over")),
        RunEnd::Older { .. } => Ok(ClientStep::Ended("Older")),
        RunEnd::Stale(_) => Ok(ClientStep::Ended("Stale")),
        RunEnd::Refused(12) => Ok(ClientStep::Ended("Refused")),
        RunEnd::Refused(_) => Err(Broken::ClientFault {
            client,
            fault: "Refused",
        }),
        RunEnd::Failed(fault) => Err(Broken::ClientFault {
            client,
            fault: name_of(fault),
        }),
    }
}

// The name of a fault.
fn name_of(fault: RunFault) -> &'static str {
    match fault {
        RunFault::Call(call) => call.name(),
        RunFault::Client(fault) => fault.name(),
        RunFault::BadReply => "BadReply",
        RunFault::Over => "Over",
        RunFault::Memory => "Memory",
    }
}
